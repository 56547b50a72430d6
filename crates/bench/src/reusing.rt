//! Addresses taken and given back while others are live, without tables.

ghost use Rattle.std.specs.Prelude.{◌≤◌};
ghost use Rattle.dmatypes.specs.declared.limits.TheConstants.{MOST_ORDER};
ghost use Rattle.dmatypes.specs.declared.page.TheConstants.{MOST_PAGES};

use crate::timing::Work;
use crate::trouble::{Trouble, check};
use dmatypes::{MOST_ORDER, PAGES_END, PageRange};
use iova::Space;
use std::alloc::Global;
use std::mem;

// The last page of a domain.
const LAST_PAGE: u64 = PAGES_END - 1;

// The most pages of a range where they differ.
const MOST_TAKEN: u64 = 64;

// Pages that are live before every second of them comes free.
const BEFORE_HOLES: u64 = 1000;

// Free ranges of four pages each that begin at no multiple of four.
const ASKEW: u64 = 500;

// Ranges of a burst.
const BURST: u64 = 255;

/// Which range comes free when another was taken.
#[derive(Clone, Copy)]
pub(crate) enum Choice {
    /// The oldest.
    Oldest,
    /// One by a fixed sequence of numbers that look random.
    Random,
}

/// How many pages the ranges have.
#[derive(Clone, Copy)]
pub(crate) enum Sizes {
    /// One each.
    One,
    /// 1 to 64 by turns, at a multiple of the next power of two.
    Mixed,
}

/// Takes a range while a number of others are live, and then frees one of these.
#[derive(Drop)]
pub(crate) struct Reusing {
    space: Space,
    live: Vec<PageRange>,
    choice: Choice,
    sizes: Sizes,
    turn: u64,
    number: u64,
}

impl Reusing {
    pub(crate) fn new(
        alloc: Global,
        live: u32,
        choice: Choice,
        sizes: Sizes,
    ) -> Result<Reusing, Trouble> {
        let mut reusing = Reusing {
            space: Space::new(alloc, LAST_PAGE)?,
            live: Vec::new(alloc),
            choice,
            sizes,
            turn: 0,
            number: 1,
        };
        for _ in 0..live {
            let range = reusing.taken()?;
            check(reusing.live.push(range).is_ok())?;
        }
        Ok(reusing)
    }

    // The next range.
    fn taken(&mut self) -> Result<PageRange, Trouble> {
        self.turn = self.turn.wrapping_add(1);
        match self.sizes {
            Sizes::One => take(&mut self.space, 1, 0),
            Sizes::Mixed => {
                let pages = self.turn % MOST_TAKEN + 1;
                take(&mut self.space, pages, order_of(pages))
            }
        }
    }

    // The place of the range that comes free next.
    fn place(&mut self) -> Result<usize, Trouble> {
        let number = match self.choice {
            Choice::Oldest => self.turn,
            Choice::Random => {
                self.number = self
                    .number
                    .wrapping_mul(6_364_136_223_846_793_005)
                    .wrapping_add(1_442_695_040_888_963_407);
                self.number >> 33
            }
        };
        let place = number
            .checked_rem(self.live.len() as u64)
            .ok_or(Trouble::Wrong)?;
        Ok(place as usize)
    }
}

impl Work for Reusing {
    fn once(&mut self) -> Result<(), Trouble> {
        let range = self.taken()?;
        let place = self.place()?;
        let old = self.live.get_mut(place).ok_or(Trouble::Wrong)?;
        let old = mem::replace(old, range);
        free(&mut self.space, old)
    }
}

/// Takes the first two pages behind 500 holes of one page, and frees them.
#[derive(Drop)]
pub(crate) struct Holes {
    space: Space,
}

impl Holes {
    pub(crate) fn new(alloc: Global) -> Result<Holes, Trouble> {
        let mut space = Space::new(alloc, LAST_PAGE)?;
        for _ in 0..BEFORE_HOLES {
            let _ = take(&mut space, 1, 0)?;
        }
        for page in 0..BEFORE_HOLES / 2 {
            let hole = PageRange::new(2 * page + 1, 1).ok_or(Trouble::Wrong)?;
            free(&mut space, hole)?;
        }
        Ok(Holes { space })
    }
}

impl Work for Holes {
    fn once(&mut self) -> Result<(), Trouble> {
        let range = take(&mut self.space, 2, 0)?;
        check(range.first() == BEFORE_HOLES + 1)?;
        free(&mut self.space, range)
    }
}

/// Takes a page, and then four at a multiple of four, which lie behind 500 free ranges of four that begin elsewhere, and frees both.
#[derive(Drop)]
pub(crate) struct Askew {
    space: Space,
}

impl Askew {
    pub(crate) fn new(alloc: Global) -> Result<Askew, Trouble> {
        let mut space = Space::new(alloc, LAST_PAGE)?;
        let _ = take(&mut space, 1, 0)?;
        for _ in 0..2 * ASKEW {
            let _ = take(&mut space, 4, 0)?;
        }
        for range in 0..ASKEW {
            let hole = PageRange::new(8 * range + 2, 4).ok_or(Trouble::Wrong)?;
            free(&mut space, hole)?;
        }
        Ok(Askew { space })
    }
}

impl Work for Askew {
    fn once(&mut self) -> Result<(), Trouble> {
        let page = take(&mut self.space, 1, 0)?;
        let range = take(&mut self.space, 4, 2)?;
        check(range.first() == 8 * ASKEW + 4)?;
        free(&mut self.space, range)?;
        free(&mut self.space, page)
    }
}

/// Takes 255 pages, one by one, and then frees them.
#[derive(Drop)]
pub(crate) struct Bursts {
    space: Space,
}

impl Bursts {
    pub(crate) fn new(alloc: Global) -> Result<Bursts, Trouble> {
        Ok(Bursts {
            space: Space::new(alloc, LAST_PAGE)?,
        })
    }
}

impl Work for Bursts {
    fn once(&mut self) -> Result<(), Trouble> {
        for page in 0..BURST {
            let range = take(&mut self.space, 1, 0)?;
            check(range.first() == page + 1)?;
        }
        for page in 0..BURST {
            let range = PageRange::new(page + 1, 1).ok_or(Trouble::Wrong)?;
            free(&mut self.space, range)?;
        }
        Ok(())
    }
}

// The order of the next power of two.
fn order_of(pages: u64) -> u64
    ensures { result ≤ MOST_ORDER }
{
    let bits = u64::BITS.saturating_sub(pages.saturating_sub(1).leading_zeros());
    u64::from(bits).min(MOST_ORDER)
}

// A number of pages at a multiple of 2^`order` pages.
fn take(space: &mut Space, pages: u64, order: u64) -> Result<PageRange, Trouble>
    requires some { 1 ≤ pages }
    requires few { pages ≤ MOST_PAGES }
    requires order { order ≤ MOST_ORDER }
{
    let first = space.take(pages, order)?;
    PageRange::new(first.number(), pages).ok_or(Trouble::Wrong)
}

// A live range comes free.
fn free(space: &mut Space, range: PageRange) -> Result<(), Trouble> {
    space.judge(range)?;
    space.free_live(range);
    Ok(())
}
