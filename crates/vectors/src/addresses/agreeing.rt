//! A space beside a list: the same answers and the same pieces, call by call.

ghost use Rattle.std.specs.Prelude.{◌≤◌, ◌<◌, IfSome};
ghost use Rattle.dmatypes.specs.World.{IsIn};
ghost use Rattle.iova.specs.Pieces.{IsRun, piece_of};

use super::list::List;
use dmatypes::{PAGES_END, Page, PageRange};
use iova::{PageState, Piece, Space, TakeError};
use std::alloc::{AllocError, Global};
use std::test::Fail;

const FREE: [(u64, u64); 2] = [(1, 0xFEDFF), (0xFEF00, 0x100FFF)];

/// Numbers by a fixed sequence.
#[derive(Drop)]
struct Sequence {
    seed: u64,
}

impl Sequence {
    /// A number below a bound.
    fn below(&mut self, bound: u64) -> u64
        requires { 1 ≤ bound }
        ensures { result < bound }
    {
        self.seed ^= self.seed << 13;
        self.seed ^= self.seed >> 7;
        self.seed ^= self.seed << 17;
        (self.seed >> 20) % bound
    }

    /// A floor: mostly among the pages that are taken first, else near the last page, past it, or near the last number.
    fn floor(&mut self) -> u64
        ensures { 1 ≤ result }
    {
        match self.below(8) {
            0 => 0x100F00,
            1 => 0x101000,
            2 => u64::MAX - 1,
            _ => 1 + self.below(4000),
        }
    }
}

/// The range of the retired piece that begins at a page.
fn retired_at(space: &Space, first: u64) -> Option<PageRange>
    ensures { IfSome result (λ range. IsIn (piece_of range PageState.Retired) space.now.pieces) }
{
    let mut pieces = space.pieces();
    while let Some(piece) = pieces.next() {
        if piece.first == first {
            if let PageState::Retired = piece.state {
                if piece.first <= piece.last && piece.last < PAGES_END {
                    return PageRange::new(piece.first, piece.last - piece.first + 1);
                }
            }
        }
    }
    None
}

/// The range of the retired pieces that lie side by side from a page on, up to the one by which there are `enough` pages.
fn retired_run(space: &Space, first: u64, enough: u64) -> Option<PageRange>
    ensures { IfSome result (λ range. IsRun (piece_of range PageState.Retired) space.now.pieces) }
{
    let mut end = first;
    let mut pieces = space.pieces();
    while let Some(piece) = pieces.next() {
        if piece.first == end && end - first < enough {
            if let PageState::Retired = piece.state {
                if piece.first <= piece.last && piece.last < PAGES_END {
                    end = piece.last + 1;
                }
            }
        }
    }
    PageRange::new(first, end - first)
}

/// A space and the list beside it.
#[derive(Drop)]
struct Pair {
    space: Space,
    list: List,
}

impl Pair {
    /// Takes pages, from a floor on if there is one: the first of them.
    fn take(
        &mut self,
        alloc: Global,
        floor: Option<u64>,
        pages: u64,
        order: u64,
    ) -> Result<Option<u64>, Fail>
        requires floor { IfSome floor (λ floor. 1 ≤ floor) }
        requires some { 1 ≤ pages }
        requires few { pages ≤ 4096 }
        requires order { order ≤ 9 }
    {
        let taken = match floor {
            Some(floor) => self.space.take_from(floor, pages, order),
            None => self.space.take(pages, order),
        };
        let listed = self
            .list
            .take_from(alloc, floor.unwrap_or(1), pages, 1 << order)?;
        if taken.map(|page| page.number()) != listed {
            return Err("a take differs".into());
        }
        Ok(listed.ok())
    }

    /// Takes pages and gives them back: the list, which is asked for nothing, stays as it is.
    fn try_take(&mut self, pages: u64) -> Result<(), Fail>
        requires some { 1 ≤ pages }
        requires few { pages ≤ 4096 }
    {
        if let Ok(page) = self.space.take(pages, 0) {
            let range = PageRange::new(page.number(), pages).ok_or("pages")?;
            self.space.undo_take(range);
        }
        Ok(())
    }

    /// Retires pages, if they are live.
    fn retire(&mut self, alloc: Global, range: PageRange) -> Result<(), Fail> {
        let first = range.first();
        let last = first + (range.pages() - 1);
        let may = self.space.may_retire(range);
        if may != self.list.may_retire(first, last) {
            return Err("a refusal differs".into());
        }
        if may.is_ok() {
            self.space.retire(range);
            self.list.retire(alloc, first, last)?;
        }
        Ok(())
    }

    /// Frees pages at once, if they are live.
    fn free(&mut self, alloc: Global, range: PageRange) -> Result<(), Fail> {
        let first = range.first();
        let last = first + (range.pages() - 1);
        let may = self.space.judge(range);
        if may != self.list.may_retire(first, last) {
            return Err("a judgement differs".into());
        }
        if may.is_ok() {
            self.space.free_live(range);
            self.list.retire(alloc, first, last)?;
            self.list.free(alloc, first, last)?;
        }
        Ok(())
    }

    /// Releases the retired piece at a page, if one begins there.
    fn release(&mut self, alloc: Global, first: u64) -> Result<(), Fail> {
        if let Some(range) = retired_at(&self.space, first) {
            self.space.release(range);
            self.list
                .free(alloc, range.first(), range.first() + (range.pages() - 1))?;
        }
        Ok(())
    }

    /// Releases at once the retired pieces that lie side by side from a page on, if one begins there.
    fn release_run(&mut self, alloc: Global, first: u64, enough: u64) -> Result<(), Fail> {
        if let Some(range) = retired_run(&self.space, first, enough) {
            self.space.release(range);
            self.list
                .free(alloc, range.first(), range.first() + (range.pages() - 1))?;
        }
        Ok(())
    }

    /// Retires pages, or frees them at once, if they are live.
    fn end(&mut self, alloc: Global, range: PageRange, numbers: &mut Sequence) -> Result<(), Fail> {
        if numbers.below(2) == 0 {
            self.retire(alloc, range)
        } else {
            self.free(alloc, range)
        }
    }

    /// The range of the piece at a place, if it is one.
    fn range_at(&self, place: u64) -> Option<PageRange> {
        let piece = self.space.pieces().nth(place as usize)?;
        PageRange::new(
            piece.first,
            piece.last.wrapping_sub(piece.first).wrapping_add(1),
        )
    }

    /// Retires pieces that lie side by side, each by itself, if they are live.
    fn retire_pieces(&mut self, alloc: Global, numbers: &mut Sequence) -> Result<(), Fail> {
        let place = numbers.below(1024);
        for further in 0..1 + numbers.below(8) {
            if let Some(range) = self.range_at(place + further) {
                self.retire(alloc, range)?;
            }
        }
        Ok(())
    }

    /// Takes pages and retires them, some times, and then releases what lies side by side of them, as a lazy domain does.
    fn take_and_retire(&mut self, alloc: Global, numbers: &mut Sequence) -> Result<(), Fail> {
        let mut first = None;
        for _ in 0..1 + numbers.below(8) {
            let pages = 1 + numbers.below(4);
            if let Some(page) = self.take(alloc, None, pages, 0)? {
                self.retire(alloc, PageRange::new(page, pages).ok_or("pages")?)?;
                first = first.or(Some(page));
            }
        }
        if numbers.below(2) == 0 {
            self.take(alloc, None, 1, 0)?;
        }
        match first {
            Some(first) => self.release_run(alloc, first, 1 + numbers.below(32)),
            None => Ok(()),
        }
    }

    /// Releases the first retired pieces behind a page.
    fn release_behind(
        &mut self,
        alloc: Global,
        page: u64,
        numbers: &mut Sequence,
    ) -> Result<(), Fail> {
        let retired = |piece: &&Piece| page <= piece.first && piece.state == PageState::Retired;
        match self.list.pieces.iter().find(retired).copied() {
            Some(piece) => self.release_run(alloc, piece.first, 1 + numbers.below(32)),
            None => Ok(()),
        }
    }

    /// A page is the same, if the number is a page's.
    fn compare_page(&self, number: u64) -> Result<(), Fail> {
        if let Some(page) = Page::new(number) {
            if self.space.state_of(page) != self.list.state_of(number) {
                return Err("a page differs".into());
            }
        }
        Ok(())
    }

    /// The pieces are the same.
    fn compare(&self) -> Result<(), Fail> {
        let mut pieces = self.space.pieces();
        for piece in self.list.pieces.iter() {
            if pieces.next() != Some(*piece) {
                return Err("a piece differs".into());
            }
        }
        if pieces.next().is_some() || self.space.piece_count() != self.list.pieces.len() {
            return Err("there are more pieces".into());
        }
        Ok(())
    }

    /// One of the calls.
    fn step(
        &mut self,
        alloc: Global,
        numbers: &mut Sequence,
        floor: Option<u64>,
    ) -> Result<(), Fail>
        requires { IfSome floor (λ floor. 1 ≤ floor) }
    {
        match numbers.below(16) {
            0..=7 => {
                let order = numbers.below(4);
                let pages = 1 + numbers.below(1 << order);
                self.take(alloc, floor, pages, order)?;
            }
            8 => {
                self.take(alloc, floor, 1 + numbers.below(4096), numbers.below(10))?;
            }
            9 => self.try_take(1 + numbers.below(8))?,
            10 => {
                let first = 1 + numbers.below(3000);
                let range = PageRange::new(first, 1 + numbers.below(40)).ok_or("pages")?;
                self.end(alloc, range, numbers)?;
            }
            11 => {
                if let Some(range) = self.range_at(numbers.below(1024)) {
                    self.end(alloc, range, numbers)?;
                }
            }
            12 => self.retire_pieces(alloc, numbers)?,
            13 => self.take_and_retire(alloc, numbers)?,
            14 => {
                if let Some(range) = self.range_at(numbers.below(1024)) {
                    self.release(alloc, range.first())?;
                }
            }
            _ => self.release_behind(alloc, numbers.below(3000), numbers)?,
        }
        Ok(())
    }
}

// 20,000 calls, and the space made new now and then.
fn agree(alloc: Global, with_floors: bool) -> Result<(), Fail> {
    let mut pair = Pair {
        space: Space::new(alloc, 0x100FFF)?,
        list: List::new(alloc, FREE.as_slice())?,
    };
    let mut numbers = Sequence {
        seed: 0x2545F4914F6CDD1D,
    };
    for call in 0..20000u64 {
        if call % 7000 == 6999 {
            pair.space.reset(0x100FFF);
            pair.list = List::new(alloc, FREE.as_slice())?;
        }
        let floor = if with_floors {
            Some(numbers.floor())
        } else {
            None
        };
        pair.step(alloc, &mut numbers, floor)?;
        pair.compare()?;
        pair.compare_page(numbers.floor())?;
    }
    Ok(())
}

#[test]
fn agrees_with_a_list(rt: HostRuntime) -> Result<(), Fail> {
    agree(rt.alloc(), false)
}

#[test]
fn agrees_with_a_list_from_floors(rt: HostRuntime) -> Result<(), Fail> {
    agree(rt.alloc(), true)
}
