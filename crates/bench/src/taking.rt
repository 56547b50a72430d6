//! An address taken and released, without tables.

ghost use Rattle.std.specs.Prelude.{◌≡◌};

use crate::timing::Work;
use crate::trouble::{Trouble, check};
use dmatypes::{PAGES_END, PageRange};
use iova::Space;
use std::alloc::Global;

// The last page of a domain.
const LAST_PAGE: u64 = PAGES_END - 1;

/// Takes the first page behind a number of live pieces of one page each, and releases it.
#[derive(Drop)]
pub(crate) struct Taking {
    space: Space,
    page: u64,
    pieces: usize,
}

impl Taking {
    pub(crate) fn new(alloc: Global, live: u32) -> Result<Taking, Trouble> {
        let mut space = Space::new(alloc, LAST_PAGE)?;
        for number in 0..live {
            let page = space.take(1, 0)?;
            check(page.number() == u64::from(number) + 1)?;
        }
        let pieces = space.piece_count();
        Ok(Taking {
            space,
            page: u64::from(live) + 1,
            pieces,
        })
    }
}

impl Work for Taking {
    fn once(&mut self) -> Result<(), Trouble> {
        let page = self.space.take(1, 0)?;
        check(page.number() == self.page)?;
        let range = PageRange::new(page.number(), 1).ok_or(Trouble::Wrong)?;
        self.space.may_retire(range)?;
        self.space.retire(range);
        self.space.release(range);
        check(self.space.piece_count() == self.pieces)
    }
}
