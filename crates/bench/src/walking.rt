//! Walks through a tree.

ghost use Rattle.std.specs.Prelude.{◌<◌};
ghost use Rattle.dmatypes.specs.declared.page.TheConstants.{SPAN_PAGES};
ghost use Rattle.dmatypes.specs.Page.{levels};
ghost use Rattle.tables.specs.Pool.{IsTree};

use crate::driver::{BOTH_RIGHTS, TABLE_FRAMES, UNALIGNED_FRAME};
use crate::timing::Work;
use crate::trouble::{Trouble, check};
use dmatypes::{Frame, Page, PageRange, Rights, SPAN_PAGES, Width};
use std::alloc::Global;
use tables::{Pool, Tree};

// The pages of one table of the lowest level.
const FIRST_PAGE: u64 = SPAN_PAGES;

/// Walks to the pages of a full table of the lowest level in turn, through all of its levels.
#[derive(Drop)]
pub(crate) struct Walking {
    pool: Pool,
    tree: Tree,
    // The next page, counted from the first.
    index: u64,
    ghost is_tree: { IsTree pool (levels tree.width) tree.root },
    ghost within: { index < SPAN_PAGES },
}

impl Walking {
    pub(crate) fn new(alloc: Global, width: Width) -> Result<Walking, Trouble> {
        let mut pool = Pool::new(alloc, TABLE_FRAMES)?;
        let mut tree = Tree::new(&mut pool, width)?;
        let range = PageRange::new(FIRST_PAGE, SPAN_PAGES).ok_or(Trouble::Wrong)?;
        let frame = Frame::new(UNALIGNED_FRAME).ok_or(Trouble::Wrong)?;
        let rights = Rights::from_number(BOTH_RIGHTS).ok_or(Trouble::Wrong)?;
        tree.map(&mut pool, range, frame, rights)?;
        Ok(Walking {
            pool,
            tree,
            index: 0,
        })
    }
}

impl Work for Walking {
    fn once(&mut self) -> Result<(), Trouble> {
        let page = Page::new(FIRST_PAGE + self.index).ok_or(Trouble::Wrong)?;
        let (frame, _) = self.tree.walk(&self.pool, page).ok_or(Trouble::Wrong)?;
        check(frame.number() == UNALIGNED_FRAME + self.index)?;
        self.index = (self.index + 1) % SPAN_PAGES;
        Ok(())
    }
}
