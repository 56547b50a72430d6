//! The moments that a pool goes through.

ghost use Rattle.std.specs.Prelude.{◌≡◌, List, [], ◌∷◌, ◌++◌, take};
ghost use Rattle.std.specs.Borrow.{ftrue};
ghost use Rattle.tables.specs.Pool.{Moment};
ghost use Rattle.tables.specs.Moments.{moments_code};

use dmatypes::Frame;
use std::marker::Model;

/// How a pool was after each write, and each time that a tree gave a table back, the first first. Contracts alone see it: it takes no
/// bytes, and no code reads it. What it says of the pool holds as far as each function of a pool that does so adds how it is then.
#[derive(Drop)]
pub(crate) struct Trail {
    pub(crate) ghost moments: { List Moment } by { moments_code },
}

impl Model for Trail {
    ghost also_owns = { λ _. ftrue };
}

// It owns nothing.
unsafe impl Send for Trail {}

unsafe impl Sync for Trail {}

impl Trail {
    /// Of a pool that is new.
    pub(crate) fn new() -> Trail
        ensures { result.moments ≡ [] }
    {
        Trail {}
    }

    /// With these words and free frames at its end: the first `_free` slots.
    #[inline(always)]
    pub(crate) fn and(&self, _words: &Vec<u64>, _slots: &Vec<Frame>, _free: usize) -> Trail
        ensures { result.moments ≡ self.now.moments ++ record { words = _words.now.items; free = take _free _slots.now.items } ∷ [] }
    {
        Trail {}
    }
}
