//! A list of the last leaves that loses its first one without moving the others.

ghost use Rattle.std.specs.Prelude.{◌≡◌, ◌<◌, ◌≤◌, [], ◌∷◌, ◌++◌, IfSome, IsTrue, drop, filter, length, not, remove, take};
ghost use Rattle.unit.specs.Filters.{drops_leaf};
ghost use Rattle.unit.specs.Lists.{with_newest};

use crate::entries::CachedLeaf;
use crate::filters::Cached;
use arrayvec::ArrayVec;
use dmatypes::MOST_CACHED_LEAVES;
use std::fmt;
use std::marker::Model;
use vtdbits::Descriptor;

/// The places for leaves.
pub(crate) const LEAVES: usize = MOST_CACHED_LEAVES;

// A list of so few leaves is passed over in about the time in which two marks are tested (own).
const FEW: usize = 4;

// A quarter more, so that new leaves move the others to the front only once for so many of them. A unit is moved where it is made, so
// more room is more of the stack.
const ROOM: usize = LEAVES + LEAVES / 4;

/// Leaves, oldest first.
#[derive(Drop)]
pub(crate) struct Recent {
    // Those that were lost, up to `start`, and behind them the leaves.
    list: ArrayVec<CachedLeaf, ROOM>,
    start: usize,
}

// Clauses see the list of the leaves.
impl Model for Recent {
    ghost use Rattle.std.specs.Prelude.{List, ◌≡◌, ◌+◌, ◌≤◌, drop, length};
    ghost use Rattle.unit.specs.Caches.{CachedLeaf};
    ghost use Rattle.unit.specs.declared.recent.TheConstants.{FEW, LEAVES};

    ghost Value = { List CachedLeaf };

    ghost view = { λ r. drop r.start r.list.items };

    // Where few places are taken none is that of a lost one.
    ghost invariant = { λ r. (r.start ≤ length r.list.items) × (length r.list.items ≤ r.start + LEAVES)
        × (length r.list.items ≤ FEW → r.start ≡ 0) };
}

impl Recent {
    /// None.
    pub(crate) fn new() -> Recent
        ensures { result ≡ [] }
    {
        Recent {
            list: ArrayVec::new(),
            start: 0,
        }
    }

    /// The leaves.
    pub(crate) fn as_slice(&self) -> &[CachedLeaf]
        ensures value { result.now ≡ self.now }
        ensures few { length self.now ≤ LEAVES }
    {
        &self.list.as_slice()[self.start..]
    }

    /// The leaves, where they are so few that they are passed over as soon as a mark is tested.
    #[inline]
    pub(crate) fn few(&self) -> Option<&[CachedLeaf]>
        ensures value { IfSome result (λ leaves. leaves.now ≡ self.now) }
    {
        if self.list.len() <= FEW {
            Some(self.list.as_slice())
        } else {
            None
        }
    }

    /// Whether no place is taken. Then there is no leaf.
    #[inline]
    pub(crate) fn is_empty(&self) -> bool
        ensures { IsTrue result → self.now ≡ [] }
    {
        self.list.is_empty()
    }

    /// Adds a leaf behind the others; a full list loses its first one.
    pub(crate) fn push(&mut self, leaf: CachedLeaf)
        ensures { self.new ≡ with_newest LEAVES leaf self.old }
    {
        if self.as_slice().len() == LEAVES {
            self.lose_first();
        }
        self.add(leaf);
    }

    // Loses the first of a full list.
    fn lose_first(&mut self)
        requires { length self.old ≡ LEAVES }
        ensures { self.new ≡ drop 1 self.old }
    {
        self.start = self.list.len() - (LEAVES - 1);
    }

    // Adds a leaf to a list that has a place for it.
    fn add(&mut self, leaf: CachedLeaf)
        requires { length self.old < LEAVES }
        ensures { self.new ≡ self.old ++ leaf ∷ [] }
    {
        if self.list.is_full() {
            move_to_front(&mut self.list, self.start);
            self.start = 0;
        }
        self.list.push(leaf);
    }

    /// Forgets the leaves that a descriptor drops.
    pub(crate) fn forget(&mut self, descriptor: &Descriptor)
        ensures items { self.new ≡ filter (λ l. not (drops_leaf descriptor.now l)) self.old }
        ensures few { length self.new ≤ length self.old }
    {
        if !self.as_slice().iter().any(|leaf| leaf.goes(*descriptor)) {
            return;
        }
        let kept = keep(&mut self.list.as_mut_slice()[self.start..], descriptor);
        self.list.truncate(self.start + kept);
        self.start = compact_if_few(&mut self.list, self.start);
    }

    /// Forgets the leaf at a place, counted from 0 and from the oldest, if there is one.
    pub(crate) fn evict(&mut self, place: usize)
        ensures items { self.new ≡ remove self.old place }
        ensures few { length self.new ≤ length self.old }
    {
        if place < self.list.len() - self.start {
            self.list.remove(self.start + place);
            self.start = compact_if_few(&mut self.list, self.start);
        }
    }
}

impl fmt::Debug for Recent {
    fn fmt<W: fmt::Write>(&self, f: &mut fmt::Formatter<W>) -> fmt::Result {
        f.debug_list().entries(self.as_slice()).finish()
    }
}

// Leaves those of a list from a place on alone, at its front. They are moved where they are, through no buffer, which would be more of the
// stack of each request.
fn move_to_front(list: &mut ArrayVec<CachedLeaf, ROOM>, start: usize)
    requires { start ≤ length list.old.items }
    ensures { list.new.items ≡ drop start list.old.items }
{
    let len = list.len();
    list.as_mut_slice().copy_within(start..len, 0);
    list.truncate(len - start);
}

// Moves the leaves from a place on to the front where few places are taken, and answers where they begin then.
fn compact_if_few(list: &mut ArrayVec<CachedLeaf, ROOM>, start: usize) -> usize
    requires { start ≤ length list.old.items }
    ensures items { drop result list.new.items ≡ drop start list.old.items }
    ensures within { result ≤ length list.new.items }
    ensures few { length list.new.items ≤ FEW → result ≡ 0 }
{
    if list.len() > FEW {
        return start;
    }
    move_to_front(list, start);
    0
}

// Moves the leaves that a descriptor doesn't drop to the front, in their order, and counts them.
fn keep(leaves: &mut [CachedLeaf], descriptor: &Descriptor) -> usize
    ensures kept { take result leaves.new ≡ filter (λ l. not (drops_leaf descriptor.now l)) leaves.old }
    ensures few { result ≤ length leaves.old }
{
    let mut kept = 0;
    for place in 0..leaves.len() {
        let leaf = leaves[place];
        if !leaf.goes(*descriptor) {
            leaves[kept] = leaf;
            kept += 1;
        }
    }
    kept
}
