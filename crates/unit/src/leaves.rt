//! The leaves that are remembered, with marks by which most pages without a leaf are told at once.

ghost use Rattle.std.specs.Prelude.{◌≡◌, ◌↔◌, ℕ, Bool, if◌then◌else◌, ◌==◌, ◌&&◌, ◌^◌, ◌<◌, ◌≤◌, [], false, filter, find};
ghost use Rattle.std.specs.Prelude.{length, not, remove, IsTrue};
ghost use Rattle.dmatypes.specs.World.{IsIn};
ghost use Rattle.dmatypes.specs.declared.width.TheConstants.{PAGES_END};
ghost use Rattle.unit.specs.Caches.{CachedLeaf};
ghost use Rattle.unit.specs.Filters.{drops_leaf};
ghost use Rattle.unit.specs.Lists.{Gains, TellsSame, with_entry};
ghost use Rattle.unit.specs.Marks.{AreMarked, HasMark, IsMarked, mark_of};
ghost use Rattle.unit.specs.Walking.{hold};

use crate::entries::CachedLeaf;
use crate::lists::is_there;
use crate::lookups::first_leaf;
use crate::recent::{LEAVES, Recent};
use dmatypes::{PAGES_END, SPAN_PAGES};
use std::fmt;
use std::marker::Model;
use vtdbits::{Descriptor, DomainId};

// The places for marks: many more than there are leaves, so that few pages share theirs with a leaf.
const MARKS: usize = 2048;

// The marks, a bit each.
type Marks = [u64; MARKS / 64];

/// Leaves, oldest first. The places of their pages are marked, so a page whose place isn't marked has none. A mark stays when
/// its leaf goes; after as many new leaves as there are places for leaves the marks are made anew.
#[derive(Drop)]
pub(crate) struct MarkedLeaves {
    list: Recent,
    marks: Marks,
    // How many leaves were marked since the marks were made anew.
    added: usize,
}

// Clauses see the list.
impl Model for MarkedLeaves {
    ghost use Rattle.std.specs.Prelude.{List};
    ghost use Rattle.dmatypes.specs.World.{IsIn};
    ghost use Rattle.unit.specs.Caches.{CachedLeaf};
    ghost use Rattle.unit.specs.Marks.{AreMarked};

    ghost Value = { List CachedLeaf };

    ghost view = { λ s. s.list };

    ghost invariant = { λ s. AreMarked s.marks s.list };
}

impl MarkedLeaves {
    /// None.
    pub(crate) fn new() -> MarkedLeaves
        ensures { result ≡ [] }
    {
        MarkedLeaves {
            list: Recent::new(),
            marks: [0; MARKS / 64],
            added: 0,
        }
    }

    /// The leaves.
    pub(crate) fn as_slice(&self) -> &[CachedLeaf]
        ensures value { result.now ≡ self.now }
        ensures few { length self.now ≤ LEAVES }
    {
        self.list.as_slice()
    }

    /// The first leaf of a domain that stands for a page.
    pub(crate) fn first(&self, domain: DomainId, page: u64) -> Option<CachedLeaf>
        requires { page < PAGES_END }
        ensures { result ≡ find (λ l. (l.domain == domain) && hold l.first l.pages page) self.now }
    {
        if let Some(few) = self.list.few() {
            return first_leaf(few, domain, page);
        }
        if !self.may_hold(domain, page) {
            return None;
        }
        first_leaf(self.list.as_slice(), domain, page)
    }

    /// Remembers a leaf, where `fill` says so: if it isn't there already it goes last, and a full list loses its first one.
    /// Where `is_new` says that it isn't there, the list isn't looked through for it.
    pub(crate) fn remember(&mut self, leaf: CachedLeaf, fill: bool, is_new: bool)
        requires new { IsTrue is_new → IsIn leaf self.old → ⊥ }
        ensures items { (same : CachedLeaf → CachedLeaf → Bool) → TellsSame same
            → self.new ≡ (if fill then with_entry same LEAVES leaf self.old else self.old) }
        ensures gains { Gains fill (λ l. l ≡ leaf) self.old self.new }
        ensures remembered { IsTrue fill → IsIn leaf self.new }
        ensures few { length self.old ≤ LEAVES → length self.new ≤ LEAVES }
    {
        if !fill {
            return;
        }
        let is_new = is_new || !self.may_hold(leaf.domain, leaf.first);
        if is_there(self.list.as_slice(), &leaf, is_new) {
            return;
        }
        self.list.push(leaf);
        if self.added < LEAVES {
            mark(&mut self.marks, &leaf);
            self.added += 1;
        } else {
            mark_all(&mut self.marks, self.list.as_slice());
            self.added = 0;
        }
    }

    /// Forgets the leaves that a descriptor drops.
    pub(crate) fn forget(&mut self, descriptor: &Descriptor)
        ensures items { self.new ≡ filter (λ l. not (drops_leaf descriptor.now l)) self.old }
        ensures few { length self.new ≤ length self.old }
    {
        if self.list.is_empty() {
            return;
        }
        if let Descriptor::IotlbPages { domain, block, .. } = *descriptor {
            // A leaf that lies in a block of one page is of that page.
            if block.order() == 0 && !self.may_hold(domain, block.first()) {
                return;
            }
        }
        self.list.forget(descriptor);
    }

    /// Forgets the leaf at a place, counted from 0 and from the oldest, if there is one.
    pub(crate) fn evict(&mut self, place: usize)
        ensures items { self.new ≡ remove self.old place }
        ensures few { length self.new ≤ length self.old }
    {
        self.list.evict(place);
    }

    // Whether a page of a domain may have leaves. Where the list is short that isn't asked of the marks.
    fn may_hold(&self, domain: DomainId, page: u64) -> bool
        requires { page < PAGES_END }
        ensures { result ≡ false → (l : CachedLeaf) → IsIn l self.now
            → ((l.domain == domain) && hold l.first l.pages page) ≡ false }
    {
        self.list.few().is_some()
            || is_marked(&self.marks, mark_of(domain, page))
            || is_marked(&self.marks, mark_of(domain, page / SPAN_PAGES))
    }
}

impl fmt::Debug for MarkedLeaves {
    fn fmt<W: fmt::Write>(&self, f: &mut fmt::Formatter<W>) -> fmt::Result {
        fmt::Debug::fmt(&self.list, f)
    }
}

// The place of a mark of a domain, and of a page or of a span.
fn mark_of(domain: DomainId, number: u64) -> usize
    requires { number < PAGES_END }
    ensures value { result ≡ mark_of domain number }
    ensures less { result < MARKS }
{
    ((number + 293 * domain.number()) % MARKS as u64) as usize
}

// Whether a place is marked.
#[inline]
fn is_marked(marks: &Marks, place: usize) -> bool
    requires { place < MARKS }
    ensures { IsTrue result ↔ HasMark marks.now place }
{
    marks[place / 64] >> (place % 64) & 1 == 1
}

// Marks a place.
#[inline]
fn mark_place(marks: &mut Marks, place: usize)
    requires { place < MARKS }
    ensures kept { (i : ℕ) → HasMark marks.old i → HasMark marks.new i }
    ensures marked { HasMark marks.new place }
{
    marks[place / 64] |= 1 << (place % 64);
}

// Marks the places of a leaf: of its page, or of the spans in which it begins and ends.
fn mark(marks: &mut Marks, leaf: &CachedLeaf)
    ensures kept { (i : ℕ) → HasMark marks.old i → HasMark marks.new i }
    ensures marked { IsMarked marks.new leaf.now }
{
    if leaf.pages == 1 {
        mark_place(marks, mark_of(leaf.domain, leaf.first));
    } else {
        mark_place(marks, mark_of(leaf.domain, leaf.first / SPAN_PAGES));
        let last = leaf.first + (u64::from(leaf.pages) - 1);
        mark_place(marks, mark_of(leaf.domain, last / SPAN_PAGES));
    }
}

// Clears all marks, and marks the places of these leaves.
fn mark_all(marks: &mut Marks, leaves: &[CachedLeaf])
    ensures { AreMarked marks.new leaves.now }
{
    marks.fill(0);
    for leaf in leaves {
        mark(marks, leaf);
    }
}
