//! A domain as its callers see it.

ghost use Rattle.std.specs.Prelude.{◌≡◌, filter, count_by, not};
ghost use Rattle.dmatypes.specs.World as world;
ghost use Rattle.checker.specs.World.{retired_of};

use crate::pages::Pages;
use crate::record::Record;
use dmatypes::{MOST_RECORDS, Mode, PageRange, Reply, Segment, Width};
use std::alloc::{AllocError, Global};

/// A domain: its mode, the width of its addresses, its live pages, its retired records in order, and how many flushes were begun.
#[derive(Drop)]
pub(crate) struct Domain {
    pub(crate) mode: Mode,
    pub(crate) width: Width,
    pub(crate) live: Pages,
    pub(crate) retired: Vec<Record>,
    pub(crate) begun: u64,
}

impl Domain {
    ghost use Rattle.std.specs.Prelude.{◌≡◌, ◌↔◌, ◌+◌, ◌<◌, ◌≤◌, ◌^◌, ℕ, [], ◌∷◌, IsTrue, IfOk, OnErr, OnOk, MatchOption, length, filter, suc};
    ghost use Rattle.std.specs.List.{AllByRecursion, list_any};
    ghost use Rattle.dmatypes.specs.declared.page.TheConstants.{FRAMES_END};
    ghost use Rattle.dmatypes.specs.Conditions.{total_pages};
    ghost use Rattle.dmatypes.specs.declared.reply.Reply.TheVariants.{Unmapped};
    ghost use Rattle.dmatypes.specs.Step.{IsUnmapAnswer};
    ghost use Rattle.dmatypes.specs.World as world;
    ghost use Rattle.dmatypes.specs.World.{AreFreePages};
    ghost use Rattle.checker.specs.Pages.{AllAreMappedIn, IsUnmappedIn, range, target_at};
    ghost use Rattle.checker.specs.World.{do_meet, domain_of, retired_of};

    /// A domain with no page.
    pub(crate) fn new(alloc: Global, mode: Mode, width: Width) -> Domain
        ensures { domain_of result ≡ world.empty_domain mode width }
    {
        Domain {
            mode,
            width,
            live: Pages::new(alloc),
            retired: Vec::new(alloc),
            begun: 0,
        }
    }

    /// The width of its addresses.
    pub(crate) fn width(&self) -> Width
        ensures { result ≡ (domain_of self.now).width }
    {
        self.width
    }

    /// How many records it has.
    pub(crate) fn records(&self) -> u64
        ensures { result ≡ length (domain_of self.now).retired }
    {
        self.retired.len() as u64
    }

    /// How many flushes were begun.
    pub(crate) fn begun(&self) -> u64
        ensures { result ≡ self.now.begun }
    {
        self.begun
    }

    // Whether a page of the range is in a record.
    fn is_held(&self, range: PageRange) -> bool
        ensures { result ≡ list_any (λ r. do_meet r.range range) self.now.retired.items }
    {
        self.retired.iter().any(|record| record.meets(range))
    }

    /// Whether each page of the range is free.
    pub(crate) fn are_free(&self, range: PageRange) -> bool
        ensures { IsTrue result ↔ AreFreePages (domain_of self.now) range }
    {
        if !range.fits(self.width) {
            return false;
        }
        match self.live.last_mapped_in(range.first(), range.pages()) {
            Some(_) => false,
            None => !self.is_held(range),
        }
    }

    /// The first page of the range that isn't live.
    pub(crate) fn not_live_in(&self, range: PageRange) -> Option<u64>
        ensures { MatchOption result (AllAreMappedIn self.now.live range) (IsUnmappedIn self.now.live range) }
    {
        self.live.unmapped_in(range.first(), range.pages())
    }

    /// The pages of the segments become live.
    pub(crate) fn map(
        &mut self,
        first: u64,
        segments: &[Segment],
        rights: u64,
    ) -> Result<(), AllocError>
        requires some { AllByRecursion (λ s. 1 ≤ s.pages) segments.now }
        requires pages { first + total_pages segments.now < 2 ^ 64 }
        requires frames { AllByRecursion (λ s. s.frame + s.pages ≤ FRAMES_END) segments.now }
        requires free { AreFreePages (domain_of self.old) (range first (total_pages segments.now)) }
        ensures { OnOk result (domain_of self.new ≡ world.mapped segments.now first rights (domain_of self.old)) }
    {
        self.live.put_all(first, segments, rights)
    }

    /// The pages of the range are unmapped: for good in a strict domain, put off in a lazy one.
    pub(crate) fn unmap(&mut self, alloc: Global, range: PageRange) -> Result<(), AllocError>
        ensures left { OnOk result (domain_of self.new ≡ world.unmapped_by self.old.mode range (domain_of self.old)) }
        ensures kept { OnErr result ((p : ℕ) → target_at self.new.live p ≡ target_at self.old.live p) }
    {
        match self.mode {
            Mode::Strict => self.unmap_now(range)?,
            Mode::Lazy => self.put_off(alloc, range)?,
        }
        Ok(())
    }

    // The pages of the range leave.
    fn unmap_now(&mut self, range: PageRange) -> Result<(), AllocError>
        ensures left { OnOk result (domain_of self.new ≡ world.unmapped range (domain_of self.old)) }
        ensures kept { OnErr result ((p : ℕ) → target_at self.new.live p ≡ target_at self.old.live p) }
    {
        self.live.remove(range.first(), range.pages())
    }

    // The pages of the range leave and become the last record. Where there was no room for one more, the others went first. The record's
    // place is made before a page leaves.
    fn put_off(&mut self, alloc: Global, range: PageRange) -> Result<(), AllocError>
        ensures last { OnOk result (domain_of self.new ≡ world.put_off range (world.with_room (domain_of self.old))) }
        ensures kept { OnErr result ((p : ℕ) → target_at self.new.live p ≡ target_at self.old.live p) }
    {
        if self.is_full() {
            self.retired.clear();
        }
        self.retired.reserve(1)?;
        let targets = self.live.take(alloc, range.first(), range.pages())?;
        self.retired
            .push_reserved(Record::new(range, self.begun, targets));
        Ok(())
    }

    /// Whether it has as many records as a domain keeps.
    pub(crate) fn is_full(&self) -> bool
        ensures { result ≡ world.is_full (domain_of self.now) }
    {
        self.records() == MOST_RECORDS
    }

    /// How many records an unmap releases first.
    pub(crate) fn released(&self) -> u64
        ensures { IsUnmapAnswer self.now.mode (domain_of self.now).retired (Unmapped result) }
    {
        match self.mode {
            Mode::Strict => 0,
            Mode::Lazy => { if self.is_full() { MOST_RECORDS } else { 0 } }
        }
    }

    /// Whether an unmap may be answered so.
    pub(crate) fn is_unmapped(&self, reply: Reply) -> bool
        ensures { IsTrue result ↔ IsUnmapAnswer self.now.mode (domain_of self.now).retired reply }
    {
        match reply {
            Reply::Unmapped(released) => released == self.released(),
            _ => false,
        }
    }

    /// All records go.
    pub(crate) fn flush(&mut self)
        ensures { domain_of self.new ≡ world.flushed (domain_of self.old) }
    {
        self.retired.clear();
    }

    /// A flush more is begun, and has this number.
    pub(crate) fn begin(&mut self, number: u64)
        requires { number ≡ suc self.old.begun }
        ensures { domain_of self.new ≡ world.begun_once_more (domain_of self.old) }
    {
        self.begun = number;
    }

    /// How many records were there before the flush of this number was begun.
    pub(crate) fn before(&self, number: u64) -> u64
        ensures { result ≡ length (filter (world.is_before number) (domain_of self.now).retired) }
    {
        count_before(self.retired.as_slice(), number) as u64
    }

    /// The records go that were there before the flush of this number was begun.
    pub(crate) fn reap(&mut self, number: u64)
        ensures { domain_of self.new ≡ world.reaped number (domain_of self.old) }
    {
        keep_later(&mut self.retired, number);
    }
}

// How many of the records were there before the flush of this number was begun.
fn count_before(records: &[Record], number: u64) -> usize
    ensures { result ≡ count_by (λ r. world.is_before number (retired_of r)) records.now }
{
    records
        .iter()
        .filter(|record| record.is_before(number))
        .count()
}

// The others go.
fn keep_later(records: &mut Vec<Record>, number: u64)
    ensures { records.new.items ≡ filter (λ r. not (world.is_before number (retired_of r))) records.old.items }
{
    records.retain(|record| !record.is_before(number));
}
