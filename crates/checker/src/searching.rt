//! Whether some range of a domain is free.

ghost use Rattle.std.specs.Prelude.{◌≡◌, ◌+◌, ◌^◌, ◌%◌, ◌<◌, ◌≤◌, ℕ, MatchOption};
ghost use Rattle.dmatypes.specs.declared.limits.TheConstants.{MOST_ORDER};
ghost use Rattle.dmatypes.specs.declared.page.TheConstants.{MOST_PAGES};
ghost use Rattle.dmatypes.specs.Page.{Fits, IsPageOf, IsWithin, pages_end};
ghost use Rattle.checker.specs.Pages.{range};

use crate::asking::range_in;
use crate::domain::Domain;
use crate::record::Record;
use dmatypes::{PageRange, WINDOW_LAST, Width};

impl Domain {
    ghost use Rattle.std.specs.Prelude.{◌≡◌, ◌+◌, ◌^◌, ◌%◌, ◌<◌, ◌≤◌, ℕ, IsTrue, MatchOption, not};
    ghost use Rattle.dmatypes.specs.World.{IsIn};
    ghost use Rattle.checker.specs.declared.record.Record.{Record};
    ghost use Rattle.std.specs.List.{find};
    ghost use Rattle.std.specs.Option.{option_copied};
    ghost use Rattle.dmatypes.specs.declared.limits.TheConstants.{MOST_ORDER};
    ghost use Rattle.dmatypes.specs.declared.page.TheConstants.{MOST_PAGES};
    ghost use Rattle.dmatypes.specs.Page.{IsPageOf, IsWithin, pages_end};
    ghost use Rattle.dmatypes.specs.World.{AreFreePages, IsFree};
    ghost use Rattle.checker.specs.Pages.{range};
    ghost use Rattle.checker.specs.World.{do_meet, domain_of, meets_some, HasFreeRange, IsFreeRangeAt};

    /// The first page of some range of this many pages, at a multiple of 2^`order`, that is free.
    pub(crate) fn free_range(&self, pages: u64, order: u64) -> Option<u64>
        requires pages { (1 ≤ pages) × (pages ≤ MOST_PAGES) }
        requires order { order ≤ MOST_ORDER }
        ensures { MatchOption result (HasFreeRange (domain_of self.now) pages order → ⊥) (IsFreeRangeAt (domain_of self.now) pages order) }
    {
        let step = power(order);
        let mut start = 0;
        let end = self.width.pages_end();
        while start < end {
            match self.obstacle(start, pages) {
                None => return Some(start),
                Some(page) => start = multiple_past(page, step),
            }
        }
        None
    }

    /// A page number of a range that is no free page.
    pub(crate) fn obstacle(&self, first: u64, pages: u64) -> Option<u64>
        requires pages { (1 ≤ pages) × (pages ≤ MOST_PAGES) }
        requires first { first < 2 ^ 63 }
        ensures { MatchOption result
            (AreFreePages (domain_of self.now) (range first pages))
            (λ p. IsWithin (range first pages) p × (IsPageOf self.now.width p × IsFree (domain_of self.now) p → ⊥)) }
    {
        let Some(range) = range_in(first, pages, self.width) else {
            return Some(no_page_in(first, pages, self.width));
        };
        match self.live.last_mapped_in(first, pages) {
            Some(page) => Some(page),
            None => self.last_held(range),
        }
    }

    // A page of a range that is in a record.
    fn last_held(&self, range: PageRange) -> Option<u64>
        ensures { MatchOption result
            (IsTrue (not (meets_some self.now range)))
            (λ p. IsWithin range p × (r : Record) × IsIn r self.now.retired.items × IsWithin r.range p) }
    {
        match self.held_by(range) {
            None => None,
            Some(record) => Some(record.last_shared(range)),
        }
    }

    // The first record that has a page in common with a range.
    fn held_by(&self, range: PageRange) -> Option<&Record>
        ensures { option_copied result ≡ find (λ r. do_meet r.range range) self.now.retired.items }
    {
        self.retired.iter().find(|record| record.meets(range))
    }
}

// A member of a range that is no page of a width, where there is one.
fn no_page_in(first: u64, pages: u64, width: Width) -> u64
    requires pages { (1 ≤ pages) × (pages ≤ MOST_PAGES) }
    requires first { first < 2 ^ 63 }
    requires none { Fits (range first pages) width → ⊥ }
    ensures within { IsWithin (range first pages) result }
    ensures none { IsPageOf width result → ⊥ }
{
    let last = first + (pages - 1);
    if first == 0 {
        0
    } else if last >= width.pages_end() {
        last
    } else {
        last.min(WINDOW_LAST)
    }
}

// The next multiple of a number past a page.
fn multiple_past(page: u64, step: u64) -> u64
    requires step { (1 ≤ step) × (step ≤ 512) }
    requires page { page < 2 ^ 37 }
    ensures multiple { result % step ≡ 0 }
    ensures past { page < result }
    ensures most { result ≤ page + step }
    ensures next { (s : ℕ) → s % step ≡ 0 → s < result → s ≤ page }
{
    (page / step + 1) * step
}

// The number of pages at whose multiples a range may begin.
pub(crate) fn power(order: u64) -> u64
    requires { order ≤ MOST_ORDER }
    ensures power { result ≡ 2 ^ order }
    ensures range { (1 ≤ result) × (result ≤ 512) }
{
    1 << order
}
