//! Retired records whose pages lie side by side come free in one step of the address space.

ghost use Rattle.std.specs.Prelude.{◌≡◌, ◌<◌, ◌≤◌, ◌+◌, ℕ, IfSome, drop, length, vec_capacity};
ghost use Rattle.tables.specs.Pool.{IsZeroed, occurs};
ghost use Rattle.engine.specs.Domains.{held_in};
ghost use Rattle.engine.specs.Ending.{ReleasesAll};
ghost use Rattle.engine.specs.Ready.{AreInvalidated, AreJoined, AreReleasable, IsRangeOf, ReleasesLast};

use crate::iommu::Iommu;
use crate::record::Record;
use dmatypes::PageRange;
use iova::Space;
use tables::Pool;
use vtdbits::DomainId;

/// Records at the end of a list whose pages are one range: where they begin in the list, and the range.
#[derive(Clone, Copy)]
struct Run {
    start: usize,
    range: PageRange,
}

// The range of two that lie side by side, where it isn't too long.
fn joined(one: PageRange, other: PageRange) -> Option<PageRange>
    ensures { IfSome result (AreJoined one other) }
{
    let pages = one.pages() + other.pages();
    if one.first() + one.pages() == other.first() {
        return PageRange::new(one.first(), pages);
    }
    if other.first() + other.pages() == one.first() {
        return PageRange::new(other.first(), pages);
    }
    None
}

// The longest run that this finds at the end of the records, of one at least.
fn last_run(records: &[Record]) -> Run
    requires { 0 < length records.now }
    ensures start { result.start < length records.now }
    ensures range { IsRangeOf result.range (drop result.start records.now) }
{
    let mut start = records.len() - 1;
    let mut range = records[start].range;
    while start > 0 {
        let Some(longer) = joined(records[start - 1].range, range) else {
            return Run { start, range };
        };
        start -= 1;
        range = longer;
    }
    Run { start, range }
}

// Gives the table frames back that were cut with the records.
fn give_back_all(pool: &mut Pool, records: &[Record])
    requires once { (f : ℕ) → occurs f pool.old.free + held_in records.now f ≤ 1 }
    requires within { (f : ℕ) → 0 < held_in records.now f → f < pool.old.frames }
    requires zeroed { (f : ℕ) → 0 < held_in records.now f → IsZeroed pool.old.words f }
    ensures free { (f : ℕ) → occurs f pool.new.free ≡ occurs f pool.old.free + held_in records.now f }
    ensures more { length pool.old.free ≤ length pool.new.free }
    ensures words { pool.new.words ≡ pool.old.words }
    ensures trail { pool.new.trail ≡ pool.old.trail }
    ensures frames { pool.new.frames ≡ pool.old.frames }
{
    for record in records {
        pool.give_back(record.cut.frames());
    }
}

// Releases the pages of retired records of a domain, which are this range, and the table frames that were cut with them.
// The unit has forgotten each of them for good.
fn release_run(
    space: &mut Space,
    pool: &mut Pool,
    iommu: &Iommu,
    id: DomainId,
    records: &[Record],
    range: PageRange,
)
    requires some { 0 < length records.now }
    requires can { AreReleasable pool.old space.old records.now }
    requires range { IsRangeOf range records.now }
    requires invalidated { AreInvalidated iommu.now id records.now }
    ensures { ReleasesAll pool.old space.old records.now pool.new space.new }
{
    space.release(range);
    give_back_all(pool, records);
}

/// Releases the last records of a domain, as many as are found to lie side by side. The unit has forgotten each of them for
/// good.
pub(super) fn release_last(
    space: &mut Space,
    pool: &mut Pool,
    iommu: &Iommu,
    id: DomainId,
    records: &mut Vec<Record>,
)
    requires some { 0 < length records.old.items }
    requires can { AreReleasable pool.old space.old records.old.items }
    requires invalidated { AreInvalidated iommu.now id records.old.items }
    ensures released { ReleasesLast pool.old space.old records.old.items pool.new space.new records.new.items }
    ensures room { vec_capacity records.new ≡ vec_capacity records.old }
{
    let run = last_run(records.as_slice());
    release_run(
        space,
        pool,
        iommu,
        id,
        &records.as_slice()[run.start..],
        run.range,
    );
    records.truncate(run.start);
}
