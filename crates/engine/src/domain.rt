//! A domain: its tree, its address space and its retired records.

ghost use Rattle.std.specs.Prelude.{◌≡◌, ◌<◌, ◌≤◌, ◌+◌, ◌^◌, ◌++◌, ◌∷◌, filter, length, IfOk, IfErr, OnErr, Ok, [], vec_capacity};
ghost use Rattle.dmatypes.specs.Conditions.{total_pages};
ghost use Rattle.dmatypes.specs.Page.{Fits, IsPageRange, Range, levels, pages_end};
ghost use Rattle.dmatypes.specs.Rights.{bits_of};
ghost use Rattle.dmatypes.specs.declared.limits.TheConstants.{MOST_RECORDS, MOST_SEGMENTS};
ghost use Rattle.dmatypes.specs.declared.width.TheConstants.{PAGES_END};
ghost use Rattle.iova.specs.Space.{AllFree, IsSpace, MayRetire};
ghost use Rattle.tables.specs.Pool.{IsTree};
ghost use Rattle.vtdbits.specs.declared.descriptor.Descriptor.TheVariants.{IotlbDomain};
ghost use Rattle.engine.specs.Details.{mode_by};
ghost use Rattle.engine.specs.Domains.{AreMadeBefore, new_domain, operands_of};
ghost use Rattle.engine.specs.Ending.{Closes, Destroys, Flushes, IsJudgedEnd, IsUnmapped, MakesRoom, PutsOff, Releases, ReleasesAll};
ghost use Rattle.engine.specs.Ending.{FreesEnded, Reaps, RetiresAndUnmaps, SendsForMap, UnmapsAlone, UnmapsStrictly, was_before};
ghost use Rattle.engine.specs.State.{begins};
ghost use Rattle.engine.specs.Judged.{AreMappable};
ghost use Rattle.engine.specs.Placing.{CanPlace, IsUnplaced, Places, floor_of};
ghost use Rattle.engine.specs.Ready.{AreInvalidated, AreReleasable, CanCut, CanUnmap, IsDone};
ghost use Rattle.engine.specs.Ready.{IsFreeable, IsInvalidated, IsReady, IsReleasable};
ghost use Rattle.engine.specs.Ready.{last_done};

use crate::answer::Unmapped;
use crate::iommu::Iommu;
use crate::record::Record;
use crate::room::Room;
use crate::ticket::Ticket;
use crate::wanted::Wanted;
use dmatypes::{Frame, MOST_RECORDS, Mode, Page, PageRange, Refusal, Segment, Width};
use iova::Space;
use std::marker::Model;
use tables::{NoFrames, Pool, Tree};
use vtdbits::DomainId;

mod readers;
mod runs;

/// A domain: its mode, the number of flushes begun, its tree, its address space, and its retired records.
#[derive(Drop)]
pub(crate) struct Domain {
    mode: Mode,
    begun: u64,
    tree: Tree,
    space: Space,
    records: Vec<Record>,
}

impl Model for Domain {
    ghost use Rattle.std.specs.Prelude.{◌≡◌, ◌≤◌, ◌-◌, vec_capacity, vec_len};
    ghost use Rattle.dmatypes.specs.declared.limits.TheConstants.{MOST_RECORDS};
    ghost use Rattle.dmatypes.specs.Page.{pages_end};
    ghost use Rattle.engine.specs.Domains.{Domain};

    ghost Value = { Domain };

    ghost view = { λ d.
        record { mode = d.mode; begun = d.begun; width = d.tree.width; root = d.tree.root; space = d.space; records = d.records.items } };

    ghost invariant = { λ d. (d.space.last ≡ pages_end d.tree.width - 1)
        × (MOST_RECORDS ≤ vec_capacity d.records) × (vec_len d.records ≤ MOST_RECORDS) };
}

impl Domain {
    /// A domain with no page, of an empty tree.
    pub(crate) fn new(mode: Mode, tree: Tree, room: Room) -> Domain
        ensures new { result ≡ new_domain mode tree.width tree.root }
        ensures free { AllFree result.space }
        ensures space { IsSpace result.space }
    {
        let mut space = room.space;
        let mut records = room.records;
        space.reset(tree.width().pages_end() - 1);
        records.clear();
        Domain {
            mode,
            begun: 0,
            tree,
            space,
            records,
        }
    }

    /// Its mode.
    pub(crate) fn mode(&self) -> Mode
        ensures { result ≡ self.now.mode }
    {
        self.mode
    }

    /// The width of its addresses.
    pub(crate) fn width(&self) -> Width
        ensures { result ≡ self.now.width }
    {
        self.tree.width()
    }

    /// The root of its tree.
    pub(crate) fn root(&self) -> Frame
        ensures { result ≡ self.now.root }
    {
        self.tree.root()
    }

    /// Makes the pages of the segments live, maps them, and answers the first of them. They come at the lowest aligned start
    /// at or above the domain's floor where they are free, or where there is none at the lowest of all. Changes nothing where
    /// it refuses. It does with `NoRange` where there is no start, else with `TooManyPieces` where the address space would be
    /// cut into too many pieces. Else it does with `NoFrames` where the tables that the pages lack are more than the free
    /// frames. In Caching Mode the unit then forgets that the pages were absent.
    pub(crate) fn map(
        &mut self,
        pool: &mut Pool,
        iommu: &mut Iommu,
        id: DomainId,
        segments: &[Segment],
        wanted: Wanted,
    ) -> Result<u64, Refusal>
        requires can { CanPlace pool.old self.old }
        requires mappable { AreMappable segments.now }
        requires few { length segments.now ≤ MOST_SEGMENTS }
        requires pages { wanted.pages ≡ total_pages segments.now }
        requires ready { IsReady iommu.old }
        ensures placed { IfOk result (λ first. Places pool.old self.old
            (record { segments = segments.now; order = wanted.order; rights = bits_of wanted.rights; first = first }) pool.new self.new) }
        ensures sends { IfOk result (λ first. SendsForMap iommu.old.unit.caching iommu.old id self.old.root
            (record { first = first; pages = total_pages segments.now }) iommu.new) }
        ensures near { IfOk result (λ first. first < PAGES_END) }
        ensures refused { IfErr result (IsUnplaced pool.old self.old segments.now wanted.order) }
        ensures pool { OnErr result (pool.new ≡ pool.old) }
        ensures domain { OnErr result (self.new ≡ self.old) }
        ensures quiet { OnErr result (iommu.new ≡ iommu.old) }
    {
        let floor = floor_of(self.width());
        let start = self.space.take_from(floor, wanted.pages, wanted.order)?;
        if let Err(NoFrames) = self
            .tree
            .map_sized_list(pool, start, segments, wanted.pages, wanted.rights)
        {
            self.space.undo_take(range_from(start, wanted.pages));
            return Err(Refusal::NoFrames);
        }
        if iommu.is_caching() {
            iommu.invalidate_mapped(id, range_from(start, wanted.pages), pool, &self.tree);
        }
        Ok(start.number())
    }

    /// Ends a range of live pages, and answers what became of them. Refuses, and changes nothing, where
    /// `may_end` does.
    pub(crate) fn unmap(
        &mut self,
        pool: &mut Pool,
        iommu: &mut Iommu,
        id: DomainId,
        range: PageRange,
    ) -> Result<Unmapped, Refusal>
        requires fits { Fits range self.old.width }
        requires can { CanUnmap pool.old self.old }
        requires made { AreMadeBefore (iommu.old.sent + 1) self.old.records }
        requires ready { IsReady iommu.old }
        ensures unmapped { IsUnmapped (operands_of pool.old self.old iommu.old) id range result (operands_of pool.new self.new iommu.new) }
        ensures mode { IfOk result (λ unmapped. mode_by unmapped ≡ self.old.mode) }
    {
        self.may_end(pool, range)?;
        match self.mode {
            Mode::Strict => {
                self.unmap_strictly(pool, iommu, id, range);
                Ok(Unmapped::Free)
            }
            Mode::Lazy => {
                let released = self.unmap_lazily(pool, iommu, id, range);
                Ok(Unmapped::Retired { released })
            }
        }
    }

    // Only when the wait is done are the pages free and the table frames given back: until then they are live.
    fn unmap_strictly(&mut self, pool: &mut Pool, iommu: &mut Iommu, id: DomainId, range: PageRange)
        requires fits { Fits range self.old.width }
        requires can { CanCut pool.old self.old }
        requires may { IsJudgedEnd pool.old self.old range (Ok tt) }
        requires ready { IsReady iommu.old }
        ensures { UnmapsStrictly (operands_of pool.old self.old iommu.old) id range (operands_of pool.new self.new iommu.new) }
    {
        let ended = self.cut(pool, iommu, range);
        iommu.invalidate_pages(id, &ended, pool, &self.tree, &self.space);
        free(&mut self.space, pool, iommu, id, &ended);
    }

    // The pages become the last record; where there is no room for one, all others go first.
    fn unmap_lazily(
        &mut self,
        pool: &mut Pool,
        iommu: &mut Iommu,
        id: DomainId,
        range: PageRange,
    ) -> u64
        requires fits { Fits range self.old.width }
        requires can { CanUnmap pool.old self.old }
        requires may { IsJudgedEnd pool.old self.old range (Ok tt) }
        requires made { AreMadeBefore (iommu.old.sent + 1) self.old.records }
        requires ready { IsReady iommu.old }
        ensures { PutsOff (operands_of pool.old self.old iommu.old) id range result (operands_of pool.new self.new iommu.new) }
    {
        let released = self.make_room(pool, iommu, id);
        let last = self.end(pool, iommu, range);
        self.records.push_reserved(last);
        released
    }

    // Room for one more record: where there is none, all go. Answers how many went.
    fn make_room(&mut self, pool: &mut Pool, iommu: &mut Iommu, id: DomainId) -> u64
        requires can { CanUnmap pool.old self.old }
        requires made { AreMadeBefore (iommu.old.sent + 1) self.old.records }
        requires ready { IsReady iommu.old }
        ensures room { MakesRoom (operands_of pool.old self.old iommu.old) id result (operands_of pool.new self.new iommu.new) }
        ensures fewer { length self.new.records < MOST_RECORDS }
    {
        if (self.records.len() as u64) < MOST_RECORDS {
            0
        } else {
            self.flush(pool, iommu, id)
        }
    }

    /// Has the unit forget all that it remembers of the domain, releases all its records, and answers how many.
    pub(crate) fn flush(&mut self, pool: &mut Pool, iommu: &mut Iommu, id: DomainId) -> u64
        requires can { CanUnmap pool.old self.old }
        requires made { AreMadeBefore (iommu.old.sent + 1) self.old.records }
        requires ready { IsReady iommu.old }
        ensures flushes { Flushes (operands_of pool.old self.old iommu.old) id (operands_of pool.new self.new iommu.new) }
        ensures count { result ≡ length self.old.records }
    {
        let released = self.records.len() as u64;
        iommu.invalidate_domain(id, self.records.as_slice(), pool, &self.tree, &self.space);
        release_all(&mut self.space, pool, iommu, id, &mut self.records);
        released
    }

    /// Counts one begun flush more, and answers how many there are then.
    pub(crate) fn begin(&mut self) -> u64
        requires { self.old.begun + 1 < 2 ^ 64 }
        ensures begins { self.new ≡ begins self.old }
        ensures number { result ≡ self.old.begun + 1 }
    {
        self.begun += 1;
        self.begun
    }

    /// Releases the records that were there before the ticket's flush was begun, and answers how many. Its wait is done.
    pub(crate) fn reap(&mut self, pool: &mut Pool, iommu: &Iommu, ticket: Ticket) -> u64
        requires can { CanUnmap pool.old self.old }
        requires done { ticket.wait ≤ last_done iommu.now }
        ensures reaps { Reaps pool.old self.old ticket.number pool.new self.new }
        ensures count { result ≡ length (filter (was_before ticket.number) self.old.records) }
    {
        let released = release_before(
            &mut self.space,
            pool,
            iommu,
            &ticket,
            self.records.as_slice(),
        );
        self.records.retain(|record| record.mark >= ticket.number);
        released
    }

    /// Ends the domain with all its pages, gives all its table frames back, and leaves its room.
    pub(crate) fn close(mut self, pool: &mut Pool, iommu: &mut Iommu, id: DomainId) -> Room
        requires can { CanUnmap pool.old self }
        requires made { AreMadeBefore (iommu.old.sent + 1) self.records }
        requires ready { IsReady iommu.old }
        ensures { Closes (operands_of pool.old self iommu.old) id pool.new iommu.new }
    {
        self.flush(pool, iommu, id);
        destroy(self.tree, pool, iommu, id);
        Room {
            space: self.space,
            records: self.records,
        }
    }

    // Whether a range may end. `NotLive` where a page of it isn't live, else `TooManyPieces` where the address space would
    // be cut into too many pieces. Else `NoFrames` where the leaves of 2 MiB that are to be split are more than the free
    // frames.
    fn may_end(&mut self, pool: &Pool, range: PageRange) -> Result<(), Refusal>
        requires tree { IsTree pool.now (levels self.old.width) self.old.root }
        requires fits { Fits range self.old.width }
        ensures judged { IsJudgedEnd pool.now self.old range result }
        ensures same { self.new ≡ self.old }
    {
        self.space.judge(range)?;
        self.tree.may_unmap(pool, range)?;
        Ok(())
    }

    // Unmaps a range of live pages in the tree, and answers its record. It is made once the tree states none of the pages: no
    // wait that was sent by then frees them.
    #[inline(always)]
    fn cut(&mut self, pool: &mut Pool, iommu: &Iommu, range: PageRange) -> Record
        requires fits { Fits range self.old.width }
        requires can { CanCut pool.old self.old }
        requires may { IsJudgedEnd pool.old self.old range (Ok tt) }
        ensures range { result.range ≡ range }
        ensures made { result.sent ≡ iommu.now.sent }
        ensures unmaps { UnmapsAlone pool.old self.old result pool.new }
        ensures same { self.new ≡ self.old }
    {
        let cut = self.tree.unmap(pool, range);
        Record {
            range,
            mark: self.begun,
            cut,
            sent: iommu.sent(),
        }
    }

    // Retires a range of live pages in the address space, unmaps it in the tree, and answers its record.
    #[inline(always)]
    fn end(&mut self, pool: &mut Pool, iommu: &Iommu, range: PageRange) -> Record
        requires fits { Fits range self.old.width }
        requires can { CanCut pool.old self.old }
        requires may { IsJudgedEnd pool.old self.old range (Ok tt) }
        ensures range { result.range ≡ range }
        ensures made { result.sent ≡ iommu.now.sent }
        ensures ends { RetiresAndUnmaps pool.old self.old result pool.new self.new }
    {
        let record = self.cut(pool, iommu, range);
        self.space.retire(range);
        record
    }
}

// So many pages from a first one on, which can be mapped at once.
fn range_from(first: Page, pages: u64) -> PageRange
    requires { IsPageRange (record { first = first; pages = pages }) }
    ensures { result ≡ record { first = first; pages = pages } }
{
    PageRange::new(first.number(), pages).unwrap()
}

// The page at or above which a domain of this width is served first: a wide one has the pages that no narrow one has (own).
fn floor_of(width: Width) -> u64
    ensures exact { result ≡ floor_of width }
    ensures some { 1 ≤ result }
{
    match width {
        Width::W39 => 1,
        Width::W48 => Width::W39.pages_end(),
    }
}

/// Frees the live pages of a record, and gives the table frames back that were cut with them. The unit has forgotten them for
/// good, as for a release.
#[inline(always)]
fn free(space: &mut Space, pool: &mut Pool, iommu: &Iommu, id: DomainId, ended: &Record)
    requires can { IsFreeable pool.old space.old ended.now }
    requires invalidated { IsInvalidated iommu.now id ended.now }
    ensures { FreesEnded pool.old space.old ended.now pool.new space.new }
{
    space.free_live(ended.range);
    pool.give_back(ended.cut.frames());
}

/// Releases the pages of a retired record that was there before the ticket's flush was begun, and the table frames that were
/// cut with them. Its wait is done: before it the unit forgot all that it remembered of the domain, and it can't have met what
/// is retired since.
#[inline(always)]
fn release_by(space: &mut Space, pool: &mut Pool, iommu: &Iommu, ticket: &Ticket, retired: &Record)
    requires can { IsReleasable pool.old space.old retired.now }
    requires before { retired.now.mark < ticket.now.number }
    requires done { ticket.now.wait ≤ last_done iommu.now }
    ensures released { Releases pool.old space.old retired.now pool.new space.new }
    ensures retirable { (other : Range) → MayRetire space.old.pieces other → MayRetire space.new.pieces other }
    ensures more { length pool.old.free ≤ length pool.new.free }
{
    space.release(retired.range);
    pool.give_back(retired.cut.frames());
}

// Releases those of the records that were there before the ticket's flush was begun, and answers how many.
fn release_before(
    space: &mut Space,
    pool: &mut Pool,
    iommu: &Iommu,
    ticket: &Ticket,
    records: &[Record],
) -> u64
    requires can { AreReleasable pool.old space.old records.now }
    requires done { ticket.now.wait ≤ last_done iommu.now }
    ensures released { ReleasesAll pool.old space.old (filter (was_before ticket.now.number) records.now) pool.new space.new }
    ensures count { result ≡ length (filter (was_before ticket.now.number) records.now) }
{
    let mut released = 0;
    for record in records {
        if record.mark < ticket.number {
            release_by(space, pool, iommu, ticket, record);
            released += 1;
        }
    }
    released
}

/// Destroys the tree of a domain: its table frames are given back. The unit has done the last wait, and before it the
/// descriptor that names all of the domain.
#[inline(always)]
fn destroy(tree: Tree, pool: &mut Pool, iommu: &Iommu, id: DomainId)
    requires tree { IsTree pool.old (levels tree.width) tree.root }
    requires invalidated { IsDone iommu.now (IotlbDomain id) iommu.now.sent }
    ensures { Destroys pool.old tree.width tree.root pool.new }
{
    tree.destroy(pool);
}

/// Releases all records of a domain, the last ones first, and at once those whose pages lie side by side. The unit has
/// forgotten each of them for good.
pub(crate) fn release_all(
    space: &mut Space,
    pool: &mut Pool,
    iommu: &Iommu,
    id: DomainId,
    records: &mut Vec<Record>,
)
    requires can { AreReleasable pool.old space.old records.old.items }
    requires invalidated { AreInvalidated iommu.now id records.old.items }
    ensures released { ReleasesAll pool.old space.old records.old.items pool.new space.new }
    ensures none { records.new.items ≡ [] }
    ensures room { vec_capacity records.new ≡ vec_capacity records.old }
{
    while !records.is_empty() {
        runs::release_last(space, pool, iommu, id, records);
    }
}
