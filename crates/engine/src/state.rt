//! The sequential manager, one method a call.

ghost use Rattle.std.specs.Prelude.{◌≡◌, ◌+◌, ◌%◌, ◌<◌, ◌≤◌, ◌==◌, ℕ, IfOk, IfSome, IfNone, length, slice_get, replicate};
ghost use Rattle.std.specs.Prelude.{vec_capacity, vec_len, Some, None, IsSome, IsFalse, IsTrue, ◌↔◌, false};
ghost use Rattle.dmatypes.specs.Conditions.{IsBadUnmap, total_pages};
ghost use Rattle.dmatypes.specs.Page.{Fits, IsInWindow, IsPageRange, range_at};
ghost use Rattle.dmatypes.specs.World.{empty};
ghost use Rattle.dmatypes.specs.declared.limits.TheConstants.{CALLS_END, DEVICES, LEAST_TABLE_FRAMES, MOST_DOMAINS, MOST_SEGMENTS};
ghost use Rattle.dmatypes.specs.declared.limits.TheConstants.{MOST_TABLE_FRAMES};
ghost use Rattle.dmatypes.specs.declared.page.TheConstants.{PAGE_BYTES};
ghost use Rattle.dmatypes.specs.declared.call.Call.TheVariants as calls;
ghost use Rattle.dmatypes.specs.declared.reply.Reply.TheVariants.{Done};
ghost use Rattle.engine.specs.Details.{mode_by};
ghost use Rattle.engine.specs.Domains.{domain_at};
ghost use Rattle.engine.specs.Hits.{IsHitOf, mode_of};
ghost use Rattle.engine.specs.State.{IsNew, done_reply, flushed_reply, unmapped_reply, made_reply, mapped_reply, placed_reply};
ghost use Rattle.engine.specs.State.{request_reply};
ghost use Rattle.engine.specs.Quarantine.{Quarantine};
ghost use Rattle.vtdbits.specs.Context.{attached};
ghost use Rattle.engine.specs.Steps.{Does};
ghost use Rattle.engine.specs.Whole.{IsWhole};

use crate::answer::{Placed, Unmapped};
use crate::domain::Domain;
use crate::iommu::Iommu;
use crate::request::judge;
use crate::room::Room;
use crate::ticket::Ticket;
use arrayvec::ArrayVec;
use dmatypes::{
    Access, Cache, DEVICES, Fault, MOST_DOMAINS, MOST_SEGMENTS, MOST_TICKETS, Mode, PAGE_BYTES,
    PageRange, Refusal, Reply, Segment, WINDOW_FIRST, WINDOW_LAST, Whim, Width,
};
use std::alloc::{AllocError, Global};
use std::fmt;
use std::marker::Model;
use tables::{Pool, Tree};
use unit::{Contexts, Hit};
use vtdbits::{ContextEntry, DeviceNumber, DomainId};

mod attachments;
mod flushing;
mod performing;
mod spaces;
mod totals;
mod walkable;

use flushing::has_ticket;
pub use spaces::RetiredRecord;
pub use totals::{DomainTotals, Totals};

// The places for tickets.
const TICKETS: usize = MOST_TICKETS as usize;

/// Table frames, domains and the rooms of those that aren't there, the row of context entries with the ring and the unit,
/// the tickets of begun flushes, and the number of calls made. Its type keeps that it is a state of some world.
#[derive(Drop)]
pub struct State {
    pool: Pool,
    domains: Vec<Option<Domain>>,
    rooms: Vec<Room>,
    iommu: Iommu,
    tickets: ArrayVec<Ticket, TICKETS>,
    calls: u64,
}

impl Model for State {
    ghost use Rattle.std.specs.Prelude.{vec_capacity, vec_len};
    ghost use Rattle.engine.specs.State.{State};
    ghost use Rattle.engine.specs.Whole.{HasRooms, IsWhole};

    ghost Value = { State };

    ghost view = { λ s. record { pool = s.pool; domains = s.domains.items; iommu = s.iommu; tickets = s.tickets.items; calls = s.calls } };

    ghost invariant = { λ s. IsWhole s.pool.frames
        (record { pool = s.pool; domains = s.domains.items; iommu = s.iommu; tickets = s.tickets.items; calls = s.calls })
        × HasRooms (vec_len s.rooms) (vec_capacity s.rooms) s.domains.items };
}

impl State {
    /// A state with no domain and no attached device, with `frames` table frames, 16 to 4,096, and without Caching Mode. Fails
    /// where memory is lacking.
    pub fn new(alloc: Global, frames: u64) -> Result<State, AllocError>
        requires some { LEAST_TABLE_FRAMES ≤ frames }
        requires few { frames ≤ MOST_TABLE_FRAMES }
        ensures new { IfOk result (IsNew frames false) }
        ensures empty { IfOk result (λ state. Quarantine state (empty frames)) }
    {
        State::with_caching(alloc, frames, false)
    }

    /// The same, with Caching Mode (bit 7 of the capability register) where `on` says so. Then the unit may also remember that
    /// a page is absent, and a map has it forget that before it answers.
    // Never inlined: whoever makes a state would have room on the stack for each of its moves.
    #[inline(never)]
    pub fn with_caching(alloc: Global, frames: u64, on: bool) -> Result<State, AllocError>
        requires some { LEAST_TABLE_FRAMES ≤ frames }
        requires few { frames ≤ MOST_TABLE_FRAMES }
        ensures new { IfOk result (IsNew frames on) }
        ensures empty { IfOk result (λ state. Quarantine state (empty frames)) }
    {
        Ok(State {
            pool: Pool::new(alloc, frames)?,
            domains: no_domains(alloc)?,
            rooms: all_rooms(alloc)?,
            iommu: Iommu::new(on),
            tickets: ArrayVec::new(),
            calls: 0,
        })
    }

    /// The same without the mode, as a state would be after `calls` calls, each with a wait that is done, 2^56 at most. It is
    /// for a test of what comes late in a state's life, as wait numbers that pass 2^32 (own).
    pub fn after(alloc: Global, frames: u64, calls: u64) -> Result<State, AllocError>
        requires some { LEAST_TABLE_FRAMES ≤ frames }
        requires few { frames ≤ MOST_TABLE_FRAMES }
        requires calls { calls ≤ CALLS_END }
        ensures empty { IfOk result (λ state. Quarantine state (empty frames)) }
        ensures calls { IfOk result (λ state. state.calls ≡ calls) }
        ensures sent { IfOk result (λ state. state.iommu.sent ≡ calls) }
    {
        let mut state = State::new(alloc, frames)?;
        state.iommu = Iommu::after(calls);
        state.calls = calls;
        Ok(state)
    }

    /// Makes an empty domain with addresses of this width, and answers its id, the lowest of 1 to 15 that is unused. Refuses with
    /// `TooManyDomains` where all ids are in use, else with `NoFrames` where no table frame is free.
    pub fn domain(&mut self, mode: Mode, width: Width) -> Result<u64, Refusal>
        requires { self.old.calls < CALLS_END }
        ensures { Does self.old (calls.Domain mode width) (made_reply result) self.new }
    {
        self.calls += 1;
        let Some(index) = first_vacant(self.domains.as_slice()) else {
            return Err(Refusal::TooManyDomains);
        };
        let tree = Tree::new(&mut self.pool, width)?;
        let room = self.rooms.pop().unwrap();
        self.domains[index] = Some(Domain::new(mode, tree, room));
        Ok(index as u64 + 1)
    }

    /// Attaches a device, 0 to 15, to a domain. Refuses with `NoDevice`, `NoDomain`, or `Busy` where it is attached, the
    /// first of these that stands.
    pub fn attach(&mut self, device: u64, domain: u64) -> Result<(), Refusal>
        requires { self.old.calls < CALLS_END }
        ensures { Does self.old (calls.Attach device domain) (done_reply result) self.new }
    {
        self.calls += 1;
        if device >= DEVICES {
            return Err(Refusal::NoDevice);
        }
        let Some(id) = DomainId::new(domain) else {
            return Err(Refusal::NoDomain);
        };
        let Some(domain) = &self.domains[place_of(id)] else {
            return Err(Refusal::NoDomain);
        };
        let ContextEntry::Absent = self.iommu.contexts.get(device) else {
            return Err(Refusal::Busy);
        };
        let entry = ContextEntry::Present {
            root: domain.root(),
            width: domain.width(),
            domain: id,
        };
        self.iommu.contexts.set(device, entry);
        Ok(())
    }

    /// Detaches a device, 0 to 15, from its domain, and has the unit forget its context. Refuses with `NoDevice`, else
    /// with `NotAttached`.
    pub fn detach(&mut self, device: u64) -> Result<(), Refusal>
        requires { self.old.calls < CALLS_END }
        ensures { Does self.old (calls.Detach device) (done_reply result) self.new }
    {
        self.calls += 1;
        let Some(number) = DeviceNumber::new(device) else {
            return Err(Refusal::NoDevice);
        };
        let ContextEntry::Present { domain, .. } = self.iommu.contexts.get(device) else {
            return Err(Refusal::NotAttached);
        };
        self.iommu.contexts.clear(device);
        self.iommu.forget_context(domain, number);
        Ok(())
    }

    /// Ends a domain to which no device is attached and of which no ticket is open, with all its pages, and gives all its
    /// table frames back. Refuses with `NoDomain`, or `Busy` where a device is attached or a ticket open.
    pub fn drop_domain(&mut self, domain: u64) -> Result<(), Refusal>
        requires { self.old.calls < CALLS_END }
        ensures { Does self.old (calls.Drop domain) (done_reply result) self.new }
    {
        self.calls += 1;
        let Some(id) = DomainId::new(domain) else {
            return Err(Refusal::NoDomain);
        };
        // A device is attached to a domain that is there, and a ticket is of one.
        if is_attached(&self.iommu.contexts, id) {
            return Err(Refusal::Busy);
        }
        if has_ticket(self.tickets.as_slice(), id) {
            return Err(Refusal::Busy);
        }
        let Some(domain) = self.domains[place_of(id)].take() else {
            return Err(Refusal::NoDomain);
        };
        let room = domain.close(&mut self.pool, &mut self.iommu, id);
        self.rooms.push_reserved(room);
        Ok(())
    }

    /// Maps 1 to 4,096 pages, from a host frame on, at the lowest free multiple of 2^`order` pages, and answers the byte address
    /// of the first. A 48-bit domain is served at 512 GiB and above, where there is room. The rights are 1 to read, 2 to write,
    /// 3 for both. Refuses as `map_list` does.
    pub fn map(
        &mut self,
        domain: u64,
        frame: u64,
        pages: u64,
        order: u64,
        rights: u64,
    ) -> Result<u64, Refusal>
        requires { self.old.calls < CALLS_END }
        ensures { Does self.old (calls.Map domain frame pages order rights) (mapped_reply result) self.new }
    {
        let placed = self.map_segments(domain, order, rights, &[Segment { frame, pages }])?;
        Ok(placed.address)
    }

    /// Maps the pages of all segments, 1 to 4,096 together, one segment after the other, where `map` would map as many
    /// pages, and answers the byte address of the first. Refuses, and maps nothing, with `NoDomain`, `BadRange` (what no
    /// map can ask for), `FrameOwned` (a segment begins at a table frame), or `NoRange`. Then come `TooManyPieces` (the
    /// address space would be cut into too many) and `NoFrames` (the tables that are lacking are more than the free
    /// frames). The first of these that stands is answered.
    pub fn map_list(
        &mut self,
        domain: u64,
        order: u64,
        rights: u64,
        segments: &ArrayVec<Segment, MOST_SEGMENTS>,
    ) -> Result<u64, Refusal>
        requires { self.old.calls < CALLS_END }
        ensures { Does self.old (calls.MapList domain order rights segments.now) (mapped_reply result) self.new }
    {
        let placed = self.map_segments(domain, order, rights, segments.as_slice())?;
        Ok(placed.address)
    }

    /// Maps the pages of segments as `map_list` does, and answers how many they are too.
    #[inline(always)]
    pub fn map_segments(
        &mut self,
        domain: u64,
        order: u64,
        rights: u64,
        segments: &[Segment],
    ) -> Result<Placed, Refusal>
        requires counts { self.old.calls < CALLS_END }
        requires few { length segments.now ≤ MOST_SEGMENTS }
        ensures does { Does self.old (calls.MapList domain order rights (record { items = segments.now })) (placed_reply result) self.new }
        ensures pages { IfOk result (λ placed. placed.pages ≡ total_pages segments.now) }
    {
        self.calls += 1;
        let Some(id) = DomainId::new(domain) else {
            return Err(Refusal::NoDomain);
        };
        let Some(domain) = &mut self.domains[place_of(id)] else {
            return Err(Refusal::NoDomain);
        };
        let wanted = judge(self.pool.frames(), segments, order, rights)?;
        let first = domain.map(&mut self.pool, &mut self.iommu, id, segments, wanted)?;
        Ok(Placed {
            address: PAGE_BYTES * first,
            pages: wanted.pages,
        })
    }

    /// A device's request at a byte address: the host byte address with the frame and the rights of its page, or the fault.
    /// Refuses with `NoDevice`, or `Window` where the address is in the interrupt address range.
    pub fn dma(
        &mut self,
        device: u64,
        address: u64,
        access: Access,
        whim: Whim,
    ) -> Result<Result<Hit, Fault>, Refusal>
        requires { self.old.calls < CALLS_END }
        ensures does { Does self.old (calls.Dma device address access whim) (request_reply result) self.new }
        ensures hit { IfOk result (λ answer. IfOk answer (IsHitOf self.old device address access)) }
    {
        self.calls += 1;
        if device >= DEVICES {
            return Err(Refusal::NoDevice);
        }
        if is_in_window(address) {
            return Err(Refusal::Window);
        }
        let answer = self.iommu.unit.dma(
            &self.pool,
            &self.iommu.contexts,
            device,
            address,
            access,
            whim,
        );
        Ok(answer)
    }

    /// Ends `pages` live pages of a domain, from a byte address on, and answers what became of them. In a strict domain
    /// the pages are invalidated and free when it answers; in a lazy one they become its last record, and where 256 were
    /// there, these are flushed first. Refuses, and ends nothing, with `NoDomain`, `BadRange` (no multiple of 4,096, or a
    /// range that can't be mapped at once), `NotLive` or `TooManyPieces`. Or it does with `NoFrames` (more leaves of 2
    /// MiB are to be split than frames are free). The first of these that stands is answered.
    pub fn unmap(&mut self, domain: u64, address: u64, pages: u64) -> Result<Unmapped, Refusal>
        requires { self.old.calls < CALLS_END }
        ensures does { Does self.old (calls.Unmap domain address pages) (unmapped_reply result) self.new }
        ensures mode { IfOk result (λ unmapped. mode_of (domain_at self.old.domains domain) ≡ Some (mode_by unmapped)) }
    {
        self.calls += 1;
        let Some(id) = DomainId::new(domain) else {
            return Err(Refusal::NoDomain);
        };
        let Some(domain) = &mut self.domains[place_of(id)] else {
            return Err(Refusal::NoDomain);
        };
        let Some(range) = range_at(address, pages, domain.width()) else {
            return Err(Refusal::BadRange);
        };
        domain.unmap(&mut self.pool, &mut self.iommu, id, range)
    }

    /// Releases all retired records of a domain, once the unit has forgotten what it remembers of the domain, and
    /// answers how many there were. Refuses with `NoDomain`.
    pub fn flush(&mut self, domain: u64) -> Result<u64, Refusal>
        requires { self.old.calls < CALLS_END }
        ensures { Does self.old (calls.Flush domain) (flushed_reply result) self.new }
    {
        self.calls += 1;
        let Some(id) = DomainId::new(domain) else {
            return Err(Refusal::NoDomain);
        };
        let Some(domain) = &mut self.domains[place_of(id)] else {
            return Err(Refusal::NoDomain);
        };
        Ok(domain.flush(&mut self.pool, &mut self.iommu, id))
    }

    /// The entry at a place of one of the unit's caches is forgotten, if there is one.
    pub fn evict(&mut self, kind: Cache, place: u64)
        requires { self.old.calls < CALLS_END }
        ensures { Does self.old (calls.Evict kind place) Done self.new }
    {
        self.calls += 1;
        self.iommu.unit.evict(kind, place);
    }

    /// What the type of a state keeps, as a fact for its caller.
    pub fn keeps(&self)
        ensures { IsWhole self.now.pool.frames self.now }
    {
        // What a type keeps is known where something of its value is read.
        let _ = &self.calls;
    }
}

// How many domains there are, and how many calls were made.
impl fmt::Debug for State {
    fn fmt<W: fmt::Write>(&self, f: &mut fmt::Formatter<W>) -> fmt::Result {
        let domains = self
            .domains
            .iter()
            .filter(|domain| domain.is_some())
            .count();
        f.debug_struct("State")
            .field("domains", &domains)
            .field("calls", &self.calls)
            .finish()
    }
}

// The places of all domains, with none there.
fn no_domains(alloc: Global) -> Result<Vec<Option<Domain>>, AllocError>
    ensures { IfOk result (λ v. v.items ≡ replicate MOST_DOMAINS None) }
{
    let mut domains = Vec::with_capacity(alloc, MOST_DOMAINS as usize)?;
    for _place in 0..MOST_DOMAINS {
        domains.push(None)?;
    }
    Ok(domains)
}

// The rooms of all domains.
fn all_rooms(alloc: Global) -> Result<Vec<Room>, AllocError>
    ensures count { IfOk result (λ v. vec_len v ≡ MOST_DOMAINS) }
    ensures room { IfOk result (λ v. MOST_DOMAINS ≤ vec_capacity v) }
{
    let mut rooms = Vec::with_capacity(alloc, MOST_DOMAINS as usize)?;
    for _room in 0..MOST_DOMAINS {
        rooms.push(Room::new(alloc)?)?;
    }
    Ok(rooms)
}

// The first place with no domain.
fn first_vacant(domains: &[Option<Domain>]) -> Option<usize>
    ensures vacant { IfSome result (λ i. (i < length domains.now) × (slice_get domains.now i ≡ Some None)) }
    ensures first { IfSome result (λ i. (d : ℕ) → 1 ≤ d → d ≤ i → IsSome (domain_at domains.now d)) }
    ensures none { IfNone result ((d : ℕ) → 1 ≤ d → d ≤ length domains.now → IsSome (domain_at domains.now d)) }
{
    domains.iter().position(|domain| domain.is_none())
}

// The place of a domain: domains 1 to 15 stand at places 0 to 14.
fn place_of(id: DomainId) -> usize
    ensures place { id ≡ result + 1 }
    ensures low { result < MOST_DOMAINS }
{
    (id.number() - 1) as usize
}

// Whether a device is attached to the domain.
fn is_attached(contexts: &Contexts, id: DomainId) -> bool
    requires { length contexts.now ≡ DEVICES }
    ensures some { IsTrue result → (v : ℕ) × (attached (slice_get contexts.now v) ≡ Some id) }
    ensures none { IsFalse result → (v : ℕ) → attached (slice_get contexts.now v) ≡ Some id → ⊥ }
{
    for device in 0..DEVICES {
        if contexts.domain_of(device) == Some(id.number()) {
            return true;
        }
    }
    false
}

// The pages of an unmap, where it names some.
fn range_at(address: u64, pages: u64, width: Width) -> Option<PageRange>
    ensures some { IfSome result (λ range. (address % PAGE_BYTES ≡ 0)
        × (range ≡ range_at address pages) × IsPageRange (range_at address pages) × Fits (range_at address pages) width) }
    ensures none { IfNone result (IsBadUnmap width address pages) }
{
    if address % PAGE_BYTES != 0 {
        return None;
    }
    let range = PageRange::new(address / PAGE_BYTES, pages)?;
    if range.fits(width) { Some(range) } else { None }
}

// Whether the address lies in the interrupt address range.
fn is_in_window(address: u64) -> bool
    ensures { IsTrue result ↔ IsInWindow address }
{
    let page = address / PAGE_BYTES;
    WINDOW_FIRST <= page && page <= WINDOW_LAST
}
