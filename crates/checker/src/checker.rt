//! The world that a history has led to.

ghost use Rattle.std.specs.Prelude.{◌≡◌, ◌==◌, filter, not};
ghost use Rattle.std.specs.BTreeMap as tree;
ghost use Rattle.std.specs.List.{list_any};
ghost use Rattle.std.specs.Ordering.{nat_cmp};
ghost use Rattle.dmatypes.specs.World.{is_ticket};

use crate::domain::Domain;
use crate::ticket::Ticket;
use dmatypes::{MOST_DOMAINS, Mode, PageRange, Segment, Width};
use std::alloc::{AllocError, Global};
use std::collections::BTreeMap;

/// A world: the domains by id, the domain of each attached device, and the open tickets.
#[derive(Drop)]
pub struct Checker {
    alloc: Global,
    pub(crate) table_frames: u64,
    pub(crate) domains: BTreeMap<u64, Domain>,
    pub(crate) devices: BTreeMap<u64, u64>,
    pub(crate) tickets: Vec<Ticket>,
}

impl Checker {
    ghost use Rattle.std.specs.Prelude.{◌≡◌, ◌+◌, ◌<◌, ◌≤◌, ◌^◌, ◌↔◌, ℕ, suc, Some, None, IsTrue, IsSome, OnOk, MatchOption, is_some};
    ghost use Rattle.std.specs.List.{AllByRecursion};
    ghost use Rattle.std.specs.Ordering.{nat_cmp};
    ghost use Rattle.std.specs.BTreeMap as tree;
    ghost use Rattle.std.specs.Option.{option_copied};
    ghost use Rattle.dmatypes.specs.declared.limits.TheConstants.{MOST_DOMAINS};
    ghost use Rattle.dmatypes.specs.declared.page.TheConstants.{FRAMES_END};
    ghost use Rattle.dmatypes.specs.Conditions.{total_pages, SomeIsAttached, SomeTicketIsOpen, IsOpen};
    ghost use Rattle.dmatypes.specs.Step.{IsUnusedId};
    ghost use Rattle.dmatypes.specs.World as world;
    ghost use Rattle.checker.specs.Pages.{range};
    ghost use Rattle.checker.specs.World.{world_of};

    /// The empty world.
    pub fn new(alloc: Global, table_frames: u64) -> Checker
        ensures { world_of result ≡ world.empty table_frames }
    {
        Checker {
            alloc,
            table_frames,
            domains: BTreeMap::new(alloc),
            devices: BTreeMap::new(alloc),
            tickets: Vec::new(alloc),
        }
    }

    // ---- what is asked of it

    /// The domain of an id.
    pub(crate) fn domain(&self, id: u64) -> Option<&Domain>
        ensures { option_copied result ≡ tree.get nat_cmp self.now.domains id }
    {
        self.domains.get(&id)
    }

    /// Whether the id is of a domain.
    pub(crate) fn has_domain(&self, id: u64) -> bool
        ensures { IsTrue result ↔ IsSome ((world_of self.now).domains id) }
    {
        self.domains.contains_key(&id)
    }

    /// The domain that a device is attached to.
    pub fn domain_of_device(&self, device: u64) -> Option<u64>
        ensures { result ≡ (world_of self.now).devices device }
    {
        self.devices.get(&device).copied()
    }

    /// The least id that is of no domain.
    pub(crate) fn unused(&self) -> Option<u64>
        ensures { MatchOption result
            ((d : ℕ) → 1 ≤ d → d ≤ MOST_DOMAINS → IsSome ((world_of self.now).domains d))
            (IsUnusedId (world_of self.now)) }
    {
        for id in 1..MOST_DOMAINS + 1 {
            if !self.has_domain(id) {
                return Some(id);
            }
        }
        None
    }

    /// Whether some device is attached to a domain.
    pub(crate) fn is_attached(&self, domain: u64) -> bool
        ensures { IsTrue result ↔ SomeIsAttached (world_of self.now) domain }
    {
        is_among(&self.devices, domain)
    }

    /// Whether some ticket of a domain is open.
    pub(crate) fn has_ticket(&self, domain: u64) -> bool
        ensures { IsTrue result ↔ SomeTicketIsOpen (world_of self.now) domain }
    {
        has_ticket_of(self.tickets.as_slice(), domain)
    }

    /// Whether a ticket is open.
    pub(crate) fn is_open(&self, domain: u64, number: u64) -> bool
        ensures { IsTrue result ↔ IsOpen (world_of self.now) domain number }
    {
        has(self.tickets.as_slice(), domain, number)
    }

    // ---- how it changes

    /// A domain begins, with no page.
    pub(crate) fn begin_domain(
        &mut self,
        id: u64,
        mode: Mode,
        width: Width,
    ) -> Result<(), AllocError>
        ensures { OnOk result
            (world_of self.new ≡ record (world_of self.old) {
              domains = world.put id (Some (world.empty_domain mode width)) (world_of self.old).domains;
            }) }
    {
        self.domains
            .insert(id, Domain::new(self.alloc, mode, width))?;
        Ok(())
    }

    /// A domain ends.
    pub(crate) fn end_domain(&mut self, id: u64)
        ensures { world_of self.new ≡ record (world_of self.old) { domains = world.put id None (world_of self.old).domains } }
    {
        let _ = self.domains.remove(&id);
    }

    /// A device is attached.
    pub(crate) fn attach(&mut self, device: u64, domain: u64) -> Result<(), AllocError>
        ensures { OnOk result
            (world_of self.new ≡ record (world_of self.old) { devices = world.put device (Some domain) (world_of self.old).devices }) }
    {
        self.devices.insert(device, domain)?;
        Ok(())
    }

    /// A device is detached.
    pub(crate) fn detach(&mut self, device: u64)
        ensures { world_of self.new ≡ record (world_of self.old) { devices = world.put device None (world_of self.old).devices } }
    {
        let _ = self.devices.remove(&device);
    }

    /// The segments become live in a domain.
    pub(crate) fn map(
        &mut self,
        id: u64,
        first: u64,
        segments: &[Segment],
        rights: u64,
    ) -> Result<(), AllocError>
        requires some { AllByRecursion (λ s. 1 ≤ s.pages) segments.now }
        requires pages { first + total_pages segments.now < 2 ^ 64 }
        requires frames { AllByRecursion (λ s. s.frame + s.pages ≤ FRAMES_END) segments.now }
        requires free { (v : world.Domain) → (world_of self.old).domains id ≡ Some v
            → world.AreFreePages v (range first (total_pages segments.now)) }
        ensures { OnOk result (world_of self.new ≡ world.with_domain id (world.mapped segments.now first rights) (world_of self.old)) }
    {
        if let Some(domain) = self.domains.get_mut(&id) {
            domain.map(first, segments, rights)?;
        }
        Ok(())
    }

    /// The pages of a range are unmapped in a domain.
    pub(crate) fn unmap(&mut self, id: u64, range: PageRange) -> Result<(), AllocError>
        ensures { OnOk result (world_of self.new ≡ world.with_domain id (λ v. world.unmapped_by v.mode range v) (world_of self.old)) }
    {
        if let Some(domain) = self.domains.get_mut(&id) {
            domain.unmap(self.alloc, range)?;
        }
        Ok(())
    }

    /// All records of a domain go.
    pub(crate) fn flush(&mut self, id: u64)
        ensures { world_of self.new ≡ world.with_domain id world.flushed (world_of self.old) }
    {
        if let Some(domain) = self.domains.get_mut(&id) {
            domain.flush();
        }
    }

    /// A flush of a domain is begun, of this number, and its ticket is opened.
    pub(crate) fn begin(&mut self, id: u64, number: u64) -> Result<(), AllocError>
        requires { (v : world.Domain) → (world_of self.old).domains id ≡ Some v → number ≡ suc v.begun }
        ensures { OnOk result
            (world_of self.new ≡ world.with_ticket (record { domain = id; number = number })
            (world.with_domain id world.begun_once_more (world_of self.old))) }
    {
        if let Some(domain) = self.domains.get_mut(&id) {
            domain.begin(number);
        }
        self.tickets.push(Ticket::new(id, number))?;
        Ok(())
    }

    /// A ticket is closed, and the records go that were there before its flush was begun.
    pub(crate) fn reap(&mut self, id: u64, number: u64)
        ensures { world_of self.new ≡ world.without_ticket (record { domain = id; number = number })
            (world.with_domain id (world.reaped number) (world_of self.old)) }
    {
        if let Some(domain) = self.domains.get_mut(&id) {
            domain.reap(number);
        }
        remove_ticket(&mut self.tickets, id, number);
    }
}

// Whether a domain is that of some device.
fn is_among(devices: &BTreeMap<u64, u64>, domain: u64) -> bool
    ensures value { result ≡ list_any (λ d. d == domain) (tree.values devices.now) }
    ensures ordered { tree.IsOrdered nat_cmp devices.now }
{
    devices.values().any(|id| *id == domain)
}

// Whether a domain is that of some ticket.
fn has_ticket_of(tickets: &[Ticket], domain: u64) -> bool
    ensures { result ≡ list_any (λ t. t.domain == domain) tickets.now }
{
    tickets.iter().any(|ticket| ticket.domain() == domain)
}

// Whether a domain's ticket of this number is there.
fn has(tickets: &[Ticket], domain: u64, number: u64) -> bool
    ensures { result ≡ list_any (λ t. is_ticket (record { domain = domain; number = number }) t) tickets.now }
{
    tickets.iter().any(|ticket| ticket.is_of(domain, number))
}

// All other tickets stay.
fn remove_ticket(tickets: &mut Vec<Ticket>, domain: u64, number: u64)
    ensures { tickets.new.items ≡ filter (λ t. not (is_ticket (record { domain = domain; number = number }) t)) tickets.old.items }
{
    tickets.retain(|ticket| !ticket.is_of(domain, number));
}
