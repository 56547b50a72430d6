//! Flushes in two halves: begun, done by the unit step by step, and reaped.

ghost use Rattle.std.specs.Prelude.{◌≡◌, ◌<◌, IfNone, IfSome, IsFalse, IsTrue};
ghost use Rattle.dmatypes.specs.World.{IsIn};
ghost use Rattle.dmatypes.specs.declared.call.Call.TheVariants as calls;
ghost use Rattle.dmatypes.specs.declared.limits.TheConstants.{CALLS_END};
ghost use Rattle.dmatypes.specs.declared.reply.Reply.TheVariants.{Stepped};
ghost use Rattle.engine.specs.State.{begun_reply, reaped_reply};
ghost use Rattle.engine.specs.Steps.{Does};

use super::{State, TICKETS, place_of};
use crate::ticket::Ticket;
use dmatypes::{Progress, Refusal};
use vtdbits::DomainId;

impl State {
    /// Begins a flush of a domain, and answers its number among the domain's begun flushes, from 1: its descriptors are sent,
    /// and the unit isn't run. Refuses with `NoDomain`, else with `TooManyTickets` where 64 begun flushes aren't reaped.
    pub fn begin(&mut self, domain: u64) -> Result<u64, Refusal>
        requires { self.old.calls < CALLS_END }
        ensures { Does self.old (calls.Begin domain) (begun_reply domain result) self.new }
    {
        self.calls += 1;
        let Some(id) = DomainId::new(domain) else {
            return Err(Refusal::NoDomain);
        };
        let Some(domain) = &mut self.domains[place_of(id)] else {
            return Err(Refusal::NoDomain);
        };
        if self.tickets.len() >= TICKETS {
            return Err(Refusal::TooManyTickets);
        }
        let number = domain.begin();
        let wait = self.iommu.begin(id);
        self.tickets.push(Ticket {
            domain: id,
            number,
            wait,
        });
        Ok(number)
    }

    /// Lets the unit make one step: it does the oldest descriptor that waits, or is idle where none does.
    pub fn unit_step(&mut self) -> Progress
        requires { self.old.calls < CALLS_END }
        ensures { Does self.old calls.Unit (Stepped result) self.new }
    {
        self.calls += 1;
        self.iommu.step()
    }

    /// Ends a begun flush of a domain by its number: releases the retired records that were there when it was begun, and
    /// answers how many; `None` where its wait isn't done, and then nothing changes. Refuses with `BadTicket` where there is no
    /// such flush, or it was reaped.
    pub fn reap(&mut self, domain: u64, number: u64) -> Result<Option<u64>, Refusal>
        requires { self.old.calls < CALLS_END }
        ensures { Does self.old (calls.Reap domain number) (reaped_reply result) self.new }
    {
        self.calls += 1;
        let Some(ticket) = ticket_of(self.tickets.as_slice(), domain, number) else {
            return Err(Refusal::BadTicket);
        };
        if self.iommu.last_done() < ticket.wait {
            return Ok(None);
        }
        let Some(domain) = &mut self.domains[place_of(ticket.domain)] else {
            unreachable!()
        };
        let released = domain.reap(&mut self.pool, &self.iommu, ticket);
        self.tickets.retain(|other| other.domain != ticket.domain || other.number != ticket.number);
        Ok(Some(released))
    }
}

// The ticket of a domain and a number.
fn ticket_of(tickets: &[Ticket], domain: u64, number: u64) -> Option<Ticket>
    ensures some { IfSome result (λ t. IsIn t tickets.now × (t.domain ≡ domain) × (t.number ≡ number)) }
    ensures none { IfNone result ((t : Ticket) → IsIn t tickets.now → t.domain ≡ domain → t.number ≡ number → ⊥) }
{
    for ticket in tickets {
        if ticket.domain.number() == domain && ticket.number == number {
            return Some(*ticket);
        }
    }
    None
}

// Whether a ticket is of the domain.
pub(super) fn has_ticket(tickets: &[Ticket], id: DomainId) -> bool
    ensures some { IsTrue result → (t : Ticket) × IsIn t tickets.now × (t.domain ≡ id) }
    ensures none { IsFalse result → (t : Ticket) → IsIn t tickets.now → t.domain ≡ id → ⊥ }
{
    for ticket in tickets {
        if ticket.domain == id {
            return true;
        }
    }
    false
}
