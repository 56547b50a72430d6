//! What would have been allowed in the place of a reply.

use crate::allowing::one;
use crate::asking::pages_of;
use crate::checker::Checker;
use dmatypes::{Access, Call, Fault, PAGE_BYTES, PageRange, Progress, Reply, Segment};
use std::alloc::{AllocError, Global};

#[tactic(auto, unfolding(dmatypes::specs::Step::Answers, dmatypes::specs::Allows::Allows))]
impl Checker {
    ghost use Rattle.std.specs.Prelude.{ℕ, IfOk, MatchOption, Some};
    ghost use Rattle.dmatypes.specs.declared.call.Call.TheVariants as calls;
    ghost use Rattle.dmatypes.specs.declared.call.Mode.{Mode};
    ghost use Rattle.dmatypes.specs.declared.reply.Reply.{Reply};
    ghost use Rattle.dmatypes.specs.declared.width.Width.{Width};
    ghost use Rattle.dmatypes.specs.Allows.{Allows};
    ghost use Rattle.dmatypes.specs.Conditions.{NoConditionStands, NoneStands, StandsAtMap};
    ghost use Rattle.dmatypes.specs.Step.{IsMapAnswer};
    ghost use Rattle.checker.specs.Allowed.{AreAllowed, IsExpected, IsExpectedAnswer, IsObstacle};
    ghost use Rattle.checker.specs.Judging.{IsAnswer};
    ghost use Rattle.checker.specs.Refusing.{map_conditions};
    ghost use Rattle.checker.specs.World.{world_of};

    /// A reply that is allowed to a call: the refusal that is due, where one is, else an answer, to a request without what is
    /// stale. None only to a begin of a flush whose number has no 64 bits.
    pub fn expected(&self, call: &Call) -> Option<Reply>
        ensures { IsExpected (world_of self.now) call.now result }
    {
        match self.refusal_of(call) {
            Some(refusal) => Some(Reply::Refused(refusal)),
            None => self.answer(call),
        }
    }

    /// All answers that are allowed to a device's request at a byte address, if it isn't refused.
    pub fn allowed(
        &self,
        alloc: Global,
        device: u64,
        address: u64,
        access: Access,
    ) -> Result<Vec<Reply>, AllocError>
        ensures { IfOk result (λ replies. AreAllowed (world_of self.now) device address access replies.items) }
    {
        match self.domain_at(device) {
            None => one(alloc, Reply::Faulted(Fault::NotAttached)),
            Some(domain) => domain.answers(alloc, address, access),
        }
    }

    /// A page number of a range that is no free page of a domain, where there is one.
    pub fn obstacle(&self, domain: u64, range: PageRange) -> Option<u64>
        ensures { IsObstacle ((world_of self.now).domains domain) range result }
    {
        self.domain(domain)?.obstacle(range.first(), range.pages())
    }

    // An answer that is allowed to a call.
    fn answer(&self, call: &Call) -> Option<Reply>
        requires { NoConditionStands (world_of self.now) call.now }
        ensures { IsExpectedAnswer (world_of self.now) call.now result }
    {
        match call {
            Call::Domain { .. } => self.domain_answer(),
            Call::Drop { .. } | Call::Attach { .. } | Call::Detach { .. } | Call::Evict { .. } => {
                Some(Reply::Done)
            }
            Call::Map {
                domain,
                frame,
                pages,
                order,
                rights,
            } => {
                let segment = Segment {
                    frame: *frame,
                    pages: *pages,
                };
                self.map_answer(*domain, &[segment], *order, *rights)
            }
            Call::MapList {
                domain,
                order,
                rights,
                segments,
            } => self.map_answer(*domain, segments.as_slice(), *order, *rights),
            Call::Unmap { domain, .. } => self.unmap_answer(*domain),
            Call::Flush { domain } => self.flush_answer(*domain),
            Call::Begin { domain } => self.begin_answer(*domain),
            Call::Unit => Some(Reply::Stepped(Progress::Idle)),
            Call::Reap { domain, number } => Some(self.reap_answer(*domain, *number)),
            Call::Dma {
                device,
                address,
                access,
                ..
            } => Some(self.dma_answer(*device, *address, *access)),
        }
    }

    fn domain_answer(&self) -> Option<Reply>
        ensures { (mode : Mode) (width : Width) → IsExpectedAnswer (world_of self.now) (calls.Domain mode width) result }
    {
        Some(Reply::Made(self.unused()?))
    }

    fn map_answer(
        &self,
        domain: u64,
        segments: &[Segment],
        order: u64,
        rights: u64,
    ) -> Option<Reply>
        requires { NoneStands (StandsAtMap (world_of self.now) domain segments.now order rights) map_conditions }
        ensures { MatchOption result
            ((reply : Reply) → IsMapAnswer (world_of self.now) domain segments.now order reply → ⊥)
            (λ reply. IsAnswer reply × IsMapAnswer (world_of self.now) domain segments.now order reply) }
    {
        let pages = pages_of(segments)?;
        let first = self.domain(domain)?.free_range(pages, order)?;
        Some(Reply::Mapped(first * PAGE_BYTES))
    }

    fn unmap_answer(&self, domain: u64) -> Option<Reply>
        ensures { (address pages : ℕ) → IsExpectedAnswer (world_of self.now) (calls.Unmap domain address pages) result }
    {
        Some(Reply::Unmapped(self.domain(domain)?.released()))
    }

    fn flush_answer(&self, domain: u64) -> Option<Reply>
        ensures { IsExpectedAnswer (world_of self.now) (calls.Flush domain) result }
    {
        Some(Reply::Flushed(self.domain(domain)?.records()))
    }

    fn begin_answer(&self, domain: u64) -> Option<Reply>
        ensures { IsExpectedAnswer (world_of self.now) (calls.Begin domain) result }
    {
        let number = self.domain(domain)?.begun().checked_add(1)?;
        Some(Reply::Ticket { domain, number })
    }

    fn reap_answer(&self, domain: u64, number: u64) -> Reply
        ensures { IsExpectedAnswer (world_of self.now) (calls.Reap domain number) (Some result) }
    {
        match self.domain(domain) {
            Some(domain) => Reply::Reaped(domain.before(number)),
            None => Reply::Pending,
        }
    }

    fn dma_answer(&self, device: u64, address: u64, access: Access) -> Reply
        ensures allowed { Allows (world_of self.now) device address access result }
        ensures answer { IsAnswer result }
    {
        match self.domain_at(device) {
            None => Reply::Faulted(Fault::NotAttached),
            Some(domain) => domain.answer(address, access),
        }
    }
}
