//! Which answers are allowed to a call that no refusal meets.

ghost use Rattle.std.specs.Prelude.{◌≡◌, ◌↔◌, IsTrue};
ghost use Rattle.dmatypes.specs.declared.refusal.Fault.TheVariants as faults;
ghost use Rattle.dmatypes.specs.declared.reply.Reply.TheVariants.{Faulted, Pending};

use crate::checker::Checker;
use crate::domain::Domain;
use dmatypes::{Access, Fault, MOST_DOMAINS, Mode, PageRange, Progress, Reply, Width};
use std::alloc::AllocError;

#[tactic(auto, unfolding(dmatypes::specs::Step::Answers, dmatypes::specs::Step::next, dmatypes::specs::Allows::Allows))]
impl Checker {
    ghost use Rattle.std.specs.Prelude.{◌≡◌, ◌↔◌, ◌⊎◌, ℕ, suc, Some, IsTrue, IsSomeAnd, IfOk, length, filter};
    ghost use Rattle.std.specs.Option.{option_copied, option_map};
    ghost use Rattle.dmatypes.specs.declared.call.Call.TheVariants as calls;
    ghost use Rattle.dmatypes.specs.declared.call.Cache.{Cache};
    ghost use Rattle.dmatypes.specs.declared.call.Whim.{Whim};
    ghost use Rattle.dmatypes.specs.declared.reply.Reply.TheVariants.{Made, Flushed, Ticket, Reaped};
    ghost use Rattle.dmatypes.specs.Allows.{Allows, domain_of_device};
    ghost use Rattle.dmatypes.specs.Conditions.{IsBadUnmap};
    ghost use Rattle.dmatypes.specs.Page.{range_at};
    ghost use Rattle.dmatypes.specs.Step.{Answers, IsUnmapAnswer, IsUnusedId};
    ghost use Rattle.dmatypes.specs.World as world;
    ghost use Rattle.checker.specs.Judging.{Accepts};
    ghost use Rattle.checker.specs.World.{domain_of, world_of};

    pub(crate) fn accept_domain(
        &mut self,
        mode: Mode,
        width: Width,
        reply: Reply,
    ) -> Result<bool, AllocError>
        ensures { IfOk result (λ legal. Accepts (world_of self.old) (calls.Domain mode width) reply legal (world_of self.new)) }
    {
        match reply {
            Reply::Made(id) => self.accept_id(mode, width, id),
            _ => Ok(false),
        }
    }

    fn accept_id(&mut self, mode: Mode, width: Width, id: u64) -> Result<bool, AllocError>
        ensures { IfOk result (λ legal. Accepts (world_of self.old) (calls.Domain mode width) (Made id) legal (world_of self.new)) }
    {
        if !self.is_unused(id) {
            return Ok(false);
        }
        self.begin_domain(id, mode, width)?;
        Ok(true)
    }

    fn is_unused(&self, id: u64) -> bool
        ensures { IsTrue result ↔ IsUnusedId (world_of self.now) id }
    {
        1 <= id && id <= MOST_DOMAINS && !self.has_domain(id)
    }

    pub(crate) fn accept_drop(&mut self, domain: u64, reply: Reply) -> bool
        ensures { Accepts (world_of self.old) (calls.Drop domain) reply result (world_of self.new) }
    {
        match reply {
            Reply::Done => {
                self.end_domain(domain);
                true
            }
            _ => false,
        }
    }

    pub(crate) fn accept_attach(
        &mut self,
        device: u64,
        domain: u64,
        reply: Reply,
    ) -> Result<bool, AllocError>
        ensures { IfOk result (λ legal. Accepts (world_of self.old) (calls.Attach device domain) reply legal (world_of self.new)) }
    {
        match reply {
            Reply::Done => {
                self.attach(device, domain)?;
                Ok(true)
            }
            _ => Ok(false),
        }
    }

    pub(crate) fn accept_detach(&mut self, device: u64, reply: Reply) -> bool
        ensures { Accepts (world_of self.old) (calls.Detach device) reply result (world_of self.new) }
    {
        match reply {
            Reply::Done => {
                self.detach(device);
                true
            }
            _ => false,
        }
    }

    pub(crate) fn accept_unmap_at(
        &mut self,
        domain: u64,
        address: u64,
        pages: u64,
        reply: Reply,
    ) -> Result<bool, AllocError>
        requires { IsSomeAnd ((world_of self.old).domains domain) (λ v. IsBadUnmap v.width address pages) → ⊥ }
        ensures { IfOk result (λ legal. Accepts (world_of self.old) (calls.Unmap domain address pages) reply legal (world_of self.new)) }
    {
        let Some(range) = self.unmap_range(domain, address, pages) else {
            return Ok(false);
        };
        self.accept_unmap(domain, range, address, pages, reply)
    }

    fn accept_unmap(
        &mut self,
        domain: u64,
        range: PageRange,
        address: u64,
        pages: u64,
        reply: Reply,
    ) -> Result<bool, AllocError>
        requires { range ≡ range_at address pages }
        ensures { IfOk result (λ legal. Accepts (world_of self.old) (calls.Unmap domain address pages) reply legal (world_of self.new)) }
    {
        if !self.is_unmapped(domain, reply) {
            return Ok(false);
        }
        self.unmap(domain, range)?;
        Ok(true)
    }

    fn is_unmapped(&self, domain: u64, reply: Reply) -> bool
        ensures { IsTrue result ↔ IsSomeAnd ((world_of self.now).domains domain) (λ v. IsUnmapAnswer v.mode v.retired reply) }
    {
        match self.domain(domain) {
            Some(domain) => domain.is_unmapped(reply),
            None => false,
        }
    }

    pub(crate) fn accept_flush(&mut self, domain: u64, reply: Reply) -> bool
        ensures { Accepts (world_of self.old) (calls.Flush domain) reply result (world_of self.new) }
    {
        if !self.is_flushed(domain, reply) {
            return false;
        }
        self.flush(domain);
        true
    }

    fn is_flushed(&self, domain: u64, reply: Reply) -> bool
        ensures { IsTrue result ↔ IsSomeAnd ((world_of self.now).domains domain) (λ v. reply ≡ Flushed (length v.retired)) }
    {
        match (self.domain(domain), reply) {
            (Some(domain), Reply::Flushed(released)) => domain.records() == released,
            _ => false,
        }
    }

    pub(crate) fn accept_begin(&mut self, domain: u64, reply: Reply) -> Result<bool, AllocError>
        ensures { IfOk result (λ legal. Accepts (world_of self.old) (calls.Begin domain) reply legal (world_of self.new)) }
    {
        let Reply::Ticket { number, .. } = reply else {
            return Ok(false);
        };
        if !self.is_begun(domain, reply) {
            return Ok(false);
        }
        self.begin(domain, number)?;
        Ok(true)
    }

    fn is_begun(&self, domain: u64, reply: Reply) -> bool
        ensures { IsTrue result ↔ IsSomeAnd ((world_of self.now).domains domain) (λ v. reply ≡ Ticket domain (suc v.begun)) }
    {
        match (self.domain(domain), reply) {
            (
                Some(there),
                Reply::Ticket {
                    domain: other,
                    number,
                },
            ) => other == domain && number > 0 && there.begun() == number - 1,
            _ => false,
        }
    }

    pub(crate) fn accept_unit(&self, reply: Reply) -> bool
        ensures { Accepts (world_of self.now) calls.Unit reply result (world_of self.now) }
    {
        match reply {
            Reply::Stepped(Progress::Did) => true,
            Reply::Stepped(Progress::Idle) => true,
            _ => false,
        }
    }

    pub(crate) fn accept_reap(&mut self, domain: u64, number: u64, reply: Reply) -> bool
        ensures { Accepts (world_of self.old) (calls.Reap domain number) reply result (world_of self.new) }
    {
        if is_pending(reply) {
            return true;
        }
        if !self.is_reaped(domain, number, reply) {
            return false;
        }
        self.reap(domain, number);
        true
    }

    fn is_reaped(&self, domain: u64, number: u64, reply: Reply) -> bool
        ensures { IsTrue result
            ↔ IsSomeAnd ((world_of self.now).domains domain) (λ v. reply ≡ Reaped (length (filter (world.is_before number) v.retired))) }
    {
        match (self.domain(domain), reply) {
            (Some(domain), Reply::Reaped(released)) => domain.before(number) == released,
            _ => false,
        }
    }

    pub(crate) fn accept_dma(&self, device: u64, address: u64, access: Access, reply: Reply) -> bool
        ensures { (whim : Whim) → Accepts (world_of self.now) (calls.Dma device address access whim) reply result (world_of self.now) }
    {
        self.allows(device, address, access, reply)
    }

    // Whether a request may be answered so.
    fn allows(&self, device: u64, address: u64, access: Access, reply: Reply) -> bool
        ensures { IsTrue result ↔ Allows (world_of self.now) device address access reply }
    {
        match self.domain_at(device) {
            None => is_not_attached(reply),
            Some(domain) => domain.allows(address, access, reply),
        }
    }

    /// The domain that a device is attached to.
    pub(crate) fn domain_at(&self, device: u64) -> Option<&Domain>
        ensures { option_map domain_of (option_copied result) ≡ domain_of_device (world_of self.now) device }
    {
        let id = self.domain_of_device(device)?;
        self.domain(id)
    }

    pub(crate) fn accept_evict(&self, reply: Reply) -> bool
        ensures { (kind : Cache) (place : ℕ) → Accepts (world_of self.now) (calls.Evict kind place) reply result (world_of self.now) }
    {
        match reply {
            Reply::Done => true,
            _ => false,
        }
    }
}

fn is_pending(reply: Reply) -> bool
    ensures { IsTrue result ↔ reply ≡ Pending }
{
    matches!(reply, Reply::Pending)
}

fn is_not_attached(reply: Reply) -> bool
    ensures { IsTrue result ↔ reply ≡ Faulted faults.NotAttached }
{
    matches!(reply, Reply::Faulted(Fault::NotAttached))
}
