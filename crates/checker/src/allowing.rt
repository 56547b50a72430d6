//! What a request may be answered in a domain.

ghost use Rattle.std.specs.Prelude.{◌≡◌, ◌↔◌, ◌++◌, [], ◌∷◌, IsTrue, IfOk, OnOk};
ghost use Rattle.checker.specs.Reaching.{hosts};
ghost use Rattle.dmatypes.specs.Allows.{fault_of};
ghost use Rattle.dmatypes.specs.declared.refusal.Fault.TheVariants as faults;
ghost use Rattle.dmatypes.specs.declared.reply.Reply.TheVariants.{Faulted};

use crate::domain::Domain;
use crate::record::Record;
use crate::target::Target;
use dmatypes::{Access, Fault, PAGE_BYTES, Reply};
use std::alloc::{AllocError, Global};

impl Domain {
    ghost use Rattle.std.specs.Prelude.{◌≡◌, ◌↔◌, ◌∷◌, IsTrue, IfOk, MatchOption};
    ghost use Rattle.std.specs.List.{list_any};
    ghost use Rattle.dmatypes.specs.World as world;
    ghost use Rattle.dmatypes.specs.Allows.{AllowsIn, AllowsWithin, IsLiveFor, fault_of};
    ghost use Rattle.dmatypes.specs.declared.reply.Reply.TheVariants.{Faulted};
    ghost use Rattle.checker.specs.Judging.{IsAnswer};
    ghost use Rattle.checker.specs.Allowed.{AreAllowedIn};
    ghost use Rattle.checker.specs.Reaching.{hosts, reaches};
    ghost use Rattle.checker.specs.World.{domain_of};

    /// Whether a request may be answered so.
    pub(crate) fn allows(&self, address: u64, access: Access, reply: Reply) -> bool
        ensures { IsTrue result ↔ AllowsIn (domain_of self.now) address access reply }
    {
        if address >= self.width.addresses_end() {
            is_beyond(reply)
        } else {
            self.allows_within(address, access, reply)
        }
    }

    // Whether a request within the width may be answered so.
    fn allows_within(&self, address: u64, access: Access, reply: Reply) -> bool
        ensures { IsTrue result ↔ AllowsWithin (domain_of self.now) address access reply }
    {
        match self.live_for(address, access) {
            Some(target) => target.is_host(address, reply),
            None => is_fault(access, reply) || self.reaches_retired(address, access, reply),
        }
    }

    /// The answer to a request that is allowed where nothing stale is used.
    pub(crate) fn answer(&self, address: u64, access: Access) -> Reply
        ensures allowed { AllowsIn (domain_of self.now) address access result }
        ensures answer { IsAnswer result }
    {
        if address >= self.width.addresses_end() {
            return Reply::Faulted(Fault::BeyondWidth);
        }
        match self.live_for(address, access) {
            Some(target) => Reply::Host(target.host(address)),
            None => Reply::Faulted(fault_of(access)),
        }
    }

    /// All answers to a request that are allowed.
    pub(crate) fn answers(
        &self,
        alloc: Global,
        address: u64,
        access: Access,
    ) -> Result<Vec<Reply>, AllocError>
        ensures { IfOk result (λ replies. AreAllowedIn (domain_of self.now) address access replies.items) }
    {
        if address >= self.width.addresses_end() {
            return one(alloc, Reply::Faulted(Fault::BeyondWidth));
        }
        match self.live_for(address, access) {
            Some(target) => one(alloc, Reply::Host(target.host(address))),
            None => self.stale_answers(alloc, address, access),
        }
    }

    // The fault, and the host addresses by the records.
    fn stale_answers(
        &self,
        alloc: Global,
        address: u64,
        access: Access,
    ) -> Result<Vec<Reply>, AllocError>
        ensures { IfOk result (λ replies. replies.items ≡ Faulted (fault_of access) ∷ hosts address access self.now.retired.items) }
    {
        let mut replies = one(alloc, Reply::Faulted(fault_of(access)))?;
        push_hosts(self.retired.as_slice(), address, access, &mut replies)?;
        Ok(replies)
    }

    // What the page of an address is mapped to, where it is live with the right.
    fn live_for(&self, address: u64, access: Access) -> Option<Target>
        ensures { MatchOption result
            ((t : world.Target) → IsLiveFor (domain_of self.now) address access t → ⊥)
            (IsLiveFor (domain_of self.now) address access) }
    {
        let target = self.live.get(address / PAGE_BYTES)?;
        if target.permits(access) {
            Some(target)
        } else {
            None
        }
    }

    // Whether a reply is the host address that a request comes to by one of the records.
    fn reaches_retired(&self, address: u64, access: Access, reply: Reply) -> bool
        ensures { result ≡ list_any (λ r. reaches address access reply r) self.now.retired.items }
    {
        self.retired
            .iter()
            .any(|record| record.reaches(address, access, reply))
    }
}

/// A list of one reply.
pub(crate) fn one(alloc: Global, reply: Reply) -> Result<Vec<Reply>, AllocError>
    ensures { IfOk result (λ replies. replies.items ≡ reply ∷ []) }
{
    let mut replies = Vec::new(alloc);
    replies.push(reply)?;
    Ok(replies)
}

// Puts the host addresses that a request comes to by the records behind other replies.
fn push_hosts(
    records: &[Record],
    address: u64,
    access: Access,
    replies: &mut Vec<Reply>,
) -> Result<(), AllocError>
    ensures { OnOk result (replies.new.items ≡ replies.old.items ++ hosts address access records.now) }
{
    for record in records {
        if let Some(host) = record.host(address, access) {
            replies.push(Reply::Host(host))?;
        }
    }
    Ok(())
}

// The fault of an access that isn't permitted.
fn fault_of(access: Access) -> Fault
    ensures { result ≡ fault_of access }
{
    match access {
        Access::Read => Fault::Read,
        Access::Write => Fault::Write,
    }
}

// Whether a reply is the fault of an address beyond the width.
fn is_beyond(reply: Reply) -> bool
    ensures { IsTrue result ↔ reply ≡ Faulted faults.BeyondWidth }
{
    matches!(reply, Reply::Faulted(Fault::BeyondWidth))
}

// Whether a reply is the fault of an access that isn't permitted.
fn is_fault(access: Access, reply: Reply) -> bool
    ensures { IsTrue result ↔ reply ≡ Faulted (fault_of access) }
{
    match access {
        Access::Read => matches!(reply, Reply::Faulted(Fault::Read)),
        Access::Write => matches!(reply, Reply::Faulted(Fault::Write)),
    }
}
