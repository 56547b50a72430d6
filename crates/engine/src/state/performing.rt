//! A call of any kind, made by the method for it.

ghost use Rattle.std.specs.Prelude.{◌≡◌, ◌<◌};
ghost use Rattle.dmatypes.specs.World.{World};
ghost use Rattle.dmatypes.specs.declared.limits.TheConstants.{CALLS_END};
ghost use Rattle.dmatypes.specs.declared.reply.Reply.TheVariants.{Refused};
ghost use Rattle.engine.specs.Details.{hit_of, request_detail, unmapped_detail};
ghost use Rattle.engine.specs.Hits.{IsHitIn, IsNoRequest, IsNoUnmap, IsDetailIn};
ghost use Rattle.engine.specs.declared.answer.Detail.TheVariants.{Nothing};
ghost use Rattle.engine.specs.Quarantine.{Quarantine};
ghost use Rattle.engine.specs.State.{begun_reply, done_reply, flushed_reply, made_reply, mapped_reply, reaped_reply, request_reply};
ghost use Rattle.engine.specs.State.{unmapped_reply};
ghost use Rattle.engine.specs.Steps.{Does};

use super::State;
use crate::answer::{Answer, Detail, Unmapped};
use dmatypes::{Call, Fault, Refusal, Reply};
use unit::Hit;

impl State {
    /// Makes a call. Whoever knows its kind pays for no look at it.
    #[inline(always)]
    pub fn perform(&mut self, call: &Call) -> Answer
        requires { self.old.calls < CALLS_END }
        ensures does { Does self.old call.now result.reply self.new }
        ensures hit { (w : World) → Quarantine self.old w → IsHitIn w call.now result.reply (hit_of result.detail) }
        ensures unmapped { (w : World) → Quarantine self.old w → IsDetailIn w call.now result.reply result.detail }
    {
        match call {
            Call::Dma {
                device,
                address,
                access,
                whim,
            } => requested(self.dma(*device, *address, *access, *whim)),
            Call::Unmap {
                domain,
                address,
                pages,
            } => unmapped(self.unmap(*domain, *address, *pages)),
            _ => Answer {
                reply: self.reply_to(call),
                detail: Detail::Nothing,
            },
        }
    }

    // Makes a call whose reply says all.
    #[inline(always)]
    fn reply_to(&mut self, call: &Call) -> Reply
        requires counts { self.old.calls < CALLS_END }
        requires request { IsNoRequest call.now }
        requires unmap { IsNoUnmap call.now }
        ensures { Does self.old call.now result self.new }
    {
        match call {
            Call::Domain { mode, width } => made(self.domain(*mode, *width)),
            Call::Drop { domain } => done(self.drop_domain(*domain)),
            Call::Attach { device, domain } => done(self.attach(*device, *domain)),
            Call::Detach { device } => done(self.detach(*device)),
            Call::Map {
                domain,
                frame,
                pages,
                order,
                rights,
            } => mapped(self.map(*domain, *frame, *pages, *order, *rights)),
            Call::MapList {
                domain,
                order,
                rights,
                segments,
            } => mapped(self.map_list(*domain, *order, *rights, segments)),
            Call::Flush { domain } => flushed(self.flush(*domain)),
            Call::Begin { domain } => begun(*domain, self.begin(*domain)),
            Call::Unit => Reply::Stepped(self.unit_step()),
            Call::Reap { domain, number } => reaped(self.reap(*domain, *number)),
            Call::Unmap { .. } | Call::Dma { .. } => unreachable!(),
            Call::Evict { kind, place } => {
                self.evict(*kind, *place);
                Reply::Done
            }
        }
    }
}

fn made(answer: Result<u64, Refusal>) -> Reply
    ensures { result ≡ made_reply answer }
{
    match answer {
        Ok(domain) => Reply::Made(domain),
        Err(refusal) => Reply::Refused(refusal),
    }
}

fn done(answer: Result<(), Refusal>) -> Reply
    ensures { result ≡ done_reply answer }
{
    match answer {
        Ok(()) => Reply::Done,
        Err(refusal) => Reply::Refused(refusal),
    }
}

fn mapped(answer: Result<u64, Refusal>) -> Reply
    ensures { result ≡ mapped_reply answer }
{
    match answer {
        Ok(address) => Reply::Mapped(address),
        Err(refusal) => Reply::Refused(refusal),
    }
}

fn unmapped(answer: Result<Unmapped, Refusal>) -> Answer
    ensures reply { result.reply ≡ unmapped_reply answer }
    ensures detail { result.detail ≡ unmapped_detail answer }
{
    match answer {
        Ok(unmapped) => Answer {
            reply: Reply::Unmapped(unmapped.released()),
            detail: Detail::Unmapped(unmapped),
        },
        Err(refusal) => refused(refusal),
    }
}

fn flushed(answer: Result<u64, Refusal>) -> Reply
    ensures { result ≡ flushed_reply answer }
{
    match answer {
        Ok(released) => Reply::Flushed(released),
        Err(refusal) => Reply::Refused(refusal),
    }
}

fn begun(domain: u64, answer: Result<u64, Refusal>) -> Reply
    ensures { result ≡ begun_reply domain answer }
{
    match answer {
        Ok(number) => Reply::Ticket { domain, number },
        Err(refusal) => Reply::Refused(refusal),
    }
}

fn reaped(answer: Result<Option<u64>, Refusal>) -> Reply
    ensures { result ≡ reaped_reply answer }
{
    match answer {
        Ok(Some(released)) => Reply::Reaped(released),
        Ok(None) => Reply::Pending,
        Err(refusal) => Reply::Refused(refusal),
    }
}

fn requested(answer: Result<Result<Hit, Fault>, Refusal>) -> Answer
    ensures reply { result.reply ≡ request_reply answer }
    ensures detail { result.detail ≡ request_detail answer }
{
    match answer {
        Ok(Ok(hit)) => Answer {
            reply: Reply::Host(hit.host),
            detail: Detail::Hit(hit),
        },
        Ok(Err(fault)) => Answer {
            reply: Reply::Faulted(fault),
            detail: Detail::Nothing,
        },
        Err(refusal) => refused(refusal),
    }
}

fn refused(refusal: Refusal) -> Answer
    ensures { result ≡ record { reply = Refused refusal; detail = Nothing } }
{
    Answer {
        reply: Reply::Refused(refusal),
        detail: Detail::Nothing,
    }
}
