//! Judges events.

ghost use Rattle.std.specs.Prelude.{◌≡◌, ◌↔◌, IsTrue};
ghost use Rattle.dmatypes.specs.Conditions.{MayMeet};

use crate::checker::Checker;
use dmatypes::{Call, Refusal, Reply, Segment};
use std::alloc::AllocError;

impl Checker {
    ghost use Rattle.std.specs.Prelude.{◌≡◌, ◌↔◌, IsTrue, IfOk};
    ghost use Rattle.dmatypes.specs.declared.reply.Reply.TheVariants.{Refused};
    ghost use Rattle.dmatypes.specs.Conditions.{NoConditionStands};
    ghost use Rattle.dmatypes.specs.Step.{IsStep};
    ghost use Rattle.checker.specs.Judging.{Accepts, IsAnswer, IsNoMap, Judges};
    ghost use Rattle.checker.specs.World.{world_of};

    /// Judges the next event: whether the reply is allowed to the call. Where it is, the world becomes the next one; where
    /// it isn't, the world stays. At an error, which is want of memory alone, a map may be half entered: judge no more then.
    pub fn judge(&mut self, call: &Call, reply: Reply) -> Result<bool, AllocError>
        ensures { IfOk result (λ legal. Judges (world_of self.old) call.now reply legal (world_of self.new)) }
    {
        match reply {
            Reply::Refused(refusal) => Ok(self.may_refuse(call, refusal)),
            _ => self.judge_answer(call, reply),
        }
    }

    // Whether a call may be refused so.
    fn may_refuse(&self, call: &Call, refusal: Refusal) -> bool
        ensures { IsTrue result ↔ IsStep (world_of self.now) call.now (Refused refusal) }
    {
        match self.refusal_of(call) {
            Some(first) => is_same(first, refusal),
            None => may_meet(call, refusal),
        }
    }

    // Judges a reply that isn't a refusal.
    fn judge_answer(&mut self, call: &Call, reply: Reply) -> Result<bool, AllocError>
        requires { IsAnswer reply }
        ensures { IfOk result (λ legal. Judges (world_of self.old) call.now reply legal (world_of self.new)) }
    {
        match call {
            Call::Map {
                domain,
                frame,
                pages,
                order,
                rights,
            } => {
                let segment = Segment {
                    frame: *frame,
                    pages: *pages,
                };
                self.judge_map(*domain, &[segment], *order, *rights, reply)
            }
            Call::MapList {
                domain,
                order,
                rights,
                segments,
            } => self.judge_map(*domain, segments.as_slice(), *order, *rights, reply),
            _ => self.judge_other(call, reply),
        }
    }

    fn judge_other(&mut self, call: &Call, reply: Reply) -> Result<bool, AllocError>
        requires answer { IsAnswer reply }
        requires no_map { IsNoMap call.now }
        ensures { IfOk result (λ legal. Judges (world_of self.old) call.now reply legal (world_of self.new)) }
    {
        match self.refusal_of(call) {
            Some(_) => Ok(false),
            None => self.accept(call, reply),
        }
    }

    fn accept(&mut self, call: &Call, reply: Reply) -> Result<bool, AllocError>
        requires none { NoConditionStands (world_of self.old) call.now }
        requires no_map { IsNoMap call.now }
        ensures { IfOk result (λ legal. Accepts (world_of self.old) call.now reply legal (world_of self.new)) }
    {
        match call {
            Call::Domain { mode, width } => self.accept_domain(*mode, *width, reply),
            Call::Drop { domain } => Ok(self.accept_drop(*domain, reply)),
            Call::Attach { device, domain } => self.accept_attach(*device, *domain, reply),
            Call::Detach { device } => Ok(self.accept_detach(*device, reply)),
            Call::Map { .. } | Call::MapList { .. } => Ok(false),
            Call::Unmap {
                domain,
                address,
                pages,
            } => self.accept_unmap_at(*domain, *address, *pages, reply),
            Call::Flush { domain } => Ok(self.accept_flush(*domain, reply)),
            Call::Begin { domain } => self.accept_begin(*domain, reply),
            Call::Unit => Ok(self.accept_unit(reply)),
            Call::Reap { domain, number } => Ok(self.accept_reap(*domain, *number, reply)),
            Call::Dma {
                device,
                address,
                access,
                ..
            } => Ok(self.accept_dma(*device, *address, *access, reply)),
            Call::Evict { .. } => Ok(self.accept_evict(reply)),
        }
    }
}

// Whether a call may meet a refusal below the model.
fn may_meet(call: &Call, refusal: Refusal) -> bool
    ensures { IsTrue result ↔ MayMeet call.now refusal }
{
    match (call, refusal) {
        (
            Call::Domain { .. } | Call::Map { .. } | Call::MapList { .. } | Call::Unmap { .. },
            Refusal::NoFrames,
        ) => true,
        (Call::Map { .. } | Call::MapList { .. } | Call::Unmap { .. }, Refusal::TooManyPieces) => {
            true
        }
        _ => false,
    }
}

fn is_same(one: Refusal, other: Refusal) -> bool
    ensures { IsTrue result ↔ one ≡ other }
{
    one == other
}
