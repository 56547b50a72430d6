//! What a manager of C's does, by calls that are refused where its state has answered all that it can.

ghost use Rattle.std.specs.Prelude.{◌≡◌, ◌+◌, ◌<◌, ◌≤◌, ◌↔◌, IsTrue, length};
ghost use Rattle.dmatypes.specs.declared.call.Call.TheVariants as calls;
ghost use Rattle.dmatypes.specs.declared.limits.TheConstants.{CALLS_END, MOST_SEGMENTS};

use crate::answer::Answer;
use crate::base::Base;
use crate::effect::{Effect, tell};
use crate::segments::{Segment, list_of};
use dmatypes::{Access, CALLS_END, Cache, Mode, Whim, Width};
use driven::Driven;

mod reading;

/// What a handle holds: a state that tells what calls ask, or one that doesn't; the host frame at which its table frames begin; and the
/// host address to which the unit writes the status of a wait. Each method is refused where the state has answered all that it can, but
/// `detach_all` and `done_up_to` where it could not answer all of theirs, and then changes nothing.
#[derive(Drop)]
pub struct Session {
    driven: Driven,
    base: Base,
    status: u64,
}

impl Session {
    ghost use Rattle.vtdm_c.specs.Answers.{lone};
    ghost use Rattle.vtdm_c.specs.Called.{Answered, AnsweredAll, AnsweredUpTo, Takes, state_of};
    ghost use Rattle.vtdm_c.specs.Segments.{named};
    ghost use Rattle.vtdm_c.specs.declared.answer.TheConstants.Answer.{MANY_SEGMENTS};

    pub(crate) fn new(driven: Driven, base: Base, status: u64) -> Session
        ensures { (result.driven ≡ driven) × (result.base ≡ base) × (result.status ≡ status) }
    {
        Session {
            driven,
            base,
            status,
        }
    }

    // Whether the state has answered all calls that it can.
    fn is_spent(&self) -> bool
        ensures { IsTrue result ↔ CALLS_END ≤ (state_of self.now).calls }
    {
        self.driven.state().calls() >= CALLS_END
    }

    // Whether it can answer one more at most.
    fn is_nearly_spent(&self) -> bool
        ensures { IsTrue result ↔ CALLS_END ≤ (state_of self.now).calls + 1 }
    {
        CALLS_END - 1 <= self.driven.state().calls()
    }

    // Whether it can't answer one more for each descriptor that waits.
    fn is_spent_for_waiting(&self) -> bool
        ensures { IsTrue result ↔ CALLS_END < (state_of self.now).calls + length (state_of self.now).iommu.ring.waiting }
    {
        let state = self.driven.state();
        state.calls().saturating_add(state.totals().pending) > CALLS_END
    }

    pub(crate) fn domain(&mut self, mode: Mode, width: Width) -> Answer
        ensures { Answered self.old (calls.Domain mode width) result self.new }
    {
        if self.is_spent() {
            return Answer::lone(Answer::SPENT);
        }
        Answer::number(self.driven.domain(mode, width))
    }

    pub(crate) fn drop_domain(&mut self, domain: u64) -> Answer
        ensures { Answered self.old (calls.Drop domain) result self.new }
    {
        if self.is_spent() {
            return Answer::lone(Answer::SPENT);
        }
        Answer::done(self.driven.drop_domain(domain))
    }

    pub(crate) fn attach(&mut self, device: u64, domain: u64) -> Answer
        ensures { Answered self.old (calls.Attach device domain) result self.new }
    {
        if self.is_spent() {
            return Answer::lone(Answer::SPENT);
        }
        Answer::done(self.driven.attach(device, domain))
    }

    pub(crate) fn detach(&mut self, device: u64) -> Answer
        ensures { Answered self.old (calls.Detach device) result self.new }
    {
        if self.is_spent() {
            return Answer::lone(Answer::SPENT);
        }
        Answer::done(self.driven.detach(device))
    }

    pub(crate) fn detach_all(&mut self, device: u64) -> Answer
        ensures { AnsweredAll self.old device result self.new }
    {
        if self.is_nearly_spent() {
            return Answer::lone(Answer::SPENT);
        }
        Answer::number(self.driven.detach_all(device))
    }

    pub(crate) fn map(
        &mut self,
        domain: u64,
        frame: u64,
        pages: u64,
        order: u64,
        rights: u64,
    ) -> Answer
        ensures { Answered self.old (calls.Map domain frame pages order rights) result self.new }
    {
        if self.is_spent() {
            return Answer::lone(Answer::SPENT);
        }
        let number = self.base.number_of(frame, pages);
        Answer::number(self.driven.map(domain, number, pages, order, rights))
    }

    pub(crate) fn map_list(
        &mut self,
        domain: u64,
        order: u64,
        rights: u64,
        segments: &[Segment],
    ) -> Answer
        ensures many { MOST_SEGMENTS < length segments.now → (result ≡ lone MANY_SEGMENTS) × (self.new ≡ self.old) }
        ensures few { length segments.now ≤ MOST_SEGMENTS
            → Answered self.old (calls.MapList domain order rights (record { items = named segments.now })) result self.new }
    {
        let Some(list) = list_of(segments, self.base) else {
            return Answer::lone(Answer::MANY_SEGMENTS);
        };
        if self.is_spent() {
            return Answer::lone(Answer::SPENT);
        }
        Answer::number(self.driven.map_list(domain, order, rights, &list))
    }

    pub(crate) fn unmap(&mut self, domain: u64, address: u64, pages: u64) -> Answer
        ensures { Answered self.old (calls.Unmap domain address pages) result self.new }
    {
        if self.is_spent() {
            return Answer::lone(Answer::SPENT);
        }
        Answer::unmapped(self.driven.unmap(domain, address, pages))
    }

    pub(crate) fn flush(&mut self, domain: u64) -> Answer
        ensures { Answered self.old (calls.Flush domain) result self.new }
    {
        if self.is_spent() {
            return Answer::lone(Answer::SPENT);
        }
        Answer::number(self.driven.flush(domain))
    }

    pub(crate) fn begin(&mut self, domain: u64) -> Answer
        ensures { Answered self.old (calls.Begin domain) result self.new }
    {
        if self.is_spent() {
            return Answer::lone(Answer::SPENT);
        }
        Answer::begun(domain, self.driven.begin(domain))
    }

    pub(crate) fn unit_step(&mut self) -> Answer
        ensures { Answered self.old calls.Unit result self.new }
    {
        if self.is_spent() {
            return Answer::lone(Answer::SPENT);
        }
        Answer::stepped(self.driven.unit_step())
    }

    pub(crate) fn done_up_to(&mut self, wait: u64) -> Answer
        ensures { AnsweredUpTo self.old wait result self.new }
    {
        if self.is_spent_for_waiting() {
            return Answer::lone(Answer::SPENT);
        }
        Answer::found(self.driven.done_up_to(wait), Answer::NO_WAIT)
    }

    pub(crate) fn reap(&mut self, domain: u64, number: u64) -> Answer
        ensures { Answered self.old (calls.Reap domain number) result self.new }
    {
        if self.is_spent() {
            return Answer::lone(Answer::SPENT);
        }
        Answer::reaped(self.driven.reap(domain, number))
    }

    pub(crate) fn dma(&mut self, device: u64, address: u64, access: Access, whim: Whim) -> Answer
        ensures { Answered self.old (calls.Dma device address access whim) result self.new }
    {
        if self.is_spent() {
            return Answer::lone(Answer::SPENT);
        }
        Answer::requested(self.driven.dma(device, address, access, whim), self.base)
    }

    pub(crate) fn evict(&mut self, kind: Cache, place: u64) -> Answer
        ensures { Answered self.old (calls.Evict kind place) result self.new }
    {
        if self.is_spent() {
            return Answer::lone(Answer::SPENT);
        }
        self.driven.evict(kind, place);
        Answer::lone(Answer::OK)
    }

    /// Hands out what the last call asks, and that once: after it nothing is asked. With fewer places it hands out nothing.
    pub(crate) fn take_effects(&mut self, to: &mut [Effect]) -> Answer
        ensures { Takes self.old to.old result to.new self.new }
    {
        if !self.driven.tells() {
            return Answer::lone(Answer::NOT_DRIVEN);
        }
        self.driven.tell();
        let effects = self.driven.effects();
        let count = effects.len();
        if to.len() < count {
            return Answer::lone(Answer::FEW_PLACES);
        }
        tell(effects, self.status, to);
        self.driven.forget_effects();
        Answer::told(count as u64)
    }
}
