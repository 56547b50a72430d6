//! What a call answers to C: a status, and the number that goes with it.

ghost use Rattle.std.specs.Prelude.{◌≡◌, Option};
ghost use Rattle.engine.specs.State.{begun_reply, done_reply, flushed_reply, made_reply, mapped_reply, reaped_reply, request_reply};
ghost use Rattle.engine.specs.State.{unmapped_reply};
ghost use Rattle.dmatypes.specs.declared.reply.Reply.TheVariants.{Stepped};
ghost use Rattle.vtdm_c.specs.Answers.{answer_of, found, lone, told};
ghost use Rattle.vtdm_c.specs.Base.{at_host};

use crate::base::Base;
use dmatypes::{Fault, Progress, Refusal};
use engine::{Hit, Unmapped};

/// A status, and the id, address, count or word that goes with it where the status is 0. A refusal's status is its number, and
/// a fault's is 32 more than its number; those of the interface itself are named here.
#[repr(C)]
#[derive(Clone, Copy, Debug, PartialEq, Eq)]
pub struct Answer {
    pub status: u64,
    pub value: u64,
}

impl Answer {
    /// The call was done.
    pub const OK: u64 = 0;
    /// There is no domain of this id.
    pub const NO_DOMAIN: u64 = 1;
    /// There is no device of this number.
    pub const NO_DEVICE: u64 = 2;
    /// The device is attached to nothing.
    pub const NOT_ATTACHED: u64 = 4;
    /// The status of fault 0: a fault's is its number more.
    pub const FAULTS: u64 = 32;
    /// There is no manager at the handle.
    pub const ABSENT: u64 = 64;
    /// The manager has answered all calls that it can, 2^56, or could not answer all that this one counts for.
    pub const SPENT: u64 = 65;
    /// There is a manager at the handle already.
    pub const PRESENT: u64 = 66;
    /// A manager has from 16 to 4,096 table frames.
    pub const BAD_FRAMES: u64 = 67;
    /// There is no memory for a manager.
    pub const NO_MEMORY: u64 = 68;
    /// A map names more than 16 segments.
    pub const MANY_SEGMENTS: u64 = 69;
    /// The ticket's wait isn't done.
    pub const PENDING: u64 = 70;
    /// There is no such table frame, or no such index in one, or a span ends behind its last.
    pub const NO_WORD: u64 = 71;
    /// The number is of no cache.
    pub const BAD_CACHE: u64 = 72;
    /// The ring doesn't hold a descriptor that was sent so long ago, or none was.
    pub const NO_DESCRIPTOR: u64 = 73;
    /// The manager tells nothing of what calls ask.
    pub const NOT_DRIVEN: u64 = 74;
    /// The call asks more than there are places for.
    pub const FEW_PLACES: u64 = 75;
    /// The address of the waits' status is no multiple of 4.
    pub const BAD_ADDRESS: u64 = 76;
    /// Fewer waits than this number were sent.
    pub const NO_WAIT: u64 = 77;
    /// The table frames can't begin at this host frame.
    pub const BAD_BASE: u64 = 78;

    /// A status with no number.
    pub(crate) fn lone(status: u64) -> Answer
        ensures { result ≡ lone status }
    {
        Answer { status, value: 0 }
    }

    /// Done, with a number.
    pub(crate) fn told(value: u64) -> Answer
        ensures { result ≡ told value }
    {
        Answer {
            status: Answer::OK,
            value,
        }
    }

    /// What was found, or the status of what wasn't.
    pub(crate) fn found(value: Option<u64>, status: u64) -> Answer
        ensures { result ≡ found value status }
    {
        match value {
            Some(value) => Answer::told(value),
            None => Answer::lone(status),
        }
    }

    /// The answer of a call that answers a number.
    pub(crate) fn number(answer: Result<u64, Refusal>) -> Answer
        ensures made { result ≡ answer_of (made_reply answer) }
        ensures mapped { result ≡ answer_of (mapped_reply answer) }
        ensures flushed { result ≡ answer_of (flushed_reply answer) }
    {
        match answer {
            Ok(value) => Answer::told(value),
            Err(refusal) => Answer::lone(refusal.number()),
        }
    }

    /// The answer of an unmap: how many retired records were released for it.
    pub(crate) fn unmapped(answer: Result<Unmapped, Refusal>) -> Answer
        ensures { result ≡ answer_of (unmapped_reply answer) }
    {
        match answer {
            Ok(unmapped) => Answer::told(unmapped.released()),
            Err(refusal) => Answer::lone(refusal.number()),
        }
    }

    /// The answer of a call that answers no number.
    pub(crate) fn done(answer: Result<(), Refusal>) -> Answer
        ensures { result ≡ answer_of (done_reply answer) }
    {
        match answer {
            Ok(()) => Answer::lone(Answer::OK),
            Err(refusal) => Answer::lone(refusal.number()),
        }
    }

    /// The answer of a begun flush of a domain.
    pub(crate) fn begun(domain: u64, answer: Result<u64, Refusal>) -> Answer
        ensures { result ≡ answer_of (begun_reply domain answer) }
    {
        Answer::number(answer)
    }

    /// The answer of a step of the unit: 1 where it did a descriptor, 0 where none waited.
    pub(crate) fn stepped(progress: Progress) -> Answer
        ensures { result ≡ answer_of (Stepped progress) }
    {
        let value = match progress {
            Progress::Did => 1,
            Progress::Idle => 0,
        };
        Answer::told(value)
    }

    /// The answer of a reap.
    pub(crate) fn reaped(answer: Result<Option<u64>, Refusal>) -> Answer
        ensures { result ≡ answer_of (reaped_reply answer) }
    {
        match answer {
            Ok(released) => Answer::found(released, Answer::PENDING),
            Err(refusal) => Answer::lone(refusal.number()),
        }
    }

    /// The answer of a request, where the table frames begin there.
    pub(crate) fn requested(answer: Result<Result<Hit, Fault>, Refusal>, base: Base) -> Answer
        ensures { result ≡ answer_of (at_host base.first (request_reply answer)) }
    {
        match answer {
            Ok(Ok(hit)) => Answer::told(base.address_of(hit.host)),
            Ok(Err(fault)) => Answer::lone(Answer::FAULTS + fault.number()),
            Err(refusal) => Answer::lone(refusal.number()),
        }
    }
}
