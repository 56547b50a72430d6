//! Flushes, at once and in two halves.

ghost use Rattle.dmatypes.specs.declared.call.Call.TheVariants as calls;
ghost use Rattle.vtdm_c.specs.Called.{Calls};

use crate::answer::Answer;
use crate::handle::Handle;
use std::alloc::Global;

/// Releases all retired records of a domain, and answers how many there were.
#[unsafe(no_mangle)]
pub extern "C" fn vtdm_flush(alloc: Global, handle: &mut Handle, domain: u64) -> Answer
    ensures { Calls handle.old.slot.held (calls.Flush domain) result handle.new.slot.held }
{
    let Some(mut session) = handle.take(alloc) else {
        return Answer::lone(Answer::ABSENT);
    };
    let answer = session.flush(domain);
    handle.put(session);
    answer
}

/// Begins a flush of a domain without running the unit, and answers the number of its ticket, from 1.
#[unsafe(no_mangle)]
pub extern "C" fn vtdm_begin(alloc: Global, handle: &mut Handle, domain: u64) -> Answer
    ensures { Calls handle.old.slot.held (calls.Begin domain) result handle.new.slot.held }
{
    let Some(mut session) = handle.take(alloc) else {
        return Answer::lone(Answer::ABSENT);
    };
    let answer = session.begin(domain);
    handle.put(session);
    answer
}

/// Lets the unit make one step, and answers 1 where it did a descriptor, 0 where none waited.
#[unsafe(no_mangle)]
pub extern "C" fn vtdm_unit(alloc: Global, handle: &mut Handle) -> Answer
    ensures { Calls handle.old.slot.held calls.Unit result handle.new.slot.held }
{
    let Some(mut session) = handle.take(alloc) else {
        return Answer::lone(Answer::ABSENT);
    };
    let answer = session.unit_step();
    handle.put(session);
    answer
}

/// Ends a begun flush of a domain by its number, and answers how many retired records were released.
#[unsafe(no_mangle)]
pub extern "C" fn vtdm_reap(alloc: Global, handle: &mut Handle, domain: u64, number: u64) -> Answer
    ensures { Calls handle.old.slot.held (calls.Reap domain number) result handle.new.slot.held }
{
    let Some(mut session) = handle.take(alloc) else {
        return Answer::lone(Answer::ABSENT);
    };
    let answer = session.reap(domain, number);
    handle.put(session);
    answer
}
