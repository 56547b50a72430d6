//! What a unit is asked that isn't the manager's own.

ghost use Rattle.vtdm_c.specs.Called.{CallsUpTo, TakesAt};

use crate::answer::Answer;
use crate::effect::Effect;
use crate::handle::Handle;
use std::alloc::Global;

/// Tells what the last call asks, one effect a place, in order, and answers how many there are: once, so that nothing is asked after it.
/// With fewer places it tells nothing.
#[unsafe(no_mangle)]
pub extern "C" fn vtdm_effects(alloc: Global, handle: &mut Handle, to: &mut [Effect]) -> Answer
    ensures { TakesAt handle.old.slot.held to.old result to.new handle.new.slot.held }
{
    let Some(mut session) = handle.take(alloc) else {
        return Answer::lone(Answer::ABSENT);
    };
    let answer = session.take_effects(to);
    handle.put(session);
    answer
}

/// Has the manager's own unit do what waits up to the wait of this number, once another unit has done that, and answers how many
/// descriptors it did.
#[unsafe(no_mangle)]
pub extern "C" fn vtdm_done_up_to(alloc: Global, handle: &mut Handle, wait: u64) -> Answer
    ensures { CallsUpTo handle.old.slot.held wait result handle.new.slot.held }
{
    let Some(mut session) = handle.take(alloc) else {
        return Answer::lone(Answer::ABSENT);
    };
    let answer = session.done_up_to(wait);
    handle.put(session);
    answer
}
