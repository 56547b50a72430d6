//! Domains and their devices.

ghost use Rattle.std.specs.Prelude.{◌≡◌};
ghost use Rattle.dmatypes.specs.declared.call.Call.TheVariants as calls;
ghost use Rattle.dmatypes.specs.declared.width.Width.TheVariants.{W39, W48};
ghost use Rattle.vtdm_c.specs.Answers.{mode_named};
ghost use Rattle.vtdm_c.specs.Called.{Calls, CallsAll};

use crate::answer::Answer;
use crate::handle::Handle;
use dmatypes::{Mode, Width};
use std::alloc::Global;

/// Makes an empty domain of 39-bit device addresses, lazy or strict, and answers its id, 1 to 15.
#[unsafe(no_mangle)]
pub extern "C" fn vtdm_domain(alloc: Global, handle: &mut Handle, lazy: bool) -> Answer
    ensures { Calls handle.old.slot.held (calls.Domain (mode_named lazy) W39) result handle.new.slot.held }
{
    let Some(mut session) = handle.take(alloc) else {
        return Answer::lone(Answer::ABSENT);
    };
    let answer = session.domain(mode_named(lazy), Width::W39);
    handle.put(session);
    answer
}

/// Makes an empty domain of 48-bit device addresses, lazy or strict, and answers its id, 1 to 15.
#[unsafe(no_mangle)]
pub extern "C" fn vtdm_domain_wide(alloc: Global, handle: &mut Handle, lazy: bool) -> Answer
    ensures { Calls handle.old.slot.held (calls.Domain (mode_named lazy) W48) result handle.new.slot.held }
{
    let Some(mut session) = handle.take(alloc) else {
        return Answer::lone(Answer::ABSENT);
    };
    let answer = session.domain(mode_named(lazy), Width::W48);
    handle.put(session);
    answer
}

/// Ends a domain to which no device is attached and of which no ticket is open.
#[unsafe(no_mangle)]
pub extern "C" fn vtdm_drop(alloc: Global, handle: &mut Handle, domain: u64) -> Answer
    ensures { Calls handle.old.slot.held (calls.Drop domain) result handle.new.slot.held }
{
    let Some(mut session) = handle.take(alloc) else {
        return Answer::lone(Answer::ABSENT);
    };
    let answer = session.drop_domain(domain);
    handle.put(session);
    answer
}

/// Attaches a device, 0 to 15, to a domain.
#[unsafe(no_mangle)]
pub extern "C" fn vtdm_attach(
    alloc: Global,
    handle: &mut Handle,
    device: u64,
    domain: u64,
) -> Answer
    ensures { Calls handle.old.slot.held (calls.Attach device domain) result handle.new.slot.held }
{
    let Some(mut session) = handle.take(alloc) else {
        return Answer::lone(Answer::ABSENT);
    };
    let answer = session.attach(device, domain);
    handle.put(session);
    answer
}

/// Detaches a device from its domain.
#[unsafe(no_mangle)]
pub extern "C" fn vtdm_detach(alloc: Global, handle: &mut Handle, device: u64) -> Answer
    ensures { Calls handle.old.slot.held (calls.Detach device) result handle.new.slot.held }
{
    let Some(mut session) = handle.take(alloc) else {
        return Answer::lone(Answer::ABSENT);
    };
    let answer = session.detach(device);
    handle.put(session);
    answer
}

/// Detaches a device, as `vtdm_detach` does, and then flushes the domain that it had; answers how many retired records were released.
#[unsafe(no_mangle)]
pub extern "C" fn vtdm_detach_all(alloc: Global, handle: &mut Handle, device: u64) -> Answer
    ensures { CallsAll handle.old.slot.held device result handle.new.slot.held }
{
    let Some(mut session) = handle.take(alloc) else {
        return Answer::lone(Answer::ABSENT);
    };
    let answer = session.detach_all(device);
    handle.put(session);
    answer
}

// The mode that C names.
fn mode_named(lazy: bool) -> Mode
    ensures { result ≡ mode_named lazy }
{
    if lazy { Mode::Lazy } else { Mode::Strict }
}
