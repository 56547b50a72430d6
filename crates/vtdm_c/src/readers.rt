//! What is read of a manager. None of it changes anything, or is counted as a call.

ghost use Rattle.std.specs.Prelude.{◌≡◌, ◌≢◌};
ghost use Rattle.vtdm_c.specs.Answers.{lone};
ghost use Rattle.vtdm_c.specs.Called.{Reads, ReadsWords};
ghost use Rattle.vtdm_c.specs.Told.{FindsContext, FindsDevices, FindsDomainOf, FindsDomainTotals, FindsMode, FindsRoot, FindsSent};
ghost use Rattle.vtdm_c.specs.Told.{FindsTotals, FindsWaits, FindsWidth, FindsWord, FindsWords};
ghost use Rattle.vtdm_c.specs.Told.{no_context, no_domain_totals, no_sent, no_totals};
ghost use Rattle.vtdm_c.specs.declared.answer.TheConstants.Answer.{ABSENT, OK};

use crate::answer::Answer;
use crate::handle::Handle;
use crate::told::{Context, DomainTotals, Sent, Totals};
use std::alloc::Global;

/// How many table frames are free, used by trees and held by retired records, and how many tickets are open and descriptors
/// wait.
#[unsafe(no_mangle)]
pub extern "C" fn vtdm_totals(alloc: Global, handle: &mut Handle) -> Totals
    ensures { Reads (no_totals ABSENT) FindsTotals handle.old.slot.held result handle.new.slot.held }
{
    let Some(session) = handle.take(alloc) else {
        return Totals::none(Answer::ABSENT);
    };
    let answer = session.totals();
    handle.put(session);
    answer
}

/// The mode of a domain, and how many live pages, retired records and pieces of its address space it has.
#[unsafe(no_mangle)]
pub extern "C" fn vtdm_domain_totals(
    alloc: Global,
    handle: &mut Handle,
    domain: u64,
) -> DomainTotals
    ensures { Reads (no_domain_totals ABSENT) (FindsDomainTotals domain) handle.old.slot.held result handle.new.slot.held }
{
    let Some(session) = handle.take(alloc) else {
        return DomainTotals::none(Answer::ABSENT);
    };
    let answer = session.domain_totals(domain);
    handle.put(session);
    answer
}

/// The id of the domain that a device, 0 to 15, is attached to.
#[unsafe(no_mangle)]
pub extern "C" fn vtdm_domain_of(alloc: Global, handle: &mut Handle, device: u64) -> Answer
    ensures { Reads (lone ABSENT) (FindsDomainOf device) handle.old.slot.held result handle.new.slot.held }
{
    let Some(session) = handle.take(alloc) else {
        return Answer::lone(Answer::ABSENT);
    };
    let answer = session.domain_of(device);
    handle.put(session);
    answer
}

/// The devices that are attached to a domain: bit j is device j.
#[unsafe(no_mangle)]
pub extern "C" fn vtdm_devices_of(alloc: Global, handle: &mut Handle, domain: u64) -> Answer
    ensures { Reads (lone ABSENT) (FindsDevices domain) handle.old.slot.held result handle.new.slot.held }
{
    let Some(session) = handle.take(alloc) else {
        return Answer::lone(Answer::ABSENT);
    };
    let answer = session.devices_of(domain);
    handle.put(session);
    answer
}

/// The mode of a domain: 0 strict, 1 lazy.
#[unsafe(no_mangle)]
pub extern "C" fn vtdm_mode_of(alloc: Global, handle: &mut Handle, domain: u64) -> Answer
    ensures { Reads (lone ABSENT) (FindsMode domain) handle.old.slot.held result handle.new.slot.held }
{
    let Some(session) = handle.take(alloc) else {
        return Answer::lone(Answer::ABSENT);
    };
    let answer = session.mode_of(domain);
    handle.put(session);
    answer
}

/// The width of a domain's device addresses in bits: 39 or 48.
#[unsafe(no_mangle)]
pub extern "C" fn vtdm_width_of(alloc: Global, handle: &mut Handle, domain: u64) -> Answer
    ensures { Reads (lone ABSENT) (FindsWidth domain) handle.old.slot.held result handle.new.slot.held }
{
    let Some(session) = handle.take(alloc) else {
        return Answer::lone(Answer::ABSENT);
    };
    let answer = session.width_of(domain);
    handle.put(session);
    answer
}

/// The frame of the root table of a domain.
#[unsafe(no_mangle)]
pub extern "C" fn vtdm_root_of(alloc: Global, handle: &mut Handle, domain: u64) -> Answer
    ensures { Reads (lone ABSENT) (FindsRoot domain) handle.old.slot.held result handle.new.slot.held }
{
    let Some(session) = handle.take(alloc) else {
        return Answer::lone(Answer::ABSENT);
    };
    let answer = session.root_of(domain);
    handle.put(session);
    answer
}

/// The word of a table frame at an index, 0 to 511.
#[unsafe(no_mangle)]
pub extern "C" fn vtdm_table_word(
    alloc: Global,
    handle: &mut Handle,
    frame: u64,
    index: u64,
) -> Answer
    ensures { ReadsWords (lone ABSENT) (FindsWord frame index) handle.old.slot.held result handle.new.slot.held }
{
    let Some(session) = handle.take(alloc) else {
        return Answer::lone(Answer::ABSENT);
    };
    let answer = session.table_word(frame, index);
    handle.put(session);
    answer
}

/// The two words of the context entry of a device, 0 to 15.
#[unsafe(no_mangle)]
pub extern "C" fn vtdm_context(alloc: Global, handle: &mut Handle, device: u64) -> Context
    ensures { ReadsWords (no_context ABSENT) (FindsContext device) handle.old.slot.held result handle.new.slot.held }
{
    let Some(session) = handle.take(alloc) else {
        return Context::none(Answer::ABSENT);
    };
    let answer = session.context(device);
    handle.put(session);
    answer
}

/// Copies words of a table frame, from an index on, as many as there is room for. Where the status isn't 0, nothing is copied.
#[unsafe(no_mangle)]
pub extern "C" fn vtdm_words(
    alloc: Global,
    handle: &mut Handle,
    frame: u64,
    first: u64,
    to: &mut [u64],
) -> u64
    ensures reads { ReadsWords ABSENT (FindsWords frame first to.old to.new) handle.old.slot.held result handle.new.slot.held }
    ensures kept { result ≢ OK → to.new ≡ to.old }
{
    let Some(session) = handle.take(alloc) else {
        return Answer::ABSENT;
    };
    let status = session.words(frame, first, to);
    handle.put(session);
    status
}

/// The two words of a descriptor that was sent: the last one where `back` is 0, the one before it where it is 1, and so on.
#[unsafe(no_mangle)]
pub extern "C" fn vtdm_sent(alloc: Global, handle: &mut Handle, back: u64) -> Sent
    ensures { Reads (no_sent ABSENT) (FindsSent back) handle.old.slot.held result handle.new.slot.held }
{
    let Some(session) = handle.take(alloc) else {
        return Sent::none(Answer::ABSENT);
    };
    let answer = session.sent(back);
    handle.put(session);
    answer
}

/// How many waits were sent, which is the number of the last one.
#[unsafe(no_mangle)]
pub extern "C" fn vtdm_waits(alloc: Global, handle: &mut Handle) -> Answer
    ensures { Reads (lone ABSENT) FindsWaits handle.old.slot.held result handle.new.slot.held }
{
    let Some(session) = handle.take(alloc) else {
        return Answer::lone(Answer::ABSENT);
    };
    let answer = session.waits();
    handle.put(session);
    answer
}
