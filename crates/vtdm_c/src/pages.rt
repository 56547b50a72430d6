//! Maps and unmaps.

ghost use Rattle.std.specs.Prelude.{◌≡◌, ◌<◌, ◌≤◌, None, Some, length};
ghost use Rattle.dmatypes.specs.declared.call.Call.TheVariants as calls;
ghost use Rattle.vtdm_c.specs.Called.{Calls, MapsList};

use crate::answer::Answer;
use crate::handle::Handle;
use crate::segments::Segment;
use std::alloc::Global;

/// Maps `pages` pages, from a host frame on, and answers the byte address of the first.
#[unsafe(no_mangle)]
pub extern "C" fn vtdm_map(
    alloc: Global,
    handle: &mut Handle,
    domain: u64,
    frame: u64,
    pages: u64,
    order: u64,
    rights: u64,
) -> Answer
    ensures { Calls handle.old.slot.held (calls.Map domain frame pages order rights) result handle.new.slot.held }
{
    let Some(mut session) = handle.take(alloc) else {
        return Answer::lone(Answer::ABSENT);
    };
    let answer = session.map(domain, frame, pages, order, rights);
    handle.put(session);
    answer
}

/// Unmaps `pages` live pages, from a byte address on, and answers how many retired records were released for it.
#[unsafe(no_mangle)]
pub extern "C" fn vtdm_unmap(
    alloc: Global,
    handle: &mut Handle,
    domain: u64,
    address: u64,
    pages: u64,
) -> Answer
    ensures { Calls handle.old.slot.held (calls.Unmap domain address pages) result handle.new.slot.held }
{
    let Some(mut session) = handle.take(alloc) else {
        return Answer::lone(Answer::ABSENT);
    };
    let answer = session.unmap(domain, address, pages);
    handle.put(session);
    answer
}

/// Maps the pages of all segments, at most 16, one segment after the other, and answers the byte address of the first.
#[unsafe(no_mangle)]
pub extern "C" fn vtdm_map_list(
    alloc: Global,
    handle: &mut Handle,
    domain: u64,
    order: u64,
    rights: u64,
    segments: &[Segment],
) -> Answer
    ensures { MapsList handle.old.slot.held domain order rights segments.now result handle.new.slot.held }
{
    let Some(mut session) = handle.take(alloc) else {
        return Answer::lone(Answer::ABSENT);
    };
    let answer = session.map_list(domain, order, rights, segments);
    handle.put(session);
    answer
}
