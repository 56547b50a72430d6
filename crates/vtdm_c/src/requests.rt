//! Requests of devices, and what the unit's caches lose.

ghost use Rattle.std.specs.Prelude.{◌≡◌};
ghost use Rattle.vtdm_c.specs.Answers.{access_named, cache_numbered, request_named};
ghost use Rattle.vtdm_c.specs.Called.{Calls, Evicts};

use crate::answer::Answer;
use crate::handle::Handle;
use dmatypes::{Access, Cache, Whim};
use std::alloc::Global;

/// A device's request at a byte address: the host byte address, or a fault. With `look` cached entries serve, with `fill` what
/// served is remembered.
#[unsafe(no_mangle)]
pub extern "C" fn vtdm_dma(
    alloc: Global,
    handle: &mut Handle,
    device: u64,
    address: u64,
    write: bool,
    look: bool,
    fill: bool,
) -> Answer
    ensures { Calls handle.old.slot.held (request_named device address write look fill) result handle.new.slot.held }
{
    let Some(mut session) = handle.take(alloc) else {
        return Answer::lone(Answer::ABSENT);
    };
    let answer = session.dma(device, address, access_named(write), Whim { look, fill });
    handle.put(session);
    answer
}

/// The entry at a place of one of the unit's caches is forgotten, if there is one. The caches are 0 the leaves, 1 the tables
/// below the roots, 2 the contexts, 3 the absent pages.
#[unsafe(no_mangle)]
pub extern "C" fn vtdm_evict(alloc: Global, handle: &mut Handle, cache: u64, place: u64) -> Answer
    ensures { Evicts handle.old.slot.held (cache_numbered cache) place result handle.new.slot.held }
{
    let Some(mut session) = handle.take(alloc) else {
        return Answer::lone(Answer::ABSENT);
    };
    let answer = match cache_numbered(cache) {
        Some(kind) => session.evict(kind, place),
        None => Answer::lone(Answer::BAD_CACHE),
    };
    handle.put(session);
    answer
}

// The access that C names.
fn access_named(write: bool) -> Access
    ensures { result ≡ access_named write }
{
    if write { Access::Write } else { Access::Read }
}

// The cache of a number.
fn cache_numbered(number: u64) -> Option<Cache>
    ensures { result ≡ cache_numbered number }
{
    match number {
        0 => Some(Cache::Leaf),
        1 => Some(Cache::NonLeaf),
        2 => Some(Cache::Context),
        3 => Some(Cache::Fault),
        _ => None,
    }
}
