//! How a manager begins and ends.

ghost use Rattle.std.specs.Prelude.{◌≡◌, ◌≤◌, ◌↔◌, None, Some, IfOk, IfSome, IsSome, IsTrue, false, true};
ghost use Rattle.dmatypes.specs.declared.limits.TheConstants.{LEAST_TABLE_FRAMES, MOST_TABLE_FRAMES};
ghost use Rattle.vtdm_c.specs.Called.{Creates, HasBase, IsNewSession, WritesStatus, first_of};

use crate::answer::Answer;
use crate::base::Base;
use crate::handle::Handle;
use crate::session::Session;
use dmatypes::{LEAST_TABLE_FRAMES, MOST_TABLE_FRAMES};
use driven::Driven;
use std::alloc::{AllocError, Global};

/// Makes a manager with `frames` table frames, 16 to 4,096, at a handle that has none, and answers a status. Its unit has no
/// Caching Mode.
#[unsafe(no_mangle)]
pub extern "C" fn vtdm_create(alloc: Global, handle: &mut Handle, frames: u64) -> u64
    ensures { Creates handle.old.slot.held frames false None result handle.new.slot.held }
{
    create(alloc, handle, frames, false, None)
}

/// The same, and its unit has Caching Mode: it may remember that a page is absent, and a map invalidates.
#[unsafe(no_mangle)]
pub extern "C" fn vtdm_create_caching(alloc: Global, handle: &mut Handle, frames: u64) -> u64
    ensures { Creates handle.old.slot.held frames true None result handle.new.slot.held }
{
    create(alloc, handle, frames, true, None)
}

/// Makes a manager that tells what each call asks of a unit that isn't its own, which has Caching Mode or not, and writes the status of
/// waits to a host address. Its table frames begin at a host frame.
#[unsafe(no_mangle)]
pub extern "C" fn vtdm_create_driven(
    alloc: Global,
    handle: &mut Handle,
    frames: u64,
    base: u64,
    caching: bool,
    status: u64,
) -> u64
    ensures { Creates handle.old.slot.held frames caching (Some (record { base = base; status = status })) result
        handle.new.slot.held }
{
    create(
        alloc,
        handle,
        frames,
        caching,
        Some(DrivenUnit { base, status }),
    )
}

/// A unit of C's: the host frame at which it has the table frames, and the host address to which it writes the status of waits.
#[derive(Clone, Copy)]
pub(crate) struct DrivenUnit {
    base: u64,
    status: u64,
}

fn create(
    alloc: Global,
    handle: &mut Handle,
    frames: u64,
    caching: bool,
    unit: Option<DrivenUnit>,
) -> u64
    ensures { Creates handle.old.slot.held frames caching unit result handle.new.slot.held }
{
    if handle.is_live() {
        return Answer::PRESENT;
    }
    if frames < LEAST_TABLE_FRAMES || frames > MOST_TABLE_FRAMES {
        return Answer::BAD_FRAMES;
    }
    if !writes_status(unit) {
        return Answer::BAD_ADDRESS;
    }
    let Some(base) = base_of(unit, frames) else {
        return Answer::BAD_BASE;
    };
    let Ok(session) = new_session(alloc, frames, caching, unit, base) else {
        return Answer::NO_MEMORY;
    };
    handle.put(session);
    Answer::OK
}

// Whether a status, if there is one to write, can be written there.
fn writes_status(unit: Option<DrivenUnit>) -> bool
    ensures { IsTrue result ↔ WritesStatus unit }
{
    match unit {
        Some(unit) => unit.status % 4 == 0,
        None => true,
    }
}

// Where so many table frames begin, if they can begin there.
fn base_of(unit: Option<DrivenUnit>, frames: u64) -> Option<Base>
    requires some { LEAST_TABLE_FRAMES ≤ frames }
    requires few { frames ≤ MOST_TABLE_FRAMES }
    ensures some { IsSome result ↔ HasBase frames unit }
    ensures first { IfSome result (λ base. base.first ≡ first_of unit) }
{
    match unit {
        Some(unit) => Base::new(unit.base, frames),
        None => Some(Base::zero()),
    }
}

// A session of a new state, on the heap.
#[inline(never)]
fn new_session(
    alloc: Global,
    frames: u64,
    caching: bool,
    unit: Option<DrivenUnit>,
    base: Base,
) -> Result<Box<Session>, AllocError>
    requires some { LEAST_TABLE_FRAMES ≤ frames }
    requires few { frames ≤ MOST_TABLE_FRAMES }
    requires base { base.first ≡ first_of unit }
    ensures { IfOk result (λ session. IsNewSession frames caching unit session.value) }
{
    let (driven, status) = match unit {
        Some(unit) => (Driven::new(alloc, frames, caching)?, unit.status),
        None => (Driven::silent(alloc, frames, caching)?, 0),
    };
    Ok(Box::new(alloc, Session::new(driven, base, status))?)
}

/// Ends the manager at a handle, if there is one, and frees its memory.
#[unsafe(no_mangle)]
pub extern "C" fn vtdm_destroy(alloc: Global, handle: &mut Handle)
    ensures { handle.new.slot.held ≡ None }
{
    handle.end(alloc);
}
