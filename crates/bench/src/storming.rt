//! Storms: what a call takes where many threads make them.

ghost use Rattle.std.specs.Prelude.{◌≡◌};

use crate::timing::{Tenths, each};
use crate::trouble::{Trouble, check};
use std::alloc::Global;
use std::num::NonZeroU32;
use std::sync::Wait;
use std::thread::Threads;
use std::time::{Clock, Instant};
use storm::{MOST_DEVICES, MOST_DRIVERS, MOST_WORKER_CALLS, OpenGate, storm};

/// What each call takes of a storm of drivers, as many devices, and the unit: all the time of the storm, over its
/// events. Each worker makes as many calls as there are rounds, or the most that a storm's worker makes. The manager and the
/// threads are made in that time too.
pub(crate) fn time_storm<C: Clock + Wait + Threads + Sync>(
    clock: &C,
    alloc: Global,
    rounds: NonZeroU32,
    drivers: u64,
) -> Result<Tenths, Trouble> {
    check((1..=MOST_DRIVERS.min(MOST_DEVICES)).contains(&drivers))?;
    let calls = u64::from(rounds.get()).min(MOST_WORKER_CALLS);
    let start = Instant::now(clock)?;
    let events = storm(clock, alloc, drivers, drivers, calls, &OpenGate)?;
    let spent = start.elapsed(clock)?;
    let events = u32::try_from(events).ok().and_then(NonZeroU32::new);
    Ok(each(spent, events.ok_or(Trouble::Wrong)?))
}
