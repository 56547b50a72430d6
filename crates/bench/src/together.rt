//! Time on several threads at once.

use crate::timing::{Tenths, Work, time};
use crate::trouble::Trouble;
use std::num::NonZeroU32;
use std::sync::atomic::{AtomicU64, Ordering};
use std::thread::{Threads, map_vec, yield_now};
use std::time::Clock;

// Turns that a thread yields at most for the others.
const TURNS: u64 = 100_000_000;

/// Where threads wait for one another before they begin, and say that they are done.
#[derive(Drop)]
pub(crate) struct Meeting {
    threads: u64,
    timed: u64,
    arrived: AtomicU64,
    done: AtomicU64,
}

impl Meeting {
    /// For the threads that are timed, and the others.
    pub(crate) fn new(timed: u32, others: u32) -> Meeting {
        Meeting {
            threads: u64::from(timed) + u64::from(others),
            timed: u64::from(timed),
            arrived: AtomicU64::new(0),
            done: AtomicU64::new(0),
        }
    }

    /// Waits until all threads have come. Where one can't be made it never comes, which is an error after many turns.
    pub(crate) fn arrive(&self) -> Result<(), Trouble> {
        self.arrived.fetch_add(1, Ordering::SeqCst);
        for _ in 0..TURNS {
            if self.arrived.load(Ordering::SeqCst) >= self.threads {
                return Ok(());
            }
            yield_now();
        }
        Err(Trouble::NoThread)
    }

    /// Whether all that are timed are done.
    pub(crate) fn is_over(&self) -> bool {
        self.done.load(Ordering::SeqCst) >= self.timed
    }

    fn leave(&self) {
        self.done.fetch_add(1, Ordering::SeqCst);
    }
}

/// What each round takes on the slowest of several threads, which begin together, each with a work of its own.
pub(crate) fn time_together<C: Clock + Threads + Sync, W: Work + Send + Drop>(
    clock: &C,
    rounds: NonZeroU32,
    works: Vec<W>,
    meeting: &Meeting,
) -> Result<Tenths, Trouble> {
    let taken = map_vec(clock, works, &|work| time_at(clock, rounds, work, meeting))?;
    slowest(taken)
}

/// What the slowest of the threads takes.
pub(crate) fn slowest(taken: Vec<Result<Tenths, Trouble>>) -> Result<Tenths, Trouble> {
    let mut slowest = Tenths::default();
    for tenths in taken {
        slowest = slowest.max(tenths?);
    }
    Ok(slowest)
}

/// What each round takes on one of these threads.
pub(crate) fn time_at<C: Clock, W: Work + Drop>(
    clock: &C,
    rounds: NonZeroU32,
    work: W,
    meeting: &Meeting,
) -> Result<Tenths, Trouble> {
    let mut work = work;
    let taken = meeting
        .arrive()
        .and_then(|()| time(clock, rounds, &mut work));
    meeting.leave();
    taken
}
