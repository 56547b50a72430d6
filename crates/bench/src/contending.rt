//! Threads that map and unmap at once, each in a strict domain of its own: on one manager, or each on its own.

ghost use Rattle.std.specs.Prelude.{◌<◌, IfOk};
ghost use Rattle.manager.specs.Kept.{IsNamedBy};

use crate::driver::{BOTH_RIGHTS, TABLE_FRAMES, UNALIGNED_FRAME};
use crate::timing::{Tenths, Work};
use crate::together::{Meeting, slowest, time_at, time_together};
use crate::trouble::{Trouble, check};
use dmatypes::{Call, Mode, PAGE_BYTES, Reply, Width};
use manager::{Config, Epoch, HistoryFull, Made, Manager, Owner, Rows, Seed, Share};
use std::alloc::Global;
use std::marker::Brand;
use std::num::NonZeroU32;
use std::sync::{Mutex, Wait};
use std::thread::{Threads, map_vec};
use std::time::Clock;

// The events that a manager keeps before it hands them on: few enough to stay in the processor's caches.
const ROOM: u64 = 256;

// A call finds the history full again only where the other threads filled it in between.
const MOST_TRIES: u64 = 1000;

/// Whose manager each of the threads calls.
#[derive(Clone, Copy)]
pub(crate) enum Managers {
    /// All call one.
    Shared,
    /// Each has its own.
    Own,
}

/// What each round takes on the slowest of the threads: a map of one page and its unmap, with a lock each. Who finds the history
/// full hands it on.
pub(crate) fn time_threads<C: Clock + Wait + Threads + Sync>(
    clock: &C,
    alloc: Global,
    rounds: NonZeroU32,
    threads: u32,
    managers: Managers,
) -> Result<Tenths, Trouble> {
    match managers {
        Managers::Shared => {
            let seed = seed_of(alloc, threads)?;
            time_shared::<Brand, C>(clock, alloc, rounds, threads, seed)
        }
        Managers::Own => time_own(clock, alloc, rounds, threads),
    }
}

// Of a manager that hands on, with a share for each thread.
fn seed_of(alloc: Global, threads: u32) -> Result<Seed, Trouble>
    ensures { IfOk result (λ seed. seed.room < seed.most) }
{
    let config = Config::new(TABLE_FRAMES, ROOM, u64::from(threads)).ok_or(Trouble::Wrong)?;
    Ok(Seed::new(alloc, config.handing_on())?)
}

// All threads on the manager of one seed.
fn time_shared<B: Owner + Send + Sync, C: Clock + Wait + Threads + Sync>(
    clock: &C,
    alloc: Global,
    rounds: NonZeroU32,
    threads: u32,
    seed: Seed,
) -> Result<Tenths, Trouble>
    requires named { IsNamedBy seed B.name B.parts B.shares B.room B.frames B.mode B.rows B.most B.handing }
    requires hands_on { seed.room < seed.most }
{
    let Made {
        manager,
        rows,
        shares,
        epoch,
        ..
    } = Manager::<B>::new(alloc, seed)?;
    let called = Called {
        manager,
        rows,
        epoch: Mutex::new(epoch),
    };
    let mut works = Vec::new(alloc);
    for share in shares {
        let mut pairs = Pairs::new(clock, &called, share)?;
        pairs.touch()?;
        if works.push(pairs).is_err() {
            return Err(Trouble::NoMemory);
        }
    }
    time_together(clock, rounds, works, &Meeting::new(threads, 0))
}

// Each thread on a manager of its own.
fn time_own<C: Clock + Wait + Threads + Sync>(
    clock: &C,
    alloc: Global,
    rounds: NonZeroU32,
    threads: u32,
) -> Result<Tenths, Trouble> {
    let meeting = Meeting::new(threads, 0);
    let numbers: Vec<u32> = (0..threads).collect(alloc)?;
    let taken = map_vec(
        clock,
        numbers,
        &|_| { time_one(clock, alloc, rounds, &meeting) },
    )?;
    slowest(taken)
}

// One thread, on a manager that it makes.
fn time_one<C: Clock + Wait>(
    clock: &C,
    alloc: Global,
    rounds: NonZeroU32,
    meeting: &Meeting,
) -> Result<Tenths, Trouble> {
    let seed = seed_of(alloc, 1)?;
    time_alone::<Brand, C>(clock, alloc, rounds, meeting, seed)
}

// The same, over an owner that names the manager.
fn time_alone<B: Owner, C: Clock + Wait>(
    clock: &C,
    alloc: Global,
    rounds: NonZeroU32,
    meeting: &Meeting,
    seed: Seed,
) -> Result<Tenths, Trouble>
    requires named { IsNamedBy seed B.name B.parts B.shares B.room B.frames B.mode B.rows B.most B.handing }
    requires hands_on { seed.room < seed.most }
{
    let Made {
        manager,
        rows,
        mut shares,
        epoch,
        ..
    } = Manager::<B>::new(alloc, seed)?;
    let called = Called {
        manager,
        rows,
        epoch: Mutex::new(epoch),
    };
    let share = shares.pop().ok_or(Trouble::Wrong)?;
    let mut pairs = Pairs::new(clock, &called, share)?;
    pairs.touch()?;
    time_at(clock, rounds, pairs, meeting)
}

// A manager that threads call, and the epoch into which its history is handed on.
#[derive(Drop)]
struct Called<B: Owner> {
    manager: Manager<B>,
    rows: Rows<B>,
    epoch: Mutex<Epoch<B>>,
}

// Maps and unmaps the first page of a domain.
#[derive(Drop)]
struct Pairs<'a, B: Owner, C: Wait> {
    clock: &'a C,
    called: &'a Called<B>,
    mine: Share<B>,
    domain: u64,
    ghost hands_on: { B.room < B.most },
}

impl<'a, B: Owner, C: Wait> Pairs<'a, B, C> {
    // Makes the domain.
    fn new(clock: &'a C, called: &'a Called<B>, mine: Share<B>) -> Result<Pairs<'a, B, C>, Trouble>
        requires { B.room < B.most }
    {
        let mut mine = mine;
        let make = Call::Domain {
            mode: Mode::Strict,
            width: Width::W39,
        };
        match called.manager.call(clock, &called.rows, &mut mine, make) {
            Ok((_, Reply::Made(domain))) => Ok(Pairs {
                clock,
                called,
                mine,
                domain,
            }),
            _ => Err(Trouble::Wrong),
        }
    }

    // Rounds that fill the manager's room and the epoch's, so that no memory is touched for the first time when it counts.
    fn touch(&mut self) -> Result<(), Trouble> {
        for _ in 0..ROOM {
            self.once()?;
        }
        Ok(())
    }

    // Makes a call in the domain. Where there is no room for it, the history is handed on first.
    #[inline(always)]
    fn call(&mut self, step: Step) -> Result<Reply, Trouble> {
        let Called {
            manager,
            rows,
            epoch,
        } = self.called;
        for _ in 0..MOST_TRIES {
            match manager.call(self.clock, rows, &mut self.mine, call_of(self.domain, step)) {
                Ok((_, reply)) => return Ok(reply),
                Err(HistoryFull { .. }) => {
                    let mut epoch = epoch.lock(self.clock);
                    manager.hand_on(self.clock, rows, &mut self.mine, &mut epoch);
                }
            }
        }
        Err(Trouble::TooManyCalls)
    }
}

// A half of a round.
#[derive(Clone, Copy)]
enum Step {
    Map,
    Unmap,
}

// The call of a step in a domain.
#[inline(always)]
fn call_of(domain: u64, step: Step) -> Call {
    match step {
        Step::Map => Call::Map {
            domain,
            frame: UNALIGNED_FRAME,
            pages: 1,
            order: 0,
            rights: BOTH_RIGHTS,
        },
        Step::Unmap => Call::Unmap {
            domain,
            address: PAGE_BYTES,
            pages: 1,
        },
    }
}

impl<'a, B: Owner, C: Wait> Work for Pairs<'a, B, C> {
    fn once(&mut self) -> Result<(), Trouble> {
        check(self.call(Step::Map)? == Reply::Mapped(PAGE_BYTES))?;
        check(self.call(Step::Unmap)? == Reply::Unmapped(0))
    }
}
