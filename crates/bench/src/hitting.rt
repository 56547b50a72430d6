//! Hits of ports on several threads at once, alone and while another thread calls the manager.

ghost use Rattle.manager.specs.Kept.{IsNamedBy};

use crate::driver::{BOTH_RIGHTS, TABLE_FRAMES, UNALIGNED_FRAME};
use crate::managing::check_reply;
use crate::timing::{Tenths, Work};
use crate::together::{Meeting, time_together};
use crate::trouble::{Trouble, check};
use dmatypes::{Access, Call, DEVICES, MOST_CALLS, Mode, PAGE_BYTES, Reply, Whim, Width};
use manager::{Config, Made, Manager, Owner, Port, Rows, Seed, Share};
use std::alloc::{AllocError, Global};
use std::marker::Brand;
use std::num::NonZeroU32;
use std::sync::{Mutex, Wait};
use std::thread::{Threads, join};
use std::time::Clock;

/// By what a number of threads hit.
#[derive(Clone, Copy)]
pub(crate) enum Hits {
    /// Each by the port of a device of its own: 0, 1 and so on.
    Own {
        threads: u32,
        /// Whether the port's word states the page; else it states another page of its slot.
        stated: bool,
        /// The device for which one more thread makes requests with a fill all the while.
        beside: Option<u64>,
    },
    /// All by one port behind a lock, at a page that its word states.
    Locked {
        threads: u32,
    },
}

const OFFSET: u64 = 0x234;

// The page that the words state, and another one of its slot.
const STATED: u64 = PAGE_BYTES + OFFSET;

const UNSTATED: u64 = 17 * PAGE_BYTES + OFFSET;

// What the devices reach there.
const HOST: u64 = PAGE_BYTES * UNALIGNED_FRAME + OFFSET;

/// What each round takes on the slowest of the threads that hit.
pub(crate) fn time_hits<C: Clock + Wait + Threads + Sync>(
    clock: &C,
    alloc: Global,
    rounds: NonZeroU32,
    hits: Hits,
) -> Result<Tenths, Trouble> {
    let config = Config::new(TABLE_FRAMES, MOST_CALLS, 1).ok_or(Trouble::TooManyCalls)?;
    let seed = Seed::new(alloc, config)?;
    time_owned::<Brand, C>(clock, alloc, rounds, hits, seed)
}

// The same, over an owner that names the manager.
fn time_owned<B: Owner + Send + Sync, C: Clock + Wait + Threads + Sync>(
    clock: &C,
    alloc: Global,
    rounds: NonZeroU32,
    hits: Hits,
    seed: Seed,
) -> Result<Tenths, Trouble>
    requires { IsNamedBy seed B.name B.parts B.shares B.room B.frames B.mode B.rows B.most B.handing }
{
    let Made {
        manager,
        rows,
        ports,
        mut shares,
        ..
    } = Manager::<B>::new(alloc, seed)?;
    let mut mine = shares.pop().ok_or(Trouble::Wrong)?;
    state_page(clock, &manager, &rows, &mut mine)?;
    match hits {
        Hits::Own {
            threads,
            stated,
            beside,
        } => {
            let works = hitters(alloc, ports, &rows, threads, stated)?;
            let Some(device) = beside else {
                return time_together(clock, rounds, works, &Meeting::new(threads, 0));
            };
            let caller = Caller {
                manager: &manager,
                rows: &rows,
                mine,
                device,
            };
            time_beside(clock, rounds, works, threads, caller)
        }
        Hits::Locked { threads } => time_locked(clock, alloc, rounds, ports, &rows, threads),
    }
}

// Has the words of all devices state one page.
fn state_page<B: Owner, C: Wait>(
    clock: &C,
    manager: &Manager<B>,
    rows: &Rows<B>,
    mine: &mut Share<B>,
) -> Result<(), Trouble> {
    let made = manager.call(
        clock,
        rows,
        mine,
        Call::Domain {
            mode: Mode::Strict,
            width: Width::W39,
        },
    );
    check_reply(made, Reply::Made(1))?;
    let mapped = manager.call(clock, rows, mine, MAP);
    check_reply(mapped, Reply::Mapped(PAGE_BYTES))?;
    for device in 0..DEVICES {
        let attach = Call::Attach { device, domain: 1 };
        let attached = manager.call(clock, rows, mine, attach);
        check_reply(attached, Reply::Done)?;
        let answered = manager.call(clock, rows, mine, request_of(device));
        check_reply(answered, Reply::Host(HOST))?;
    }
    Ok(())
}

const MAP: Call = Call::Map {
    domain: 1,
    frame: UNALIGNED_FRAME,
    pages: 1,
    order: 0,
    rights: BOTH_RIGHTS,
};

// A read of the page, which the unit's caches may answer, and which is remembered.
fn request_of(device: u64) -> Call {
    Call::Dma {
        device,
        address: STATED,
        access: Access::Read,
        whim: Whim {
            look: true,
            fill: true,
        },
    }
}

// The work of the threads, each by a port of its own.
fn hitters<'a, B: Owner>(
    alloc: Global,
    ports: Vec<Port<B>>,
    rows: &'a Rows<B>,
    threads: u32,
    stated: bool,
) -> Result<Vec<Hitting<'a, B>>, AllocError> {
    let mut works = Vec::new(alloc);
    for port in ports.into_iter().take(threads as usize) {
        works.push(Hitting {
            port,
            rows,
            address: if stated { STATED } else { UNSTATED },
            wanted: if stated { Some(HOST) } else { None },
        })?;
    }
    Ok(works)
}

// Hits by a port.
#[derive(Drop)]
struct Hitting<'a, B: Owner> {
    port: Port<B>,
    rows: &'a Rows<B>,
    address: u64,
    wanted: Option<u64>,
}

impl<'a, B: Owner> Work for Hitting<'a, B> {
    fn once(&mut self) -> Result<(), Trouble> {
        let (host, count) = self.port.hit(self.rows, self.address, Access::Read);
        check(host == self.wanted && count >= 1)
    }
}

// Makes requests of a device.
#[derive(Drop)]
struct Caller<'a, B: Owner> {
    manager: &'a Manager<B>,
    rows: &'a Rows<B>,
    mine: Share<B>,
    device: u64,
}

impl<'a, B: Owner> Caller<'a, B> {
    // Makes them until all that are timed are done.
    fn call_meanwhile<C: Wait>(self, clock: &C, meeting: &Meeting) -> Result<(), Trouble> {
        let mut mine = self.mine;
        meeting.arrive()?;
        for _ in 0..MOST_CALLS {
            if meeting.is_over() {
                return Ok(());
            }
            let answer = self
                .manager
                .call(clock, self.rows, &mut mine, request_of(self.device));
            check_reply(answer, Reply::Host(HOST))?;
        }
        Err(Trouble::TooManyCalls)
    }
}

// What a round takes while one more thread makes requests.
fn time_beside<B: Owner + Send + Sync, C: Clock + Wait + Threads + Sync>(
    clock: &C,
    rounds: NonZeroU32,
    works: Vec<Hitting<'_, B>>,
    threads: u32,
    caller: Caller<'_, B>,
) -> Result<Tenths, Trouble> {
    let meeting = Meeting::new(threads, 1);
    let (taken, called) = join(
        clock,
        || time_together(clock, rounds, works, &meeting),
        || caller.call_meanwhile(clock, &meeting),
    );
    called?;
    taken
}

// What a round takes where all threads share one port behind a lock.
fn time_locked<B: Owner + Send + Sync, C: Clock + Wait + Threads + Sync>(
    clock: &C,
    alloc: Global,
    rounds: NonZeroU32,
    ports: Vec<Port<B>>,
    rows: &Rows<B>,
    threads: u32,
) -> Result<Tenths, Trouble> {
    let mut ports = ports;
    let port = Mutex::new(ports.pop().ok_or(Trouble::Wrong)?);
    let works = lockers(clock, alloc, &port, rows, threads)?;
    time_together(clock, rounds, works, &Meeting::new(threads, 0))
}

// The work of the threads, by one port.
fn lockers<'a, B: Owner, C: Wait>(
    clock: &'a C,
    alloc: Global,
    port: &'a Mutex<Port<B>>,
    rows: &'a Rows<B>,
    threads: u32,
) -> Result<Vec<Locking<'a, B, C>>, AllocError> {
    let mut works = Vec::new(alloc);
    for _ in 0..threads {
        works.push(Locking {
            clock,
            port,
            rows,
            address: STATED,
        })?;
    }
    Ok(works)
}

// Hits by a port behind a lock.
#[derive(Drop)]
struct Locking<'a, B: Owner, C: Wait> {
    clock: &'a C,
    port: &'a Mutex<Port<B>>,
    rows: &'a Rows<B>,
    address: u64,
}

impl<'a, B: Owner, C: Wait> Work for Locking<'a, B, C> {
    fn once(&mut self) -> Result<(), Trouble> {
        let mut port = self.port.lock(self.clock);
        let (host, count) = port.hit(self.rows, self.address, Access::Read);
        check(host == Some(HOST) && count >= 1)
    }
}
