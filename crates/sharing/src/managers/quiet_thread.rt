//! An example: a driver that uses memory again once the thread of a device uses none of its old addresses.

ghost use Rattle.std.specs.Prelude.{◌≤◌};
ghost use Rattle.manager.specs.Kept.{IsNamedBy};

use super::{map_of, request_of, seed_of};
use dmatypes::{Access, Call, Mode, PAGE_BYTES, Reply, Width};
use manager::*;
use std::alloc::Global;
use std::marker::Brand;
use std::process::Abort;
use std::sync::Wait;
use std::sync::atomic::{AtomicBool, AtomicU64, Ordering, Rule};
use std::test::Fail;
use std::thread::{Threads, join, yield_now};

const DEVICE: u64 = 3;

// The host frame of the buffer, a page.
const FRAME: u64 = 0x100;

// How many times the driver maps the buffer, and uses its memory for something else afterwards.
const TIMES: u64 = 40;

// The requests that the device makes under the lock at most, for which the history has room.
const MOST_REQUESTS: u64 = 100_000;

// Turns that a thread waits at most.
const TURNS: u64 = 10_000_000;

// What stands in the memory while the device may read it, and after it was used for something else.
const BUFFER: u64 = 1;

const OTHER: u64 = 2;

const UNMAP: Call = Call::Unmap {
    domain: 1,
    address: PAGE_BYTES,
    pages: 1,
};

// What is said of a count at which the device's thread rests: a rule that all numbers meet.
struct AnyCount;

impl Rule for AnyCount {
    ghost invariant = { λ count. 0 ≤ count };
}

// What both threads see beside the manager: the memory of the frame, how far the device's thread is, and whether the driver is done.
#[derive(Drop)]
struct Seen {
    memory: AtomicU64,
    quiet: Quiet<AnyCount>,
    is_over: AtomicBool,
}

// The device: reads the buffer as long as the driver works. Whether it never read what isn't its own.
fn read_meanwhile<B: Owner, R: Wait>(
    rt: &R,
    manager: &Manager<B>,
    rows: &Rows<B>,
    seen: &Seen,
    mut port: Port<B>,
    mut share: Share<B>,
) -> bool {
    let mut is_right = true;
    for _ in 0..TURNS {
        if seen.is_over.load(Ordering::SeqCst) {
            return is_right;
        }
        let (mut host, _) = port.hit(rows, PAGE_BYTES, Access::Read);
        if host.is_none() && share.calls() < MOST_REQUESTS {
            let request = request_of(DEVICE, PAGE_BYTES, Access::Read, true);
            host = host_of(manager.call(rt, rows, &mut share, request));
        }
        if host.is_some() {
            yield_now();
            is_right &= seen.memory.load(Ordering::SeqCst) == BUFFER;
        }
        seen.quiet.rest(port.count(rows));
    }
    false
}

// The host address that a request was answered under the lock.
fn host_of(answer: Result<(u64, Reply), HistoryFull>) -> Option<u64> {
    match answer {
        Ok((_, Reply::Host(host))) => Some(host),
        _ => None,
    }
}

// The driver: maps the buffer, unmaps it, waits for the device's thread, and uses the memory. Whether it came to its end.
fn use_again<B: Owner, R: Wait>(
    rt: &R,
    manager: &Manager<B>,
    rows: &Rows<B>,
    seen: &Seen,
    mut mine: Share<B>,
) -> bool {
    for _ in 0..TIMES {
        seen.memory.store(BUFFER, Ordering::SeqCst);
        let _ = manager.call(rt, rows, &mut mine, map_of(1, FRAME, 1, 1));
        yield_now();
        let Ok((number, Reply::Unmapped(_))) = manager.call(rt, rows, &mut mine, UNMAP) else {
            break;
        };
        if !is_quiet(&seen.quiet, number) {
            break;
        }
        seen.memory.store(OTHER, Ordering::SeqCst);
    }
    seen.is_over.store(true, Ordering::SeqCst);
    seen.memory.load(Ordering::SeqCst) == OTHER
}

// Waits until the thread is past a number.
fn is_quiet(quiet: &Quiet<AnyCount>, number: u64) -> bool {
    for _ in 0..TURNS {
        if quiet.is_past(number) {
            return true;
        }
        yield_now();
    }
    false
}

#[test]
fn memory_is_used_again_when_the_device_is_quiet(rt: HostRuntime) -> Result<(), Fail> {
    let seed = seed_of(rt.alloc(), 64, 2 * MOST_REQUESTS, 2)?;
    device_and_driver::<Brand, _>(&rt, rt.alloc(), seed)
}

fn device_and_driver<B: Owner + Send + Sync, R: Threads + Wait + Abort + Sync>(
    rt: &R,
    alloc: Global,
    seed: Seed,
) -> Result<(), Fail>
    requires { IsNamedBy seed B.name B.parts B.shares B.room B.frames B.mode B.rows B.most B.handing }
{
    let Made {
        manager,
        rows,
        mut ports,
        mut shares,
        ..
    } = Manager::<B>::new(alloc, seed)?;
    let mut driver = shares.pop().ok_or("a share")?;
    let device = shares.pop().ok_or("a share")?;
    let port = ports.remove(3);
    let make = Call::Domain {
        mode: Mode::Strict,
        width: Width::W39,
    };
    let attach = Call::Attach {
        device: DEVICE,
        domain: 1,
    };
    let _ = manager.call(rt, &rows, &mut driver, make);
    let _ = manager.call(rt, &rows, &mut driver, attach);
    let seen = Seen {
        memory: AtomicU64::new(BUFFER),
        quiet: Quiet::new(),
        is_over: AtomicBool::new(false),
    };
    let shared = &manager;
    let (is_right, is_done) = join(
        rt,
        || read_meanwhile(rt, shared, &rows, &seen, port, device),
        || use_again(rt, shared, &rows, &seen, driver),
    );
    assert!(rt; is_right);
    assert!(rt; is_done);
    Ok(())
}
