//! A history that two threads fill.

ghost use Rattle.manager.specs.Kept.{IsNamedBy};

use super::{finished, seed_of};
use dmatypes::{Call, Refusal, Reply};
use manager::*;
use std::alloc::Global;
use std::marker::Brand;
use std::process::Abort;
use std::sync::Wait;
use std::test::Fail;
use std::thread::{Threads, join};

// The calls that there is room for, over both threads.
const ROOM: u64 = 100;

// Calls each thread makes, more than there is room for.
const TRIES: u64 = 150;

// Many calls, each under a lock of its own: how many were made. Once one finds no room, none does.
fn calls_made<B: Owner>(
    rt: &impl Wait,
    manager: &Manager<B>,
    rows: &Rows<B>,
    mine: Share<B>,
) -> (Share<B>, u64, bool) {
    let mut mine = mine;
    let mut made = 0u64;
    let mut full = false;
    let mut late = false;
    for _ in 0..TRIES {
        let mut guard = manager.lock(rt);
        let book = &mut *guard;
        match book.call(rows, &mut mine, Call::Flush { domain: 1 }) {
            Ok((_, Reply::Refused(Refusal::NoDomain))) => {
                made = made.saturating_add(1);
                late = late || full;
            }
            Ok(_) => late = true,
            Err(HistoryFull { .. }) => full = true,
        }
    }
    (mine, made, full && !late)
}

#[test]
fn two_threads_find_no_room(rt: HostRuntime) -> Result<(), Fail> {
    let seed = seed_of(rt.alloc(), 16, ROOM, 2)?;
    filled_by_threads::<Brand, _>(&rt, rt.alloc(), seed)
}

fn filled_by_threads<B: Owner + Send + Sync, R: Threads + Wait + Abort + Sync>(
    rt: &R,
    alloc: Global,
    seed: Seed,
) -> Result<(), Fail>
    requires { IsNamedBy seed B.name B.parts B.shares B.room B.frames B.mode B.rows B.most B.handing }
{
    let Made {
        manager,
        rows,
        mut shares,
        ..
    } = Manager::<B>::new(alloc, seed)?;
    let one = shares.pop().ok_or("a share")?;
    let two = shares.pop().ok_or("a share")?;
    let shared = &manager;
    let (first, second) = join(
        rt,
        || calls_made(rt, shared, &rows, one),
        || calls_made(rt, shared, &rows, two),
    );
    assert!(rt; first.2 && second.2);
    assert_eq!(rt; first.0.calls(), first.1);
    assert_eq!(rt; second.0.calls(), second.1);
    assert_eq!(rt; first.1.saturating_add(second.1), ROOM);
    shares.push(first.0)?;
    assert_eq!(rt; finished(manager, &rows, shares, second.0)? as u64, ROOM);
    Ok(())
}
