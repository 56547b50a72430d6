//! Ports that hit while a manager's calls go on.

ghost use Rattle.manager.specs.Kept.{IsNamedBy};

use super::{made, map_of, request_of, seed_of};
use dmatypes::{Access, Call, Mode, Reply, Width};
use manager::*;
use std::alloc::Global;
use std::marker::Brand;
use std::process::Abort;
use std::sync::Wait;
use std::sync::atomic::{AtomicU64, Ordering};
use std::test::Fail;
use std::thread::{Threads, join, yield_now};

// Turns that a thread yields at most for another.
const TURNS: u64 = 100_000_000;

// A domain with device 3 attached, and `pages` pages of it mapped at 0x1000 to frame 0x100 for reading; then a request
// with fill at each of these addresses.
fn request_pages<B: Owner>(
    rt: &impl Wait,
    manager: &Manager<B>,
    rows: &Rows<B>,
    mine: &mut Share<B>,
    pages: u64,
    addresses: &[u64],
) {
    let attach = Call::Attach {
        device: 3,
        domain: 1,
    };
    let _ = manager.call(
        rt,
        rows,
        mine,
        Call::Domain {
            mode: Mode::Strict,
            width: Width::W39,
        },
    );
    let _ = manager.call(rt, rows, mine, attach);
    let _ = manager.call(rt, rows, mine, map_of(1, 0x100, pages, 1));
    for address in addresses {
        let _ = manager.call(rt, rows, mine, read_at(*address));
    }
}

// A read of device 3 through the caches, which is remembered.
fn read_at(address: u64) -> Call {
    request_of(3, address, Access::Read, true)
}

// The end of one page of domain 1.
fn unmap_at(address: u64) -> Call {
    Call::Unmap {
        domain: 1,
        address,
        pages: 1,
    }
}

#[test]
fn words_of_a_row(rt: HostRuntime) -> Result<(), Fail> {
    let seed = seed_of(rt.alloc(), 64, 100, 1)?;
    hit_by_words::<Brand, _>(&rt, rt.alloc(), seed)
}

// Two pages share a slot of the row: the last that was filled is there. An unmap empties the row without a check-in.
fn hit_by_words<B: Owner, R: Wait + Abort>(rt: &R, alloc: Global, seed: Seed) -> Result<(), Fail>
    requires { IsNamedBy seed B.name B.parts B.shares B.room B.frames B.mode B.rows B.most B.handing }
{
    let (manager, rows, mut ports, mut mine) = made::<B>(alloc, seed)?;
    let mut port = ports.remove(3);
    request_pages(rt, &manager, &rows, &mut mine, 17, &[0x1000, 0x11000]);
    assert_eq!(rt;
        port.hit(&rows, 0x11234, Access::Read),
        (Some(0x11_0234), 5)
    );
    assert_eq!(rt; port.hit(&rows, 0x11234, Access::Write), (None, 5));
    assert_eq!(rt; port.hit(&rows, 0x1234, Access::Read), (None, 5));
    port.evict(&rows, 1);
    assert_eq!(rt; port.hit(&rows, 0x11234, Access::Read), (None, 5));
    let _ = manager.call(rt, &rows, &mut mine, read_at(0x11000));
    assert_eq!(rt;
        port.hit(&rows, 0x11234, Access::Read),
        (Some(0x11_0234), 6)
    );
    // A check-in empties no word, nor does a snapshot.
    manager.check_in(rt, &rows, &mut mine, &mut port);
    let report = manager.snapshot(rt, alloc)?;
    assert!(rt; report.text().starts_with("events 6\n"));
    assert_eq!(rt;
        port.hit(&rows, 0x11234, Access::Read),
        (Some(0x11_0234), 6)
    );
    let _ = manager.call(rt, &rows, &mut mine, unmap_at(0x11000));
    assert_eq!(rt; port.hit(&rows, 0x11234, Access::Read), (None, 7));
    assert_eq!(rt; port.count(&rows), 7);
    let mut shares = Vec::new(alloc);
    shares.push(mine)?;
    let Ok(mut history) = manager.finish(&rows, shares) else {
        return Err(Fail::from("all shares are enough"));
    };
    history.meet(&rows, &mut port);
    assert_eq!(rt; history.events().len(), 7);
    Ok(())
}

#[test]
fn hit_under_lock(rt: HostRuntime) -> Result<(), Fail> {
    let seed = seed_of(rt.alloc(), 64, 100, 1)?;
    hit_beside_the_holder::<Brand, _>(&rt, rt.alloc(), seed)
}

// While one thread holds the lock, the port of another is answered; after an unmap and a check-in it no longer is.
fn hit_beside_the_holder<B: Owner + Send + Sync, R: Threads + Wait + Abort + Sync>(
    rt: &R,
    alloc: Global,
    seed: Seed,
) -> Result<(), Fail>
    requires { IsNamedBy seed B.name B.parts B.shares B.room B.frames B.mode B.rows B.most B.handing }
{
    let (manager, rows, mut ports, mut mine) = made::<B>(alloc, seed)?;
    let port = ports.remove(3);
    request_pages(rt, &manager, &rows, &mut mine, 1, &[0x1234]);
    let held = AtomicU64::new(0);
    let answered = AtomicU64::new(0);
    let shared = &manager;
    let (let_go, (hits, mut port)) = join(
        rt,
        || hold(rt, shared, &held, &answered),
        || hit_once_held(&rows, port, &held, &answered),
    );
    assert!(rt; let_go);
    assert_eq!(rt; hits, Some((Some(0x10_0234), None)));
    let unmapped = manager.call(rt, &rows, &mut mine, unmap_at(0x1000));
    assert_eq!(rt; unmapped, Ok((5, Reply::Unmapped(0))));
    manager.check_in(rt, &rows, &mut mine, &mut port);
    assert_eq!(rt; port.hit(&rows, 0x1234, Access::Read), (None, 5));
    Ok(())
}

// Holds the lock until the port was answered; whether it was, in time.
fn hold<B: Owner>(
    rt: &impl Wait,
    manager: &Manager<B>,
    held: &AtomicU64,
    answered: &AtomicU64,
) -> bool {
    let _guard = manager.lock(rt);
    held.store(1, Ordering::SeqCst);
    is_raised(answered)
}

// What the port is answered at a page that was requested and at another, once the lock is held; `None` where it never is.
fn hit_once_held<B: Owner>(
    rows: &Rows<B>,
    port: Port<B>,
    held: &AtomicU64,
    answered: &AtomicU64,
) -> (Option<(Option<u64>, Option<u64>)>, Port<B>) {
    let mut port = port;
    if !is_raised(held) {
        return (None, port);
    }
    let (here, _) = port.hit(rows, 0x1234, Access::Read);
    let (there, _) = port.hit(rows, 0x2234, Access::Read);
    answered.store(1, Ordering::SeqCst);
    (Some((here, there)), port)
}

// Whether the flag is raised within this number of turns.
fn is_raised(flag: &AtomicU64) -> bool {
    for _ in 0..TURNS {
        if flag.load(Ordering::SeqCst) == 1 {
            return true;
        }
        yield_now();
    }
    false
}
