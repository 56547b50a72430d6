//! A thread that makes steps of the unit alone, beside drivers that begin and reap flushes.

ghost use Rattle.manager.specs.Kept.{IsNamedBy};

use super::{finished, seed_of};
use dmatypes::{Call, Mode, Reply, Width};
use manager::*;
use std::alloc::Global;
use std::marker::Brand;
use std::process::Abort;
use std::sync::Wait;
use std::test::Fail;
use std::thread::{Threads, join};

// The calls that each thread makes.
const CALLS: u64 = 1000;

// The calls that make the domains.
const FIRST_CALLS: u64 = 2;

// Begins a flush of a domain, reaps it until it is done, and so on. Whether each call was answered as it may be.
fn begins_and_reaps<B: Owner>(
    rt: &impl Wait,
    manager: &Manager<B>,
    rows: &Rows<B>,
    mine: Share<B>,
    domain: u64,
) -> (Share<B>, bool) {
    let mut mine = mine;
    let mut ticket = None;
    let mut good = true;
    for _ in 0..CALLS {
        let call = match ticket {
            Some(number) => Call::Reap { domain, number },
            None => Call::Begin { domain },
        };
        match manager.call(rt, rows, &mut mine, call) {
            Ok((_, Reply::Ticket { number, .. })) => ticket = Some(number),
            Ok((_, Reply::Reaped(0))) => ticket = None,
            Ok((_, Reply::Pending)) => {}
            _ => good = false,
        }
    }
    (mine, good)
}

// Steps of the unit, and nothing else.
fn steps<B: Owner>(
    rt: &impl Wait,
    manager: &Manager<B>,
    rows: &Rows<B>,
    mine: Share<B>,
) -> (Share<B>, bool) {
    let mut mine = mine;
    let mut good = true;
    for _ in 0..CALLS {
        good = good
            && matches!(
                manager.call(rt, rows, &mut mine, Call::Unit),
                Ok((_, Reply::Stepped(_)))
            );
    }
    (mine, good)
}

#[test]
fn a_thread_of_the_unit(rt: HostRuntime) -> Result<(), Fail> {
    let seed = seed_of(rt.alloc(), 16, 4 * CALLS, 3)?;
    stepped_by_a_thread::<Brand, _>(&rt, rt.alloc(), seed)
}

fn stepped_by_a_thread<B: Owner + Send + Sync, R: Threads + Wait + Abort + Sync>(
    rt: &R,
    alloc: Global,
    seed: Seed,
) -> Result<(), Fail>
    requires { IsNamedBy seed B.name B.parts B.shares B.room B.frames B.mode B.rows B.most B.handing }
{
    let Made {
        manager,
        rows,
        mut shares,
        ..
    } = Manager::<B>::new(alloc, seed)?;
    let mut one = shares.pop().ok_or("a share")?;
    let two = shares.pop().ok_or("a share")?;
    let three = shares.pop().ok_or("a share")?;
    for _ in 0..FIRST_CALLS {
        let _ = manager.call(
            rt,
            &rows,
            &mut one,
            Call::Domain {
                mode: Mode::Lazy,
                width: Width::W39,
            },
        );
    }
    let shared = &manager;
    let (first, (second, unit)) = join(
        rt,
        || begins_and_reaps(rt, shared, &rows, one, 1),
        || {
            join(
                rt,
                || begins_and_reaps(rt, shared, &rows, two, 2),
                || steps(rt, shared, &rows, three),
            )
        },
    );
    assert!(rt; first.1 && second.1 && unit.1);
    shares.push(first.0)?;
    shares.push(second.0)?;
    let events = finished(manager, &rows, shares, unit.0)?;
    assert_eq!(rt; events as u64, FIRST_CALLS + 3 * CALLS);
    Ok(())
}
