//! Workers that call by turns, as a gate lets them.

ghost use Rattle.std.specs.Prelude.{◌≡◌, ◌+◌, ◌*◌};
ghost use Rattle.manager.specs.Kept.{IsNamedBy};

use super::calls::{FIRST_FRAME, FRAMES, PAGES_READ};
use crate::Gate;
use crate::storming::{Outcome, Plan, outcome_of};
use dmatypes::{Call, Event, PAGE_BYTES};
use manager::{Config, Owner, Seed};
use std::alloc::Global;
use std::marker::Brand;
use std::process::Abort;
use std::sync::Wait;
use std::sync::atomic::{AtomicU64, Ordering};
use std::test::Fail;
use std::thread::{Threads, yield_now};

// Turns that a worker yields at most for others.
const TURNS: u64 = 100_000_000;

// Two drivers, two devices and the unit.
const WORKERS: u64 = 5;

const CALLS: u64 = 6;

// Once all workers have come, lets them make their calls in rounds, the worker of the greatest number first. Who was answered
// waits until all of the round were, and goes on in the other order: so a call that is made outside of its turn stands
// elsewhere in the history.
#[derive(Drop)]
struct Rounds {
    entered: AtomicU64,
    answered: AtomicU64,
    left: AtomicU64,
    missed: AtomicU64,
}

impl Rounds {
    // Waits for a count, for a limited time.
    fn wait_for(&self, count: &AtomicU64, least: u64) {
        for _ in 0..TURNS {
            if count.load(Ordering::SeqCst) >= least {
                return;
            }
            yield_now();
        }
        self.missed.fetch_add(1, Ordering::SeqCst);
    }
}

// How many calls came in the rounds before.
fn before(call: u64) -> u64 {
    call.saturating_sub(1).saturating_mul(WORKERS)
}

impl Gate for Rounds {
    fn enter(&self, worker: u64, call: u64) {
        self.entered.fetch_add(1, Ordering::SeqCst);
        self.wait_for(&self.entered, WORKERS);
        let turn = (WORKERS - 1).saturating_sub(worker);
        self.wait_for(&self.answered, before(call).saturating_add(turn));
    }

    fn answered(&self, worker: u64, call: u64) {
        self.answered.fetch_add(1, Ordering::SeqCst);
        self.wait_for(&self.answered, before(call).saturating_add(WORKERS));
        self.wait_for(&self.left, before(call).saturating_add(worker));
        self.left.fetch_add(1, Ordering::SeqCst);
    }
}

#[test]
fn calls_by_turns(rt: HostRuntime) -> Result<(), Fail> {
    let plan = Plan {
        drivers: 2,
        devices: 2,
        calls: CALLS,
    };
    let config = Config::new(FRAMES, plan.events(), plan.workers() + 1).ok_or("within the limits")?;
    let seed = Seed::new(rt.alloc(), config)?;
    called_by_turns::<Brand, _>(&rt, rt.alloc(), seed, plan)
}

// A call is made between its two calls of the gate, and not under the lock before them. So all workers come to the gate at once,
// and the history has their calls in the order of the rounds.
fn called_by_turns<B: Owner + Send + Sync, R: Threads + Wait + Abort + Sync>(
    rt: &R,
    alloc: Global,
    seed: Seed,
    plan: Plan,
) -> Result<(), Fail>
    requires named { IsNamedBy seed B.name B.parts B.shares B.room B.frames B.mode B.rows B.most B.handing }
    requires room { seed.room ≡ 2 + plan.devices + plan.calls * (plan.drivers + plan.devices + 1) }
    requires most { seed.most ≡ seed.room }
    requires shares { seed.shares ≡ plan.drivers + plan.devices + 2 }
    requires frames { seed.frames ≡ FRAMES }
{
    let gate = Rounds {
        entered: AtomicU64::new(0),
        answered: AtomicU64::new(0),
        left: AtomicU64::new(0),
        missed: AtomicU64::new(0),
    };
    let Ok(Outcome { history, .. }) = outcome_of::<B, _, R>(rt, alloc, seed, plan, &gate) else {
        return Err(Fail::from("memory and threads"));
    };
    assert_eq!(rt; gate.missed.load(Ordering::SeqCst), 0);
    let set_up = 2 + plan.devices;
    let behind = history.events().iter().skip(set_up as usize);
    let in_turn = behind.enumerate().all(|(place, event)| {
        let turn = place as u64;
        let worker = WORKERS - 1 - turn % WORKERS;
        is_call_of(plan, worker, turn / WORKERS + 1, event)
    });
    assert!(rt; in_turn);
    Ok(())
}

// Whether it is the worker's call of this number: drivers come first, then the devices, then the unit.
fn is_call_of(plan: Plan, worker: u64, number: u64, event: &Event) -> bool {
    match &event.call {
        Call::Map { domain, frame, .. } => {
            worker < plan.drivers
                && number % 2 == 1
                && *domain == 1 + worker % 2
                && *frame == FIRST_FRAME.saturating_add(worker)
        }
        Call::Unmap { domain, .. } => {
            worker < plan.drivers && number % 2 == 0 && *domain == 1 + worker % 2
        }
        Call::Dma {
            device,
            address,
            ..
        } => {
            plan.drivers.saturating_add(*device) == worker
                && *address == PAGE_BYTES.saturating_mul(1 + number % PAGES_READ)
        }
        Call::Unit => worker == plan.drivers + plan.devices,
        _ => false,
    }
}
