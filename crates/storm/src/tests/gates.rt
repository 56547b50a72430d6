//! Gates that hold the workers of a storm, or watch them.

use crate::{Gate, storm};
use std::sync::atomic::{AtomicU64, Ordering};
use std::thread::yield_now;

// Turns that a worker yields at most for another.
const TURNS: u64 = 100_000_000;

// Holds the first calls of workers 0 and 1 until both have come, for a limited time.
#[derive(Drop)]
struct Meeting {
    entered: AtomicU64,
    missed: AtomicU64,
}

impl Gate for Meeting {
    fn enter(&self, worker: u64, call: u64) {
        if worker > 1 || call != 1 {
            return;
        }
        self.entered.fetch_add(1, Ordering::SeqCst);
        for _ in 0..TURNS {
            if self.entered.load(Ordering::SeqCst) == 2 {
                return;
            }
            yield_now();
        }
        self.missed.fetch_add(1, Ordering::SeqCst);
    }

    fn answered(&self, _worker: u64, _call: u64) {}
}

// A storm whose workers all call from one thread never gets past this gate in time.
#[test]
fn two_workers_call_at_once(rt: HostRuntime) {
    let gate = Meeting {
        entered: AtomicU64::new(0),
        missed: AtomicU64::new(0),
    };
    assert_eq!(rt; storm(&rt, rt.alloc(), 2, 2, 10, &gate), Ok(54));
    assert_eq!(rt; gate.entered.load(Ordering::SeqCst), 2);
    assert_eq!(rt; gate.missed.load(Ordering::SeqCst), 0);
}

const WORKERS: usize = 5;

const CALLS: u64 = 25;

// How often each worker was named to the gate, and how often out of order or as no worker.
#[derive(Drop)]
struct Watch {
    steps: [AtomicU64; WORKERS],
    wrong: AtomicU64,
}

impl Watch {
    // A worker's steps are those of its calls, from call 1 on: it enters, and then is answered.
    fn step(&self, worker: u64, call: u64, side: u64) {
        let in_order = self.steps.get(worker as usize).is_some_and(|steps| {
            let before = steps.fetch_add(1, Ordering::SeqCst);
            before / 2 + 1 == call && before % 2 == side
        });
        if !in_order {
            self.wrong.fetch_add(1, Ordering::SeqCst);
        }
    }
}

impl Gate for Watch {
    fn enter(&self, worker: u64, call: u64) {
        self.step(worker, call, 0);
    }

    fn answered(&self, worker: u64, call: u64) {
        self.step(worker, call, 1);
    }
}

#[test]
fn each_worker_makes_its_calls(rt: HostRuntime) {
    let gate = Watch {
        steps: [
            AtomicU64::new(0),
            AtomicU64::new(0),
            AtomicU64::new(0),
            AtomicU64::new(0),
            AtomicU64::new(0),
        ],
        wrong: AtomicU64::new(0),
    };
    assert_eq!(rt; storm(&rt, rt.alloc(), 3, 1, CALLS, &gate), Ok(128));
    assert_eq!(rt; gate.wrong.load(Ordering::SeqCst), 0);
    for steps in &gate.steps {
        assert_eq!(rt; steps.load(Ordering::SeqCst), 2 * CALLS);
    }
}
