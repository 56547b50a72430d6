//! A storm: drivers, devices and the unit, in threads of their own, on one manager.

ghost use Rattle.std.specs.Prelude.{◌≡◌, ◌+◌, ◌-◌, ◌*◌, ◌<◌, ◌≤◌, ℕ, All, IfOk, Some, length, slice_get, vec_len};
ghost use Rattle.std.specs.Vec.Iter.{into_iter_items};
ghost use Rattle.manager.specs.Kept.{IsNamedBy, new_share};
ghost use Rattle.ports.specs.Seen.{new_port};
ghost use Rattle.storm.specs.Storms.{AreNewFrom, HasChecked, HasMade, HasMet, HasNewPort, IsFresh};

use crate::crew::{Returned, run_all};
use crate::gate::Gate;
use crate::workers::{Role, Site, Worker};
use dmatypes::{Call, Mode, Width};
use manager::{Config, History, Made, Manager, Owner, Port, Rows, Seed, Share};
use std::alloc::{AllocError, Global};
use std::marker::Brand;
use std::sync::Wait;
use std::thread::Threads;
use std::vec::IntoIter;
use thiserror::Error;

/// The most drivers of a storm (own).
pub const MOST_DRIVERS: u64 = 8;

/// The most devices of a storm (own).
pub const MOST_DEVICES: u64 = 8;

/// The most calls that each worker of a storm makes (own).
pub const MOST_WORKER_CALLS: u64 = 10_000;

/// The table frames of a storm's manager.
pub(crate) const TABLE_FRAMES: u64 = 64;

// The frame that the first driver maps; each further one maps the frame behind.
const FIRST_FRAME: u64 = 0x1000;

/// Why a storm gives no answer.
#[derive(Clone, Copy, Debug, PartialEq, Eq, Error)]
pub enum StormError {
    /// There was no memory for the manager, or for what the workers hand back.
    #[error("no memory")]
    NoMemory,
    /// A worker's thread couldn't be made. Those that were made have ended.
    #[error("no thread")]
    NoThread,
}

impl From<AllocError> for StormError {
    fn from(_: AllocError) -> StormError {
        StormError::NoMemory
    }
}

/// How many drivers and devices a storm has, beside the unit, and how many calls each of these workers makes.
#[derive(Clone, Copy)]
pub(crate) struct Plan {
    pub(crate) drivers: u64,
    pub(crate) devices: u64,
    pub(crate) calls: u64,
    ghost drivers_few: { (1 ≤ drivers) × (drivers ≤ 8) },
    ghost devices_few: { (1 ≤ devices) × (devices ≤ 8) },
    ghost calls_few: { (1 ≤ calls) × (calls ≤ 10000) },
}

impl Plan {
    pub(crate) fn workers(self) -> u64
        ensures { result ≡ self.drivers + self.devices + 1 }
    {
        self.drivers + self.devices + 1
    }

    /// The calls of the set-up, and those of the workers.
    pub(crate) fn events(self) -> u64
        ensures { result ≡ 2 + self.devices + self.calls * (self.drivers + self.devices + 1) }
    {
        2 + self.devices + self.calls * self.workers()
    }
}

/// Makes calls on a manager by many threads at once, and answers how many events its history then has: all calls are made,
/// and no other. Each driver, each device and the unit is a worker in a thread of its own.
///
/// The calling thread makes domain 1 strict and domain 2 lazy, and attaches the devices by turns. Then the drivers map and
/// unmap a page each, the devices read, by their ports first, and the unit makes steps. At its end a device's port
/// checks in.
pub fn storm<G: Gate, R: Threads + Wait + Sync>(
    rt: &R,
    alloc: Global,
    drivers: u64,
    devices: u64,
    calls: u64,
    gate: &G,
) -> Result<u64, StormError>
    requires drivers { (1 ≤ drivers) × (drivers ≤ MOST_DRIVERS) }
    requires devices { (1 ≤ devices) × (devices ≤ MOST_DEVICES) }
    requires calls { (1 ≤ calls) × (calls ≤ MOST_WORKER_CALLS) }
    ensures events { IfOk result (λ events. events ≡ 2 + devices + calls * (drivers + devices + 1)) }
{
    let plan = Plan {
        drivers,
        devices,
        calls,
    };
    let Some(config) = Config::new(TABLE_FRAMES, plan.events(), plan.workers() + 1) else {
        unreachable!()
    };
    let seed = Seed::new(alloc, config)?;
    storm_on::<Brand, G, R>(rt, alloc, seed, plan, gate)
}

// The same, over an owner that names the manager of a seed.
fn storm_on<B: Owner + Send + Sync, G: Gate, R: Threads + Wait + Sync>(
    rt: &R,
    alloc: Global,
    seed: Seed,
    plan: Plan,
    gate: &G,
) -> Result<u64, StormError>
    requires named { IsNamedBy seed B.name B.parts B.shares B.room B.frames B.mode B.rows B.most B.handing }
    requires room { seed.room ≡ 2 + plan.devices + plan.calls * (plan.drivers + plan.devices + 1) }
    requires most { seed.most ≡ seed.room }
    requires shares { seed.shares ≡ plan.drivers + plan.devices + 2 }
    requires frames { seed.frames ≡ TABLE_FRAMES }
    ensures { IfOk result (λ events. events ≡ seed.room) }
{
    let outcome = outcome_of::<B, G, R>(rt, alloc, seed, plan, gate)?;
    Ok(outcome.history.events().len() as u64)
}

/// What is left of a storm.
#[derive(Drop)]
pub(crate) struct Outcome<B: Owner> {
    pub(crate) history: History<B>,
    /// The ports of the devices, which have met the history.
    pub(crate) ports: Vec<Port<B>>,
}

/// Makes all calls of a storm on the manager of a seed.
pub(crate) fn outcome_of<B: Owner + Send + Sync, G: Gate, R: Threads + Wait + Sync>(
    rt: &R,
    alloc: Global,
    seed: Seed,
    plan: Plan,
    gate: &G,
) -> Result<Outcome<B>, StormError>
    requires named { IsNamedBy seed B.name B.parts B.shares B.room B.frames B.mode B.rows B.most B.handing }
    requires room { seed.room ≡ 2 + plan.devices + plan.calls * (plan.drivers + plan.devices + 1) }
    requires most { seed.most ≡ seed.room }
    requires shares { seed.shares ≡ plan.drivers + plan.devices + 2 }
    requires frames { seed.frames ≡ TABLE_FRAMES }
    ensures room { IfOk result (λ p. length p.history.history ≡ seed.room) }
    ensures met { IfOk result (λ p. All (HasMet plan.calls p.history.history) p.ports.items) }
{
    outcome_on(rt, alloc, Manager::<B>::new(alloc, seed), plan, gate)
}

// Makes them on a manager, where there was memory for one. A manager is large: what this takes of the stack is not taken yet while the
// manager is made.
#[inline(never)]
fn outcome_on<B: Owner + Send + Sync, G: Gate, R: Threads + Wait + Sync>(
    rt: &R,
    alloc: Global,
    made: Result<Made<B>, AllocError>,
    plan: Plan,
    gate: &G,
) -> Result<Outcome<B>, StormError>
    requires room { B.room ≡ 2 + plan.devices + plan.calls * (plan.drivers + plan.devices + 1) }
    requires most { B.most ≡ B.room }
    requires few { B.shares ≡ plan.drivers + plan.devices + 2 }
    requires shares { IfOk made (λ m. vec_len m.shares ≡ B.shares) }
    requires fresh { IfOk made (λ m. All (λ s. s ≡ new_share) m.shares.items) }
    requires ports { IfOk made (λ m. (vec_len m.ports ≡ 16)
        × ((k : ℕ) → k < 16 → slice_get m.ports.items k ≡ Some (new_port B.rows k))) }
    ensures room { IfOk result (λ p. length p.history.history ≡ B.room) }
    ensures met { IfOk result (λ p. All (HasMet plan.calls p.history.history) p.ports.items) }
{
    let Made {
        manager,
        rows,
        ports,
        mut shares,
        ..
    } = made?;
    let Some(mut first) = shares.pop() else {
        unreachable!()
    };
    set_up(rt, &manager, &rows, &mut first, plan.devices);
    let workers = workers_of(alloc, plan, shares, ports)?;
    let site = Site {
        manager: &manager,
        rows: &rows,
        gate,
        calls: plan.calls,
    };
    let Returned {
        mut shares,
        mut ports,
    } = run_all(rt, alloc, &site, workers)?;
    shares.push_reserved(first);
    let Ok(mut history) = manager.finish(&rows, shares) else {
        unreachable!()
    };
    meet_all(&mut history, &rows, &mut ports);
    Ok(Outcome { history, ports })
}

// Tells the ports the whole history.
fn meet_all<B: Owner>(history: &mut History<B>, rows: &Rows<B>, ports: &mut Vec<Port<B>>)
    ensures same { history.new ≡ history.old }
    ensures met { (hits : ℕ) → All (HasChecked hits) ports.old.items
        → All (HasMet hits history.old.history) ports.new.items }
{
    for port in ports.iter_mut() {
        history.meet(rows, port);
    }
}

// Makes two domains, and attaches the devices.
fn set_up<B: Owner, R: Wait>(
    rt: &R,
    manager: &Manager<B>,
    rows: &Rows<B>,
    first: &mut Share<B>,
    devices: u64,
)
    requires { first.old.calls ≡ 0 }
    ensures { HasMade B.room (2 + devices) first.new }
{
    let _ = manager.call(
        rt,
        rows,
        first,
        Call::Domain {
            mode: Mode::Strict,
            width: Width::W39,
        },
    );
    let _ = manager.call(
        rt,
        rows,
        first,
        Call::Domain {
            mode: Mode::Lazy,
            width: Width::W39,
        },
    );
    for device in 0..devices {
        let attach = Call::Attach {
            device,
            domain: domain_of(device),
        };
        let _ = manager.call(rt, rows, first, attach);
    }
}

// The domain of a driver or a device of this number.
fn domain_of(number: u64) -> u64 {
    1 + number % 2
}

// A worker for each share: first the drivers, then the devices with their ports, then the unit.
fn workers_of<B: Owner>(
    alloc: Global,
    plan: Plan,
    shares: Vec<Share<B>>,
    ports: Vec<Port<B>>,
) -> Result<Vec<Worker<B>>, AllocError>
    requires shares { All (λ s. s ≡ new_share) shares.items }
    requires ports { AreNewFrom 0 ports.items }
    ensures len { IfOk result (λ v. vec_len v ≡ vec_len shares) }
    ensures fresh { IfOk result (λ v. All IsFresh v.items) }
{
    let mut ports = ports.into_iter();
    let mut workers = Vec::with_capacity(alloc, shares.len())?;
    for share in shares {
        let number = workers.len() as u64;
        let role = role_of(plan, number, &mut ports);
        workers.push(Worker {
            number,
            share,
            role,
        })?;
    }
    Ok(workers)
}

// What the worker of this number does: a device takes the next of the ports.
fn role_of<B: Owner>(plan: Plan, number: u64, ports: &mut IntoIter<Port<B>>) -> Role<B>
    requires { number ≤ plan.drivers + plan.devices → AreNewFrom (number - plan.drivers) (into_iter_items ports.old) }
    ensures role { HasNewPort result }
    ensures ports { number + 1 ≤ plan.drivers + plan.devices
        → AreNewFrom (number + 1 - plan.drivers) (into_iter_items ports.new) }
{
    if number < plan.drivers {
        return Role::Driver {
            domain: domain_of(number),
            frame: FIRST_FRAME + number,
        };
    }
    let device = number - plan.drivers;
    if device >= plan.devices {
        return Role::Unit;
    }
    match ports.next() {
        Some(port) => Role::Device { device, port },
        None => Role::Unit,
    }
}
