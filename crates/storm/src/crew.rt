//! The threads of a storm's workers.

ghost use Rattle.std.specs.Prelude.{◌≡◌, ◌≤◌, ◌<◌, ℕ, All, IfOk, IfErr, IfSome, vec_capacity, vec_len};
ghost use Rattle.storm.specs.Storms.{HasChecked, HasCheckedIn, HasMade, IsFresh};

use crate::gate::Gate;
use crate::storming::StormError;
use crate::workers::{Finished, Site, Worker, work};
use manager::{Owner, Port, Share};
use std::alloc::{AllocError, Global};
use std::sync::Wait;
use std::thread;
use std::thread::{Promise, PromisedHandle, Scope, Threads};

// How many calls a worker is to make. It makes them all, or finds no room in the history.
#[derive(Clone, Copy)]
struct Stint(u64);

impl<B: Owner> Promise<Finished<B>> for Stint {
    ghost kept_by = { λ stint finished. HasMade B.room stint.0 finished.share
        × IfSome finished.port (HasCheckedIn stint.0 finished.share) };
}

/// What all workers hand back.
#[derive(Drop)]
pub(crate) struct Returned<B: Owner> {
    pub(crate) shares: Vec<Share<B>>,
    pub(crate) ports: Vec<Port<B>>,
}

/// Runs the workers, each in a thread of its own, and joins them. The memory for what they hand back, and for one share more,
/// is taken before the first of them begins. Where a thread is refused, those that were started run to their end.
pub(crate) fn run_all<B: Owner + Send + Sync, G: Gate, R: Threads + Wait + Sync>(
    rt: &R,
    alloc: Global,
    site: &Site<'_, B, G>,
    workers: Vec<Worker<B>>,
) -> Result<Returned<B>, StormError>
    requires { All IsFresh workers.items }
    ensures len { IfOk result (λ r. vec_len r.shares ≡ vec_len workers) }
    ensures room { IfOk result (λ r. vec_len r.shares < vec_capacity r.shares) }
    ensures made { IfOk result (λ r. All (HasMade B.room site.now.calls) r.shares.items) }
    ensures checked { IfOk result (λ r. All (HasChecked site.now.calls) r.ports.items) }
{
    let running = Vec::with_capacity(alloc, workers.len())?;
    let returned = Returned {
        shares: Vec::with_capacity(alloc, workers.len().saturating_add(1))?,
        ports: Vec::with_capacity(alloc, workers.len())?,
    };
    thread::scope(
        thread::scope_env(),
        rt,
        |scope| -> Result<Returned<B>, StormError>
            requires fresh { All IsFresh workers.items }
            requires running { (vec_len running ≡ 0) × (vec_len workers ≤ vec_capacity running) }
            requires shares { (vec_len returned.shares ≡ 0) × (vec_len workers < vec_capacity returned.shares) }
            requires ports { (vec_len returned.ports ≡ 0) × (vec_len workers ≤ vec_capacity returned.ports) }
            ensures len { IfOk result (λ r. vec_len r.shares ≡ vec_len workers) }
            ensures room { IfOk result (λ r. vec_len r.shares < vec_capacity r.shares) }
            ensures made { IfOk result (λ r. All (HasMade B.room site.entry.now.calls) r.shares.items) }
            ensures checked { IfOk result (λ r. All (HasChecked site.entry.now.calls) r.ports.items) }
        {
            match start_all(scope, rt, site, workers, running) {
                Ok(running) => Ok(join_all(rt, running, returned)),
                Err(running) => {
                    let _ = join_all(rt, running, returned);
                    Err(StormError::NoThread)
                }
            }
        },
    )
}

// Starts a thread for each worker: all of their threads, or those that were made before one was refused.
fn start_all<'s, E, B: Owner + Send + Sync, G: Gate, R: Threads + Wait + Sync>(
    scope: &'s Scope<'s, E>,
    rt: &'s R,
    site: &'s Site<'s, B, G>,
    workers: Vec<Worker<B>>,
    running: Vec<PromisedHandle<Finished<B>, Stint>>,
) -> Result<Vec<PromisedHandle<Finished<B>, Stint>>, Vec<PromisedHandle<Finished<B>, Stint>>>
    requires fresh { All IsFresh workers.items }
    requires room { (vec_len running ≡ 0) × (vec_len workers ≤ vec_capacity running) }
    ensures all { IfOk result (λ v. vec_len v ≡ vec_len workers) }
    ensures fewer { IfErr result (λ v. vec_len v ≤ vec_len workers) }
    ensures stints { IfOk result (λ v. All (λ h. h.promise.0 ≡ site.now.calls) v.items) }
{
    let mut running = running;
    for worker in workers {
        match scope.spawn_with(
            Stint(site.calls),
            move ||
                requires { IsFresh worker }
            { work(rt, site, worker) },
        ) {
            Ok(handle) => running.push_reserved(handle),
            Err(_) => return Err(running),
        }
    }
    Ok(running)
}

// Joins the threads, and adds what they hand back.
fn join_all<B: Owner, R: Threads>(
    rt: &R,
    running: Vec<PromisedHandle<Finished<B>, Stint>>,
    returned: Returned<B>,
) -> Returned<B>
    requires shares { (vec_len returned.shares ≡ 0) × (vec_len running ≤ vec_capacity returned.shares) }
    requires ports { (vec_len returned.ports ≡ 0) × (vec_len running ≤ vec_capacity returned.ports) }
    ensures len { vec_len result.shares ≡ vec_len running }
    ensures room { vec_capacity result.shares ≡ vec_capacity returned.shares }
    ensures made { (calls : ℕ) → All (λ h. h.promise.0 ≡ calls) running.items → All (HasMade B.room calls) result.shares.items
        × All (HasChecked calls) result.ports.items }
{
    let mut returned = returned;
    for handle in running {
        let Finished { share, port } = handle.join(rt);
        returned.shares.push_reserved(share);
        if let Some(port) = port {
            returned.ports.push_reserved(port);
        }
    }
    returned
}
