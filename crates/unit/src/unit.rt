//! The unit and its caches.

ghost use Rattle.std.specs.Prelude.{◌≡◌, ◌↔◌, ◌+◌, ◌^◌, ◌<◌, [], false, not, filter, IfOk, IsTrue};
ghost use Rattle.tables.specs.Pool.{memory};
ghost use Rattle.unit.specs.Answers.{AnswersRequest, IsRemembered};
ghost use Rattle.unit.specs.Caches.{unit_state, nothing, without};
ghost use Rattle.unit.specs.Filters.{left_by, left_by_first, after_first, done_after};

use crate::contexts::Contexts;
use crate::entries::{CachedContext, CachedFault, CachedNonLeaf};
use crate::filters::forget;
use crate::hit::Hit;
use crate::leaves::MarkedLeaves;
use crate::requests::{CONTEXTS, FAULTS, Lookup, context_of, translation_of};
use crate::telling::tell;
use crate::walking::NON_LEAVES;
use arrayvec::ArrayVec;
use dmatypes::{Access, Cache, DEVICES, Fault, PAGE_BYTES, Progress, Whim};
use queue::Ring;
use std::marker::Model;
use tables::Pool;
use vtdbits::Descriptor;

#[cfg(test)]
mod request_tests;
#[cfg(test)]
mod tests;
#[cfg(test)]
mod text_tests;

/// A unit: what it remembers of contexts, tables, leaves and absent pages, oldest first, whether it may remember that a page is
/// absent, how many descriptors it did, and in how many steps none waited.
#[derive(Debug, Drop)]
pub struct Unit {
    leaves: MarkedLeaves,
    non_leaves: ArrayVec<CachedNonLeaf, NON_LEAVES>,
    contexts: ArrayVec<CachedContext, CONTEXTS>,
    faults: ArrayVec<CachedFault, FAULTS>,
    caching: bool,
    done: u64,
    idle: u64,
}

// Clauses see the four lists, the number of all steps, the number of descriptors done, and the mode. A list has a place for each
// entry that it may remember.
impl Model for Unit {
    ghost use Rattle.std.specs.Prelude.{◌+◌};
    ghost use Rattle.unit.specs.Caches.{AreFew, HavePlaces, UnitState, unit_state, caches};
    ghost use Rattle.unit.specs.declared.recent.TheConstants.{LEAVES};
    ghost use Rattle.unit.specs.declared.requests.TheConstants.{CONTEXTS, FAULTS};
    ghost use Rattle.unit.specs.declared.walking.TheConstants.{NON_LEAVES};

    ghost Value = { UnitState };

    ghost view = { λ u.
        unit_state (caches u.leaves u.non_leaves.items u.contexts.items u.faults.items) (u.done + u.idle) u.done u.caching };

    ghost invariant = { λ u. AreFew (caches u.leaves u.non_leaves.items u.contexts.items u.faults.items)
        × HavePlaces LEAVES NON_LEAVES CONTEXTS FAULTS };
}

impl Unit {
    /// A unit that remembers nothing and has made no step, without Caching Mode.
    pub fn new() -> Unit
        ensures { result ≡ unit_state nothing 0 0 false }
    {
        Unit::with_caching(false)
    }

    /// A unit that remembers nothing and has made no step. With Caching Mode on it may also remember that a page is absent.
    // Never inlined: the room on the stack in which its parts are moved is given back when it returns.
    #[inline(never)]
    pub fn with_caching(on: bool) -> Unit
        ensures { result ≡ unit_state nothing 0 0 on }
    {
        Unit {
            leaves: MarkedLeaves::new(),
            non_leaves: ArrayVec::new(),
            contexts: ArrayVec::new(),
            faults: ArrayVec::new(),
            caching: on,
            done: 0,
            idle: 0,
        }
    }

    /// Whether it may remember that a page is absent.
    pub fn is_caching(&self) -> bool
        ensures { result ≡ self.now.caching }
    {
        self.caching
    }

    /// Translates a device's request at a byte address. With `look` what is remembered serves before the row
    /// and the tables; with `fill` what served is remembered.
    pub fn dma(
        &mut self,
        pool: &Pool,
        contexts: &Contexts,
        device: u64,
        address: u64,
        access: Access,
        whim: Whim,
    ) -> Result<Hit, Fault>
        requires { device < DEVICES }
        ensures answers { AnswersRequest (memory pool.now.words) contexts.now whim.look whim.fill self.old.caching device address access
            self.old.caches self.new.caches result }
        ensures remembered { IsTrue whim.fill → IfOk result (IsRemembered self.new.caches device address) }
        ensures steps { self.new.steps ≡ self.old.steps }
        ensures done { self.new.done ≡ self.old.done }
        ensures caching { self.new.caching ≡ self.old.caching }
    {
        let Some(context) = context_of(&mut self.contexts, contexts, device, whim) else {
            return Err(Fault::NotAttached);
        };
        let end = context.width.addresses_end();
        if address >= end {
            return Err(Fault::BeyondWidth);
        }
        let lookup = Lookup {
            context,
            page: address / PAGE_BYTES,
            whim,
            caching: self.caching,
        };
        let to = translation_of(
            pool,
            &mut self.leaves,
            &mut self.non_leaves,
            &mut self.faults,
            lookup,
        );
        tell(to, address, access)
    }

    /// Takes the oldest descriptor of the ring, if one waits, and does it: what it names is forgotten, and a
    /// wait's number becomes the ring's status. Each call counts as a step.
    pub fn step(&mut self, ring: &mut Ring) -> Progress
        requires { self.old.steps < 2 ^ 63 }
        ensures idle { (result ≡ Progress.Idle) ↔ (ring.old.waiting ≡ []) }
        ensures unit { self.new ≡ unit_state (left_by_first ring.old.waiting self.old.caches) (self.old.steps + 1)
            (done_after ring.old.waiting self.old.done) self.old.caching }
        ensures ring { ring.new ≡ after_first ring.old.waiting ring.old.status ring.old.taken }
    {
        let Some(descriptor) = ring.fetch() else {
            self.idle += 1;
            return Progress::Idle;
        };
        self.done += 1;
        match descriptor {
            // A wait drops nothing, so no cache is looked through for it.
            Descriptor::Wait(number) => ring.complete(number),
            _ => self.forget(descriptor),
        }
        Progress::Did
    }

    // Forgets what a descriptor names.
    fn forget(&mut self, descriptor: Descriptor)
        ensures { self.new ≡ unit_state (left_by descriptor self.old.caches) self.old.steps self.old.done self.old.caching }
    {
        self.leaves.forget(&descriptor);
        forget(&mut self.non_leaves, &descriptor);
        forget(&mut self.contexts, &descriptor);
        forget(&mut self.faults, &descriptor);
    }

    /// Forgets the entry at a place of one of the caches, counted from 0 and from the oldest, if there is one.
    pub fn evict(&mut self, kind: Cache, place: u64)
        ensures { self.new ≡ unit_state (without kind place self.old.caches) self.old.steps self.old.done self.old.caching }
    {
        let place = place as usize;
        match kind {
            Cache::Leaf => {
                self.leaves.evict(place);
            }
            Cache::NonLeaf => {
                self.non_leaves.pop_at(place);
            }
            Cache::Context => {
                self.contexts.pop_at(place);
            }
            Cache::Fault => {
                self.faults.pop_at(place);
            }
        }
    }
}
