//! A state that tells what each call asks.

ghost use Rattle.std.specs.Prelude.{◌≡◌, ◌+◌, ◌<◌, ◌≤◌, ◌↔◌, [], length, IfOk, IfSome, IsNone, true, false};
ghost use Rattle.dmatypes.specs.declared.call.Call.TheVariants as calls;
ghost use Rattle.dmatypes.specs.declared.limits.TheConstants.{CALLS_END, LEAST_TABLE_FRAMES, MOST_TABLE_FRAMES};
ghost use Rattle.dmatypes.specs.declared.reply.Reply.TheVariants.{Done, Stepped};
ghost use Rattle.engine.specs.Hits.{IsHitOf};
ghost use Rattle.engine.specs.State.{IsNew, begun_reply, done_reply, flushed_reply, made_reply, mapped_reply, reaped_reply, request_reply};
ghost use Rattle.engine.specs.State.{unmapped_reply};
ghost use Rattle.engine.specs.Steps.{Does};
ghost use Rattle.engine.specs.Quarantine.{Quarantine};
ghost use Rattle.dmatypes.specs.World.{empty};
ghost use Rattle.driven.specs.Driven.{Asks, HasTold, having_told};
ghost use Rattle.driven.specs.declared.untold.Untold.TheVariants.{Nothing};
ghost use Rattle.driven.specs.Effects.{AreEffects, DetachesAll, DoesBoth};
ghost use Rattle.driven.specs.UpTo.{DoesUpTo};
ghost use Rattle.driven.specs.declared.telling.TheConstants.{MOST_EFFECTS};

use crate::detaching::{tell_detach, tell_flush};
use crate::effect::{Effect, Half};
use crate::stepping::do_oldest;
use crate::telling::{Effects, Tables, bring_frames, send};
use crate::untold::{Before, Untold, forget, note, tell};
use arrayvec::ArrayVec;
use dmatypes::{
    Access, Cache, Fault, MOST_SEGMENTS, Mode, Progress, Refusal, Segment, Whim, Width,
};
use engine::{Hit, State, Unmapped};
use std::alloc::{AllocError, Global};
use std::marker::Model;

/// A state whose tables and queue a unit reads that isn't its own, and what the last call asks of whoever brings them there (own). Each
/// call does what the state's call of the same name does; `detach_all` does two of them, and `done_up_to` steps of the unit. None takes
/// memory.
#[derive(Drop)]
pub struct Driven {
    // In a place of its own, since it is large and whoever has a driven state moves it.
    state: Box<State>,
    effects: Effects,
    // What the last call asks besides, told by this and by the tables once somebody asks.
    untold: Untold,
    tables: Tables,
    tells: bool,
}

impl Model for Driven {
    ghost use Rattle.driven.specs.Driven.{CanTell, Driven};

    ghost Value = { Driven };

    ghost view = { λ d. record {
      state = d.state.value;
      effects = d.effects.items;
      untold = d.untold;
      tables = d.tables.items;
      tells = d.tells;
    } };

    ghost invariant = { λ d. CanTell d.state.value d.tables.items d.untold };
}

impl Driven {
    /// A new state, with Caching Mode or without it, that asks nothing: all words are 0, and there is no context. Fails where memory is
    /// lacking.
    pub fn new(alloc: Global, frames: u64, caching: bool) -> Result<Driven, AllocError>
        requires some { LEAST_TABLE_FRAMES ≤ frames }
        requires few { frames ≤ MOST_TABLE_FRAMES }
        ensures new { IfOk result (λ d. IsNew frames caching d.state) }
        ensures empty { IfOk result (λ d. Quarantine d.state (empty frames)) }
        ensures quiet { IfOk result (λ d. Asks d (λ effects. effects ≡ [])) }
        ensures tells { IfOk result (λ d. d.tells ≡ true) }
    {
        Driven::made(alloc, frames, caching, true)
    }

    /// The same, for whoever has no other unit: its maps and unmaps tell nothing, and keep nothing to tell.
    pub fn silent(alloc: Global, frames: u64, caching: bool) -> Result<Driven, AllocError>
        requires some { LEAST_TABLE_FRAMES ≤ frames }
        requires few { frames ≤ MOST_TABLE_FRAMES }
        ensures new { IfOk result (λ d. IsNew frames caching d.state) }
        ensures empty { IfOk result (λ d. Quarantine d.state (empty frames)) }
        ensures tells { IfOk result (λ d. d.tells ≡ false) }
    {
        Driven::made(alloc, frames, caching, false)
    }

    fn made(alloc: Global, frames: u64, caching: bool, tells: bool) -> Result<Driven, AllocError>
        requires some { LEAST_TABLE_FRAMES ≤ frames }
        requires few { frames ≤ MOST_TABLE_FRAMES }
        ensures new { IfOk result (λ d. IsNew frames caching d.state) }
        ensures empty { IfOk result (λ d. Quarantine d.state (empty frames)) }
        ensures quiet { IfOk result (λ d. Asks d (λ effects. effects ≡ [])) }
        ensures tells { IfOk result (λ d. d.tells ≡ tells) }
    {
        Ok(Driven {
            state: new_state(alloc, frames, caching)?,
            effects: Effects::new(),
            untold: Untold::Nothing,
            tables: Tables::new(),
            tells,
        })
    }

    /// Whether it tells what maps and unmaps ask.
    pub fn tells(&self) -> bool
        ensures { result ≡ self.now.tells }
    {
        self.tells
    }

    /// The state, with its readers of words, contexts and descriptors.
    pub fn state(&self) -> &State
        ensures { result.now ≡ self.now.state }
    {
        &self.state
    }

    /// Tells what the last call asks, so that `effects` has it. A map and an unmap only keep what it is told by.
    pub fn tell(&mut self)
        ensures { HasTold self.old self.new }
    {
        let Driven {
            state,
            effects,
            untold,
            tables,
            ..
        } = self;
        tell(effects, untold, tables, state);
    }

    /// What the last call asks, in order, once that is told: before it there is no such list.
    pub fn effects(&self) -> &[Effect]
        requires { self.now.untold ≡ Nothing }
        ensures effects { result.now ≡ self.now.effects }
        ensures few { length result.now ≤ MOST_EFFECTS }
    {
        self.effects.as_slice()
    }

    /// Forgets what the last call asks, once it is done.
    pub fn forget_effects(&mut self)
        ensures { self.new ≡ having_told self.old [] self.old.tables }
    {
        forget(&mut self.effects, &mut self.untold);
    }

    /// Makes a domain, as `State::domain` does.
    pub fn domain(&mut self, mode: Mode, width: Width) -> Result<u64, Refusal>
        requires { self.old.state.calls < CALLS_END }
        ensures does { Does self.old.state (calls.Domain mode width) (made_reply result) self.new.state }
        ensures tells { self.new.tells ≡ self.old.tells }
        ensures effects { Asks self.new (AreEffects self.old.state (calls.Domain mode width) (made_reply result) self.new.state) }
        ensures quiet { Asks self.new (λ effects. effects ≡ []) }
    {
        forget(&mut self.effects, &mut self.untold);
        let state: &mut State = &mut self.state;
        state.keeps();
        state.domain(mode, width)
    }

    /// Detaches a device, as `State::detach` does.
    pub fn detach(&mut self, device: u64) -> Result<(), Refusal>
        requires { self.old.state.calls < CALLS_END }
        ensures does { Does self.old.state (calls.Detach device) (done_reply result) self.new.state }
        ensures tells { self.new.tells ≡ self.old.tells }
        ensures effects { Asks self.new (AreEffects self.old.state (calls.Detach device) (done_reply result) self.new.state) }
    {
        forget(&mut self.effects, &mut self.untold);
        let state: &mut State = &mut self.state;
        tell_detach(&mut self.effects, state, device)
    }

    /// Detaches a device and then flushes the domain that it had, as Linux does. Until then a unit that finds translations by their device
    /// too, and not by their domain alone, may still reach the domain (own). It is the call `detach` and then the call `flush`, with what
    /// both ask, and counts as two. Answers how many records the flush released. Refuses as `State::detach` does, and is that call alone
    /// then.
    pub fn detach_all(&mut self, device: u64) -> Result<u64, Refusal>
        requires { self.old.state.calls + 1 < CALLS_END }
        ensures does { DoesBoth self.old.state device result self.new.state }
        ensures detaches { Asks self.new (DetachesAll self.old.state device result self.new.state) }
        ensures tells { self.new.tells ≡ self.old.tells }
    {
        forget(&mut self.effects, &mut self.untold);
        let state: &mut State = &mut self.state;
        let domain = state.domain_of(device);
        state.keeps();
        tell_detach(&mut self.effects, state, device)?;
        // What is detached had a domain, and that is there still: so the flush is never refused.
        tell_flush(&mut self.effects, state, domain.unwrap())
    }

    /// Releases a domain's records, as `State::flush` does.
    pub fn flush(&mut self, domain: u64) -> Result<u64, Refusal>
        requires { self.old.state.calls < CALLS_END }
        ensures does { Does self.old.state (calls.Flush domain) (flushed_reply result) self.new.state }
        ensures tells { self.new.tells ≡ self.old.tells }
        ensures effects { Asks self.new (AreEffects self.old.state (calls.Flush domain) (flushed_reply result) self.new.state) }
    {
        forget(&mut self.effects, &mut self.untold);
        let state: &mut State = &mut self.state;
        tell_flush(&mut self.effects, state, domain)
    }

    /// Attaches a device, as `State::attach` does.
    pub fn attach(&mut self, device: u64, domain: u64) -> Result<(), Refusal>
        requires { self.old.state.calls < CALLS_END }
        ensures does { Does self.old.state (calls.Attach device domain) (done_reply result) self.new.state }
        ensures tells { self.new.tells ≡ self.old.tells }
        ensures effects { Asks self.new (AreEffects self.old.state (calls.Attach device domain) (done_reply result) self.new.state) }
    {
        forget(&mut self.effects, &mut self.untold);
        let state: &mut State = &mut self.state;
        state.keeps();
        state.attach(device, domain)?;
        self.effects.push(Effect::Context {
            device,
            first: Half::High,
        });
        self.effects.push(Effect::Barrier);
        Ok(())
    }

    /// Begins a flush, as `State::begin` does: nothing is waited for.
    pub fn begin(&mut self, domain: u64) -> Result<u64, Refusal>
        requires { self.old.state.calls < CALLS_END }
        ensures does { Does self.old.state (calls.Begin domain) (begun_reply domain result) self.new.state }
        ensures tells { self.new.tells ≡ self.old.tells }
        ensures effects { Asks self.new (AreEffects self.old.state (calls.Begin domain) (begun_reply domain result) self.new.state) }
    {
        forget(&mut self.effects, &mut self.untold);
        let state: &mut State = &mut self.state;
        state.keeps();
        let waits = state.waits();
        let number = state.begin(domain)?;
        send(&mut self.effects, state, waits, false);
        Ok(number)
    }

    /// Ends a begun flush, as `State::reap` does.
    pub fn reap(&mut self, domain: u64, number: u64) -> Result<Option<u64>, Refusal>
        requires { self.old.state.calls < CALLS_END }
        ensures does { Does self.old.state (calls.Reap domain number) (reaped_reply result) self.new.state }
        ensures tells { self.new.tells ≡ self.old.tells }
        ensures effects { Asks self.new (AreEffects self.old.state (calls.Reap domain number) (reaped_reply result) self.new.state) }
        ensures quiet { Asks self.new (λ effects. effects ≡ []) }
    {
        forget(&mut self.effects, &mut self.untold);
        let state: &mut State = &mut self.state;
        state.keeps();
        state.reap(domain, number)
    }

    /// Does the oldest descriptor that waits, as `State::unit_step` does: once the unit has done it.
    pub fn unit_step(&mut self) -> Progress
        requires { self.old.state.calls < CALLS_END }
        ensures does { Does self.old.state calls.Unit (Stepped result) self.new.state }
        ensures tells { self.new.tells ≡ self.old.tells }
        ensures effects { Asks self.new (AreEffects self.old.state calls.Unit (Stepped result) self.new.state) }
        ensures quiet { Asks self.new (λ effects. effects ≡ []) }
    {
        forget(&mut self.effects, &mut self.untold);
        let state: &mut State = &mut self.state;
        state.keeps();
        state.unit_step()
    }

    /// Does what waits up to the wait of this number, as by `unit_step`: once the unit has done that wait. Answers how many descriptors it
    /// did, each by a call. Answers `None` exactly where fewer waits were sent, and changes nothing then. It asks nothing.
    pub fn done_up_to(&mut self, wait: u64) -> Option<u64>
        requires { self.old.state.calls + length self.old.state.iommu.ring.waiting ≤ CALLS_END }
        ensures none { IsNone result ↔ self.old.state.iommu.sent < wait }
        ensures same { IsNone result → self.new ≡ self.old }
        ensures does { IfSome result (λ steps. DoesUpTo self.old.state wait steps self.new.state) }
        ensures tells { self.new.tells ≡ self.old.tells }
        ensures quiet { IfSome result (λ steps. Asks self.new (λ effects. effects ≡ [])) }
    {
        let Driven {
            state,
            effects,
            untold,
            ..
        } = self;
        let state: &mut State = state;
        state.keeps();
        let later = state.waits().checked_sub(wait)?;
        // A descriptor and a wait were sent for each wait after it.
        let steps = state.totals().pending.saturating_sub(2 * later);
        do_oldest(state, steps);
        state.keeps();
        forget(effects, untold);
        Some(steps)
    }

    /// A device's request at a byte address, made of the state's own unit as by `State::dma`: the host byte address with the frame and the
    /// rights of its page, or the fault. It asks nothing.
    pub fn dma(
        &mut self,
        device: u64,
        address: u64,
        access: Access,
        whim: Whim,
    ) -> Result<Result<Hit, Fault>, Refusal>
        requires { self.old.state.calls < CALLS_END }
        ensures does { Does self.old.state (calls.Dma device address access whim) (request_reply result) self.new.state }
        ensures tells { self.new.tells ≡ self.old.tells }
        ensures hit { IfOk result (λ answer. IfOk answer (IsHitOf self.old.state device address access)) }
        ensures effects { Asks self.new (AreEffects self.old.state (calls.Dma device address access whim) (request_reply result)
            self.new.state) }
        ensures quiet { Asks self.new (λ effects. effects ≡ []) }
    {
        forget(&mut self.effects, &mut self.untold);
        let state: &mut State = &mut self.state;
        state.keeps();
        state.dma(device, address, access, whim)
    }

    /// The entry at a place of one of the caches of the state's own unit is forgotten, if there is one, as by `State::evict`. It asks
    /// nothing.
    pub fn evict(&mut self, kind: Cache, place: u64)
        requires { self.old.state.calls < CALLS_END }
        ensures does { Does self.old.state (calls.Evict kind place) Done self.new.state }
        ensures tells { self.new.tells ≡ self.old.tells }
        ensures effects { Asks self.new (AreEffects self.old.state (calls.Evict kind place) Done self.new.state) }
        ensures quiet { Asks self.new (λ effects. effects ≡ []) }
    {
        forget(&mut self.effects, &mut self.untold);
        let state: &mut State = &mut self.state;
        state.keeps();
        state.evict(kind, place);
    }

    /// Ends a domain, as `State::drop_domain` does. All table frames are brought once its descriptor is done.
    pub fn drop_domain(&mut self, domain: u64) -> Result<(), Refusal>
        requires { self.old.state.calls < CALLS_END }
        ensures does { Does self.old.state (calls.Drop domain) (done_reply result) self.new.state }
        ensures tells { self.new.tells ≡ self.old.tells }
        ensures effects { Asks self.new (AreEffects self.old.state (calls.Drop domain) (done_reply result) self.new.state) }
    {
        forget(&mut self.effects, &mut self.untold);
        let state: &mut State = &mut self.state;
        state.keeps();
        let waits = state.waits();
        state.drop_domain(domain)?;
        send(&mut self.effects, state, waits, true);
        bring_frames(&mut self.effects, state);
        Ok(())
    }

    /// Maps pages, as `State::map` does.
    pub fn map(
        &mut self,
        domain: u64,
        frame: u64,
        pages: u64,
        order: u64,
        rights: u64,
    ) -> Result<u64, Refusal>
        requires { self.old.state.calls < CALLS_END }
        ensures does { Does self.old.state (calls.Map domain frame pages order rights) (mapped_reply result) self.new.state }
        ensures tells { self.new.tells ≡ self.old.tells }
        ensures effects { self.old.tells ≡ true
            → Asks self.new (AreEffects self.old.state (calls.Map domain frame pages order rights) (mapped_reply result) self.new.state) }
    {
        let Driven {
            state,
            effects,
            untold,
            tells,
            ..
        } = self;
        let state: &mut State = state;
        forget(effects, untold);
        state.keeps();
        let before = Before::of(state);
        let address = state.map(domain, frame, pages, order, rights)?;
        if *tells {
            *untold = Untold::Map(before.mapped(state, domain, address, pages));
        }
        Ok(address)
    }

    /// Maps the pages of segments, as `State::map_list` does.
    pub fn map_list(
        &mut self,
        domain: u64,
        order: u64,
        rights: u64,
        segments: &ArrayVec<Segment, MOST_SEGMENTS>,
    ) -> Result<u64, Refusal>
        requires { self.old.state.calls < CALLS_END }
        ensures does { Does self.old.state (calls.MapList domain order rights segments.now) (mapped_reply result) self.new.state }
        ensures tells { self.new.tells ≡ self.old.tells }
        ensures effects { self.old.tells ≡ true
            → Asks self.new (AreEffects self.old.state (calls.MapList domain order rights segments.now) (mapped_reply result)
            self.new.state) }
    {
        let Driven {
            state,
            effects,
            untold,
            tells,
            ..
        } = self;
        let state: &mut State = state;
        forget(effects, untold);
        state.keeps();
        let before = Before::of(state);
        let placed = state.map_segments(domain, order, rights, segments.as_slice())?;
        if *tells {
            *untold = Untold::Map(before.mapped(state, domain, placed.address, placed.pages));
        }
        Ok(placed.address)
    }

    /// Ends pages, as `State::unmap` does. In a strict domain all words come before the descriptor; where the list of a lazy one was full,
    /// its flush comes first.
    pub fn unmap(&mut self, domain: u64, address: u64, pages: u64) -> Result<Unmapped, Refusal>
        requires { self.old.state.calls < CALLS_END }
        ensures does { Does self.old.state (calls.Unmap domain address pages) (unmapped_reply result) self.new.state }
        ensures tells { self.new.tells ≡ self.old.tells }
        ensures effects { self.old.tells ≡ true
            → Asks self.new (AreEffects self.old.state (calls.Unmap domain address pages) (unmapped_reply result) self.new.state) }
    {
        let Driven {
            state,
            effects,
            untold,
            tables,
            tells,
        } = self;
        let state: &mut State = state;
        forget(effects, untold);
        state.keeps();
        let before = Before::of(state);
        if *tells {
            note(tables, state, domain, address, pages);
        }
        let unmapped = state.unmap(domain, address, pages)?;
        if *tells {
            let released = unmapped.released();
            *untold = Untold::Unmap(before.ended(state, domain, address, pages, released));
        }
        Ok(unmapped)
    }
}

// A new state in a place of its own. Never inlined: the room on the stack in which it is moved is given back when it returns.
#[inline(never)]
fn new_state(alloc: Global, frames: u64, caching: bool) -> Result<Box<State>, AllocError>
    requires some { LEAST_TABLE_FRAMES ≤ frames }
    requires few { frames ≤ MOST_TABLE_FRAMES }
    ensures new { IfOk result (λ state. IsNew frames caching state.value) }
    ensures empty { IfOk result (λ state. Quarantine state.value (empty frames)) }
{
    let state = State::with_caching(alloc, frames, caching)?;
    Ok(Box::new(alloc, state)?)
}
