//! A detach and a flush, whose effects are told after those of what was done before.

ghost use Rattle.std.specs.Prelude.{◌≡◌, ◌+◌, ◌<◌, ◌≤◌, ◌++◌, List, length};
ghost use Rattle.arrayvec.specs.ArrayVec.{array_vec_len};
ghost use Rattle.dmatypes.specs.declared.call.Call.TheVariants as calls;
ghost use Rattle.dmatypes.specs.declared.limits.TheConstants.{CALLS_END};
ghost use Rattle.engine.specs.State.{done_reply, flushed_reply};
ghost use Rattle.engine.specs.Steps.{Does};
ghost use Rattle.driven.specs.Effects.{AreEffects};
ghost use Rattle.driven.specs.declared.effect.Effect.{Effect};

use crate::effect::{Effect, Half};
use crate::telling::{Effects, MOST_EFFECTS, send};
use dmatypes::Refusal;
use engine::State;

/// Detaches a device, and tells what that asks.
pub(crate) fn tell_detach(
    effects: &mut Effects,
    state: &mut State,
    device: u64,
) -> Result<(), Refusal>
    requires calls { state.old.calls < CALLS_END }
    requires room { array_vec_len effects.old + 5 ≤ MOST_EFFECTS }
    ensures does { Does state.old (calls.Detach device) (done_reply result) state.new }
    ensures effects { (more : List Effect) × (effects.new.items ≡ effects.old.items ++ more) × (length more ≤ 5)
        × AreEffects state.old (calls.Detach device) (done_reply result) state.new more }
{
    state.keeps();
    let waits = state.waits();
    state.detach(device)?;
    effects.push(Effect::Context {
        device,
        first: Half::Low,
    });
    effects.push(Effect::Barrier);
    send(effects, state, waits, true);
    Ok(())
}

/// Flushes a domain, and tells what that asks.
pub(crate) fn tell_flush(
    effects: &mut Effects,
    state: &mut State,
    domain: u64,
) -> Result<u64, Refusal>
    requires calls { state.old.calls < CALLS_END }
    requires room { array_vec_len effects.old + 3 ≤ MOST_EFFECTS }
    ensures does { Does state.old (calls.Flush domain) (flushed_reply result) state.new }
    ensures effects { (more : List Effect) × (effects.new.items ≡ effects.old.items ++ more)
        × AreEffects state.old (calls.Flush domain) (flushed_reply result) state.new more }
{
    state.keeps();
    let waits = state.waits();
    let released = state.flush(domain)?;
    send(effects, state, waits, true);
    Ok(released)
}
