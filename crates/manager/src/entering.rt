//! How an event enters the history that the devices' ports can see.

ghost use Rattle.std.specs.Prelude.{◌≡◌, ◌≢◌, ◌<◌, ◌↔◌, ◌++◌, ◌∷◌, [], ℕ, length, slice_index, IsTrue};
ghost use Rattle.std.specs.Int.{bit_at};
ghost use Rattle.dmatypes.specs.Allows.{domain_of_device};
ghost use Rattle.dmatypes.specs.History.{IsLegal, after};
ghost use Rattle.dmatypes.specs.Page.{IsPage, page_of};
ghost use Rattle.dmatypes.specs.Step.{IsStep, next};
ghost use Rattle.dmatypes.specs.World.{World};
ghost use Rattle.dmatypes.specs.declared.limits.TheConstants.{CALLS_END};
ghost use Rattle.engine.specs.Details.{hit_of, mode_by, released_by};
ghost use Rattle.engine.specs.Hits.{Has, IsHitIn, IsDetailIn};
ghost use Rattle.engine.specs.declared.answer.Detail.TheVariants as details;
ghost use Rattle.engine.specs.declared.answer.Unmapped.{Unmapped};
ghost use Rattle.engine.specs.Quarantine.{Quarantine};
ghost use Rattle.ports.specs.Cleared.{IsCleared, TakesAway};
ghost use Rattle.ports.specs.Lawful.{IsLawfulAfter};
ghost use Rattle.ports.specs.Steps.{AreLawful, place_of};
ghost use Rattle.vtdbits.specs.Translation.{target};
ghost use Rattle.dmatypes.specs.Rights.{bits_of};
ghost use Rattle.manager.specs.Kept.{EndsWith};
ghost use Rattle.manager.specs.Words.{AreCleared, AreFilled, IsLastAfter, TellRows};

use dmatypes::{Call, Event, MOST_RECORDS, PAGE_BYTES, Page, Reply};
use engine::{Detail, Hit, State, Unmapped};
use ports::{Desk, Rows};
use vtdbits::{PortWord, Translation};

/// Clears the rows of the devices that an event takes pages away from, appends the event, and fills the word of a request
/// with what it hit. The state is the one after the event.
#[inline]
pub(crate) fn enter(desk: &mut Desk, rows: &Rows, state: &State, event: &Event, detail: &Detail)
    requires rows { desk.old.rows ≡ rows.now }
    requires room { length desk.old.history < CALLS_END }
    requires legal { IsLegal desk.old.rows.frames (desk.old.history ++ event.now ∷ []) }
    requires lawful { AreLawful (IsLawfulAfter desk.old.rows.frames) desk.old.history desk.old.last }
    requires state { Quarantine state.now (after desk.old.rows.frames (desk.old.history ++ event.now ∷ [])) }
    requires hit { IsHitIn (after desk.old.rows.frames desk.old.history) event.now.call event.now.reply (hit_of detail.now) }
    requires unmapped { IsDetailIn (after desk.old.rows.frames desk.old.history) event.now.call event.now.reply detail.now }
    ensures history { desk.new.history ≡ desk.old.history ++ event.now ∷ [] }
    ensures rows { desk.new.rows ≡ desk.old.rows }
    ensures last { IsLastAfter (after desk.old.rows.frames desk.old.history) event.now.call event.now.reply desk.old.last desk.new.last }
    ensures lawful { AreLawful (IsLawfulAfter desk.old.rows.frames) desk.new.history desk.new.last }
{
    let devices = rows_to_clear(desk, state, event, detail);
    clear(desk, rows, devices);
    desk.append(rows, event);
    fill(desk, rows, event, detail.hit());
}

// The devices whose rows have to be cleared at an event, but for those that are empty.
fn rows_to_clear(desk: &Desk, state: &State, event: &Event, detail: &Detail) -> u16
    ensures { (w : World) → Quarantine state.now (next w event.now.call event.now.reply)
        → IsDetailIn w event.now.call event.now.reply detail.now
        → TellRows desk.now.last w event.now.call event.now.reply result }
{
    let filled = desk.filled();
    if filled == 0 {
        return 0;
    }
    cleared_at(state, event, detail) & filled
}

// The devices whose rows are cleared at an event: bit j is device j. The state is the one after it.
fn cleared_at(state: &State, event: &Event, detail: &Detail) -> u16
    ensures { (w : World) → Quarantine state.now (next w event.now.call event.now.reply)
        → IsDetailIn w event.now.call event.now.reply detail.now
        → (device : ℕ) → device < 16 → (bit_at result device ≡ 1) ↔ IsCleared w event.now.call event.now.reply device }
{
    match (&event.call, event.reply) {
        (Call::Detach { device }, Reply::Done) => only(*device),
        (Call::Flush { domain }, Reply::Flushed(_)) => state.devices_of(*domain),
        (Call::Reap { domain, .. }, Reply::Reaped(_)) => state.devices_of(*domain),
        (Call::Unmap { domain, .. }, Reply::Unmapped(_)) => {
            if takes_away(detail) {
                state.devices_of(*domain)
            } else {
                0
            }
        }
        _ => 0,
    }
}

// The device alone, where there is one of this number.
fn only(device: u64) -> u16
    ensures { (other : ℕ) → other < 16 → (bit_at result other ≡ 1) ↔ (other ≡ device) }
{
    if device < 16 { 1 << device } else { 0 }
}

// Whether an unmap took pages away: in a strict domain its own, in a lazy one those of the records that were released for it.
fn takes_away(detail: &Detail) -> bool
    ensures { (unmapped : Unmapped) → detail.now ≡ details.Unmapped unmapped
        → IsTrue result ↔ TakesAway (mode_by unmapped) (released_by unmapped) }
{
    match detail {
        Detail::Unmapped(Unmapped::Free) => true,
        Detail::Unmapped(Unmapped::Retired { released }) => *released == MOST_RECORDS,
        Detail::Nothing | Detail::Hit(_) => false,
    }
}

// Empties the rows of the devices.
#[tactic(auto, using(crate::proofs::words::Cleared::no_bit))]
fn clear(desk: &mut Desk, rows: &Rows, devices: u16)
    requires { desk.old.rows ≡ rows.now }
    ensures words { (device slot : ℕ) → device < 16 → slot < 16
        → (bit_at devices device ≡ 1 → slice_index desk.new.last (place_of device slot) ≡ 0)
        × ((bit_at devices device ≡ 1 → ⊥)
        → slice_index desk.new.last (place_of device slot) ≡ slice_index desk.old.last (place_of device slot)) }
    ensures same { (desk.new.rows ≡ desk.old.rows) × (desk.new.history ≡ desk.old.history) }
{
    if devices == 0 {
        return;
    }
    for device in 0..16u64 {
        if devices >> device & 1 == 1 {
            desk.clear(rows, device);
        }
    }
}

// Fills the word of a request with fill, where it hit, once its event is the last of the history.
fn fill(desk: &mut Desk, rows: &Rows, event: &Event, hit: Option<Hit>)
    requires rows { desk.old.rows ≡ rows.now }
    requires entered { EndsWith desk.old.history event.now.call event.now.reply }
    requires legal { IsLegal desk.old.rows.frames desk.old.history }
    requires hit { IsHitIn (after desk.old.rows.frames desk.old.history) event.now.call event.now.reply hit }
    requires lawful { AreLawful (IsLawfulAfter desk.old.rows.frames) desk.old.history desk.old.last }
    ensures filled { AreFilled (after desk.old.rows.frames desk.old.history) event.now.call event.now.reply desk.old.last desk.new.last }
    ensures lawful { AreLawful (IsLawfulAfter desk.old.rows.frames) desk.old.history desk.new.last }
    ensures same { (desk.new.rows ≡ desk.old.rows) × (desk.new.history ≡ desk.old.history) }
{
    let Call::Dma {
        device,
        address,
        whim,
        ..
    } = &event.call
    else {
        return;
    };
    let Some(hit) = hit else {
        return;
    };
    if whim.fill {
        desk.fill(rows, *device, port_word(*address, hit));
    }
}

// The word of the page of a byte address, as it was hit.
fn port_word(address: u64, hit: Hit) -> PortWord
    requires { IsPage (page_of address) }
    ensures page { result.page ≡ page_of address }
    ensures translation { result.translation ≡ target hit.frame (bits_of hit.rights) }
{
    let Some(page) = Page::new(address / PAGE_BYTES) else {
        unreachable!()
    };
    PortWord {
        page,
        translation: Translation::new(hit.frame, hit.rights),
    }
}
