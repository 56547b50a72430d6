//! The one who stores words and appends events.

ghost use Rattle.std.specs.Prelude.{◌≡◌, ℕ, ◌+◌, ◌*◌, ◌<◌, ◌≤◌, ◌⊎◌, true, suc, [], ◌∷◌, ◌++◌, length, slice_index, slice_set};
ghost use mathlib.Core.List.{IsPrefix};
ghost use Rattle.dmatypes.specs.History.{IsLegal, after};
ghost use Rattle.vtdbits.specs.Port.{Spells};
ghost use Rattle.ports.specs.Lawful.{IsBacked, IsLawfulAfter};
ghost use Rattle.ports.specs.Steps.{AreLawful, counter, place_of, slot_of};
ghost use Rattle.ports.specs.Rule.{desk_view, nobody, told, caller_view, with_guest};
ghost use Rattle.ports.specs.declared.known.OwnStep.TheVariants.{Loaded, Stored};
ghost use Rattle.ports.specs.Seen.{AreEmptyBut, emptied_slots};

use crate::port::{Pass, Port, place};
use crate::rows::Rows;
use crate::rule::{Appends, COUNTER, Fills, Hosts, Leaves, Place, SLOTS, Told, Visit};
use dmatypes::{CALLS_END, DEVICES, Event};
use std::marker::{Brand, Model};
use vtdbits::PortWord;

/// It has seen the whole history, and knows its own stores and the word that it last stored at each place.
#[derive(Drop)]
pub struct Desk {
    pub(crate) seat: Place,
    // The rows that may hold a word: bit j is device j.
    pub(crate) filled: u16,
}

impl Model for Desk {
    ghost use Rattle.std.specs.Prelude.{◌≡◌, true, length};
    ghost use Rattle.ports.specs.Seen.{AreEmptyBut, Desk, desk_of};
    ghost use Rattle.ports.specs.declared.rule.TheConstants.{ROW_WORDS};

    ghost Value = { Desk };

    ghost view = { λ d. desk_of d.seat.table_id d.seat.me.0 };

    ghost invariant = { λ d. (d.seat.me.0.is_desk ≡ true) × (length d.seat.me.0.last ≡ ROW_WORDS)
        × AreEmptyBut d.filled d.seat.me.0.last };
}

impl Desk {
    /// Stores a word in the row of a device, at the slot of its page. The device's domain has the page live
    /// or retired, with this frame and at least these rights.
    #[tactic(auto, using(crate::proofs::histories::LawfulWords::backed_word))]
    pub fn fill(&mut self, rows: &Rows, device: u64, word: PortWord)
        requires rows { self.old.rows ≡ rows.now }
        requires device { device < DEVICES }
        requires lawful { IsBacked (after self.old.rows.frames self.old.history) device word }
        ensures word { Spells (slice_index self.new.last (place_of device (slot_of word.page))) word }
        ensures last { self.new.last ≡ slice_set self.old.last (place_of device (slot_of word.page))
            (slice_index self.new.last (place_of device (slot_of word.page))) }
        ensures did { self.new.did ≡ self.old.did ++ Stored (place_of device (slot_of word.page))
            (slice_index self.new.last (place_of device (slot_of word.page))) ∷ [] }
        ensures same { (self.new.rows ≡ self.old.rows) × (self.new.history ≡ self.old.history) }
    {
        self.store(rows, device, word.page.number() % SLOTS, word.encode());
    }

    /// Empties all words in the row of a device, from the first slot to the last.
    #[tactic(auto, using(crate::proofs::histories::LawfulWords::lawful_zero, crate::proofs::lists::Emptied::none_emptied))]
    pub fn clear(&mut self, rows: &Rows, device: u64)
        requires rows { self.old.rows ≡ rows.now }
        requires device { device < DEVICES }
        ensures cleared { (slot : ℕ) → slot < SLOTS → slice_index self.new.last (place_of device slot) ≡ 0 }
        ensures others { (k : ℕ) → (k < SLOTS * device) ⊎ (SLOTS * device + SLOTS ≤ k)
            → slice_index self.new.last k ≡ slice_index self.old.last k }
        ensures did { self.new.did ≡ self.old.did ++ emptied_slots device SLOTS }
        ensures same { (self.new.rows ≡ self.old.rows) × (self.new.history ≡ self.old.history) }
    {
        for slot in 0..SLOTS {
            self.store(rows, device, slot, 0);
        }
        self.filled &= !(1 << device);
    }

    /// The rows that may hold a word: bit j is device j. In all others it last stored 0 everywhere.
    pub fn filled(&self) -> u16
        ensures { AreEmptyBut result self.now.last }
    {
        let Desk { filled, .. } = self;
        *filled
    }

    // Stores a lawful word.
    fn store(&mut self, rows: &Rows, device: u64, slot: u64, word: u64)
        requires rows { self.old.rows ≡ rows.now }
        requires place { (device < DEVICES) × (slot < SLOTS) }
        requires lawful { IsLawfulAfter self.old.rows.frames self.old.history device word }
        ensures last { self.new.last ≡ slice_set self.old.last (place_of device slot) word }
        ensures stored { slice_index self.new.last (place_of device slot) ≡ word }
        ensures did { self.new.did ≡ self.old.did ++ Stored (place_of device slot) word ∷ [] }
        ensures same { (self.new.rows ≡ self.old.rows) × (self.new.history ≡ self.old.history) }
    {
        let place = place(device, slot);
        self.filled |= 1 << device;
        rows.words
            .shared
            .store::<Fills>(&mut self.seat, place, word);
    }

    /// Adds an event to the history. All words that the desk last stored are lawful after it.
    pub fn append(&mut self, rows: &Rows, event: &Event)
        requires rows { self.old.rows ≡ rows.now }
        requires room { length self.old.history < CALLS_END }
        requires legal { IsLegal self.old.rows.frames (self.old.history ++ event.now ∷ []) }
        requires lawful { AreLawful (IsLawfulAfter self.old.rows.frames) (self.old.history ++ event.now ∷ []) self.old.last }
        ensures history { self.new.history ≡ self.old.history ++ event.now ∷ [] }
        ensures same { (self.new.rows ≡ self.old.rows) × (self.new.last ≡ self.old.last) × (self.new.did ≡ self.old.did) }
    {
        append_as::<Brand>(&mut self.seat, rows, event);
    }

    /// Tells a port all that the desk has seen, which is the whole history.
    pub fn meet(&mut self, rows: &Rows, port: &mut Port)
        requires { (self.old.rows ≡ rows.now) × (port.old.rows ≡ rows.now) }
        ensures seen { IsPrefix port.old.seen self.old.history × (port.new.seen ≡ self.old.history) }
        ensures did { port.new.did ≡ port.old.did ++ Loaded counter (length self.old.history) ∷ [] }
        ensures same { (self.new ≡ self.old) × (port.new.rows ≡ port.old.rows) × (port.new.device ≡ port.old.device) }
    {
        host(&mut self.seat, rows, &mut port.seat, port.device);
    }

    /// Tells a pass the same.
    pub fn tell(&mut self, rows: &Rows, pass: &mut Pass)
        requires { (self.old.rows ≡ rows.now) × (pass.old.rows ≡ rows.now) }
        ensures seen { IsPrefix pass.old.seen self.old.history × (pass.new.seen ≡ self.old.history) }
        ensures did { pass.new.did ≡ pass.old.did ++ Loaded counter (length self.old.history) ∷ [] }
        ensures same { (self.new ≡ self.old) × (pass.new.rows ≡ pass.old.rows) × (pass.new.caller ≡ pass.old.caller) }
    {
        host(&mut self.seat, rows, &mut pass.seat, pass.caller);
    }
}

// Adds the event that its type names.
fn append_as<E: Told>(desk: &mut Place, rows: &Rows, event: &Event)
    requires rows { (desk.old.table_id ≡ rows.now.table) × (desk.old.me.0.frames ≡ rows.now.frames) }
    requires desk { (desk.old.me.0.is_desk ≡ true) × (length desk.old.me.0.mine.seen < CALLS_END) }
    requires legal { IsLegal rows.now.frames (desk.old.me.0.mine.seen ++ E.event ∷ []) }
    requires lawful { AreLawful (IsLawfulAfter rows.now.frames) (desk.old.me.0.mine.seen ++ E.event ∷ []) desk.old.me.0.last }
    ensures { (desk.new.table_id ≡ desk.old.table_id)
        × (desk.new.me.0 ≡ desk_view desk.old.me.0.frames (desk.old.me.0.mine.seen ++ E.event ∷ []) desk.old.me.0.mine.did
        desk.old.me.0.last desk.old.me.0.made desk.old.me.0.guest) }
{
    let _ = event;
    rows.words.shared.fetch_add::<Appends<E>>(desk, COUNTER, 1);
}

// The caller's view goes to the desk, learns of the history there, and comes back to a new seat.
fn host(desk: &mut Place, rows: &Rows, place: &mut Place, caller: u64)
    requires rows { (desk.old.table_id ≡ rows.now.table) × (desk.old.me.0.frames ≡ rows.now.frames)
        × (place.old.table_id ≡ rows.now.table) }
    requires desk { desk.old.me.0.is_desk ≡ true }
    requires caller { place.old.me.0.mine.who ≡ suc caller }
    ensures desk { (desk.new.table_id ≡ desk.old.table_id)
        × (desk.new.me.0 ≡ with_guest desk.old.me.0 nobody) }
    ensures place { (place.new.table_id ≡ place.old.table_id)
        × (place.new.me.0 ≡ caller_view desk.old.me.0.frames (told place.old.me.0.mine desk.old.me.0.mine.seen)) }
    ensures seen { IsPrefix place.old.me.0.mine.seen desk.old.me.0.mine.seen }
{
    let _ = caller;
    let shared = &rows.words.shared;
    let guest = shared.split_seat::<Leaves>(place);
    shared.join_seat::<Visit>(desk, guest);
    shared.load::<Hosts>(desk, COUNTER);
    *place = shared.split_seat::<Visit>(desk);
}
