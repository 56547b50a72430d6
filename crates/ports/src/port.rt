//! Those who look at the words without a lock.

ghost use Rattle.std.specs.Prelude.{◌≡◌, ◌<◌};
ghost use Rattle.ports.specs.Hits.{IsCount, IsEviction, IsHit};
ghost use Rattle.ports.specs.Steps.{place_of};

use crate::rows::Rows;
use crate::rule::{COUNTER, Counts, Empties, Looks, Place, SLOTS};
use dmatypes::{Access, DEVICES, PAGE_BYTES};
use std::marker::Model;
use vtdbits::PortWord;

/// The port of a device, which reads the words of the device's row.
#[derive(Drop)]
pub struct Port {
    pub(crate) device: u64,
    pub(crate) seat: Place,
}

impl Model for Port {
    ghost use Rattle.std.specs.Prelude.{◌≡◌, ◌<◌, suc};
    ghost use Rattle.ports.specs.Seen.{Port, port_of};
    ghost use Rattle.dmatypes.specs.declared.limits.TheConstants.{DEVICES};

    ghost Value = { Port };

    ghost view = { λ p. port_of p.seat.table_id p.seat.me.0 p.device };

    ghost invariant = { λ p. (p.device < DEVICES) × (p.seat.me.0.mine.who ≡ suc p.device) };
}

/// A port without a row: what its holder has seen of the history.
#[derive(Drop)]
pub struct Pass {
    pub(crate) caller: u64,
    pub(crate) seat: Place,
}

impl Model for Pass {
    ghost use Rattle.std.specs.Prelude.{◌≡◌, suc};
    ghost use Rattle.ports.specs.Seen.{Pass, pass_of};

    ghost Value = { Pass };

    ghost view = { λ p. pass_of p.seat.table_id p.seat.me.0 p.caller };

    ghost invariant = { λ p. p.seat.me.0.mine.who ≡ suc p.caller };
}

impl Port {
    /// The host byte address of a request at a byte address, where the word of its page states the page with
    /// the right, and how many events the history had before the word was read. No lock is taken.
    #[inline]
    pub fn hit(&mut self, rows: &Rows, address: u64, access: Access) -> (Option<u64>, u64)
        requires { self.old.rows ≡ rows.now }
        ensures hit { IsHit self.old.rows.frames self.old self.new address access result.0 result.1 }
        ensures same { (self.new.rows ≡ self.old.rows) × (self.new.device ≡ self.old.device) }
    {
        let count = self.count(rows);
        let place = place(self.device, address / PAGE_BYTES % SLOTS);
        let word = rows.words.shared.load::<Looks>(&mut self.seat, place);
        (PortWord::host(word, address, access), count)
    }

    /// How many events the history has.
    #[inline]
    pub fn count(&mut self, rows: &Rows) -> u64
        requires { self.old.rows ≡ rows.now }
        ensures count { IsCount self.old.rows.frames self.old self.new result }
        ensures same { (self.new.rows ≡ self.old.rows) × (self.new.device ≡ self.old.device) }
    {
        rows.words.shared.load::<Counts>(&mut self.seat, COUNTER)
    }

    /// Empties a word of its row.
    pub fn evict(&mut self, rows: &Rows, slot: u64)
        requires rows { self.old.rows ≡ rows.now }
        requires slot { slot < SLOTS }
        ensures eviction { IsEviction self.old self.new slot }
        ensures same { (self.new.rows ≡ self.old.rows) × (self.new.device ≡ self.old.device) }
    {
        let place = place(self.device, slot);
        rows.words.shared.store::<Empties>(&mut self.seat, place, 0);
    }
}

/// The place of a word: its slot in the row of a device.
#[inline]
pub(crate) fn place(device: u64, slot: u64) -> usize
    requires { (device < DEVICES) × (slot < SLOTS) }
    ensures { result ≡ place_of device slot }
{
    (SLOTS * device + slot) as usize
}
