//! A manager's port words, and the ports of its devices.

ghost use Rattle.std.specs.Prelude.{◌≡◌, ◌<◌};
ghost use Rattle.ports.specs.Hits.{IsCount, IsEviction, IsHit};

use crate::owner::Owner;
use dmatypes::Access;
use std::marker::{Model, PhantomData};

/// The port words of a manager's devices, and the counter of its events.
#[derive(Drop)]
pub struct Rows<B: Owner> {
    pub(crate) words: ports::Rows,
    pub(crate) owner: PhantomData<B>,
    ghost of_owner: { words ≡ B.rows },
}

/// The port of a device, which looks at the words of its row without a lock.
#[derive(Drop)]
pub struct Port<B: Owner> {
    pub(crate) port: ports::Port,
    pub(crate) owner: PhantomData<B>,
    ghost of_owner: { port.rows ≡ B.rows },
}

impl<B: Owner> Model for Port<B> {
    ghost use Rattle.std.specs.Prelude.{◌≡◌};
    ghost use Rattle.ports.specs.Seen.{Port};

    ghost Value = { Port };

    ghost view = { λ p. p.port };

    ghost invariant = { λ p. p.port.rows ≡ B.rows };
}

impl<B: Owner> Port<B> {
    /// The host byte address of a request at a byte address, where the word of its page states the page with
    /// the right, and how many events the history had before the word was read. No lock is taken.
    #[inline]
    pub fn hit(&mut self, rows: &Rows<B>, address: u64, access: Access) -> (Option<u64>, u64)
        ensures hit { IsHit B.rows.frames self.old self.new address access result.0 result.1 }
        ensures same { self.new.device ≡ self.old.device }
    {
        self.port.hit(&rows.words, address, access)
    }

    /// How many events the history has.
    #[inline]
    pub fn count(&mut self, rows: &Rows<B>) -> u64
        ensures count { IsCount B.rows.frames self.old self.new result }
        ensures same { self.new.device ≡ self.old.device }
    {
        self.port.count(&rows.words)
    }

    /// Empties a word of its row.
    pub fn evict(&mut self, rows: &Rows<B>, slot: u64)
        requires { slot < 16 }
        ensures eviction { IsEviction self.old self.new slot }
        ensures same { self.new.device ≡ self.old.device }
    {
        self.port.evict(&rows.words, slot);
    }
}
