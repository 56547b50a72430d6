//! Which manager a value belongs to.

ghost use Rattle.std.specs.Prelude.{Bool, ℕ, [], false};
ghost use Rattle.ports.specs.Seen.{Rows};
ghost use Rattle.manager.specs.Kept.{no_rows};

use std::marker::{Brand, PhantomData};
use std::sync::ledger::Ledger;

/// One manager's numbers. They are its shares, how many events of its history it keeps at one time, its table frames, and whether
/// its unit has Caching Mode. Besides there are its rows of port words, the most events that its history may have, and the name of
/// the ledger of what it hands on. All work on a manager stands in a function that is generic in its owner, takes its seed, and is
/// called once with `Brand`.
pub trait Owner: Ledger {
    ghost shares: { ℕ };

    ghost room: { ℕ };

    ghost frames: { ℕ };

    ghost mode: { Bool };

    ghost rows: { Rows };

    ghost most: { ℕ };

    ghost handing: { ℕ };
}

impl Owner for Brand {
    ghost shares = { 0 };

    ghost room = { 0 };

    ghost frames = { 0 };

    ghost mode = { false };

    ghost rows = { no_rows };

    ghost most = { 0 };

    ghost handing = { 0 };
}

/// The ledger of what a manager hands on: its total is how many events were handed on, and all of it is one part, the epoch's.
pub struct Handing<B: Owner> {
    owner: PhantomData<B>,
}

impl<B: Owner> Ledger for Handing<B> {
    ghost name = { B.handing };

    ghost parts = { 1 };
}
