//! A part of a history that was handed on.

ghost use Rattle.std.specs.Prelude.{◌≡◌, [], IfOk};
ghost use Rattle.manager.specs.Kept.{new_epoch, upto};

use crate::config::Config;
use crate::kept::Kept;
use crate::owner::{Handing, Owner};
use dmatypes::Event;
use std::alloc::{AllocError, Global};
use std::marker::Model;
use std::sync::ledger;

/// Events that a manager handed on: those that it kept then, which are the end of its history of that moment. A manager has one
/// epoch, and all that it hands on goes through it: it has room for as many events as are kept at one time, and serves again for
/// those after them. The epoch of a manager that keeps all has no room.
#[derive(Drop)]
pub struct Epoch<B: Owner> {
    pub(crate) first: u64,
    pub(crate) kept: Kept,
    // All of the ledger: nobody else has events that were handed on.
    pub(crate) part: ledger::Share<Handing<B>>,
}

impl<B: Owner> Model for Epoch<B> {
    ghost use Rattle.std.specs.Prelude.{◌≡◌, ◌+◌, ◌<◌, ◌≤◌, length};
    ghost use Rattle.dmatypes.specs.declared.limits.TheConstants.{CALLS_END};
    ghost use Rattle.manager.specs.Kept.{Epoch};

    ghost Value = { Epoch };

    ghost view = { λ e. record { first = e.first; events = e.kept.events } };

    ghost invariant = { λ e. (B.room < B.most → B.room ≤ e.kept.room) × (e.first + length e.kept.events ≤ CALLS_END)
        × (e.part.parts ≡ 1) × (e.part.amount ≡ e.first + length e.kept.events) };
}

impl<B: Owner> Epoch<B> {
    /// Room for what is handed on, with no event in it.
    pub(crate) fn new(
        alloc: Global,
        config: Config,
        part: ledger::Share<Handing<B>>,
    ) -> Result<Epoch<B>, AllocError>
        requires config { (config.calls ≡ B.room) × (config.most ≡ B.most) }
        requires part { (part.parts ≡ 1) × (part.amount ≡ 0) }
        ensures { IfOk result (λ e. e ≡ new_epoch) }
    {
        let room = if config.calls() < config.most() {
            config.calls()
        } else {
            0
        };
        Ok(Epoch {
            first: 0,
            kept: Kept::new(alloc, room as usize)?,
            part,
        })
    }

    /// How many events stand before these in the history.
    pub fn first(&self) -> u64
        ensures { result ≡ self.now.first }
    {
        self.first
    }

    /// The events, the first of them first.
    pub fn events(&self) -> &[Event]
        ensures { result.now ≡ self.now.events }
    {
        self.kept.as_slice()
    }

    /// How many events of the history there are up to the end of these.
    pub fn upto(&self) -> u64
        ensures { result ≡ upto self.now }
    {
        self.first + self.kept.len() as u64
    }

    /// Forgets the events, and keeps the room and the place after them.
    pub fn clear(&mut self)
        ensures { self.new ≡ record { first = upto self.old; events = [] } }
    {
        self.first += self.kept.len() as u64;
        self.kept.clear();
    }
}
