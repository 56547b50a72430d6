//! The events that are kept.

ghost use Rattle.std.specs.Borrow.{sem};
ghost use Rattle.std.specs.Prelude.{◌≡◌, ◌<◌, ◌≤◌, [], IfOk, IsTrue, length};
ghost use Rattle.manager.specs.Lending.{LendsLast};

use dmatypes::{Call, Event, Reply};
use std::alloc::{AllocError, Global};
use std::marker::Model;

/// Events one after another, in room that is reserved once. A slot stays when it is cleared, and the event that enters there is written
/// over the one in it: where both calls are of a kind that comes often, only what the call holds, and not the room for segments.
#[derive(Drop)]
pub(crate) struct Kept {
    slots: Vec<Event>,
    // How many of the slots, the first ones, hold events that are kept.
    count: usize,
}

impl Model for Kept {
    ghost use Rattle.std.specs.Prelude.{◌≤◌, take, vec_capacity, vec_len};
    ghost use Rattle.manager.specs.Kept.{Kept};

    ghost Value = { Kept };

    ghost view = { λ k. record { events = take k.count k.slots.items; room = vec_capacity k.slots } };

    ghost invariant = { λ k. k.count ≤ vec_len k.slots };
}

impl Kept {
    /// No event, and room for so many.
    pub(crate) fn new(alloc: Global, room: usize) -> Result<Kept, AllocError>
        ensures events { IfOk result (λ kept. kept.events ≡ []) }
        ensures room { IfOk result (λ kept. room ≤ kept.room) }
    {
        Ok(Kept {
            slots: Vec::with_capacity(alloc, room)?,
            count: 0,
        })
    }

    /// The events, the first of them first.
    pub(crate) fn as_slice(&self) -> &[Event]
        ensures { result.now ≡ self.now.events }
    {
        &self.slots[..self.count]
    }

    /// How many events there are.
    pub(crate) fn len(&self) -> usize
        ensures { result ≡ length self.now.events }
    {
        self.count
    }

    /// Forgets the events, and keeps the room.
    pub(crate) fn clear(&mut self)
        ensures { self.new ≡ record { events = []; room = self.old.room } }
    {
        self.count = 0;
    }

    /// Enters an event of this call, behind the others. Its reply is any one, until the caller writes the call's.
    #[inline(always)]
    pub(crate) fn enter(&mut self, call: Call) -> &mut Event
        requires { length self.old.events < self.old.room }
        ensures* lends { sem 𝓛 (LendsLast self.entry result) }
        ensures call { result.now.call ≡ call }
    {
        let place = self.count;
        if place == self.slots.len() {
            self.slots.push_reserved(Event {
                call,
                reply: Reply::Pending,
            });
        } else {
            write_over(&mut self.slots[place].call, call);
        }
        self.count = place + 1;
        &mut self.slots[place]
    }
}

// Writes a call over another. It is inlined with what it calls, so that where the call's kind is known one look at the slot's is left.
#[inline(always)]
fn write_over(slot: &mut Call, call: Call)
    ensures { slot.new ≡ call }
{
    if !(write_map(slot, &call) || write_unmap(slot, &call) || write_dma(slot, &call)) {
        *slot = call;
    }
}

// Writes a map over a map, and answers whether both are that.
#[inline(always)]
fn write_map(slot: &mut Call, call: &Call) -> bool
    ensures { IsTrue result → slot.new ≡ call.now }
{
    match (&mut *slot, call) {
        (
            Call::Map {
                domain,
                frame,
                pages,
                order,
                rights,
            },
            Call::Map {
                domain: new_domain,
                frame: new_frame,
                pages: new_pages,
                order: new_order,
                rights: new_rights,
            },
        ) => {
            *domain = *new_domain;
            *frame = *new_frame;
            *pages = *new_pages;
            *order = *new_order;
            *rights = *new_rights;
            true
        }
        _ => false,
    }
}

// The same of an unmap.
#[inline(always)]
fn write_unmap(slot: &mut Call, call: &Call) -> bool
    ensures { IsTrue result → slot.new ≡ call.now }
{
    match (&mut *slot, call) {
        (
            Call::Unmap {
                domain,
                address,
                pages,
            },
            Call::Unmap {
                domain: new_domain,
                address: new_address,
                pages: new_pages,
            },
        ) => {
            *domain = *new_domain;
            *address = *new_address;
            *pages = *new_pages;
            true
        }
        _ => false,
    }
}

// The same of a request.
#[inline(always)]
fn write_dma(slot: &mut Call, call: &Call) -> bool
    ensures { IsTrue result → slot.new ≡ call.now }
{
    match (&mut *slot, call) {
        (
            Call::Dma {
                device,
                address,
                access,
                whim,
            },
            Call::Dma {
                device: new_device,
                address: new_address,
                access: new_access,
                whim: new_whim,
            },
        ) => {
            *device = *new_device;
            *address = *new_address;
            *access = *new_access;
            *whim = *new_whim;
            true
        }
        _ => false,
    }
}
