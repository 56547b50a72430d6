//! The ring and its status.

ghost use Rattle.std.specs.Prelude.{◌≡◌, ◌+◌, ◌%◌, ◌<◌, ◌≤◌, ◌↔◌, [], ◌∷◌, length, slice_get, IsTrue, IsErr, IfSome, IfNone, OnOk, OnErr};
ghost use Rattle.queue.specs.Ring.{ring_of, submitted_in, with_last};
ghost use Rattle.vtdbits.specs.Descriptor.{descriptor_of};

use crate::error::RingFull;
use std::marker::Model;
use vtdbits::{Descriptor, Words};

// How many pairs of words one page of the ring holds (own).
const PAIRS: usize = 256;

/// A ring of descriptors, as the pairs of words of one page, and the status that the last wait left.
/// The pairs from the head up to the tail wait, around the page's end; one pair stays free, so that a full
/// ring differs from an empty one. The free pairs behind the head still hold what was taken last.
#[derive(Debug, Drop)]
pub struct Ring {
    page: [Words; PAIRS],
    head: usize,
    tail: usize,
    status: u32,
}

// Clauses see the descriptors that wait, oldest first, the status, and what was taken, the last one first, as far as
// the page still holds it.
impl Model for Ring {
    ghost use Rattle.queue.specs.Ring.{Ring, ring_of};
    ghost use Rattle.queue.specs.Pairs.{IsRing, taken_in, waiting_in};

    ghost Value = { Ring };

    ghost view = { λ r. ring_of (waiting_in r.head r.tail r.page) r.status (taken_in r.head r.tail r.page) };

    ghost invariant = { λ r. IsRing r.head r.tail r.page };
}

impl Ring {
    /// How many descriptors can wait: one pair of the page stays free (own).
    pub const CAPACITY: u64 = PAIRS as u64 - 1;

    /// A ring in which nothing waits and of which nothing was taken, with the status 0. It takes no memory of its own.
    pub fn new() -> Ring
        ensures { result ≡ ring_of [] 0 [] }
    {
        Ring {
            page: [Words { low: 0, high: 0 }; PAIRS],
            head: 0,
            tail: 0,
            status: 0,
        }
    }

    /// Appends a descriptor; where the ring is full, nothing changes.
    pub fn submit(&mut self, descriptor: Descriptor) -> Result<(), RingFull>
        ensures full { IsErr result ↔ (length self.old.waiting ≡ 255) }
        ensures ok { OnOk result (self.new ≡ with_last descriptor self.old) }
        ensures err { OnErr result (self.new ≡ self.old) }
    {
        let next = following(self.tail);
        if next == self.head {
            return Err(RingFull);
        }
        self.page[self.tail] = descriptor.encode();
        self.tail = next;
        Ok(())
    }

    /// Takes the oldest descriptor, if one waits.
    pub fn fetch(&mut self) -> Option<Descriptor>
        ensures some { IfSome result (λ d. self.old.waiting ≡ d ∷ self.new.waiting) }
        ensures taken { IfSome result (λ d. self.new.taken ≡ d ∷ self.old.taken) }
        ensures status { self.new.status ≡ self.old.status }
        ensures none { IfNone result (self.old.waiting ≡ []) }
        ensures unchanged { IfNone result (self.new ≡ self.old) }
    {
        if self.head == self.tail {
            return None;
        }
        let words = self.page[self.head];
        self.head = following(self.head);
        // What waits spells a descriptor, so the compiler leaves out the decoder's tests but for the kind.
        let Some(descriptor) = Descriptor::decode(words) else {
            unreachable!()
        };
        Some(descriptor)
    }

    /// The descriptor that was submitted last where `back` is 0, the one before it where it is 1, and so on: those that wait,
    /// and then those that were taken. `None` where the page doesn't hold it any more.
    pub fn submitted(&self, back: u64) -> Option<Descriptor>
        ensures { result ≡ slice_get (submitted_in self.now) back }
    {
        let last = self.tail + PAIRS - 1;
        if back >= PAIRS as u64 {
            return None;
        }
        // Nothing is told behind a pair that spells none, so each pair on the way is tested.
        for newer in 0..back as usize {
            Descriptor::decode(self.page[(last - newer) % PAIRS])?;
        }
        Descriptor::decode(self.page[(last - back as usize) % PAIRS])
    }

    /// The words of the descriptor that `submitted` answers there.
    pub fn submitted_words(&self, back: u64) -> Words
        requires { back < length (submitted_in self.now) }
        ensures { descriptor_of result ≡ slice_get (submitted_in self.now) back }
    {
        self.page[(self.tail + PAIRS - 1 - back as usize) % PAIRS]
    }

    /// How many descriptors wait.
    pub fn pending(&self) -> u64
        ensures count { result ≡ length self.now.waiting }
        ensures few { length self.now.waiting ≤ 255 }
    {
        ((self.tail + PAIRS - self.head) % PAIRS) as u64
    }

    /// The number of the last wait that was done, 0 before the first.
    pub fn status(&self) -> u32
        ensures { result ≡ self.now.status }
    {
        self.status
    }

    /// Sets the status, as a wait does that the unit has reached.
    pub fn complete(&mut self, value: u32)
        ensures { self.new ≡ ring_of self.old.waiting value self.old.taken }
    {
        self.status = value;
    }

    /// Whether the wait of this number is done. Waits are numbered from 1 as they are submitted.
    pub fn wait_done(&self, number: u32) -> bool
        ensures { IsTrue result ↔ (number ≤ self.now.status) }
    {
        number <= self.status
    }
}

// The place behind a place of the page, around its end.
fn following(place: usize) -> usize
    requires { place < PAIRS }
    ensures { result ≡ (place + 1) % PAIRS }
{
    (place + 1) % PAIRS
}
