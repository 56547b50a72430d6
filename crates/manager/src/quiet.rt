//! When memory may be used again: how far the thread of a device has come.

ghost use Rattle.std.specs.Prelude.{◌≤◌, ◌↔◌, ℕ, IsTrue};

use std::sync::atomic::{AtomicIn, Ordering, Rule};

/// How far the thread of a device has come, on a word of its own (own).
///
/// A hit answers a host address without a lock, and whoever has it may still use it after the page was unmapped. So the device's thread
/// *rests* whenever it uses no host address that its port or the manager has answered: after each use, and now and then while it has
/// nothing to do. It rests at a count of its port's, how many events the history has. A driver whose strict unmap has the number n in the
/// history may use the memory for something else, where no other page is mapped to it, once certain threads are past n. They are those
/// of all devices that were attached to the domain at any moment between the map and event n, also where they are detached by then. What
/// they were answered before is out of use. And a port that has seen n events answers nothing by the page any more, until a map gives it
/// back: so the laws of crate `grace` say. For what ports and shares have seen are beginnings of one history. In a lazy domain n is the
/// number of the event that released the page: a flush, a reap, an unmap that answers 256, or a drop. Each thread has a `Quiet` of its
/// own; nothing refuses a second one.
///
/// The rule is what its user says of each count at which the thread rests, and of 0 from where it begins. Whoever asks how far the thread
/// is learns that the rule holds of the number by which it is answered. Who wants none takes a rule that all numbers meet.
#[derive(Drop)]
pub struct Quiet<R: Rule> {
    count: AtomicIn<R>,
}

impl<R: Rule> Quiet<R> {
    /// Of a thread that hasn't rested yet.
    pub fn new() -> Quiet<R>
        requires { R.invariant 0 }
    {
        Quiet {
            count: AtomicIn::new(0),
        }
    }

    /// The thread of a device rests at this count of its port's: it uses no host address that it was answered, and is past so many events.
    pub fn rest(&self, count: u64)
        requires { R.invariant count }
    {
        self.count.store(count, Ordering::SeqCst);
    }

    /// Whether the thread has rested since the history had so many events: by the last count at which it did, or 0.
    pub fn is_past(&self, number: u64) -> bool
        ensures rested { (count : ℕ) × R.invariant count × (IsTrue result ↔ number ≤ count) }
    {
        self.count.load(Ordering::SeqCst) >= number
    }
}
