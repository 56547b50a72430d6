//! Where the calls of a storm can be watched, or held.

/// Learns of a storm's calls from the threads that make them. Workers are numbered from 0, drivers first, then devices, then
/// the unit; the calls of each from 1. A gate may hold a worker by not returning.
pub trait Gate: Sync {
    /// The worker is about to ask for the lock, for its call of this number.
    fn enter(&self, worker: u64, call: u64);

    /// That call was answered.
    fn answered(&self, worker: u64, call: u64);
}

/// A gate that does nothing.
#[derive(Clone, Copy, Debug)]
pub struct OpenGate;

impl Gate for OpenGate {
    fn enter(&self, _worker: u64, _call: u64) {}

    fn answered(&self, _worker: u64, _call: u64) {}
}
