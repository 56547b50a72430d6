//! Storms: drivers, devices and the unit call one manager, each in a thread of its own, to try it under contention.
//!
//! ```rust
//! use storm::{OpenGate, storm};
//!
//! // Two drivers, two devices and the unit, ten calls each; 2 + 2 calls set it up.
//! assert_eq!(rt; storm(&rt, rt.alloc(), 2, 2, 10, &OpenGate), Ok(54));
//! ```
#![tactic(auto)]

mod crew;
mod gate;
mod storming;
#[cfg(test)]
mod tests;
mod workers;

pub use gate::{Gate, OpenGate};
pub use storming::{MOST_DEVICES, MOST_DRIVERS, MOST_WORKER_CALLS, StormError, storm};
