//! The invalidation queue: a ring of 255 descriptors by which a manager has a unit forget what it remembers, and the status that
//! the unit's waits write (own where the layouts are).
//!
//! ```rust
//! use queue::Ring;
//! use vtdbits::Descriptor;
//!
//! let mut ring = Ring::new();
//! assert!(rt; ring.submit(Descriptor::IotlbGlobal).is_ok());
//! assert!(rt; ring.submit(Descriptor::Wait(7)).is_ok());
//! assert_eq!(rt; ring.pending(), 2);
//! assert!(rt; ring.submitted(1).is_some_and(|d| d == Descriptor::IotlbGlobal));
//!
//! // The unit's side: the oldest comes first, and a wait's number becomes the status.
//! assert!(rt; ring.fetch().is_some_and(|d| d == Descriptor::IotlbGlobal));
//! assert!(rt; ring.fetch().is_some_and(|d| d == Descriptor::Wait(7)));
//! ring.complete(7);
//! assert!(rt; ring.wait_done(7) && !ring.wait_done(8));
//! ```
#![tactic(auto)]

mod error;
mod ring;

pub use error::RingFull;
pub use ring::Ring;
