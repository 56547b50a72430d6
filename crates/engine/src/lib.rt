//! The sequential manager, for one thread at a time: table frames, domains with their address spaces and trees, the devices that
//! are attached to them, the invalidation queue and the unit. Each method is a step of the model.
//!
//! ```rust
//! use dmatypes::{Mode, Width};
//! use engine::{State, Unmapped};
//!
//! // 64 table frames. Frame 0x100 is mapped to read and to write, unmapped lazily, and its page is released by a flush.
//! let mut state = State::new(rt.alloc(), 64)?;
//! assert_eq!(rt; state.domain(Mode::Lazy, Width::W39), Ok(1));
//! assert_eq!(rt; state.map(1, 0x100, 1, 0, 3), Ok(0x1000));
//! assert_eq!(rt; state.unmap(1, 0x1000, 1), Ok(Unmapped::Retired { released: 0 }));
//! assert_eq!(rt; state.flush(1), Ok(1));
//! ```
//!
//! A caller owes that fewer than 2^56 calls were made of the state (`CALLS_END`). `State::calls` tells how many were.
#![tactic(auto)]

mod answer;
mod domain;
mod iommu;
mod record;
mod request;
mod room;
mod sending;
mod state;
mod ticket;
mod wanted;

pub use answer::{Answer, Detail, Placed, Unmapped};
pub use state::{DomainTotals, RetiredRecord, State, Totals};
pub use unit::Hit;
