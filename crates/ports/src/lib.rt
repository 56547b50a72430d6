//! Hits without a lock: each of 16 devices has a port, which answers a request by one word of its own row. The words and a
//! counter of events are written by the desk, under whatever lock its owner keeps it. What a hit answers is allowed after a legal
//! history that the port has then seen. Crate `manager` wraps all this; few callers need it alone.
//!
//! ```rust
//! use dmatypes::Access;
//! use ports::Rows;
//!
//! // For a world of 64 table frames, and one pass.
//! let (rows, mut desk, mut ports, _) = Rows::new(rt.alloc(), 64, 1)?;
//! let mut port = ports.remove(3);
//!
//! // Under the lock: `event` is appended, with which the history is legal, and `word` filled for device 3, which is lawful then.
//! desk.append(&rows, &event);
//! desk.fill(&rows, 3, word);
//!
//! // Without it: the host address, where the word states the page with the right, and the count of events.
//! let (host, count) = port.hit(&rows, 0x1234, Access::Read);
//!
//! // Under the lock again: the row is emptied, and the port has then seen the whole history.
//! desk.clear(&rows, 3);
//! desk.meet(&rows, &mut port);
//! ```
#![tactic(auto)]

mod desk;
mod known;
pub mod laws;
mod port;
mod rows;
mod rule;

pub use desk::Desk;
pub use known::OwnStep;
pub use port::{Pass, Port};
pub use rows::Rows;
