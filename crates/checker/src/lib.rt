//! Judges histories: what any manager of DMA addresses was asked, and what it answered, event by event, by the model alone. Who made
//! the events is not trusted, and the answer is exact: an event is legal exactly where the model allows it there.
//!
//! ```rust
//! use checker::{Checker, parse_event};
//! use dmatypes::Reply;
//!
//! // A world of 64 table frames. The address of a map is handed out again before its pages are released.
//! let mut checker = Checker::new(rt.alloc(), 64);
//! for line in [
//!     b"domain lazy => domain 1".as_slice(),
//!     b"map 1 0x100 1 0 rw => map 0x1000",
//!     b"unmap 1 0x1000 1 => unmapped 0",
//! ] {
//!     let event = parse_event(line).expect(&rt, "an event");
//!     assert!(rt; checker.judge(&event.call, event.reply)?);
//! }
//! let event = parse_event(b"map 1 0x200 1 0 rw => map 0x1000").expect(&rt, "an event");
//! assert!(rt; !checker.judge(&event.call, event.reply)?);
//! assert_eq!(rt; checker.expected(&event.call), Some(Reply::Mapped(0x2000)));
//! ```
#![tactic(auto)]

mod accepting;
mod allowing;
mod asking;
mod checker;
mod domain;
mod expecting;
mod judging;
pub mod laws;
mod mapping;
mod page_state;
mod pages;
mod reaching;
mod record;
mod refusing;
mod run;
mod searching;
mod taken;
mod target;
mod ticket;
mod trace;
mod verdict;

pub use asking::pages_of;
pub use checker::Checker;
pub use page_state::PageState;
pub use trace::{LONGEST_TRACE_LINE, parse_event};
pub use verdict::{Verdict, audit};
