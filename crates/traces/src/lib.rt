//! Checks traces: what any manager of DMA addresses was asked, and what it answered, a line for each event. The verdict is exact, and
//! says what stands against the first event that is no step of the model.
//!
//! ```rust
//! use streams::Counted;
//! use traces::{Judgement, check};
//!
//! let trace: &[u8] = b"domain strict => domain 1\nmap 1 0x100 1 0 rw => map 0x1000\nmap 1 0x200 1 0 rw => map 0x1000\n";
//! match check(rt, alloc, &mut Counted::new(trace), 64)? {
//!     Judgement::Legal(events) => println!("legal {events}"),
//!     // "line 3: map 0x1000 is not allowed: page 0x1000 of domain 1 is live, to host frame 0x100 (rw); allowed: map 0x2000"
//!     Judgement::Illegal(finding) => println!("{finding}"),
//! }
//! ```
#![tactic(auto)]

mod checking;
mod error;
mod finding;
pub mod laws;
mod words;

pub use checking::{Judgement, check};
pub use error::CheckError;
pub use finding::{Finding, PageBefore};
