//! The sequential manager for C. It lies on the heap; C holds its address in a `struct vtdm`, and passes that struct to each call.
//! The caller brings its own lock. `c/vtdm.h` is the header, and says what C owes; `bin/vtdm-c` builds the library.
//!
//! ```c
//! struct vtdm manager = VTDM_INIT;
//! if (vtdm_create(&manager, 256) != VTDM_OK)
//!     return 1;
//! uint64_t domain = vtdm_domain(&manager, false).value;   /* strict */
//! vtdm_attach(&manager, 4, domain);
//! struct vtdm_answer at = vtdm_map(&manager, domain, 0x10000, 1, 0, VTDM_READ | VTDM_WRITE);
//! if (at.status == VTDM_OK)
//!     vtdm_unmap(&manager, domain, at.value, 1);          /* the device can't reach the page any more */
//! vtdm_destroy(&manager);
//! ```
#![tactic(auto)]

mod answer;
mod base;
mod domains;
mod driving;
mod effect;
mod flushes;
mod handle;
pub mod laws;
mod life;
mod loose;
mod pages;
mod readers;
mod requests;
mod segments;
mod session;
mod slot;
mod told;

pub use answer::Answer;
pub use effect::Effect;
pub use handle::Handle;
pub use segments::Segment;
pub use slot::Slot;
pub use told::{Context, DomainTotals, Sent, Totals};
