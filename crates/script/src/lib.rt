//! Scripts of calls. A run answers each line of a script on a manager of its own. A trace is what its calls were and what they were
//! answered, and a report writes what is there at its end.
//!
//! ```rust
//! use script::run;
//! use streams::Counted;
//!
//! // `config` is Config::new(64, 65536, 1): a run has one share. `domain 1` is written, and a newline.
//! let script: &[u8] = b"domain strict\n";
//! let mut written = Vec::new(alloc);
//! let mut reader = Counted::new(script);
//! let mut writer = Counted::new(&mut written);
//! let result = run(rt, alloc, &mut reader, &mut writer, config);
//! ```
#![tactic(auto)]

mod answering;
mod drawing;
mod error;
pub mod laws;
mod memory;
mod running;

pub use error::RunError;
pub use memory::run_in_memory;
pub use running::{report, report_with_drawing, run, trace};
