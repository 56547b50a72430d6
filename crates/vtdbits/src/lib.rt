//! The bit layouts of the words that a manager shares with a VT-d unit: second-stage entries, context entries, invalidation
//! descriptors; and of port words, which are this project's own. Each `encode` writes the one spelling of its value, and each
//! `decode` reads exactly the spellings: `None` is any other word.
//!
//! ```rust
//! use dmatypes::{Frame, Rights};
//! use vtdbits::{SsEntry, Translation};
//!
//! // A leaf of 4 KiB, frame 0x100, to read and to write.
//! let frame = Frame::new(0x100).expect(&rt, "a frame");
//! let rights = Rights::from_number(3).expect(&rt, "rights");
//! let entry = SsEntry::Leaf(Translation::new(frame, rights));
//! assert!(rt; entry.encode() == 0x10_0003);
//! assert!(rt; SsEntry::decode(1, 0x10_0003).is_some_and(|found| found == entry));
//! ```
#![tactic(auto)]

mod bits;
mod context;
mod descriptor;
mod entry;
mod number;
mod port;
mod spellings;
mod translation;
mod words;

pub use context::ContextEntry;
pub use descriptor::Descriptor;
pub use entry::SsEntry;
pub use number::{DeviceNumber, DomainId, MOST_BLOCK_ORDER, PageBlock};
pub use port::PortWord;
pub use spellings::{context_spellings, descriptor_spellings, entry_spellings, port_spellings};
pub use translation::{LargeTranslation, Translation};
pub use words::Words;
