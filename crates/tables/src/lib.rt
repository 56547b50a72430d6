//! Second-stage page tables, and the pool of table frames that they stand in. Pages are mapped to host frames and unmapped, with
//! leaves of 4 KiB and of 2 MiB, and a call knows beforehand how many table frames it takes. `specs/` has the meaning of a tree.
//!
//! ```rust
//! use dmatypes::{Page, Width};
//! use tables::{Pool, Tree};
//!
//! let mut pool = Pool::new(rt.alloc(), 16)?;
//! let mut tree = Tree::new(&mut pool, Width::W39)?;
//! // `pages` and `frame` make a `PageRange` and a `Frame` of numbers: 512 pages, as one leaf of 2 MiB.
//! tree.map(&mut pool, pages(0x200, 512), frame(0x400), rights)
//!     .expect(&rt, "a free frame");
//!
//! // One page of it goes: the leaf is split.
//! assert!(rt; tree.may_unmap(&pool, pages(0x201, 1)).is_ok());
//! let cut = tree.unmap(&mut pool, pages(0x201, 1));
//! assert!(rt; cut.frames().is_empty() && cut.split());
//!
//! let page = Page::new(0x202).expect(&rt, "a page");
//! let (found, _) = tree.walk(&pool, page).expect(&rt, "a leaf");
//! assert_eq!(rt; found.number(), 0x402);
//! ```
#![tactic(auto)]

mod cut;
mod entries;
mod error;
mod extent;
mod frames;
pub mod laws;
mod mapping;
mod segments;
mod trail;
mod trees;
mod unmapping;

pub use cut::Cut;
pub use entries::{TABLE_ENTRIES, index_of, read_entry, span_of};
pub use error::NoFrames;
pub use frames::Pool;
pub use trees::Tree;
