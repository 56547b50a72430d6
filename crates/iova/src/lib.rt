//! The address space of a domain: which pages of device addresses are free, live (mapped), or retired (unmapped, and a cached
//! translation may still reach them). A space is at most 1,024 pieces, each a run of pages of one state: those of a tree, but for what
//! the tree isn't told at once. What was taken last is carved out of one free piece, a chain of pieces that mostly come free at its ends.
//! What asks for other pages first hands the chain over to the tree, as one row:
//!
//! ```text
//!     the tree     1..4 live   5..8 live   9..20 free
//!     carved                               9..9 live   10..11 retired
//!     the space    1..4 live   5..8 live   9..9 live   10..11 retired   12..20 free
//! ```
//!
//! A live piece of the tree that comes free is mostly taken again. What asks for other pages first lays it there, as one with the free
//! pieces beside it. While there is such a piece, none is carved:
//!
//! ```text
//!     the tree     1..4 live   5..8 live   9..9 live   10..11 retired   12..20 free
//!     came free                5..8
//!     the space    1..4 live   5..8 free   9..9 live   10..11 retired   12..20 free
//! ```
//!
//! ```rust
//! use dmatypes::PageRange;
//! use iova::Space;
//!
//! // Pages 1 to 15. A take answers the lowest start that is a multiple of 2^order pages.
//! let mut space = Space::new(rt.alloc(), 15)?;
//! assert_eq!(rt; space.take(1, 0).map(|page| page.number()), Ok(1));
//! assert_eq!(rt; space.take(2, 1).map(|page| page.number()), Ok(2));
//! assert_eq!(rt; space.take(1, 2).map(|page| page.number()), Ok(4));
//!
//! // Three live pages are retired, and later free.
//! let range = PageRange::new(2, 3).ok_or("pages")?;
//! space.may_retire(range)?;
//! space.retire(range);
//! space.release(range);
//! ```
#![tactic(auto)]

mod carved;
mod chain;
mod ends;
mod fits;
mod freeing;
mod iter;
mod page_tree;
mod refusals;
mod space;
mod tree_iter;

pub use iter::Iter;
pub use piece_tree::{PageState, Piece};
pub use space::{RetireError, Space, TakeError};
