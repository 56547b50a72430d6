//! Pieces of pages in the order of their pages: which pages of an address space are free, live, or retired. It knows nothing of
//! domains.
//!
//! They lie in a balanced tree. A node has a piece and two trees, the one before it and the one behind it. Of a tree the key of its root
//! is handed on, its height, and the greatest length of a free piece in it:
//!
//! ```text
//!                          8..15 live
//!     height 1, longest 0 /           \ height 1, longest 5
//!             1..7 retired             16..20 free
//! ```
//!
//! One way leads down to a page. Pieces are laid over others at the highest of these in the tree. What is left of that one, and of the
//! trees on its two sides, comes right before them and right behind them (`replace`). One way back up tells each key what lies below it
//! now, as far as that is another (`mend`). One way down takes out of a tree what lies on one side of a page (`trim`). Two trees and a
//! key between them become one: the lower one is hung where the end of the other is as low (`graft`).
#![tactic(auto)]

mod edits;
mod grafts;
mod laying;
mod links;
mod node;
mod piece;
mod search;
#[cfg(test)]
mod tests;
mod top;
mod tree;
mod turn;
mod way;

pub use piece::{MOST_PIECES, NUMBERS_END, PageState, Piece};
pub use search::round_up;
pub use tree::PieceTree;
