//! The pieces of a tree, one after the other.

ghost use Rattle.std.specs.Iterator.{YieldsFirst, item_count};
ghost use Rattle.std.specs.Prelude.{◌≡◌, ◌+◌, ◌<◌, None, IfSome};
ghost use Rattle.piece_tree.specs.Search.{first_or, pieces_from};
ghost use Rattle.iova.specs.Stored.{CanList, with_freed};

use crate::ends::Ends;
use piece_tree::{NUMBERS_END, PageState, Piece, PieceTree};
use std::marker::Model;

/// The pieces of a tree in the order of their pages, seen as the list of those that are left (own).
#[derive(Drop)]
pub(crate) struct TreeIter<'a> {
    pub(crate) tree: &'a PieceTree,
    // The free piece that the tree doesn't show yet, where a piece came free.
    pub(crate) freed: Option<Ends>,
    // The pieces that are left are those that begin at this page or after it.
    pub(crate) page: u64,
}

impl<'a> Model for TreeIter<'a> {
    ghost use Rattle.std.specs.Prelude.{List};
    ghost use Rattle.piece_tree.specs.declared.piece.Piece.{Piece};
    ghost use Rattle.piece_tree.specs.Search.{pieces_from};
    ghost use Rattle.iova.specs.Stored.{CanList, with_freed};

    ghost Value = { List Piece };

    ghost view = { λ it. pieces_from it.page (with_freed it.freed it.tree.now) };

    ghost invariant = { λ it. CanList it.tree.now it.freed it.page };
}

impl<'a> Iterator for TreeIter<'a> {
    type Item = Piece;

    ghost next_gives = { YieldsFirst (λ rest. rest) };

    ghost remaining = { item_count (λ rest. rest) };

    fn next(&mut self) -> Option<Piece> {
        let piece = first_from(self.tree, self.freed, self.page)?;
        self.page = piece.last + 1;
        Some(piece)
    }
}

// The first piece that begins at a page or after it, where the free one, if there is one, stands in the place of those of the
// tree that begin in it.
fn first_from(tree: &PieceTree, freed: Option<Ends>, page: u64) -> Option<Piece>
    requires { CanList tree.now freed page }
    ensures first { result ≡ first_or (pieces_from page (with_freed freed tree.now)) None }
    ensures narrow { IfSome result (λ piece. piece.last < NUMBERS_END) }
    ensures goes_on { IfSome result (λ piece. CanList tree.now freed (piece.last + 1)) }
{
    let piece = tree.first_from(page)?;
    match freed {
        Some(ends) if ends.first == piece.first => Some(ends.in_state(PageState::Free)),
        _ => Some(piece),
    }
}
