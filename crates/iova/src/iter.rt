//! The pieces of a space, one after the other.

ghost use Rattle.std.specs.Iterator.{UpTo, YieldsFirst, at_most, item_count};
ghost use Rattle.std.specs.Iterator.SizeHint.{IsWithinCount};
ghost use Rattle.std.specs.Prelude.{◌≡◌, IfSome, Some, length};

use crate::ends::Ends;
use crate::tree_iter::TreeIter;
use piece_tree::{PageState, Piece};
use std::iter::FusedIterator;
use std::marker::Model;

/// The pieces of a space in the order of their pages, seen as the list of those that are left (own). It knows how many these
/// are.
#[derive(Drop)]
pub struct Iter<'a> {
    pub(crate) coming: Coming<'a>,
    pub(crate) left: usize,
}

impl<'a> Model for Iter<'a> {
    ghost use Rattle.std.specs.Prelude.{List, ◌≡◌, length};
    ghost use Rattle.piece_tree.specs.declared.piece.Piece.{Piece};

    ghost Value = { List Piece };

    ghost view = { λ it. it.coming };

    ghost invariant = { λ it. it.left ≡ length it.coming };
}

impl<'a> Iterator for Iter<'a> {
    type Item = Piece;

    ghost next_gives = { YieldsFirst (λ rest. rest) };

    ghost remaining = { item_count (λ rest. rest) };

    fn next(&mut self) -> Option<Piece> {
        let piece = self.coming.next()?;
        self.left -= 1;
        Some(piece)
    }

    fn size_hint(&self) -> (usize, Option<usize>)
        ensures lower { IsWithinCount result.0 (at_most (length self.now)) }
        ensures upper { IfSome result.1 (UpTo (at_most (length self.now))) }
        ensures exact { result ≡ (length self.now, Some (length self.now)) }
    {
        (self.left, Some(self.left))
    }
}

impl<'a> ExactSizeIterator for Iter<'a> {
    fn len(&self) -> usize {
        self.left
    }
}

impl<'a> FusedIterator for Iter<'a> {}

/// The pieces that come: those of the tree, and in the place of one of them a chain with what is free beside it.
#[derive(Drop)]
pub(crate) struct Coming<'a> {
    pub(crate) tree: TreeIter<'a>,
    // What comes in the place of the tree's piece that begins at this page: what is left of it before the chain, the chain, and
    // what is left behind it.
    pub(crate) first: u64,
    pub(crate) before: Option<Ends>,
    pub(crate) chain: &'a [Piece],
    pub(crate) behind: Option<Ends>,
    // Whether the tree's piece was passed.
    pub(crate) passed: bool,
}

impl<'a> Model for Coming<'a> {
    ghost use Rattle.std.specs.Prelude.{List, ◌++◌, if◌then◌else◌};
    ghost use Rattle.piece_tree.specs.declared.piece.Piece.{Piece};
    ghost use Rattle.iova.specs.Carved.{free_of, in_place_of};

    ghost Value = { List Piece };

    ghost view = { λ it. if it.passed then free_of it.before ++ it.chain.now ++ free_of it.behind ++ it.tree
        else in_place_of it.first (free_of it.before ++ it.chain.now ++ free_of it.behind) it.tree };
}

impl<'a> Iterator for Coming<'a> {
    type Item = Piece;

    ghost next_gives = { YieldsFirst (λ rest. rest) };

    ghost remaining = { item_count (λ rest. rest) };

    fn next(&mut self) -> Option<Piece> {
        if !self.passed {
            let piece = self.tree.next()?;
            if piece.first != self.first {
                return Some(piece);
            }
            self.passed = true;
        }
        if let Some(ends) = self.before {
            self.before = None;
            return Some(ends.in_state(PageState::Free));
        }
        if let Some((piece, behind)) = self.chain.split_first() {
            self.chain = behind;
            return Some(*piece);
        }
        if let Some(ends) = self.behind {
            self.behind = None;
            return Some(ends.in_state(PageState::Free));
        }
        self.tree.next()
    }
}
