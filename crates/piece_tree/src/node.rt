//! Nodes of the tree of pieces.

ghost use Rattle.std.specs.Borrow.{sem};
ghost use Rattle.std.specs.Prelude.{◌≡◌, ◌<◌, true, false};
ghost use Rattle.piece_tree.specs.Lending.{LendsChild};
ghost use Rattle.piece_tree.specs.Pieces.{IsPiece};
ghost use Rattle.piece_tree.specs.Tree.{joint_at, longest_at, tree_at};

use crate::links::free_length;
use crate::piece::Piece;
use crate::top::{Key, Top};

/// A piece in the tree, named by its key, and the trees before it and behind it: so no child is read but on the way down to it.
#[derive(Clone, Copy)]
pub(crate) struct Node {
    pub(crate) piece: Piece,
    pub(crate) left: Top,
    pub(crate) right: Top,
}

impl Node {
    /// A piece between two trees, by a side.
    #[inline(always)]
    pub(crate) fn joint_at(before: bool, piece: Piece, near: Top, far: Top) -> Node
        ensures { result ≡ joint_at before piece near far }
    {
        if before {
            return Node {
                piece,
                left: near,
                right: far,
            };
        }
        Node {
            piece,
            left: far,
            right: near,
        }
    }

    /// The tree on a side. A place is chosen and then read, with no branch: which side a step goes to is as good as random, and a branch
    /// on it is mostly foreseen wrong.
    #[inline(always)]
    pub(crate) fn child(&self, before: bool) -> Top
        ensures before { before ≡ true → result ≡ self.now.left }
        ensures behind { before ≡ false → result ≡ self.now.right }
    {
        let child = if before { &self.left } else { &self.right };
        *child
    }

    /// The same, to be written.
    #[inline(always)]
    pub(crate) fn child_mut(&mut self, before: bool) -> &mut Top
        ensures* lends { sem 𝓛 (LendsChild before self.entry result) }
        ensures before { before ≡ true → result.now ≡ self.old.left }
        ensures behind { before ≡ false → result.now ≡ self.old.right }
    {
        if before {
            &mut self.left
        } else {
            &mut self.right
        }
    }

    /// How many pages the longest free piece has, of its own one and of those in its two trees.
    #[inline(always)]
    pub(crate) fn longest(&self) -> u64
        requires { IsPiece self.now.piece }
        ensures { result ≡ longest_at self.now }
    {
        let below = self.left.longest().max(self.right.longest());
        free_length(self.piece).max(below)
    }

    /// The tree that it is the root of, under its key.
    #[inline(always)]
    pub(crate) fn tree(&self, key: Key) -> Top
        requires piece { IsPiece self.now.piece }
        requires left { self.now.left.height < 1000 }
        requires right { self.now.right.height < 1000 }
        ensures { result ≡ tree_at key self.now }
    {
        let height = 1 + self.left.height().max(self.right.height());
        Top::of(key, height, self.longest())
    }
}

/// What lies at a key, by a side: a piece, the tree on that side, and the one on the other side.
#[derive(Clone, Copy)]
pub(crate) struct Opened {
    pub(crate) piece: Piece,
    pub(crate) near: Top,
    pub(crate) far: Top,
}
