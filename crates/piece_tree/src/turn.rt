//! Nodes turned, so that heights stay close.

ghost use Rattle.std.specs.Prelude.{◌≡◌, ◌+◌};
ghost use Rattle.slab.specs.Slab.{get};
ghost use Rattle.piece_tree.specs.Pieces.{IsPiece};
ghost use Rattle.piece_tree.specs.Tree.{AreParts, Joins, KeepsCount, Shape, height_of};

use crate::links::{link, open};
use crate::node::Node;
use crate::piece::Piece;
use crate::top::{Key, Top};
use slab::Slab;

/// Joins a tree on one side of a key with one on its other side that is lower by two. Its root is raised over the key, or the root of its
/// inner tree, where that is the higher one.
pub(crate) fn turn(
    nodes: &mut Slab<Node>,
    before: bool,
    high: Top,
    key: Key,
    piece: Piece,
    low: Top,
) -> Top
    requires parts { (n : Shape) × (f : Shape) × AreParts (get nodes.old) high key low n f × (height_of n ≡ height_of f + 2) }
    requires piece { IsPiece piece }
    ensures joins { (n f : Shape) → AreParts (get nodes.old) high key low n f → height_of n ≡ height_of f + 2
        → Joins (get nodes.old) (get nodes.new) before result key piece n f }
    ensures count { KeepsCount nodes.old nodes.new }
{
    let Some(top) = high.root() else {
        unreachable!()
    };
    let outer = open(nodes, before, top);
    if outer.far.height() <= outer.near.height() {
        let below = link(nodes, before, outer.far, key, piece, low);
        return link(nodes, before, outer.near, top, outer.piece, below);
    }
    let Some(middle) = outer.far.root() else {
        unreachable!()
    };
    let inner = open(nodes, before, middle);
    let first = link(nodes, before, outer.near, top, outer.piece, inner.near);
    let last = link(nodes, before, inner.far, key, piece, low);
    link(nodes, before, first, middle, inner.piece, last)
}
