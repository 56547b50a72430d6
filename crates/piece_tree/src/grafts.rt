//! Trees put together at a key between them, and pieces added at an end of a tree.

ghost use Rattle.std.specs.Prelude.{◌≡◌, ◌+◌, ◌<◌, ◌≤◌, ◌∷◌, ◌++◌, [], IfSome, IsSome, Some, length, max};
ghost use Rattle.slab.specs.Slab.{get, slab_len};
ghost use Rattle.slab.specs.Slab as slabs;
ghost use Rattle.piece_tree.specs.Pieces.{IsPiece};
ghost use Rattle.piece_tree.specs.Graft.{Adds, IsTree, Makes, Parted, some_of};
ghost use Rattle.piece_tree.specs.Tree.{AreNear, AreParts, CanHang, Empty, Joins, KeepsCount, Shape, height_of, items, root_of, top_of};

use crate::links::{link, open};
use crate::node::Node;
use crate::piece::{MOST_PIECES, Piece};
use crate::top::{KEYS_END, Key, NO_TREE, Top};
use crate::turn::turn;
use slab::Slab;

/// Joins two trees on the two sides of a key whose heights differ by at most two.
#[inline(always)]
pub(crate) fn between(
    nodes: &mut Slab<Node>,
    before: bool,
    near: Top,
    key: Key,
    piece: Piece,
    far: Top,
) -> Top
    requires parts { (n : Shape) × (f : Shape) × AreParts (get nodes.old) near key far n f
        × (height_of n ≤ height_of f + 2) × (height_of f ≤ height_of n + 2) }
    requires piece { IsPiece piece }
    ensures joins { (n f : Shape) → AreParts (get nodes.old) near key far n f
        → Joins (get nodes.old) (get nodes.new) before result key piece n f }
    ensures count { KeepsCount nodes.old nodes.new }
{
    if near.height() > far.height() + 1 {
        return turn(nodes, before, near, key, piece, far);
    }
    if far.height() > near.height() + 1 {
        return turn(nodes, !before, far, key, piece, near);
    }
    link(nodes, before, near, key, piece, far)
}

/// Joins two trees on the two sides of a key, of any heights: the lower one is hung where the other one's end is as low.
#[inline(always)]
pub(crate) fn graft(
    nodes: &mut Slab<Node>,
    before: bool,
    near: Top,
    key: Key,
    piece: Piece,
    far: Top,
) -> Top
    requires parts { (n : Shape) × (f : Shape) × AreParts (get nodes.old) near key far n f }
    requires piece { IsPiece piece }
    ensures joins { (n f : Shape) → AreParts (get nodes.old) near key far n f
        → Joins (get nodes.old) (get nodes.new) before result key piece n f }
    ensures count { KeepsCount nodes.old nodes.new }
{
    if far.height() > near.height() + 1 {
        return graft_onto(nodes, !before, far, key, piece, near);
    }
    if near.height() > far.height() + 1 {
        return graft_onto(nodes, before, near, key, piece, far);
    }
    link(nodes, before, near, key, piece, far)
}

// The same, where the first is the higher one, or lower by one.
#[inline(never)]
fn graft_onto(
    nodes: &mut Slab<Node>,
    before: bool,
    near: Top,
    key: Key,
    piece: Piece,
    far: Top,
) -> Top
    requires parts { (n : Shape) × (f : Shape) × AreParts (get nodes.old) near key far n f × (height_of f ≤ height_of n + 1) }
    requires piece { IsPiece piece }
    ensures joins { (n f : Shape) → AreParts (get nodes.old) near key far n f
        → Joins (get nodes.old) (get nodes.new) before result key piece n f }
    ensures count { KeepsCount nodes.old nodes.new }
{
    if near.height() <= far.height() + 1 {
        return link(nodes, before, near, key, piece, far);
    }
    let Some(top) = near.root() else {
        unreachable!()
    };
    let outer = open(nodes, before, top);
    let below = graft_onto(nodes, before, outer.far, key, piece, far);
    between(nodes, before, outer.near, top, outer.piece, below)
}

/// Makes a tree of a new piece between two trees.
#[inline(always)]
pub(crate) fn crown(nodes: &mut Slab<Node>, near: Top, piece: Piece, far: Top) -> Top
    requires parts { (was : slabs.Slab Node) × (n : Shape) × (f : Shape) × Parted was nodes.old near far Empty n f × AreNear n f
        × (length (items n) + length (items f) < MOST_PIECES) }
    requires piece { IsPiece piece }
    requires room { slab_len nodes.old < nodes.old.capacity }
    requires keys { nodes.old.capacity ≤ KEYS_END }
    ensures makes { (was : slabs.Slab Node) (n f : Shape) → Parted was nodes.old near far Empty n f → AreNear n f
        → length (items n) + length (items f) < MOST_PIECES → Makes was nodes.new result Empty (items n ++ piece ∷ items f) }
    ensures key { IsSome result.root }
    ensures height { result.height ≡ 1 + max near.height far.height }
{
    let node = Node {
        piece,
        left: near,
        right: far,
    };
    let key = nodes.insert_reserved(node) as Key;
    node.tree(key)
}

/// Makes a tree of one piece.
#[inline(always)]
pub(crate) fn leaf(nodes: &mut Slab<Node>, piece: Piece) -> Top
    requires piece { IsPiece piece }
    requires room { slab_len nodes.old < nodes.old.capacity }
    requires keys { nodes.old.capacity ≤ KEYS_END }
    ensures makes { Makes nodes.old nodes.new result Empty (piece ∷ []) }
    ensures key { IsSome result.root }
    ensures height { result.height ≡ 1 }
{
    crown(nodes, NO_TREE, piece, NO_TREE)
}

/// Puts another tree on a side of a key, of any height.
#[inline(always)]
pub(crate) fn regraft(nodes: &mut Slab<Node>, before: bool, key: Key, tree: Top) -> Top
    requires { (piece : Piece) × (was : Shape) × (n : Shape) × (f : Shape) × CanHang (get nodes.old) before key tree piece was n f }
    ensures joins { (piece : Piece) (was n f : Shape) → CanHang (get nodes.old) before key tree piece was n f
        → Joins (get nodes.old) (get nodes.new) before result key piece n f }
    ensures count { KeepsCount nodes.old nodes.new }
{
    let node = &mut nodes[key as usize];
    *node.child_mut(before) = tree;
    if node.left.height().abs_diff(node.right.height()) > 1 {
        let piece = node.piece;
        let other = node.child(!before);
        return graft(nodes, before, tree, key, piece, other);
    }
    node.tree(key)
}

// Adds a piece right behind the tree at a key, or right before it.
#[cycle(add)]
fn add_end(nodes: &mut Slab<Node>, before: bool, key: Key, piece: Piece) -> Top
    requires tree { (t : Shape) × IsTree (get nodes.old) (top_of t) t × (root_of t ≡ Some key) × (length (items t) < MOST_PIECES) }
    requires piece { IsPiece piece }
    requires room { slab_len nodes.old < nodes.old.capacity }
    requires keys { nodes.old.capacity ≤ KEYS_END }
    ensures { (t : Shape) → IsTree (get nodes.old) (top_of t) t → root_of t ≡ Some key
        → Adds nodes.old nodes.new before result t (Some piece) }
{
    let opened = open(nodes, before, key);
    let far = add(nodes, before, opened.far, Some(piece));
    regraft(nodes, !before, key, far)
}

/// Adds a piece, if there is one, right behind a tree or right before it.
#[inline(always)]
#[cycle(add)]
pub(crate) fn add(nodes: &mut Slab<Node>, before: bool, tree: Top, piece: Option<Piece>) -> Top
    requires tree { (t : Shape) × IsTree (get nodes.old) tree t × (length (items t) < MOST_PIECES) }
    requires piece { IfSome piece IsPiece }
    requires room { slab_len nodes.old + length (some_of piece) ≤ nodes.old.capacity }
    requires keys { nodes.old.capacity ≤ KEYS_END }
    ensures { (t : Shape) → IsTree (get nodes.old) tree t → Adds nodes.old nodes.new before result t piece }
{
    let Some(piece) = piece else { return tree };
    let Some(key) = tree.root() else {
        return leaf(nodes, piece);
    };
    add_end(nodes, before, key, piece)
}
