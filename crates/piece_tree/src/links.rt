//! Nodes put under others.

ghost use Rattle.std.specs.Prelude.{◌≡◌, IsSome, Some, max};
ghost use Rattle.slab.specs.Slab.{Updates, get};
ghost use Rattle.piece_tree.specs.Pieces.{IsPiece};
ghost use Rattle.piece_tree.specs.declared.node.Node.{Node};
ghost use Rattle.piece_tree.specs.Tree.{AreNear, AreParts, IsBelow, KeepsCount, Links, Opens, Shape, free_pages};

use crate::node::{Node, Opened};
use crate::piece::Piece;
use crate::top::{Key, Top};
use slab::Slab;

/// The pages of a piece, if they are free.
pub(crate) fn free_length(piece: Piece) -> u64
    requires { IsPiece piece }
    ensures { result ≡ free_pages piece }
{
    if piece.is_free() {
        piece.last + 1 - piece.first
    } else {
        0
    }
}

/// What lies at a key.
#[inline(always)]
pub(crate) fn open(nodes: &Slab<Node>, before: bool, key: Key) -> Opened
    requires { (t : Shape) × IsBelow (get nodes.now) (Some key) t }
    ensures { (t : Shape) → IsBelow (get nodes.now) (Some key) t → Opens before key result t }
{
    let node = &nodes[key as usize];
    Opened {
        piece: node.piece,
        near: node.child(before),
        far: node.child(!before),
    }
}

/// Puts a piece under a key, with a tree on one side and a tree on the other.
pub(crate) fn link(
    nodes: &mut Slab<Node>,
    before: bool,
    near: Top,
    key: Key,
    piece: Piece,
    far: Top,
) -> Top
    requires parts { (n : Shape) × (f : Shape) × AreParts (get nodes.old) near key far n f × AreNear n f }
    requires piece { IsPiece piece }
    ensures links { (n f : Shape) → AreParts (get nodes.old) near key far n f → AreNear n f
        → Links (get nodes.old) (get nodes.new) before result key piece n f }
    ensures count { KeepsCount nodes.old nodes.new }
{
    let node = Node::joint_at(before, piece, near, far);
    nodes[key as usize] = node;
    node.tree(key)
}

/// Puts another piece under a key. Answers how much is longest from there down then.
#[inline(always)]
pub(crate) fn set_piece(nodes: &mut Slab<Node>, key: Key, piece: Piece) -> u64
    requires there { IsSome (get nodes.old key) }
    requires piece { IsPiece piece }
    ensures updates { (n : Node) → get nodes.old key ≡ Some n → Updates nodes.old nodes.new key (Some (record n { piece = piece })) }
    ensures longest { (n : Node) → get nodes.old key ≡ Some n
        → result ≡ max (free_pages piece) (max n.left.longest n.right.longest) }
    ensures count { KeepsCount nodes.old nodes.new }
{
    let node = &mut nodes[key as usize];
    node.piece = piece;
    node.longest()
}
