//! What changes at a key to which a way leads: its piece is another, or a row is laid over it and those below it.

ghost use Rattle.std.specs.Prelude.{◌≡◌, [], ◌∷◌, ◌++◌, ℕ};
ghost use Rattle.piece_tree.specs.Laid.{with_piece, with_row};
ghost use Rattle.piece_tree.specs.Pieces.{IsPiece};
ghost use Rattle.piece_tree.specs.Tree.{Fork, KeepsCount, Shape, items};
ghost use Rattle.piece_tree.specs.Way.{Above, CanLay, IsHeld, LaysOver, WholeBecomes, plug};

use crate::laying::replace;
use crate::links::set_piece;
use crate::node::Node;
use crate::piece::Piece;
use crate::top::Top;
use crate::way::{Held, MOST_HEIGHT, Step, lift, mend};
use slab::Slab;

/// The root of a tree that was changed, and what is at hand in it.
#[derive(Clone, Copy)]
pub(crate) struct Laid {
    pub(crate) root: Top,
    pub(crate) hand: Option<Held>,
}

/// Puts another piece under a key. No tree is higher or lower for it, so the way still leads there.
#[inline(always)]
pub(crate) fn renew(
    nodes: &mut Slab<Node>,
    root: Top,
    way: &[Step; MOST_HEIGHT],
    held: Held,
    piece: Piece,
) -> Top
    requires held { (path : Above) × (p : Piece) × (l : Shape) × (r : Shape) × IsHeld nodes.old root way.now held path p l r }
    requires piece { IsPiece piece }
    ensures becomes { (path : Above) (p : Piece) (l r : Shape) → IsHeld nodes.old root way.now held path p l r
        → (b : WholeBecomes nodes.old nodes.new result path (items l ++ piece ∷ items r))
        × (b.shape ≡ plug path (Fork held.key piece l r)) }
    ensures count { KeepsCount nodes.old nodes.new }
{
    let longest = set_piece(nodes, held.key, piece);
    lift(nodes, way, held.depth, root, longest)
}

/// Puts a row of pieces over others: the way leads to the highest that has some of its pages.
#[inline(always)]
pub(crate) fn lay_over(
    nodes: &mut Slab<Node>,
    root: Top,
    way: &[Step; MOST_HEIGHT],
    held: Held,
    row: &[Piece],
) -> Laid
    requires { (t : Shape) × (first : ℕ) × (last : ℕ) × CanLay nodes.old root way.now held first row.now last t }
    ensures { (t : Shape) (first last : ℕ) → CanLay nodes.old root way.now held first row.now last t
        → LaysOver nodes.new result way.now (with_row first row.now last (items t)) }
{
    let top = replace(nodes, held.key, row);
    let root = mend(nodes, way, held.depth, root, top);
    Laid { root, hand: None }
}

/// Puts one piece over others, as `lay_over` does. Where it has just the pages of the one that the way leads to, it is at hand then.
#[inline(always)]
pub(crate) fn lay_piece(
    nodes: &mut Slab<Node>,
    root: Top,
    way: &[Step; MOST_HEIGHT],
    held: Held,
    piece: Piece,
) -> Laid
    requires { (t : Shape) × CanLay nodes.old root way.now held piece.first (piece ∷ []) piece.last t }
    ensures { (t : Shape) → CanLay nodes.old root way.now held piece.first (piece ∷ []) piece.last t
        → LaysOver nodes.new result way.now (with_piece piece (items t)) }
{
    let there = nodes[held.key as usize].piece;
    if there.first == piece.first && there.last == piece.last {
        let root = renew(nodes, root, way, held, piece);
        return Laid {
            root,
            hand: Some(held),
        };
    }
    lay_over(nodes, root, way, held, &[piece])
}
