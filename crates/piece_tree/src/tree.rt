//! The tree of pieces, seen as their list.

ghost use Rattle.std.specs.Prelude.{◌≡◌, ◌+◌, ◌^◌, ◌<◌, ◌≤◌, ◌↔◌, [], ◌∷◌, ◌++◌, ℕ, List, length, IfOk, IfSome, IfNone, IsSome, IsTrue};
ghost use Rattle.std.specs.Prelude.{Some, true, false};

use crate::edits::{lay_over, lay_piece};
use crate::grafts::add;
use crate::node::Node;
use crate::piece::{MOST_PIECES, NUMBERS_END, Piece};
use crate::search::{are_short_before, find, first_from, go_fit, starting_at};
use crate::top::{KEYS_END, NO_TREE, Top};
use crate::way::{Held, MOST_HEIGHT, NO_STEP, Step, reach};
use slab::Slab;
use std::alloc::{AllocError, Global};
use std::marker::Model;

/// Pieces in the order of their pages, at most 1,024, in a balanced tree. It takes the memory for all of them at once. A call takes some
/// steps for each level of the tree, and for each piece that comes or goes; `seek_fit` also looks where pages lie askew.
#[derive(Drop)]
pub struct PieceTree {
    root: Top,
    nodes: Slab<Node>,
    // The steps of the last way down.
    way: [Step; MOST_HEIGHT],
    // The key that they lead to, if it has its piece still.
    hand: Option<Held>,
}

impl Model for PieceTree {
    ghost use Rattle.piece_tree.specs.Tree.{IsWhole, Shape, pieces_of};
    ghost use Rattle.piece_tree.specs.Way.{IsAtHand};
    ghost use Rattle.std.specs.Prelude.{List};
    ghost use Rattle.piece_tree.specs.declared.piece.Piece.{Piece};

    ghost Value = { List Piece };

    ghost view = { λ a. pieces_of a.nodes a.root };

    ghost invariant = { λ a. (t : Shape) × IsWhole a.nodes a.root t × IsAtHand a.way a.hand t };
}

impl PieceTree {
    ghost use Rattle.piece_tree.specs.Pieces.{AreSorted, piece_at};
    ghost use Rattle.piece_tree.specs.Laid.{IsRow, with_piece, with_row};
    ghost use Rattle.piece_tree.specs.Search.{HasNoRoom, IsFound, IsShortBefore, IsStarting, first_of, pieces_from};
    ghost use Rattle.std.specs.List.{AllByRecursion};

    /// No pieces.
    pub fn new(alloc: Global) -> Result<PieceTree, AllocError>
        ensures { IfOk result (λ tree. tree ≡ []) }
    {
        let nodes = Slab::with_capacity(alloc, MOST_PIECES)?;
        // A node whose key is no `Key` couldn't be named: so much memory was got, and is of no use.
        if nodes.capacity() > KEYS_END {
            return Err(AllocError);
        }
        Ok(PieceTree {
            root: NO_TREE,
            nodes,
            way: [NO_STEP; MOST_HEIGHT],
            hand: None,
        })
    }

    /// Takes all pieces out.
    pub fn clear(&mut self)
        ensures { self.new ≡ [] }
    {
        self.nodes.clear();
        self.root = NO_TREE;
        self.hand = None;
    }

    /// How many pieces there are.
    pub fn len(&self) -> usize
        ensures len { result ≡ length self.now }
        ensures few { result ≤ 1024 }
        ensures sorted { AreSorted 0 self.now }
    {
        self.nodes.len()
    }

    /// Adds a piece behind all others.
    pub fn push(&mut self, piece: Piece)
        requires behind { AreSorted 0 (self.old ++ piece ∷ []) }
        requires room { length self.old < 1024 }
        ensures { self.new ≡ self.old ++ piece ∷ [] }
    {
        self.hand = None;
        self.root = add(&mut self.nodes, true, self.root, Some(piece));
    }

    /// The piece that a page lies in.
    pub fn piece_at(&self, page: u64) -> Option<Piece>
        ensures piece { result ≡ piece_at self.now page }
        ensures sorted { AreSorted 0 self.now }
    {
        find(&self.nodes, self.root, page)
    }

    /// The piece that begins at a page.
    pub fn starting_at(&self, page: u64) -> Option<Piece>
        ensures { IsStarting page self.now result }
    {
        starting_at(&self.nodes, self.root, page)
    }

    /// The first piece that begins at a page or behind it.
    pub fn first_from(&self, page: u64) -> Option<Piece>
        ensures { result ≡ first_of (pieces_from page self.now) }
    {
        first_from(&self.nodes, self.root, page)
    }

    /// Whether all free pieces that begin before a page have fewer pages than so many.
    pub fn are_short_before(&self, page: u64, pages: u64) -> bool
        ensures { IsTrue result ↔ AllByRecursion (IsShortBefore page pages) self.now }
    {
        are_short_before(&self.nodes, self.root, page, pages)
    }

    /// The first start of so many free pages from a floor on that is a multiple of a unit, a power of two, and the free piece that they
    /// lie in. That is at hand then: the next call that asks for it finds it at once.
    pub fn seek_fit(&mut self, floor: u64, pages: u64, unit: u64) -> Option<(u64, Piece)>
        requires floor { floor ≤ NUMBERS_END }
        requires some_pages { 1 ≤ pages }
        requires pages { pages < NUMBERS_END }
        requires unit { unit < NUMBERS_END }
        requires power { (order : ℕ) × (unit ≡ 2 ^ order) }
        ensures some { IfSome result (λ found. IsFound floor pages unit self.old found.0 found.1) }
        ensures none { IfNone result (AllByRecursion (HasNoRoom floor pages unit) self.old) }
        ensures unchanged { self.new ≡ self.old }
        ensures sorted { AreSorted 0 self.old }
    {
        self.hand = None;
        let fit = go_fit(&self.nodes, self.root, floor, pages, unit, &mut self.way)?;
        self.hand = Some(fit.held);
        Some((fit.start, self.nodes[fit.held.key as usize].piece))
    }

    /// Puts a piece over those that are there: its first page lies in one of them, and its last page. What is left of these stays.
    pub fn lay(&mut self, piece: Piece)
        requires first { IsSome (piece_at self.old piece.first) }
        requires last { IsSome (piece_at self.old piece.last) }
        requires some { piece.first ≤ piece.last }
        requires room { length (with_piece piece self.old) ≤ 1024 }
        ensures { self.new ≡ with_piece piece self.old }
    {
        let held = reach(
            &self.nodes,
            self.root,
            piece.first,
            piece.last,
            &mut self.way,
            self.hand,
        );
        let laid = lay_piece(&mut self.nodes, self.root, &self.way, held, piece);
        self.root = laid.root;
        self.hand = laid.hand;
    }

    /// Puts a row of pieces, each right behind the one before it, over some pages of one piece. What is left of it stays.
    pub fn lay_row(&mut self, row: &[Piece])
        requires inside { (from : ℕ) × (last : ℕ) × (p : Piece) × (from ≤ last) × IsRow from row.now (last + 1)
            × (piece_at self.old from ≡ Some p) × (last ≤ p.last) × (length (with_row from row.now last self.old) ≤ 1024) }
        ensures { (from last : ℕ) → from ≤ last → IsRow from row.now (last + 1) → self.new ≡ with_row from row.now last self.old }
    {
        let (Some(first), Some(last)) = (row.first(), row.last()) else {
            unreachable!()
        };
        let held = reach(
            &self.nodes,
            self.root,
            first.first,
            last.last,
            &mut self.way,
            self.hand,
        );
        let laid = lay_over(&mut self.nodes, self.root, &self.way, held, row);
        self.root = laid.root;
        self.hand = laid.hand;
    }
}
