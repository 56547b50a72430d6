//! Pieces in a chain, of which the first and the last ones can leave.

ghost use Rattle.std.specs.Prelude.{◌≡◌, List, [], ◌∷◌, ◌++◌, ◌+◌, ◌-◌, ◌≤◌, ◌<◌, Some, drop, length};
ghost use Rattle.std.specs.Prelude.{◌↔◌, IfSome, IfOk, IsTrue, true, false};
ghost use Rattle.iova.specs.Pieces.{pages_as};

use crate::ends::Ends;
use piece_tree::{PageState, Piece};
use std::alloc::{AllocError, Global};
use std::marker::Model;

/// How many pieces a chain has room for (own): as many as a lazy domain retires before it has to flush, and what is taken just before
/// that.
pub(crate) const MOST_IN_CHAIN: usize = 272;

/// Pieces, seen as their list.
#[derive(Drop)]
pub(crate) struct Chain {
    // Those that left at the front, up to `begin`, and behind them the pieces. Where all have left, none of them is kept.
    pieces: Vec<Piece>,
    begin: usize,
}

impl Model for Chain {
    ghost use Rattle.std.specs.Prelude.{List, ◌≡◌, ◌≤◌, drop, length, vec_capacity};
    ghost use Rattle.piece_tree.specs.declared.piece.Piece.{Piece};
    ghost use Rattle.iova.specs.declared.chain.TheConstants.{MOST_IN_CHAIN};

    ghost Value = { List Piece };

    ghost view = { λ r. drop r.begin r.pieces.items };

    ghost invariant = { λ r. (r.begin ≤ length r.pieces.items) × (MOST_IN_CHAIN ≤ vec_capacity r.pieces)
        × (r.begin ≡ length r.pieces.items → length r.pieces.items ≡ 0) };
}

impl Chain {
    /// None, and the memory for all.
    pub(crate) fn new(alloc: Global) -> Result<Chain, AllocError>
        ensures { IfOk result (λ chain. chain ≡ []) }
    {
        let pieces = Vec::with_capacity(alloc, MOST_IN_CHAIN)?;
        Ok(Chain { pieces, begin: 0 })
    }

    /// The pieces.
    pub(crate) fn as_slice(&self) -> &[Piece]
        ensures { result.now ≡ self.now }
    {
        &self.pieces.as_slice()[self.begin..]
    }

    /// Whether there is none.
    #[inline(always)]
    pub(crate) fn is_empty(&self) -> bool
        ensures { IsTrue result ↔ (self.now ≡ []) }
    {
        self.pieces.is_empty()
    }

    /// The state of the last one, if it has some pages.
    #[inline(always)]
    pub(crate) fn last_state(&self, pages: Ends) -> Option<PageState>
        ensures { IfSome result (λ state. (before : List Piece) × (self.now ≡ before ++ pages_as pages state ∷ [])) }
    {
        let piece = self.pieces.last()?;
        if piece.first == pages.first && piece.last == pages.last {
            return Some(piece.state);
        }
        None
    }

    /// How many there are.
    pub(crate) fn len(&self) -> usize
        ensures { result ≡ length self.now }
    {
        self.pieces.len() - self.begin
    }

    /// Whether one more has room behind them. Those that left at the front take room until all have left.
    pub(crate) fn push(&mut self, piece: Piece) -> bool
        ensures pushed { result ≡ true → self.new ≡ self.old ++ piece ∷ [] }
        ensures unchanged { result ≡ false → self.new ≡ self.old }
    {
        if self.pieces.len() >= MOST_IN_CHAIN {
            return false;
        }
        self.pieces.push_reserved(piece);
        true
    }

    /// The last one leaves.
    pub(crate) fn lose_last(&mut self)
        requires { 0 < length self.old }
        ensures { (before : List Piece) (last : Piece) → self.old ≡ before ++ last ∷ [] → self.new ≡ before }
    {
        self.pieces.pop().unwrap();
        if self.pieces.len() == self.begin {
            self.pieces.clear();
            self.begin = 0;
        }
    }

    /// So many at the front leave.
    pub(crate) fn lose_first(&mut self, count: usize)
        requires { count ≤ length self.old }
        ensures { self.new ≡ drop count self.old }
    {
        self.begin += count;
        if self.pieces.len() == self.begin {
            self.pieces.clear();
            self.begin = 0;
        }
    }

    /// All leave.
    pub(crate) fn clear(&mut self)
        ensures { self.new ≡ [] }
    {
        self.pieces.clear();
        self.begin = 0;
    }

    /// Makes the piece at a place, counted from 0, retired.
    pub(crate) fn retire(&mut self, place: usize)
        requires { place < length self.old }
        ensures { (before : List Piece) (pages : Ends) (state : PageState) (behind : List Piece)
            → self.old ≡ before ++ pages_as pages state ∷ behind → place ≡ length before
            → self.new ≡ before ++ pages_as pages PageState.Retired ∷ behind }
    {
        self.pieces[self.begin + place].state = PageState::Retired;
    }
}
