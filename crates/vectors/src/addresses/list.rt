//! The pieces of a space as a sorted list, searched from the lowest on: what the tree must agree with.

use iova::{PageState, Piece, RetireError, TakeError};
use std::alloc::{AllocError, Global};

#[derive(Drop)]
pub(super) struct List {
    pub(super) pieces: Vec<Piece>,
}

impl List {
    /// A list with these free pieces.
    pub(super) fn new(alloc: Global, free: &[(u64, u64)]) -> Result<List, AllocError> {
        let mut pieces = Vec::new(alloc);
        for (first, last) in free {
            pieces.push(Piece {
                first: *first,
                last: *last,
                state: PageState::Free,
            })?;
        }
        Ok(List { pieces })
    }

    /// Puts a piece over others.
    fn put(&mut self, alloc: Global, piece: Piece) -> Result<(), AllocError> {
        let mut pieces = Vec::with_capacity(alloc, 1030)?;
        for held in self.pieces.iter() {
            if held.last < piece.first {
                pieces.push(*held)?;
            } else if held.first < piece.first {
                let last = piece.first - 1;
                pieces.push(Piece { last, ..*held })?;
            }
        }
        pieces.push(piece)?;
        for held in self.pieces.iter() {
            if piece.last < held.first {
                pieces.push(*held)?;
            } else if piece.last < held.last {
                let first = piece.last + 1;
                pieces.push(Piece { first, ..*held })?;
            }
        }
        self.pieces = pieces;
        Ok(())
    }

    /// The state of the piece that a page lies in.
    pub(super) fn state_of(&self, page: u64) -> Option<PageState> {
        let holds = |held: &&Piece| held.first <= page && page <= held.last;
        self.pieces.iter().find(holds).map(|held| held.state)
    }

    /// Whether so many pages cut a piece.
    fn is_cut(&self, first: u64, last: u64) -> bool {
        let mut cut = false;
        for held in self.pieces.iter() {
            if held.first < first && first <= held.last {
                cut = true;
            }
            if held.first <= last && last < held.last {
                cut = true;
            }
        }
        cut
    }

    /// The lowest start of so many free pages at or above the floor that is a multiple of the unit.
    fn lowest_fit(&self, floor: u64, pages: u64, unit: u64) -> Option<u64> {
        for held in self.pieces.iter() {
            if held.is_free() && floor <= held.last {
                let above = held.first.max(floor).wrapping_add(unit.wrapping_sub(1));
                let start = above.wrapping_sub(above % unit.max(1));
                if start.wrapping_add(pages) <= held.last.wrapping_add(1) {
                    return Some(start);
                }
            }
        }
        None
    }

    /// Takes the lowest such pages, and where there are none those that are the lowest of all.
    pub(super) fn take_from(
        &mut self,
        alloc: Global,
        floor: u64,
        pages: u64,
        unit: u64,
    ) -> Result<Result<u64, TakeError>, AllocError> {
        let found = match self.lowest_fit(floor, pages, unit) {
            Some(first) => Some(first),
            None => self.lowest_fit(1, pages, unit),
        };
        let Some(first) = found else {
            return Ok(Err(TakeError::NoRange));
        };
        let last = first.wrapping_add(pages).wrapping_sub(1);
        if self.pieces.len() > 1022 && self.is_cut(first, last) {
            return Ok(Err(TakeError::TooManyPieces));
        }
        let state = PageState::Live;
        self.put(alloc, Piece { first, last, state })?;
        Ok(Ok(first))
    }

    pub(super) fn may_retire(&self, first: u64, last: u64) -> Result<(), RetireError> {
        let mut next = first;
        for held in self.pieces.iter() {
            if held.first <= next && next <= held.last && held.state == PageState::Live {
                next = held.last.wrapping_add(1);
            }
        }
        if next <= last {
            return Err(RetireError::NotLive);
        }
        if self.pieces.len() > 1022 && self.is_cut(first, last) {
            return Err(RetireError::TooManyPieces);
        }
        Ok(())
    }

    pub(super) fn retire(
        &mut self,
        alloc: Global,
        first: u64,
        last: u64,
    ) -> Result<(), AllocError> {
        let state = PageState::Retired;
        self.put(alloc, Piece { first, last, state })
    }

    /// Frees a piece, which becomes one with the free ones that it touches.
    pub(super) fn free(&mut self, alloc: Global, first: u64, last: u64) -> Result<(), AllocError> {
        let mut low = first;
        let mut high = last;
        for held in self.pieces.iter() {
            if held.is_free() && held.last.wrapping_add(1) == first {
                low = held.first;
            }
            if held.is_free() && last.wrapping_add(1) == held.first {
                high = held.last;
            }
        }
        let state = PageState::Free;
        self.put(
            alloc,
            Piece {
                first: low,
                last: high,
                state,
            },
        )
    }
}
