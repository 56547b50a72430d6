//! The address space of a domain.

ghost use Rattle.std.specs.Prelude.{◌≡◌, ◌≢◌, ℕ, ◌+◌, ◌^◌, ◌<◌, ◌≤◌, ◌↔◌, length, Some, None, IsSome, IfSome, IfNone, IfOk, OnErr};
ghost use Rattle.dmatypes.specs.Page.{IsPageRange};
ghost use Rattle.std.specs.Prelude.{◌-◌, IsOk, IsTrue, Ok, Err};

use crate::carved;
use crate::carved::{Carved, Sought};
use crate::chain::Chain;
use crate::ends::ends_of;
use crate::iter::{Coming, Iter};
use crate::page_tree::PageTree;
use dmatypes::{MOST_PAGES, PAGES_END, Page, PageRange};
use piece_tree::{MOST_PIECES, NUMBERS_END, PageState, Piece};
use std::alloc::{AllocError, Global};
use std::fmt;
use std::marker::Model;
use thiserror::Error;

/// How many pieces may be there where one is cut (own): a cut can make two more.
pub(crate) const MOST_PIECES_TO_CUT: usize = MOST_PIECES - 2;

/// Why no pages are taken.
#[derive(Clone, Copy, Debug, PartialEq, Eq, Error)]
pub enum TakeError {
    /// No aligned range of so many free pages exists.
    #[error("no aligned range of so many free pages")]
    NoRange,
    /// The range that would be taken cuts a piece, and there are more than 1,022.
    #[error("too many pieces")]
    TooManyPieces,
}

/// Why a range can't be retired.
#[derive(Clone, Copy, Debug, PartialEq, Eq, Error)]
pub enum RetireError {
    /// A page of the range isn't live.
    #[error("a page of the range isn't live")]
    NotLive,
    /// The range cuts a piece, and there are more than 1,022.
    #[error("too many pieces")]
    TooManyPieces,
}

/// The pages of a domain's addresses, as at most 1,024 pieces (own). A live piece is made by one `take`, a
/// retired piece is one retired range, and free neighbours are one piece.
#[derive(Drop)]
pub struct Space {
    tree: PageTree,
    // What was taken last out of one free piece, and mostly comes free before the tree has to show it.
    carved: Carved,
}

impl Model for Space {
    ghost use Rattle.iova.specs.Carved.{IsCarved, with_carved};
    ghost use Rattle.iova.specs.Space.{Space, IsSpace};

    ghost Value = { Space };

    ghost view = { λ a. with_carved a.carved.chain a.tree };

    ghost invariant = { λ a. IsSpace a.tree × IsCarved a.tree.pieces a.carved.chain a.carved.stock };
}

impl Space {
    ghost use Rattle.dmatypes.specs.Page.{IsWithin, Range};
    ghost use Rattle.dmatypes.specs.World.{IsIn};
    ghost use Rattle.dmatypes.specs.declared.limits.TheConstants.{MOST_ORDER};
    ghost use Rattle.iova.specs.Pieces.{AllIn, IsRun, piece_of, state_at};
    ghost use Rattle.piece_tree.specs.Pieces.{Holds};
    ghost use Rattle.iova.specs.Space.{Space, AllFree, IsFit, IsLowestFit, IsLowestFrom, IsSpace, IsTooMany, CutsPiece};
    ghost use Rattle.iova.specs.Space.{MayRetire, new_space};
    ghost use Rattle.iova.specs.Carved.{IsSought};
    ghost use Rattle.iova.specs.Changes.{Frees, FreesLive, FreesRun, Retires, Takes};

    /// A space of the pages up to a last one, all free. It takes the memory for all its pieces; no other call
    /// takes any.
    pub fn new(alloc: Global, last: u64) -> Result<Space, AllocError>
        requires some { 1 ≤ last }
        requires narrow { last < PAGES_END }
        ensures new { IfOk result (λ space. space ≡ new_space last) }
        ensures free { IfOk result AllFree }
        ensures space { IfOk result IsSpace }
    {
        let tree = PageTree::new(alloc, last)?;
        let chain = Chain::new(alloc)?;
        Ok(Space {
            tree,
            carved: Carved { chain, stock: None },
        })
    }

    /// Makes it a new space of the pages up to a last one: all are free.
    pub fn reset(&mut self, last: u64)
        requires some { 1 ≤ last }
        requires narrow { last < PAGES_END }
        ensures new { self.new ≡ new_space last }
        ensures free { AllFree self.new }
        ensures space { IsSpace self.new }
    {
        self.carved.chain.clear();
        self.carved.stock = None;
        self.tree.reset(last);
    }

    /// Its pieces in the order of their pages.
    pub fn pieces(&self) -> Iter<'_>
        ensures pieces { result ≡ self.now.pieces }
        ensures space { IsSpace self.now }
    {
        let chain = self.carved.chain.as_slice();
        let parts = self.carved.parts();
        let coming = Coming {
            tree: self.tree.pieces(),
            first: parts.first,
            before: parts.before,
            chain,
            behind: parts.behind,
            passed: chain.is_empty(),
        };
        Iter {
            coming,
            left: self.piece_count(),
        }
    }

    /// How many pieces it has.
    pub fn piece_count(&self) -> usize
        ensures count { result ≡ length self.now.pieces }
        ensures few { result ≤ 1024 }
    {
        self.tree.piece_count() + carved::more(&self.carved)
    }

    /// What a page is; `None` exactly where it is past the last one.
    pub fn state_of(&self, page: Page) -> Option<PageState>
        ensures state { result ≡ state_at self.now.pieces page }
        ensures some { IsSome result ↔ (page ≤ self.now.last) }
    {
        match carved::piece_at(self.carved.chain.as_slice(), page.number()) {
            Some(piece) => Some(piece.state),
            None => self.tree.state_of(page),
        }
    }

    /// Makes so many free pages, 1 to 4,096, one live piece, and answers the first of them: the lowest that is
    /// a multiple of 2^order (order 0 to 9). Where it is refused, nothing has changed.
    #[inline(always)]
    pub fn take(&mut self, pages: u64, order: u64) -> Result<Page, TakeError>
        requires some_pages { 1 ≤ pages }
        requires few_pages { pages ≤ MOST_PAGES }
        requires order { order ≤ MOST_ORDER }

        // The start, and what the space then is.
        ensures lowest { IfOk result (IsLowestFit self.old.pieces pages (2 ^ order)) }
        ensures range { IfOk result (λ start. IsPageRange (record { first = start; pages = pages })) }
        ensures taken { IfOk result (λ start. Takes self.old self.new (record { first = start; pages = pages })) }
        ensures space { IsSpace self.old × IsSpace self.new }

        // The refusals.
        ensures no_range { (result ≡ Err TakeError.NoRange) ↔ ((start : ℕ) → IsFit self.old.pieces pages (2 ^ order) start → ⊥) }
        ensures too_many { (result ≡ Err TakeError.TooManyPieces)
            ↔ ((start : ℕ) × IsLowestFit self.old.pieces pages (2 ^ order) start
            × IsTooMany self.old.pieces (record { first = start; pages = pages })) }
        ensures unchanged { OnErr result (self.new ≡ self.old) }
    {
        self.take_sought(Sought {
            floor: 1,
            pages,
            unit: 1 << order,
        })
    }

    /// Makes so many free pages, 1 to 4,096, one live piece, and answers the first of them. It is the lowest at or above the
    /// floor that is a multiple of 2^order (order 0 to 9), and where there is none the lowest of all. Where it is refused,
    /// nothing has changed.
    pub fn take_from(&mut self, floor: u64, pages: u64, order: u64) -> Result<Page, TakeError>
        requires floor { 1 ≤ floor }
        requires some_pages { 1 ≤ pages }
        requires few_pages { pages ≤ MOST_PAGES }
        requires order { order ≤ MOST_ORDER }

        // The start, and what the space then is.
        ensures lowest { IfOk result (IsLowestFrom floor self.old.pieces pages (2 ^ order)) }
        ensures range { IfOk result (λ start. IsPageRange (record { first = start; pages = pages })) }
        ensures taken { IfOk result (λ start. Takes self.old self.new (record { first = start; pages = pages })) }
        ensures space { IsSpace self.old × IsSpace self.new }

        // The refusals.
        ensures no_range { (result ≡ Err TakeError.NoRange) ↔ ((start : ℕ) → IsFit self.old.pieces pages (2 ^ order) start → ⊥) }
        ensures too_many { (result ≡ Err TakeError.TooManyPieces)
            ↔ ((start : ℕ) × IsLowestFrom floor self.old.pieces pages (2 ^ order) start
            × IsTooMany self.old.pieces (record { first = start; pages = pages })) }
        ensures unchanged { OnErr result (self.new ≡ self.old) }
    {
        self.take_sought(Sought {
            floor,
            pages,
            unit: 1 << order,
        })
    }

    // The same, where mostly they lie right behind those that were taken last.
    #[inline(always)]
    fn take_sought(&mut self, sought: Sought) -> Result<Page, TakeError>
        requires sought { IsSought sought }
        ensures lowest { IfOk result (IsLowestFrom sought.floor self.old.pieces sought.pages sought.unit) }
        ensures range { IfOk result (λ start. IsPageRange (record { first = start; pages = sought.pages })) }
        ensures taken { IfOk result (λ start. Takes self.old self.new (record { first = start; pages = sought.pages })) }
        ensures space { IsSpace self.old × IsSpace self.new }
        ensures no_range { (result ≡ Err TakeError.NoRange)
            ↔ ((start : ℕ) → IsFit self.old.pieces sought.pages sought.unit start → ⊥) }
        ensures too_many { (result ≡ Err TakeError.TooManyPieces)
            ↔ ((start : ℕ) × IsLowestFrom sought.floor self.old.pieces sought.pages sought.unit start
            × IsTooMany self.old.pieces (record { first = start; pages = sought.pages })) }
        ensures unchanged { OnErr result (self.new ≡ self.old) }
    {
        if let Some(start) = self.take_behind(sought) {
            return Ok(start);
        }
        carved::hand_over(&mut self.tree, &mut self.carved);
        let start = carved::take(&mut self.tree, &mut self.carved, sought)?;
        Ok(Page::new(start).unwrap())
    }

    // Takes what is sought where it is known to lie right behind those that were taken last; else nothing has changed.
    #[inline(always)]
    fn take_behind(&mut self, sought: Sought) -> Option<Page>
        requires sought { IsSought sought }
        ensures lowest { IfSome result (IsLowestFrom sought.floor self.old.pieces sought.pages sought.unit) }
        ensures range { IfSome result (λ start. IsPageRange (record { first = start; pages = sought.pages })) }
        ensures taken { IfSome result (λ start. Takes self.old self.new (record { first = start; pages = sought.pages })) }
        ensures room { IfSome result (λ start. IsTooMany self.old.pieces (record { first = start; pages = sought.pages }) → ⊥) }
        ensures space { IsSpace self.old × IsSpace self.new }
        ensures unchanged { IfNone result (self.new ≡ self.old) }
    {
        let start = self.carved.next_start(sought)?;
        if !self.has_few_pieces() || !self.carved.carve(start, sought.pages) {
            return None;
        }
        Some(Page::new(start).unwrap())
    }

    // Whether there are so few pieces that one can be cut. Most often the counts of those in the tree and of those carved out of one show
    // it, with no look at any.
    #[inline(always)]
    fn has_few_pieces(&self) -> bool
        ensures { IsTrue result ↔ (length self.now.pieces ≤ MOST_PIECES_TO_CUT) }
    {
        let most = self.tree.most_pieces() + self.carved.chain.len();
        if most < MOST_PIECES_TO_CUT {
            return true;
        }
        self.piece_count() <= MOST_PIECES_TO_CUT
    }

    /// Whether a range can be retired.
    pub fn may_retire(&self, range: PageRange) -> Result<(), RetireError>
        ensures ok { IsOk result ↔ MayRetire self.now.pieces range }
        ensures not_live { (result ≡ Err RetireError.NotLive)
            ↔ ((page : ℕ) × IsWithin range page × (state_at self.now.pieces page ≢ Some PageState.Live)) }
        ensures too_many { (result ≡ Err RetireError.TooManyPieces)
            ↔ (AllIn PageState.Live range self.now.pieces × IsTooMany self.now.pieces range) }
    {
        if self.carved.is_live(ends_of(range)) {
            return Ok(());
        }
        let first = range.first();
        let pages = range.pages();
        if self.not_live(first, pages).is_some() {
            return Err(RetireError::NotLive);
        }
        if self.piece_count() > MOST_PIECES_TO_CUT && self.cuts_piece(first, pages) {
            return Err(RetireError::TooManyPieces);
        }
        Ok(())
    }

    // The live piece that a page lies in.
    fn live_at(&self, page: u64) -> Option<Piece>
        ensures live { IfSome result (λ piece. IsIn piece self.now.pieces × Holds piece page × (piece.state ≡ PageState.Live)) }
        ensures none { IfNone result (state_at self.now.pieces page ≢ Some PageState.Live) }
        ensures space { IsSpace self.now }
    {
        match carved::piece_at(self.carved.chain.as_slice(), page) {
            Some(piece) => match piece.state {
                PageState::Live => Some(piece),
                PageState::Free | PageState::Retired => None,
            },
            None => self.tree.live_at(page),
        }
    }

    // A page of a range that isn't live, if there is one.
    fn not_live(&self, first: u64, pages: u64) -> Option<u64>
        requires range { first + pages < NUMBERS_END }
        ensures within { IfSome result (IsWithin (record { first = first; pages = pages })) }
        ensures state { IfSome result (λ page. state_at self.now.pieces page ≢ Some PageState.Live) }
        ensures live { IfNone result (AllIn PageState.Live (record { first = first; pages = pages }) self.now.pieces) }
    {
        let end = first + pages;
        let mut next = first;
        while next < end {
            let Some(piece) = self.live_at(next) else {
                return Some(next);
            };
            next = piece.last + 1;
        }
        None
    }

    // Whether so many live pages cut a piece.
    fn cuts_piece(&self, first: u64, pages: u64) -> bool
        requires some_pages { 1 ≤ pages }
        requires range { first + pages < NUMBERS_END }
        requires live { AllIn PageState.Live (record { first = first; pages = pages }) self.now.pieces }
        ensures { IsTrue result ↔ CutsPiece self.now.pieces (record { first = first; pages = pages }) }
    {
        let last = first + pages - 1;
        let low = self.live_at(first).unwrap();
        let high = self.live_at(last).unwrap();
        low.first < first || last < high.last
    }

    /// Whether a range can be retired, as `may_retire`. What is done next to a live piece that
    /// was judged, if nothing is done before, need not look for it.
    #[inline(always)]
    pub fn judge(&mut self, range: PageRange) -> Result<(), RetireError>
        ensures ok { IsOk result ↔ MayRetire self.old.pieces range }
        ensures not_live { (result ≡ Err RetireError.NotLive)
            ↔ ((page : ℕ) × IsWithin range page × (state_at self.old.pieces page ≢ Some PageState.Live)) }
        ensures too_many { (result ≡ Err RetireError.TooManyPieces)
            ↔ (AllIn PageState.Live range self.old.pieces × IsTooMany self.old.pieces range) }
        ensures unchanged { self.new ≡ self.old }
    {
        let pages = ends_of(range);
        if self.carved.is_live(pages) {
            return Ok(());
        }
        carved::hand_over(&mut self.tree, &mut self.carved);
        if self.tree.hold_live(pages) {
            return Ok(());
        }
        self.may_retire(range)
    }

    /// Makes a range of live pages one retired piece.
    #[inline(always)]
    pub fn retire(&mut self, range: PageRange)
        requires { MayRetire self.old.pieces range }
        ensures retired { Retires self.old self.new range }
        ensures space { IsSpace self.old × IsSpace self.new }
    {
        let pages = ends_of(range);
        if let Some(place) = self.carved.position_of(pages) {
            self.carved.chain.retire(place);
            return;
        }
        carved::hand_over(&mut self.tree, &mut self.carved);
        self.tree.retire(range);
    }

    /// Makes a range of live pages free, as `retire` and then `release` would.
    #[inline(always)]
    pub fn free_live(&mut self, range: PageRange)
        requires { MayRetire self.old.pieces range }
        ensures freed { FreesLive self.old self.new range }
        ensures space { IsSpace self.old × IsSpace self.new }
    {
        let pages = ends_of(range);
        if self.carved.give_back(pages) {
            return;
        }
        carved::hand_over(&mut self.tree, &mut self.carved);
        self.tree.free_live(range);
    }

    /// Frees a range that is one live piece. After a `take` the space is as it was before it.
    pub fn undo_take(&mut self, taken: PageRange)
        requires { IsIn (piece_of taken PageState.Live) self.old.pieces }
        ensures freed { Frees self.old self.new taken PageState.Live }
        ensures undone { (before : Space) → IsSpace before → Takes before self.old taken → self.new ≡ before }
        ensures space { IsSpace self.old × IsSpace self.new }
    {
        let pages = ends_of(taken);
        if self.carved.give_back(pages) {
            return;
        }
        carved::hand_over(&mut self.tree, &mut self.carved);
        self.tree.free(pages);
    }

    /// Frees a range that is one retired piece, or made of whole ones, one after the other, as one release for each of them would.
    /// What may be retired before it may be retired after it.
    #[inline(always)]
    pub fn release(&mut self, range: PageRange)
        requires { IsRun (piece_of range PageState.Retired) self.old.pieces }
        ensures freed { FreesRun self.old self.new range PageState.Retired }
        ensures one { IsIn (piece_of range PageState.Retired) self.old.pieces → Frees self.old self.new range PageState.Retired }
        ensures retirable { (other : Range) → MayRetire self.old.pieces other → MayRetire self.new.pieces other }
        ensures space { IsSpace self.old × IsSpace self.new }
    {
        let pages = ends_of(range);
        if self.carved.give_back(pages) {
            return;
        }
        if let Some(count) = self.carved.run_count(pages) {
            self.carved.chain.lose_first(count);
            return;
        }
        carved::hand_over(&mut self.tree, &mut self.carved);
        self.tree.free(pages);
    }
}

// Its last page and how many pieces it has, and none of them.
impl fmt::Debug for Space {
    fn fmt<W: fmt::Write>(&self, f: &mut fmt::Formatter<W>) -> fmt::Result {
        f.debug_struct("Space")
            .field("last", &self.tree.last())
            .field("pieces", &self.piece_count())
            .finish()
    }
}
