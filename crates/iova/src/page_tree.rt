//! The pieces of a space in a tree of pieces.

ghost use Rattle.std.specs.Prelude.{◌≡◌, ◌≢◌, ℕ, ◌+◌, ◌^◌, ◌<◌, ◌≤◌, ◌↔◌, [], length, Some, IsSome, IsTrue, IfSome, IfNone, IfOk};
ghost use Rattle.iova.specs.Space.{new_space};

use crate::carved::Sought;
use crate::ends::{Ends, ends_of};
use crate::fits::Found;
use crate::tree_iter::TreeIter;
use crate::{fits, freeing};
use dmatypes::{PAGES_END, Page, PageRange, WINDOW_FIRST, WINDOW_LAST};
use piece_tree::{MOST_PIECES, NUMBERS_END, PageState, Piece, PieceTree};
use std::alloc::{AllocError, Global};
use std::marker::Model;

// The last page before the interrupt address range.
const BELOW_WINDOW: u64 = WINDOW_FIRST - 1;

// The first page after it.
const ABOVE_WINDOW: u64 = WINDOW_LAST + 1;

/// The pieces of a space in a tree (own), seen as a space is.
#[derive(Drop)]
pub(crate) struct PageTree {
    last: u64,
    tree: PieceTree,
    // No free piece of the tree begins below this page.
    low: u64,
    // What came free last, which the tree still has as live: mostly it is taken again.
    freed: Option<Ends>,
    // The pages of the live piece of the tree that was judged last, or taken again: mostly it comes free next.
    judged: Option<Ends>,
}

impl Model for PageTree {
    ghost use Rattle.iova.specs.Pieces.{NoneFreeBelow};
    ghost use Rattle.iova.specs.Space.{Space, IsSpace};
    ghost use Rattle.iova.specs.Stored.{AreLive, shown, stored};

    ghost Value = { Space };

    ghost view = { λ a. stored a.last (shown a.freed a.tree) };

    ghost invariant = { λ a. IsSpace (stored a.last a.tree) × NoneFreeBelow a.low a.tree × AreLive a.freed a.tree
        × AreLive a.judged a.tree };
}

// Adds the pieces of a new space where no piece is.
fn fill(tree: &mut PieceTree, last: u64)
    requires empty { tree.old ≡ [] }
    requires some { 1 ≤ last }
    requires narrow { last < PAGES_END }
    ensures { tree.new ≡ (new_space last).pieces }
{
    let low = Ends {
        first: 1,
        last: last.min(BELOW_WINDOW),
    };
    tree.push(low.in_state(PageState::Free));
    if last < ABOVE_WINDOW {
        return;
    }
    let high = Ends {
        first: ABOVE_WINDOW,
        last,
    };
    tree.push(high.in_state(PageState::Free));
}

impl PageTree {
    ghost use Rattle.dmatypes.specs.Page.{IsPageRange, Range};
    ghost use Rattle.dmatypes.specs.World.{IsIn};
    ghost use Rattle.piece_tree.specs.Laid.{with_piece};
    ghost use Rattle.piece_tree.specs.Pieces.{Holds};
    ghost use Rattle.iova.specs.Freed.{with_free};
    ghost use Rattle.iova.specs.Pieces.{IsRun, NoneFreeBelow, pages_as, piece_of, state_at};
    ghost use Rattle.iova.specs.Space.{Space, AllFree, IsFit, IsLowestFit, IsLowestFrom, IsSpace, IsTooMany, MayRetire};
    ghost use Rattle.iova.specs.Carved.{AreCarved, FollowOn, IsSought, with_carved};
    ghost use Rattle.iova.specs.declared.carved.Stock.{Stock};
    ghost use Rattle.iova.specs.Changes.{Frees, FreesLive, FreesRun, Retires, Takes};

    /// A space of the pages up to a last one, all free. It takes the memory for all its pieces; no other call
    /// takes any.
    pub(crate) fn new(alloc: Global, last: u64) -> Result<PageTree, AllocError>
        requires some { 1 ≤ last }
        requires narrow { last < PAGES_END }
        ensures new { IfOk result (λ space. space ≡ new_space last) }
        ensures free { IfOk result AllFree }
        ensures space { IfOk result IsSpace }
    {
        let mut tree = PieceTree::new(alloc)?;
        fill(&mut tree, last);
        Ok(PageTree {
            last,
            tree,
            low: 1,
            freed: None,
            judged: None,
        })
    }

    /// Makes it a new space of the pages up to a last one: all are free.
    pub(crate) fn reset(&mut self, last: u64)
        requires some { 1 ≤ last }
        requires narrow { last < PAGES_END }
        ensures new { self.new ≡ new_space last }
        ensures free { AllFree self.new }
        ensures space { IsSpace self.new }
    {
        self.low = 1;
        self.freed = None;
        self.judged = None;
        self.last = last;
        self.tree.clear();
        fill(&mut self.tree, last);
    }

    /// Its pieces in the order of their pages.
    pub(crate) fn pieces(&self) -> TreeIter<'_>
        ensures pieces { result ≡ self.now.pieces }
        ensures space { IsSpace self.now }
    {
        TreeIter {
            tree: &self.tree,
            freed: freeing::freed_ends(&self.tree, self.freed),
            page: 1,
        }
    }

    /// Its last page.
    pub(crate) fn last(&self) -> u64
        ensures { result ≡ self.now.last }
    {
        self.last
    }

    /// How many pieces it has.
    pub(crate) fn piece_count(&self) -> usize
        ensures count { result ≡ length self.now.pieces }
        ensures few { result ≤ 1024 }
    {
        freeing::count(&self.tree, self.freed)
    }

    /// How many pieces it has at most: as many as the tree.
    #[inline(always)]
    pub(crate) fn most_pieces(&self) -> usize
        ensures most { length self.now.pieces ≤ result }
        ensures few { result ≤ 1024 }
    {
        self.tree.len()
    }

    /// What a page is; `None` exactly where it is past the last one.
    pub(crate) fn state_of(&self, page: Page) -> Option<PageState>
        ensures state { result ≡ state_at self.now.pieces page }
        ensures some { IsSome result ↔ (page ≤ self.now.last) }
    {
        freeing::state_of(&self.tree, self.freed, page.number())
    }

    /// Takes the piece that came free last, where so many pages that begin at a multiple of the unit are just that piece, and it is the
    /// first that has so many.
    #[inline(always)]
    pub(crate) fn take_freed(&mut self, pages: u64, unit: u64) -> Option<u64>
        requires some_pages { 1 ≤ pages }
        requires power { (order : ℕ) × (unit ≡ 2 ^ order) }
        ensures lowest { IfSome result (IsLowestFit self.old.pieces pages unit) }
        ensures taken { IfSome result (λ start. Takes self.old self.new (record { first = start; pages = pages })) }
        ensures few { IfSome result (λ start. IsTooMany self.old.pieces (record { first = start; pages = pages }) → ⊥) }
        ensures unchanged { IfNone result (self.new ≡ self.old) }
    {
        let fit = freeing::fit_freed(&self.tree, self.low, pages, unit, self.freed)?;
        self.low = fits::low_behind(fit.low, fit.pages.in_state(PageState::Live));
        self.freed = None;
        self.judged = Some(fit.pages);
        Some(fit.pages.first)
    }

    /// The lowest start of what is sought, and where there is none from the floor on the lowest of all, and the free piece that it lies
    /// in: that is at hand then.
    pub(crate) fn find(&mut self, sought: Sought) -> Option<Found>
        requires sought { IsSought sought }
        ensures lowest { IfSome result (λ found. IsLowestFrom sought.floor self.old.pieces sought.pages sought.unit found.start) }
        ensures none { IfNone result ((start : ℕ) → IsFit self.old.pieces sought.pages sought.unit start → ⊥) }
        ensures there { IfSome result (λ found. IsIn (pages_as found.pages PageState.Free) self.old.pieces) }
        ensures inside { IfSome result (λ found. (found.pages.first ≤ found.start)
            × (found.start + sought.pages ≤ found.pages.last + 1)) }
        ensures space { IsSpace self.old }
        ensures unchanged { self.new ≡ self.old }
    {
        freeing::put_freed(&mut self.tree, &mut self.low, &mut self.freed);
        self.judged = None;
        let found = fits::find(&mut self.tree, sought)?;
        self.low = fits::low_found(self.low, found.start, sought);
        Some(found)
    }

    /// Whether no free piece begins below a page. It is known of low pages alone, and not while the tree has what came free as live.
    pub(crate) fn is_lowest(&self, page: u64) -> bool
        ensures { IsTrue result → NoneFreeBelow page self.now.pieces }
    {
        self.freed.is_none() && page <= self.low
    }

    /// The live piece that a page lies in.
    pub(crate) fn live_at(&self, page: u64) -> Option<Piece>
        ensures live { IfSome result (λ piece. IsIn piece self.now.pieces × Holds piece page × (piece.state ≡ PageState.Live)) }
        ensures none { IfNone result (state_at self.now.pieces page ≢ Some PageState.Live) }
    {
        freeing::live_at(&self.tree, self.freed, page)
    }

    /// Whether one live piece has some pages. If so, it is kept in mind: where it comes free next, and nothing is done before, it isn't
    /// looked for.
    #[inline(always)]
    pub(crate) fn hold_live(&mut self, pages: Ends) -> bool
        ensures live { IsTrue result → IsIn (pages_as pages PageState.Live) self.old.pieces }
        ensures unchanged { self.new ≡ self.old }
    {
        if self.freed.is_none() && pages.are(self.judged) {
            return true;
        }
        freeing::put_freed(&mut self.tree, &mut self.low, &mut self.freed);
        self.judged = None;
        if !freeing::is_live(&self.tree, pages) {
            return false;
        }
        self.judged = Some(pages);
        true
    }

    /// Makes a range of live pages one retired piece.
    #[inline(always)]
    pub(crate) fn retire(&mut self, range: PageRange)
        requires { MayRetire self.old.pieces range }
        ensures retired { Retires self.old self.new range }
        ensures space { IsSpace self.old × IsSpace self.new }
    {
        freeing::put_freed(&mut self.tree, &mut self.low, &mut self.freed);
        self.judged = None;
        self.tree.lay(ends_of(range).in_state(PageState::Retired));
    }

    /// Makes a range of live pages free, as `retire` and then `release` would.
    #[inline(always)]
    pub(crate) fn free_live(&mut self, range: PageRange)
        requires { MayRetire self.old.pieces range }
        ensures freed { FreesLive self.old self.new range }
        ensures space { IsSpace self.old × IsSpace self.new }
    {
        let pages = ends_of(range);
        if self.freed.is_none() && pages.are(self.judged) {
            self.freed = Some(pages);
            return;
        }
        freeing::put_freed(&mut self.tree, &mut self.low, &mut self.freed);
        self.judged = None;
        if freeing::is_live(&self.tree, pages) {
            self.freed = Some(pages);
            return;
        }
        self.free(pages);
    }

    /// Puts a piece in use over free pages.
    #[inline(always)]
    pub(crate) fn put(&mut self, piece: Piece)
        requires some { piece.first ≤ piece.last }
        requires in_use { piece.state ≢ PageState.Free }
        requires space { IsSpace (record self.old { pieces = with_piece piece self.old.pieces }) }
        requires narrow { piece.last < NUMBERS_END }
        ensures is { self.new ≡ record self.old { pieces = with_piece piece self.old.pieces } }
    {
        freeing::put_freed(&mut self.tree, &mut self.low, &mut self.freed);
        self.judged = None;
        self.low = fits::low_behind(self.low, piece);
        self.tree.lay(piece);
    }

    /// Puts a row of pieces in use over free pages: those that were carved out of one free piece, which have just these pages.
    pub(crate) fn put_row(&mut self, row: &[Piece], pages: Ends)
        requires carved { (stock : Stock) × AreCarved self.old.pieces row.now stock }
        requires pages { FollowOn pages.first row.now (pages.last + 1) × (pages.first ≤ pages.last) }
        ensures is { self.new ≡ with_carved row.now self.old }
        ensures space { IsSpace self.new }
    {
        freeing::put_freed(&mut self.tree, &mut self.low, &mut self.freed);
        self.judged = None;
        self.low = fits::low_behind(self.low, pages.in_state(PageState::Live));
        self.tree.lay_row(row);
    }

    /// Makes pages free, as one piece with the free ones that they touch.
    #[inline(always)]
    pub(crate) fn free(&mut self, pages: Ends)
        requires some { pages.first ≤ pages.last }
        requires narrow { pages.last < NUMBERS_END }
        requires space { IsSpace self.old
            → IsSpace (record self.old { pieces = with_free (pages_as pages PageState.Free) self.old.pieces }) }
        ensures is { self.new ≡ record self.old { pieces = with_free (pages_as pages PageState.Free) self.old.pieces } }
        ensures space { IsSpace self.old × IsSpace self.new }
    {
        freeing::put_freed(&mut self.tree, &mut self.low, &mut self.freed);
        self.judged = None;
        self.low = freeing::set_free(&mut self.tree, self.low, pages);
    }
}
