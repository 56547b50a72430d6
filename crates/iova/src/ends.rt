//! The pages from a first to a last one, and how far what is free beside them goes.

ghost use Rattle.std.specs.Prelude.{◌≡◌, ◌+◌, ◌-◌, ◌<◌, ◌≤◌, ◌↔◌, IfSome, IsSome, IsTrue};
ghost use Rattle.dmatypes.specs.Page.{IsPageRange};
ghost use Rattle.piece_tree.specs.Pieces.{IsPiece, piece_at};
ghost use Rattle.iova.specs.Freed.{free_end, free_start};
ghost use Rattle.iova.specs.Pieces.{IsOrdered, end_by, pages_as, piece_of, start_by};

use dmatypes::PageRange;
use piece_tree::{NUMBERS_END, PageState, Piece, PieceTree};

/// The pages from a first to a last one.
#[derive(Clone, Copy)]
pub(crate) struct Ends {
    pub(crate) first: u64,
    pub(crate) last: u64,
}

impl Ends {
    /// The pages as one piece in a state.
    #[inline(always)]
    pub(crate) fn in_state(self, state: PageState) -> Piece
        ensures { result ≡ pages_as self state }
    {
        Piece {
            first: self.first,
            last: self.last,
            state,
        }
    }

    /// The pages of a piece.
    #[inline(always)]
    pub(crate) fn of(piece: Piece) -> Ends
        ensures { pages_as result piece.state ≡ piece }
    {
        Ends {
            first: piece.first,
            last: piece.last,
        }
    }

    /// Whether they are those that are known, if some are.
    #[inline(always)]
    pub(crate) fn are(self, known: Option<Ends>) -> bool
        ensures { IsTrue result ↔ (known ≡ Some self) }
    {
        match known {
            Some(pages) => pages.first == self.first && pages.last == self.last,
            None => false,
        }
    }

    /// Whether a page is one of them.
    #[inline(always)]
    pub(crate) fn hold(self, page: u64) -> bool
        ensures { IsTrue result ↔ ((self.first ≤ page) × (page ≤ self.last)) }
    {
        self.first <= page && page <= self.last
    }
}

// The first page of a piece that is free and ends just before a page, or that page.
#[inline(always)]
fn start(before: Option<Piece>, first: u64) -> u64
    requires { IfSome before IsPiece }
    ensures { result ≡ start_by before first }
{
    match before {
        Some(piece) if piece.is_free() && piece.last + 1 == first => piece.first,
        _ => first,
    }
}

// The last page of a piece that is free and begins just after a page, or that page.
#[inline(always)]
fn end(behind: Option<Piece>, last: u64) -> u64
    requires { last < NUMBERS_END }
    ensures { result ≡ end_by behind last }
{
    match behind {
        Some(piece) if piece.is_free() && piece.first == last + 1 => piece.last,
        _ => last,
    }
}

/// The first page of the free piece that ends just before a page, or that page.
pub(crate) fn free_start_at(tree: &PieceTree, first: u64) -> u64
    requires ordered { IsOrdered 1 tree.now }
    requires some { 1 ≤ first }
    ensures { result ≡ free_start tree.now first }
{
    start(tree.piece_at(first - 1), first)
}

/// Pages with the free ones that they touch.
#[inline(never)]
pub(crate) fn free_ends_at(tree: &PieceTree, pages: Ends) -> Ends
    requires ordered { IsOrdered 1 tree.now }
    requires some { 1 ≤ pages.first }
    requires narrow { pages.last < NUMBERS_END }
    ensures first { result.first ≡ free_start tree.now pages.first }
    ensures last { result.last ≡ free_end tree.now pages.last }
{
    let behind = tree.starting_at(pages.last + 1);
    Ends {
        first: free_start_at(tree, pages.first),
        last: end(behind, pages.last),
    }
}

/// The first and the last page of a range.
#[inline(always)]
pub(crate) fn ends_of(range: PageRange) -> Ends
    ensures first { result.first ≡ range.first }
    ensures last { result.last ≡ range.first + range.pages - 1 }
    ensures piece { (state : PageState) → pages_as result state ≡ piece_of range state }
    ensures range { IsPageRange range }
{
    let first = range.first();
    Ends {
        first,
        last: first + range.pages() - 1,
    }
}
