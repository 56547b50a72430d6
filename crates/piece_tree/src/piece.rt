//! Pieces: runs of pages of one state.

ghost use Rattle.std.specs.Prelude.{◌≡◌, ◌+◌, ◌<◌, ◌≤◌, ◌↔◌, IsTrue};

/// Page numbers, and counts of pages, are below it: no sum of two of them wraps (own).
pub const NUMBERS_END: u64 = 1 << 40;

/// How many pieces there are at most (own).
pub const MOST_PIECES: usize = 1024;

/// What the pages of a piece are (own).
#[derive(Clone, Copy, Debug, PartialEq, Eq)]
pub enum PageState {
    /// Nothing is mapped there, and nothing that was may still be used.
    Free,
    /// A map has these pages.
    Live,
    /// The pages were unmapped, and the translations may still be used.
    Retired,
}

/// The pages from a first to a last one, all in one state (own).
#[derive(Clone, Copy, Debug, PartialEq, Eq)]
pub struct Piece {
    /// The number of its first page.
    pub first: u64,
    /// The number of its last page.
    pub last: u64,
    /// What its pages are.
    pub state: PageState,
}

impl Piece {
    ghost use Rattle.piece_tree.specs.Pieces.{HasAny, IsPiece, is_free};

    /// Whether it has one of the pages from a first to a last one. One comparison tells it: with one at each end, a way down a tree would
    /// branch on the side that it goes to, which is as good as random.
    #[inline(always)]
    pub(crate) fn has_any(&self, first: u64, last: u64) -> bool
        requires piece { IsPiece self.now }
        requires pages { first ≤ last }
        requires narrow { last < first + NUMBERS_END }
        ensures { IsTrue result ↔ HasAny self.now first last }
    {
        // How far the last page lies behind the first of the piece, or nearly 2^64 where it lies before that.
        let reach = last.wrapping_sub(self.first);
        reach <= (last - first) + (self.last - self.first)
    }

    /// Whether its pages are free.
    pub fn is_free(&self) -> bool
        ensures { result ≡ is_free self.now.state }
    {
        matches!(self.state, PageState::Free)
    }
}
