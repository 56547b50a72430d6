//! Where pages are taken.

ghost use Rattle.std.specs.Prelude.{◌≡◌, ◌≢◌, List, ℕ, ◌+◌, ◌<◌, ◌≤◌, ◌⊎◌, max, IfSome, IfNone};
ghost use Rattle.dmatypes.specs.World.{IsIn};
ghost use Rattle.piece_tree.specs.Laid.{with_piece};
ghost use Rattle.iova.specs.Carved.{IsSought};
ghost use Rattle.iova.specs.Pieces.{IsOrdered, NoneFreeBelow, pages_as};
ghost use Rattle.iova.specs.Space.{IsFit, IsLowestFrom};

use crate::carved::Sought;
use crate::ends::Ends;
use piece_tree::{NUMBERS_END, PageState, Piece, PieceTree};

/// Where pages lie that were looked for: their first, and the pages of the free piece that they lie in.
#[derive(Clone, Copy)]
pub(crate) struct Found {
    pub(crate) start: u64,
    pub(crate) pages: Ends,
}

/// The lowest start of what is sought, and where there is none from the floor on the lowest of all, and the free piece that it lies in.
/// That piece is at hand then.
#[inline(always)]
pub(crate) fn find(tree: &mut PieceTree, sought: Sought) -> Option<Found>
    requires ordered { IsOrdered 1 tree.old }
    requires sought { IsSought sought }
    ensures lowest { IfSome result (λ found. IsLowestFrom sought.floor tree.old sought.pages sought.unit found.start) }
    ensures none { IfNone result ((start : ℕ) → IsFit tree.old sought.pages sought.unit start → ⊥) }
    ensures there { IfSome result (λ found. IsIn (pages_as found.pages PageState.Free) tree.old) }
    ensures inside { IfSome result (λ found. (found.pages.first ≤ found.start)
        × (found.start + sought.pages ≤ found.pages.last + 1)) }
    ensures unchanged { tree.new ≡ tree.old }
{
    // No page is at or above the end of the numbers, wherever above it the floor is.
    let least = sought.floor.min(NUMBERS_END);
    if let Some((start, piece)) = tree.seek_fit(least, sought.pages, sought.unit) {
        let pages = Ends::of(piece);
        return Some(Found { start, pages });
    }
    // No piece has a page below the first one.
    if least <= 1 {
        return None;
    }
    let (start, piece) = tree.seek_fit(0, sought.pages, sought.unit)?;
    let pages = Ends::of(piece);
    Some(Found { start, pages })
}

/// A page below which no free piece begins, where none began below the page `low`, once it is known where the lowest pages lie that were
/// sought. Where that was one page anywhere, all free pieces begin there or behind.
pub(crate) fn low_found(low: u64, start: u64, sought: Sought) -> u64
    requires sought { IsSought sought }
    ensures { (pieces : List Piece) → IsOrdered 1 pieces → NoneFreeBelow low pieces
        → IsLowestFrom sought.floor pieces sought.pages sought.unit start → NoneFreeBelow result pieces }
{
    if sought.floor == 1 && sought.pages == 1 && sought.unit == 1 {
        return start;
    }
    low
}

/// A page below which no free piece begins once a piece in use was put there, where none began below the page `low`.
pub(crate) fn low_behind(low: u64, piece: Piece) -> u64
    requires some { piece.first ≤ piece.last }
    requires narrow { piece.last < NUMBERS_END }
    requires in_use { piece.state ≢ PageState.Free }
    ensures low { (pieces : List Piece) → IsOrdered 1 pieces → NoneFreeBelow low pieces
        → NoneFreeBelow result (with_piece piece pieces) }
    ensures is { ((piece.first ≤ low) × (result ≡ max low (piece.last + 1))) ⊎ ((low < piece.first) × (result ≡ low)) }
{
    if piece.first <= low {
        return low.max(piece.last + 1);
    }
    low
}
