//! The piece that came free last, which the tree still has as live, and pieces that the tree is told are free.

ghost use Rattle.std.specs.Prelude.{◌≡◌, ◌≢◌, ℕ, ◌+◌, ◌^◌, ◌<◌, ◌≤◌, ◌↔◌, ◌⊎◌, length, IsTrue, IfSome, IfNone, None, Some, false};
ghost use Rattle.dmatypes.specs.World.{IsIn};
ghost use Rattle.piece_tree.specs.Pieces.{Holds, piece_at};
ghost use Rattle.iova.specs.Freed.{free_start, with_free};
ghost use Rattle.iova.specs.Pieces.{NoneFreeBelow, pages_as, state_at};
ghost use Rattle.iova.specs.Space.{IsLowestFit, IsSpace};
ghost use Rattle.iova.specs.Stored.{AreLive, TakesPlace, shown, stored, with_freed};

use crate::ends::{Ends, free_ends_at, free_start_at};
use crate::space::MOST_PIECES_TO_CUT;
use piece_tree::{NUMBERS_END, PageState, Piece, PieceTree};

/// Makes pages one free piece with the free ones that they touch. Answers a page below which no free piece begins, where none began below
/// the page `low`.
#[inline(never)]
pub(crate) fn set_free(tree: &mut PieceTree, low: u64, pages: Ends) -> u64
    requires space { (last : ℕ) × IsSpace (stored last tree.old)
        × IsSpace (stored last (with_free (pages_as pages PageState.Free) tree.old)) }
    requires some { pages.first ≤ pages.last }
    requires low { NoneFreeBelow low tree.old }
    ensures tree { tree.new ≡ with_free (pages_as pages PageState.Free) tree.old }
    ensures low { NoneFreeBelow result tree.new }
{
    let ends = free_ends_at(tree, pages);
    tree.lay(ends.in_state(PageState::Free));
    low.min(ends.first)
}

/// Tells the tree of the piece that came free, if there is one: its pieces are then those that the space shows.
#[inline(always)]
pub(crate) fn put_freed(tree: &mut PieceTree, low: &mut u64, freed: &mut Option<Ends>)
    requires space { (last : ℕ) × IsSpace (stored last tree.old) }
    requires low { NoneFreeBelow low.old tree.old }
    requires freed { AreLive freed.old tree.old }
    ensures pieces { tree.new ≡ shown freed.old tree.old }
    ensures space { (last : ℕ) → IsSpace (stored last tree.old) → IsSpace (stored last tree.new) }
    ensures low { NoneFreeBelow low.new tree.new }
    ensures none { freed.new ≡ None }
{
    if let Some(pages) = *freed {
        *low = set_free(tree, *low, pages);
        *freed = None;
    }
}

/// The piece that came free and is taken again, and a page below which no free piece begins.
#[derive(Clone, Copy)]
pub(crate) struct Fit {
    pub(crate) pages: Ends,
    pub(crate) low: u64,
}

// A page below which no free piece begins, where the piece that came free is the first of so many free pages: no free one before it has
// so many, and none touches it. Where none is free before it at all it is the piece's own page, so that this is found out once.
#[inline(never)]
fn low_of_first(tree: &PieceTree, low: u64, freed: Ends, pages: u64) -> Option<u64>
    requires space { (last : ℕ) × IsSpace (stored last tree.now) }
    requires low { NoneFreeBelow low tree.now }
    requires freed { AreLive (Some freed) tree.now }
    ensures alone { IfSome result (λ _. free_start tree.now freed.first ≡ freed.first) }
    ensures first { IfSome result (λ _. (p : Piece) → IsIn p tree.now → p.state ≡ PageState.Free
        → p.first < freed.first → p.last + 1 < p.first + pages) }
    ensures low { IfSome result (λ page. NoneFreeBelow page tree.now) }
{
    if !tree.are_short_before(freed.first, pages) {
        return None;
    }
    // Where no page before it is free, none touches it.
    if pages == 1 || tree.are_short_before(freed.first, 1) {
        return Some(freed.first);
    }
    if free_start_at(tree, freed.first) != freed.first {
        return None;
    }
    Some(low)
}

/// The piece that came free, where so many pages that begin at a multiple of the unit are just that piece, and it is the
/// first that has so many. It isn't told where there are so many pieces that a cut might be refused.
#[inline(always)]
pub(crate) fn fit_freed(
    tree: &PieceTree,
    low: u64,
    pages: u64,
    unit: u64,
    freed: Option<Ends>,
) -> Option<Fit>
    requires space { (last : ℕ) × IsSpace (stored last tree.now) }
    requires low { NoneFreeBelow low tree.now }
    requires some_pages { 1 ≤ pages }
    requires unit { (order : ℕ) × (unit ≡ 2 ^ order) }
    requires freed { AreLive freed tree.now }
    ensures freed { IfSome result (λ fit. freed ≡ Some fit.pages) }
    ensures pages { IfSome result (λ fit. fit.pages.last + 1 ≡ fit.pages.first + pages) }
    ensures lowest { IfSome result (λ fit. IsLowestFit (shown freed tree.now) pages unit fit.pages.first) }
    ensures few { IfSome result (λ _. length tree.now ≤ MOST_PIECES_TO_CUT) }
    ensures low { IfSome result (λ fit. NoneFreeBelow fit.low tree.now) }
{
    let ends = freed?;
    if pages != ends.last - ends.first + 1
        || ends.first & (unit - 1) != 0
        || tree.len() > MOST_PIECES_TO_CUT
    {
        return None;
    }
    if ends.first <= low {
        return Some(Fit { pages: ends, low });
    }
    let low = low_of_first(tree, low, ends, pages)?;
    Some(Fit { pages: ends, low })
}

// Whether a page is one of the piece that came free.
fn came_free(freed: Option<Ends>, page: u64) -> bool
    ensures free { IsTrue result → (ends : Ends) × (freed ≡ Some ends) × (ends.first ≤ page) × (page ≤ ends.last) }
    ensures other { result ≡ false → IfSome freed (λ ends. (page < ends.first) ⊎ (ends.last < page)) }
{
    match freed {
        Some(ends) => ends.hold(page),
        None => false,
    }
}

/// The state of the piece that a page lies in.
pub(crate) fn state_of(tree: &PieceTree, freed: Option<Ends>, page: u64) -> Option<PageState>
    requires space { (last : ℕ) × IsSpace (stored last tree.now) }
    requires freed { AreLive freed tree.now }
    ensures { result ≡ state_at (shown freed tree.now) page }
{
    if came_free(freed, page) {
        return Some(PageState::Free);
    }
    let piece = tree.piece_at(page)?;
    Some(piece.state)
}

/// The live piece that a page lies in.
pub(crate) fn live_at(tree: &PieceTree, freed: Option<Ends>, page: u64) -> Option<Piece>
    requires space { (last : ℕ) × IsSpace (stored last tree.now) }
    requires freed { AreLive freed tree.now }
    ensures live { IfSome result (λ piece. IsIn piece (shown freed tree.now) × Holds piece page × (piece.state ≡ PageState.Live)) }
    ensures none { IfNone result (state_at (shown freed tree.now) page ≢ Some PageState.Live) }
{
    if came_free(freed, page) {
        return None;
    }
    let piece = tree.piece_at(page)?;
    match piece.state {
        PageState::Live => Some(piece),
        PageState::Free | PageState::Retired => None,
    }
}

/// Whether some pages are just a live piece of the tree.
#[inline(always)]
pub(crate) fn is_live(tree: &PieceTree, pages: Ends) -> bool
    ensures { IsTrue result ↔ (piece_at tree.now pages.first ≡ Some (pages_as pages PageState.Live)) }
{
    match tree.starting_at(pages.first) {
        Some(piece) => piece.last == pages.last && matches!(piece.state, PageState::Live),
        None => false,
    }
}

/// The free piece that one that came free is by now, with the free ones that it touches.
pub(crate) fn freed_ends(tree: &PieceTree, freed: Option<Ends>) -> Option<Ends>
    requires space { (last : ℕ) × IsSpace (stored last tree.now) }
    requires freed { AreLive freed tree.now }
    ensures shown { shown freed tree.now ≡ with_freed result tree.now }
    ensures place { IfSome result (λ ends. TakesPlace ends tree.now) }
    ensures narrow { IfSome result (λ ends. ends.last < NUMBERS_END) }
{
    match freed {
        Some(pages) => Some(free_ends_at(tree, pages)),
        None => None,
    }
}

/// How many pieces there are: one that came free is one with the free ones that it touches.
pub(crate) fn count(tree: &PieceTree, freed: Option<Ends>) -> usize
    requires space { (last : ℕ) × IsSpace (stored last tree.now) }
    requires freed { AreLive freed tree.now }
    ensures { result ≡ length (shown freed tree.now) }
{
    match freed {
        Some(pages) => {
            let ends = free_ends_at(tree, pages);
            let before = usize::from(ends.first < pages.first);
            let behind = usize::from(pages.last < ends.last);
            tree.len() - before - behind
        }
        None => tree.len(),
    }
}
