//! Where pieces are.

ghost use Rattle.std.specs.Prelude.{◌≡◌, ◌+◌, ◌^◌, ◌<◌, ◌≤◌, ◌↔◌, ℕ, IfSome, IfNone, IsTrue, true, false};
ghost use Rattle.std.specs.List.{AllByRecursion};
ghost use Rattle.piece_tree.specs.Pieces.{IsPiece, piece_at};
ghost use Rattle.piece_tree.specs.Search.{HasNoRoom, IsFound, IsNarrowBefore, IsRoundUp, IsShortBefore, IsStartIn, IsStarting};
ghost use Rattle.piece_tree.specs.Search.{first_of, pieces_from};
ghost use Rattle.piece_tree.specs.Tree.{IsWhole, Shape, items, pieces_of};
ghost use Rattle.piece_tree.specs.Way.{IsHand};

use crate::links::free_length;
use crate::node::Node;
use crate::piece::{NUMBERS_END, Piece};
use crate::top::Top;
use crate::way::{Held, MOST_HEIGHT, Step, step_above};
use slab::Slab;

/// The piece that a page lies in.
pub(crate) fn find(nodes: &Slab<Node>, root: Top, page: u64) -> Option<Piece>
    requires { (t : Shape) × IsWhole nodes.now root t }
    ensures { result ≡ piece_at (pieces_of nodes.now root) page }
{
    // The root is read before the loop, so that where the nodes lie is read once.
    let mut node = &nodes[root.root()? as usize];
    loop {
        if node.piece.has_any(page, page) {
            return Some(node.piece);
        }
        node = &nodes[node.child(page < node.piece.first).root()? as usize];
    }
}

/// The piece that begins at a page.
pub(crate) fn starting_at(nodes: &Slab<Node>, root: Top, page: u64) -> Option<Piece>
    requires { (t : Shape) × IsWhole nodes.now root t }
    ensures { IsStarting page (pieces_of nodes.now root) result }
{
    let mut node = &nodes[root.root()? as usize];
    loop {
        if page == node.piece.first {
            return Some(node.piece);
        }
        node = &nodes[node.child(page < node.piece.first).root()? as usize];
    }
}

/// The first piece that begins at a page or behind it.
pub(crate) fn first_from(nodes: &Slab<Node>, root: Top, page: u64) -> Option<Piece>
    requires { (t : Shape) × IsWhole nodes.now root t }
    ensures { result ≡ first_of (pieces_from page (pieces_of nodes.now root)) }
{
    let mut found = None;
    let mut at = root.root();
    while let Some(key) = at {
        let node = &nodes[key as usize];
        if node.piece.first < page {
            at = node.right.root();
        } else {
            found = Some(node.piece);
            at = node.left.root();
        }
    }
    found
}

/// Whether all free pieces that begin before a page have fewer pages than so many.
pub(crate) fn are_short_before(nodes: &Slab<Node>, root: Top, page: u64, pages: u64) -> bool
    requires { (t : Shape) × IsWhole nodes.now root t }
    ensures { IsTrue result ↔ AllByRecursion (IsShortBefore page pages) (pieces_of nodes.now root) }
{
    let mut at = root;
    while let Some(key) = at.root() {
        if at.longest() < pages {
            return true;
        }
        let node = &nodes[key as usize];
        if page <= node.piece.first {
            at = node.left;
        } else {
            // All on its left begin before the page, too.
            if free_length(node.piece) >= pages || node.left.longest() >= pages {
                return false;
            }
            at = node.right;
        }
    }
    true
}

/// Where so many pages have room that were looked for: the first of them, and the free piece that they lie in.
#[derive(Clone, Copy)]
pub(crate) struct Fit {
    pub(crate) start: u64,
    pub(crate) held: Held,
}

// The first start of so many pages in a piece, from a page on, that is a multiple of the unit, if the piece is free.
#[inline(always)]
fn start_in(piece: Piece, low: u64, pages: u64, unit: u64) -> Option<u64>
    requires piece { IsPiece piece }
    requires low { low ≤ NUMBERS_END }
    requires pages { pages < NUMBERS_END }
    requires unit { unit < NUMBERS_END }
    requires power { (order : ℕ) × (unit ≡ 2 ^ order) }
    ensures some { IfSome result (IsStartIn low pages unit piece) }
    ensures none { IfNone result (HasNoRoom low pages unit piece) }
{
    if !piece.is_free() {
        return None;
    }
    let start = round_up(piece.first.max(low), unit);
    if piece.last + 1 < start + pages {
        return None;
    }
    Some(start)
}

// Whether the way goes on before a piece: the tree there wasn't gone through, a free piece in it is so long, and from a page on a multiple
// of the unit leaves so many pages before the piece.
#[inline(always)]
fn goes_before(node: &Node, passed: bool, low: u64, pages: u64, unit: u64) -> bool
    requires low { low ≤ NUMBERS_END }
    requires pages { pages < NUMBERS_END }
    requires unit { unit < NUMBERS_END }
    requires power { (order : ℕ) × (unit ≡ 2 ^ order) }
    ensures goes { result ≡ true → (passed ≡ false) × (pages ≤ node.now.left.longest) }
    ensures stays { result ≡ false → passed ≡ false → IsNarrowBefore low pages unit node.now }
{
    !passed && node.left.longest() >= pages && round_up(low, unit) + pages <= node.piece.first
}

/// The first start of so many free pages from a floor on that is a multiple of the unit, and the way to the piece. It goes through the
/// pieces in their order, and passes each tree by that has no piece so long, or no room before its end.
pub(crate) fn go_fit(
    nodes: &Slab<Node>,
    root: Top,
    floor: u64,
    pages: u64,
    unit: u64,
    way: &mut [Step; MOST_HEIGHT],
) -> Option<Fit>
    requires tree { (t : Shape) × IsWhole nodes.now root t }
    requires floor { floor ≤ NUMBERS_END }
    requires some_pages { 1 ≤ pages }
    requires pages { pages < NUMBERS_END }
    requires unit { unit < NUMBERS_END }
    requires power { (order : ℕ) × (unit ≡ 2 ^ order) }
    ensures hand { (t : Shape) → IsWhole nodes.now root t → IfSome result (λ fit. (h : IsHand way.new fit.held t)
        × IsFound floor pages unit (items t) fit.start h.piece) }
    ensures none { (t : Shape) → IsWhole nodes.now root t
        → IfNone result (AllByRecursion (HasNoRoom floor pages unit) (items t)) }
{
    if root.longest() < pages {
        return None;
    }
    let mut at = root.root();
    let mut depth = 0;
    let mut low = floor;
    // Whether what lies before the piece was gone through.
    let mut passed = false;
    while let Some(key) = at {
        let node = &nodes[key as usize];
        if goes_before(node, passed, low, pages, unit) {
            way[depth] = Step { key, before: true };
            at = node.left.root();
            depth += 1;
            continue;
        }
        if let Some(start) = start_in(node.piece, low, pages, unit) {
            let held = Held { key, depth };
            return Some(Fit { start, held });
        }
        // All pieces behind begin behind this one.
        low = low.max(node.piece.last + 1);
        passed = node.right.longest() < pages;
        if passed {
            depth = step_above(way, depth)?;
            at = Some(way[depth].key);
        } else {
            way[depth] = Step { key, before: false };
            at = node.right.root();
            depth += 1;
        }
    }
    None
}

/// The first multiple of the unit, a power of two, from a page on.
#[inline(always)]
pub fn round_up(page: u64, unit: u64) -> u64
    requires page { page < 2 ^ 41 }
    requires unit { unit < NUMBERS_END }
    requires power { (order : ℕ) × (unit ≡ 2 ^ order) }
    ensures up { IsRoundUp page unit result }
    ensures near { result < page + unit }
{
    let most = page + (unit - 1);
    most - (most & (unit - 1))
}
