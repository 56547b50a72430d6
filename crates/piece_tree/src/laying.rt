//! Pieces put over others of a tree: what is there goes, and what is left of it stays on both sides.

ghost use Rattle.std.specs.Prelude.{ℕ, ◌≡◌, ◌+◌, ◌≤◌, true, false, List, IfSome, Some, length};
ghost use Rattle.std.specs.List.{AllByRecursion};
ghost use Rattle.slab.specs.Slab.{get, slab_len};
ghost use Rattle.piece_tree.specs.Graft.{CanKeep, CanReplace, Flanked, IsLeastHeight, IsTree, LiesBeside, LiesOff, Makes, Removes, some_of};
ghost use Rattle.piece_tree.specs.Laid.{part_beside, rest_above, rest_below, rest_beside, with_row};
ghost use Rattle.piece_tree.specs.declared.piece.Piece.{Piece};
ghost use Rattle.piece_tree.specs.Pieces.{AreSorted, Holds, IsPiece};
ghost use Rattle.piece_tree.specs.Tree.{Empty, IsBelow, Shape, items, uses};

use crate::grafts::{add, crown, graft, leaf, regraft};
use crate::links::open;
use crate::node::Node;
use crate::piece::{MOST_PIECES, Piece};
use crate::top::{KEYS_END, Key, NO_TREE, Top};
use slab::Slab;

/// The trees before and behind a key whose piece goes.
#[derive(Clone, Copy)]
pub(crate) struct Flanks {
    pub(crate) before: Top,
    pub(crate) behind: Top,
}

// Takes all pieces of the tree at a key out.
#[cycle(remove_below)]
fn remove_at(nodes: &mut Slab<Node>, key: Key)
    requires { (t : Shape) × IsBelow (get nodes.old) (Some key) t × ((k : ℕ) → uses t k ≤ 1) }
    ensures { (t : Shape) → IsBelow (get nodes.old) (Some key) t → ((k : ℕ) → uses t k ≤ 1) → Removes nodes.old nodes.new t }
{
    let node = nodes.remove(key as usize);
    remove_below(nodes, node.left);
    remove_below(nodes, node.right);
}

/// Takes all pieces of a tree out.
#[inline(always)]
#[cycle(remove_below)]
pub(crate) fn remove_below(nodes: &mut Slab<Node>, tree: Top)
    requires { (t : Shape) × IsBelow (get nodes.old) tree.root t × ((k : ℕ) → uses t k ≤ 1) }
    ensures { (t : Shape) → IsBelow (get nodes.old) tree.root t → ((k : ℕ) → uses t k ≤ 1) → Removes nodes.old nodes.new t }
{
    if let Some(key) = tree.root() {
        remove_at(nodes, key);
    }
}

/// Makes a tree of pieces: the middle one is its root.
pub(crate) fn build(nodes: &mut Slab<Node>, pieces: &[Piece]) -> Top
    requires pieces { AllByRecursion IsPiece pieces.now }
    requires few { length pieces.now ≤ MOST_PIECES }
    requires room { slab_len nodes.old + length pieces.now ≤ nodes.old.capacity }
    requires keys { nodes.old.capacity ≤ KEYS_END }
    ensures makes { Makes nodes.old nodes.new result Empty pieces.now }
    ensures height { IsLeastHeight (length pieces.now) result.height }
{
    if pieces.is_empty() {
        return NO_TREE;
    }
    let middle = pieces.len() / 2;
    let near = build(nodes, &pieces[..middle]);
    let far = build(nodes, &pieces[middle + 1..]);
    crown(nodes, near, pieces[middle], far)
}

/// What is left of a piece below a page.
pub(crate) fn rest_below(piece: Piece, page: u64) -> Option<Piece>
    requires piece { IsPiece piece }
    requires inside { page ≤ piece.last }
    ensures rest { some_of result ≡ rest_below page piece }
    ensures piece { IfSome result IsPiece }
{
    if piece.first < page {
        return Some(Piece {
            last: page - 1,
            ..piece
        });
    }
    None
}

/// What is left of a piece above a page.
pub(crate) fn rest_above(piece: Piece, page: u64) -> Option<Piece>
    requires piece { IsPiece piece }
    requires inside { piece.first ≤ page }
    ensures rest { some_of result ≡ rest_above page piece }
    ensures piece { IfSome result IsPiece }
{
    if page < piece.last {
        return Some(Piece {
            first: page + 1,
            ..piece
        });
    }
    None
}

// What is left of a piece before a page, or behind it.
fn rest_beside(piece: Piece, before: bool, page: u64) -> Option<Piece>
    requires piece { IsPiece piece }
    requires inside { Holds piece page }
    ensures rest { some_of result ≡ rest_beside before page piece }
    ensures piece { IfSome result IsPiece }
{
    if before {
        rest_below(piece, page)
    } else {
        rest_above(piece, page)
    }
}

// Whether a page lies before a piece, or behind it.
fn lies_beside(piece: Piece, before: bool, page: u64) -> bool
    ensures on { result ≡ true → LiesBeside before piece page }
    ensures off { result ≡ false → LiesOff before piece page }
{
    if before {
        page < piece.first
    } else {
        piece.last < page
    }
}

// Leaves of a tree what lies before a page, or behind it.
fn trim(nodes: &mut Slab<Node>, before: bool, tree: Top, page: u64) -> Top
    requires { (t : Shape) × IsTree (get nodes.old) tree t × (from : ℕ) × AreSorted from (items t) }
    ensures { (t : Shape) (from : ℕ) → IsTree (get nodes.old) tree t → AreSorted from (items t)
        → Makes nodes.old nodes.new result t (part_beside before page (items t)) }
{
    let Some(key) = tree.root() else { return tree };
    let opened = open(nodes, before, key);
    if lies_beside(opened.piece, !before, page) {
        let far = trim(nodes, before, opened.far, page);
        return regraft(nodes, !before, key, far);
    }
    remove_below(nodes, opened.far);
    if lies_beside(opened.piece, before, page) {
        nodes.remove(key as usize);
        return trim(nodes, before, opened.near, page);
    }
    let Some(rest) = rest_beside(opened.piece, before, page) else {
        nodes.remove(key as usize);
        return opened.near;
    };
    graft(nodes, before, opened.near, key, rest, NO_TREE)
}

// The same of a tree beside a piece: it stays whole, unless the page lies on that side of the piece.
fn keep(nodes: &mut Slab<Node>, before: bool, tree: Top, beside: Piece, page: u64) -> Top
    requires { (t : Shape) × CanKeep (get nodes.old) before tree beside page t }
    ensures { (t : Shape) → CanKeep (get nodes.old) before tree beside page t
        → Makes nodes.old nodes.new result t (part_beside before page (items t)) }
{
    if !lies_beside(beside, before, page) {
        return tree;
    }
    trim(nodes, before, tree, page)
}

// Takes the pages from a first to a last one out of a tree, of which the piece at its root has one.
#[inline(always)]
fn clear_pages(nodes: &mut Slab<Node>, key: Key, first: u64, last: u64) -> Flanks
    requires { (t : Shape) × (row : List Piece) × CanReplace nodes.old key first row last t }
    ensures { (t : Shape) (row : List Piece) → CanReplace nodes.old key first row last t
        → Flanked nodes.old nodes.new result.before key result.behind t row (with_row first row last (items t)) }
{
    let opened = open(nodes, true, key);
    let near = keep(nodes, true, opened.near, opened.piece, first);
    let far = keep(nodes, false, opened.far, opened.piece, last);
    let before = add(nodes, true, near, rest_below(opened.piece, first));
    let behind = add(nodes, false, far, rest_above(opened.piece, last));
    Flanks { before, behind }
}

/// Puts a row of pieces over others of a tree, of which one is at its root.
#[inline(always)]
pub(crate) fn replace(nodes: &mut Slab<Node>, key: Key, row: &[Piece]) -> Top
    requires { (t : Shape) × (first : ℕ) × (last : ℕ) × CanReplace nodes.old key first row.now last t }
    ensures { (t : Shape) (first last : ℕ) → CanReplace nodes.old key first row.now last t
        → Makes nodes.old nodes.new result t (with_row first row.now last (items t)) }
{
    let Some((first, rest)) = row.split_first() else {
        unreachable!()
    };
    let Some((last, others)) = rest.split_last() else {
        let flanks = clear_pages(nodes, key, first.first, first.last);
        return graft(nodes, true, flanks.before, key, *first, flanks.behind);
    };
    let flanks = clear_pages(nodes, key, first.first, last.last);
    let middle = build(nodes, others);
    let near = graft(nodes, true, flanks.before, key, *first, middle);
    let end = leaf(nodes, *last);
    let Some(key) = end.root() else {
        unreachable!()
    };
    graft(nodes, true, near, key, *last, flanks.behind)
}
