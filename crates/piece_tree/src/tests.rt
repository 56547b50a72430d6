//! Pieces laid over others, and looked for.

ghost use Rattle.std.specs.Prelude.{◌+◌, ◌<◌, ◌≤◌};
ghost use Rattle.piece_tree.specs.Laid.{IsRow};

use crate::{MOST_PIECES, NUMBERS_END, PageState, Piece, PieceTree};
use std::process::Abort;
use std::test::Fail;

fn piece(first: u64, last: u64, state: PageState) -> Option<Piece> {
    Some(Piece { first, last, state })
}

// Lays a piece over those that are there, where there are few enough.
fn lays(tree: &mut PieceTree, first: u64, last: u64, state: PageState) -> bool {
    if tree.len() + 2 > MOST_PIECES || first > last {
        return false;
    }
    if tree.piece_at(first).is_none() || tree.piece_at(last).is_none() {
        return false;
    }
    tree.lay(Piece { first, last, state });
    true
}

// Lays a row over pages of one piece, where there are few enough.
fn lays_row(tree: &mut PieceTree, first: u64, last: u64, row: &[Piece]) -> bool
    requires numbers { last < NUMBERS_END }
    requires row { IsRow first row.now (last + 1) }
{
    if tree.len() > MOST_PIECES / 2 || row.len() >= MOST_PIECES / 2 || first > last {
        return false;
    }
    match tree.piece_at(first) {
        Some(there) if last <= there.last => tree.lay_row(row),
        _ => return false,
    }
    true
}

// The first start of so many free pages that is a multiple of four.
fn fits(tree: &mut PieceTree, floor: u64, pages: u64) -> Option<u64>
    requires floor { floor ≤ NUMBERS_END }
    requires some_pages { 1 ≤ pages }
    requires pages { pages < NUMBERS_END }
{
    let (start, _) = tree.seek_fit(floor, pages, 4)?;
    Some(start)
}

// The first piece with so many free pages.
fn long(tree: &mut PieceTree, pages: u64) -> Option<Piece>
    requires some_pages { 1 ≤ pages }
    requires pages { pages < NUMBERS_END }
{
    let (_, piece) = tree.seek_fit(0, pages, 1)?;
    Some(piece)
}

#[test]
fn lays_pieces(rt: HostRuntime) -> Result<(), Fail> {
    let mut tree = PieceTree::new(rt.alloc())?;
    tree.push(Piece {
        first: 1,
        last: 100,
        state: PageState::Free,
    });
    lay_over(&rt, &mut tree);
    tree.clear();
    assert!(rt; tree.len() == 0);
    Ok(())
}

fn lay_over(rt: &impl Abort, tree: &mut PieceTree) {
    assert!(rt; lays(tree, 11, 30, PageState::Retired));
    assert!(rt; lays(tree, 40, 100, PageState::Live));
    assert!(rt; lays(tree, 1, 10, PageState::Live));
    assert!(rt; !lays(tree, 60, 101, PageState::Free));
    assert!(rt; tree.len() == 4);
    assert!(rt; tree.first_from(0) == piece(1, 10, PageState::Live));
    assert!(rt; tree.first_from(11) == piece(11, 30, PageState::Retired));
    assert!(rt; tree.first_from(12) == piece(31, 39, PageState::Free));
    assert!(rt; tree.piece_at(100) == piece(40, 100, PageState::Live));
    assert!(rt; tree.first_from(41) == None);
    assert!(rt; tree.piece_at(30) == piece(11, 30, PageState::Retired));
    assert!(rt; lays(tree, 5, 20, PageState::Free));
    assert!(rt; long(tree, 16) == piece(5, 20, PageState::Free));
    assert!(rt; long(tree, 17) == None);
    assert!(rt; tree.are_short_before(32, 17));
    assert!(rt; tree.are_short_before(5, 16));
    assert!(rt; !tree.are_short_before(6, 16));
    assert!(rt; fits(tree, 6, 8) == Some(8));
    assert!(rt; fits(tree, 14, 8) == Some(32));
    assert!(rt; fits(tree, 14, 9) == None);
    assert!(rt; lays(tree, 5, 39, PageState::Free));
    assert!(rt; tree.piece_at(20) == piece(5, 39, PageState::Free));
    assert!(rt; tree.len() == 3);
}

#[test]
fn lays_rows(rt: HostRuntime) -> Result<(), Fail> {
    let mut tree = PieceTree::new(rt.alloc())?;
    tree.push(Piece {
        first: 1,
        last: 100,
        state: PageState::Live,
    });
    lay_rows(&rt, &mut tree);
    Ok(())
}

// A row of three inside a piece, and a row of one at its end.
fn lay_rows(rt: &impl Abort, tree: &mut PieceTree) {
    let three = [
        Piece {
            first: 11,
            last: 20,
            state: PageState::Free,
        },
        Piece {
            first: 21,
            last: 30,
            state: PageState::Retired,
        },
        Piece {
            first: 31,
            last: 40,
            state: PageState::Free,
        },
    ];
    assert!(rt; lays_row(tree, 11, 40, &three));
    assert!(rt; tree.len() == 5);
    assert!(rt; tree.piece_at(10) == piece(1, 10, PageState::Live));
    assert!(rt; tree.piece_at(11) == piece(11, 20, PageState::Free));
    assert!(rt; tree.piece_at(25) == piece(21, 30, PageState::Retired));
    assert!(rt; tree.piece_at(40) == piece(31, 40, PageState::Free));
    assert!(rt; tree.piece_at(41) == piece(41, 100, PageState::Live));
    assert!(rt; !lays_row(tree, 11, 40, &three));
    let one = [Piece {
        first: 91,
        last: 100,
        state: PageState::Free,
    }];
    assert!(rt; lays_row(tree, 91, 100, &one));
    assert!(rt; tree.len() == 6);
    assert!(rt; tree.piece_at(90) == piece(41, 90, PageState::Live));
    assert!(rt; tree.piece_at(91) == piece(91, 100, PageState::Free));
}

// As many pieces as there can be: each is found.
#[test]
fn is_filled(rt: HostRuntime) -> Result<(), Fail> {
    let mut tree = PieceTree::new(rt.alloc())?;
    tree.push(Piece {
        first: 0,
        last: 2047,
        state: PageState::Free,
    });
    fill(&rt, &mut tree);
    find_each(&rt, &mut tree);
    Ok(())
}

fn fill(rt: &impl Abort, tree: &mut PieceTree) {
    for number in 0..511u64 {
        assert!(rt; lays(tree, 4 * number + 2, 4 * number + 3, PageState::Live));
    }
    assert!(rt; tree.len() == MOST_PIECES - 1);
    assert!(rt; !lays(tree, 1, 1, PageState::Live));
}

fn find_each(rt: &impl Abort, tree: &mut PieceTree) {
    for number in 0..511u64 {
        let free = piece(4 * number, 4 * number + 1, PageState::Free);
        assert!(rt; tree.piece_at(4 * number + 1) == free);
    }
    assert!(rt; long(tree, 3) == piece(2044, 2047, PageState::Free));
}

// Two pieces beside each other are made one, and three, and more, wherever they lie in a tree.
#[test]
fn joins_neighbours(rt: HostRuntime) -> Result<(), Fail> {
    let mut tree = PieceTree::new(rt.alloc())?;
    tree.push(Piece {
        first: 0,
        last: 199,
        state: PageState::Live,
    });
    for pieces in 2..20u64 {
        join_each(&rt, &mut tree, pieces);
    }
    Ok(())
}

fn join_each(rt: &impl Abort, tree: &mut PieceTree, pieces: u64)
    requires { pieces ≤ 20 }
{
    for first in 0..pieces {
        join_at(rt, tree, pieces, first, first + 2);
        join_at(rt, tree, pieces, first, first + 3);
        join_at(rt, tree, pieces, first, first + 4);
    }
}

// Makes the pieces from one on one before an end, if there are so many.
fn join_at(rt: &impl Abort, tree: &mut PieceTree, pieces: u64, first: u64, end: u64)
    requires pieces { pieces ≤ 20 }
    requires some { first < end }
{
    if end > pieces {
        return;
    }
    assert!(rt; lays(tree, 0, 199, PageState::Live));
    assert!(rt; tree.len() == 1);
    part(rt, tree, pieces);
    assert!(rt; lays(tree, 10 * first, 10 * end - 1, PageState::Free));
    let joined = piece(10 * first, 10 * end - 1, PageState::Free);
    assert!(rt; tree.len() as u64 + (end - first) == pieces + 2);
    assert!(rt; tree.piece_at(10 * first) == joined);
    assert!(rt; long(tree, 11) == joined);
    assert!(rt; long(tree, 10 * (end - first) + 1) == None);
    stay(rt, tree, 0, first);
    stay(rt, tree, end, pieces);
}

// Pieces of ten pages each, and one with the pages behind them.
fn part(rt: &impl Abort, tree: &mut PieceTree, pieces: u64)
    requires { pieces ≤ 20 }
{
    for number in 0..pieces {
        assert!(rt; lays(tree, 10 * number, 10 * number + 9, PageState::Live));
    }
}

fn stay(rt: &impl Abort, tree: &PieceTree, from: u64, end: u64)
    requires { end ≤ 20 }
{
    for number in from..end {
        let own = piece(10 * number, 10 * number + 9, PageState::Live);
        assert!(rt; tree.piece_at(10 * number + 5) == own);
    }
}

// A piece that ends within another one, or begins within one, takes pages from it: wherever they lie in a tree.
#[test]
fn moves_pages(rt: HostRuntime) -> Result<(), Fail> {
    let mut tree = PieceTree::new(rt.alloc())?;
    tree.push(Piece {
        first: 0,
        last: 199,
        state: PageState::Live,
    });
    for pieces in 2..20u64 {
        move_each(&rt, &mut tree, pieces);
    }
    Ok(())
}

fn move_each(rt: &impl Abort, tree: &mut PieceTree, pieces: u64)
    requires { pieces ≤ 20 }
{
    for number in 0..pieces {
        let page = 10 * number;
        move_at(rt, tree, pieces, page, page + 15, 0);
        move_at(rt, tree, pieces, page + 5, page + 20, 0);
        move_at(rt, tree, pieces, page, page + 25, 1);
        move_at(rt, tree, pieces, page + 5, page + 30, 1);
        move_at(rt, tree, pieces, page + 5, page + 25, 0);
    }
}

// Makes the pages before an end free, in one piece, if there are so many, for which so many pieces go.
fn move_at(rt: &impl Abort, tree: &mut PieceTree, pieces: u64, first: u64, end: u64, gone: u64)
    requires pieces { pieces ≤ 20 }
    requires some { first < end }
    requires gone { gone ≤ 1 }
{
    if end > 10 * pieces {
        return;
    }
    assert!(rt; lays(tree, 0, 199, PageState::Live));
    part(rt, tree, pieces);
    assert!(rt; lays(tree, first, end - 1, PageState::Free));
    assert!(rt; tree.len() as u64 + gone == pieces + 1);
    assert!(rt; tree.piece_at(first + 2) == piece(first, end - 1, PageState::Free));
    assert!(rt; long(tree, end - first) == piece(first, end - 1, PageState::Free));
    assert!(rt; long(tree, end - first + 1) == None);
    move_from(rt, tree, first, end);
    stay(rt, tree, 0, first / 10);
    stay(rt, tree, (end + 9) / 10, pieces);
}

// What is left of the pieces that it begins and ends within.
fn move_from(rt: &impl Abort, tree: &PieceTree, first: u64, end: u64)
    requires { end ≤ 200 }
{
    let before = first % 10;
    if before > 0 {
        assert!(rt; tree.piece_at(first - 1) == piece(first - before, first - 1, PageState::Live));
    }
    let behind = end % 10;
    if behind > 0 {
        assert!(rt; tree.piece_at(end) == piece(end, end - behind + 9, PageState::Live));
    }
}
