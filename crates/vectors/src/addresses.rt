// Device addresses taken, retired and released, and what is refused at the limit of pieces. Each test's steps go by a `&mut` to
// its space, so that no step's proof has to say how the space is dropped.

ghost use Rattle.std.specs.Prelude.{◌≤◌};

mod agreeing;
mod list;

use dmatypes::{Page, PageRange};
use iova::{PageState, Piece, RetireError, Space, TakeError};
use std::process::Abort;
use std::test::Fail;

const LAST: u64 = 0x7FFFFFF;

// Whether a take comes to this page.
fn takes(space: &mut Space, pages: u64, order: u64, first: u64) -> bool
    requires { (1 ≤ pages) × ((pages ≤ 4096) × (order ≤ 9)) }
{
    match space.take(pages, order) {
        Ok(page) => page.number() == first,
        Err(_) => false,
    }
}

// Whether a take from a floor on comes to this page.
fn takes_from(space: &mut Space, floor: u64, pages: u64, order: u64, first: u64) -> bool
    requires { (1 ≤ floor) × ((1 ≤ pages) × ((pages ≤ 4096) × (order ≤ 9))) }
{
    match space.take_from(floor, pages, order) {
        Ok(page) => page.number() == first,
        Err(_) => false,
    }
}

// Whether a take of pages at any place is refused by this error.
fn refuses(space: &mut Space, pages: u64, error: TakeError) -> bool
    requires { (1 ≤ pages) × (pages ≤ 4096) }
{
    match space.take(pages, 0) {
        Ok(_) => false,
        Err(found) => found == error,
    }
}

// Whether a take comes to this page; where it takes any, it is undone.
fn takes_and_undoes(space: &mut Space, pages: u64, first: u64) -> bool
    requires { (1 ≤ pages) × (pages ≤ 4096) }
{
    let Ok(start) = space.take(pages, 0) else {
        return false;
    };
    space.undo_take(PageRange::new(start.number(), pages).unwrap());
    start.number() == first
}

// Ends a range: how many pieces there are once it is retired, and once it is released. `None` where it can't be retired.
fn end(space: &mut Space, first: u64, pages: u64) -> Option<(usize, usize)> {
    let range = PageRange::new(first, pages)?;
    if space.may_retire(range).is_err() {
        return None;
    }
    space.retire(range);
    let retired = space.piece_count();
    space.release(range);
    Some((retired, space.piece_count()))
}

// Whether a range can't be retired, by this error.
fn keeps(space: &Space, first: u64, pages: u64, error: RetireError) -> bool {
    match PageRange::new(first, pages) {
        Some(range) => space.may_retire(range) == Err(error),
        None => false,
    }
}

// Pages are taken from the lowest start, a retiring joins pieces, and freeing joins the free ones.
#[test]
fn takes_and_frees(rt: HostRuntime) -> Result<(), Fail> {
    let mut space = Space::new(rt.alloc(), 15)?;
    take_and_free(&rt, &mut space);
    Ok(())
}

fn take_and_free(rt: &impl Abort, space: &mut Space) {
    assert!(rt; takes(space, 1, 0, 1));
    assert!(rt; takes(space, 2, 1, 2));
    assert!(rt; takes(space, 1, 2, 4));
    assert!(rt; space.piece_count() == 4);
    assert!(rt; end(space, 2, 3) == Some((3, 2)));
    assert!(rt; takes_and_undoes(space, 3, 2));
    assert!(rt; space.piece_count() == 2);
    assert!(rt; keeps(space, 1, 2, RetireError::NotLive));
}

// Retired pieces that lie side by side are one free piece after one release, with the free one beside them.
#[test]
fn releases_a_run(rt: HostRuntime) -> Result<(), Fail> {
    let mut space = Space::new(rt.alloc(), 15)?;
    assert!(rt; takes(&mut space, 1, 0, 1));
    assert!(rt; takes(&mut space, 1, 0, 2));
    assert!(rt; takes(&mut space, 3, 0, 3));
    let low = PageRange::new(2, 1).ok_or("page")?;
    let high = PageRange::new(3, 3).ok_or("pages")?;
    let run = PageRange::new(2, 4).ok_or("pages")?;
    space.may_retire(low)?;
    space.retire(low);
    space.may_retire(high)?;
    space.retire(high);
    assert!(rt; space.piece_count() == 4);
    space.release(run);
    assert!(rt; space.piece_count() == 2);
    assert!(rt; takes(&mut space, 14, 0, 2));
    Ok(())
}

#[test]
fn fills_a_small_space(rt: HostRuntime) -> Result<(), Fail> {
    let mut space = Space::new(rt.alloc(), 15)?;
    fill_small(&rt, &mut space);
    Ok(())
}

fn fill_small(rt: &impl Abort, space: &mut Space) {
    assert!(rt; takes(space, 8, 3, 8));
    assert!(rt; refuses(space, 8, TakeError::NoRange));
    assert!(rt; takes(space, 7, 0, 1));
    assert!(rt; refuses(space, 1, TakeError::NoRange));
}

// Pages are taken from the floor on, and below it where there are none.
#[test]
fn takes_from_a_floor(rt: HostRuntime) -> Result<(), Fail> {
    let mut space = Space::new(rt.alloc(), 31)?;
    take_from_a_floor(&rt, &mut space);
    Ok(())
}

fn take_from_a_floor(rt: &impl Abort, space: &mut Space) {
    assert!(rt; takes_from(space, 16, 8, 3, 16));
    assert!(rt; takes_from(space, 16, 8, 3, 24));
    assert!(rt; takes_from(space, 16, 8, 3, 8));
    assert!(rt; space.take_from(16, 8, 0).err() == Some(TakeError::NoRange));
    assert!(rt; takes_from(space, 5, 3, 0, 5));
    assert!(rt; takes_from(space, u64::MAX, 1, 0, 1));
    assert!(rt; takes_from(space, 1, 1, 0, 2));
}

// Aligned ranges of 4,096 pages do not cross the interrupt address range.
#[test]
fn keeps_out_of_the_window(rt: HostRuntime) -> Result<(), Fail> {
    let mut space = Space::new(rt.alloc(), LAST)?;
    take_around_the_window(&rt, &mut space);
    Ok(())
}

fn take_around_the_window(rt: &impl Abort, space: &mut Space) {
    assert!(rt; space.piece_count() == 2);
    for count in 1..254u64 {
        assert!(rt; takes(space, 4096, 9, 0x200 + (count - 1) * 0x1000));
    }
    assert!(rt; takes(space, 4096, 9, 0xFD200));
    assert!(rt; takes(space, 4096, 9, 0xFF000));
}

// Takes pages one by one, each the next, until there are as many pieces as there can be.
fn take_one_by_one(rt: &impl Abort, space: &mut Space, from: u64, end: u64) {
    for number in from..end {
        assert!(rt; takes(space, 1, 0, number));
    }
    assert!(rt; refuses(space, 1, TakeError::TooManyPieces));
}

#[test]
fn refuses_a_cut_at_the_limit(rt: HostRuntime) -> Result<(), Fail> {
    let mut space = Space::new(rt.alloc(), LAST)?;
    cut_at_the_limit(&rt, &mut space);
    Ok(())
}

fn cut_at_the_limit(rt: &impl Abort, space: &mut Space) {
    take_one_by_one(rt, space, 1, 1022);
    assert!(rt; end(space, 1, 1).is_some());
    assert!(rt; takes(space, 1, 0, 1));
    assert!(rt; refuses(space, 1, TakeError::TooManyPieces));
}

// At the limit a piece can't be cut, and whole pieces are retired as ever.
#[test]
fn retires_whole_pieces_at_the_limit(rt: HostRuntime) -> Result<(), Fail> {
    let mut space = Space::new(rt.alloc(), LAST)?;
    retire_at_the_limit(&rt, &mut space);
    Ok(())
}

fn retire_at_the_limit(rt: &impl Abort, space: &mut Space) {
    assert!(rt; takes(space, 3, 0, 1));
    take_one_by_one(rt, space, 4, 1024);
    assert!(rt; keeps(space, 2, 1, RetireError::TooManyPieces));
    assert!(rt; end(space, 1, 3).is_some());
    assert!(rt; takes(space, 3, 0, 1));
    assert!(rt; refuses(space, 1, TakeError::TooManyPieces));
}

#[test]
fn tells_the_state_of_a_page(rt: HostRuntime) -> Result<(), Fail> {
    let mut space = Space::new(rt.alloc(), 15)?;
    tell_states(&rt, &mut space);
    space.reset(15);
    let free = Piece {
        first: 1,
        last: 15,
        state: PageState::Free,
    };
    let mut pieces = space.pieces();
    assert!(rt; pieces.next() == Some(free));
    assert!(rt; pieces.next() == None);
    assert!(rt; free.is_free());
    Ok(())
}

// Retires the middle one of three pages.
fn retire_middle(rt: &impl Abort, space: &mut Space) {
    assert!(rt; takes(space, 3, 0, 1));
    let middle = PageRange::new(2, 1).expect(rt, "a page");
    assert!(rt; space.may_retire(middle).is_ok());
    space.retire(middle);
}

// What a page is told to be.
fn state_of(space: &Space, number: u64) -> Option<PageState> {
    space.state_of(Page::new(number)?)
}

fn tell_states(rt: &impl Abort, space: &mut Space) {
    retire_middle(rt, space);
    for (number, state) in [
        (1, Some(PageState::Live)),
        (2, Some(PageState::Retired)),
        (3, Some(PageState::Live)),
        (4, Some(PageState::Free)),
        (16, None),
    ] {
        assert!(rt; state_of(space, number) == state, "page {number}");
    }
    let live = Piece {
        first: 3,
        last: 3,
        state: PageState::Live,
    };
    assert!(rt; space.pieces().nth(2) == Some(live));
}
