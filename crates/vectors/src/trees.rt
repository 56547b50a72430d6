//! Rows of the table layer.

ghost use Rattle.std.specs.Prelude.{◌≡◌, ◌+◌, ◌<◌, ◌≤◌, ◌^◌};

use dmatypes::{FRAMES_END, Frame, MOST_PAGES, Page, PageRange, Rights, Width};
use std::test::Fail;
use tables::{Pool, Tree};

// A few pages before the interrupt address range.
fn pages(first: u64, pages: u64) -> PageRange
    requires some { 1 ≤ pages }
    requires few { pages ≤ MOST_PAGES }
    requires first { 1 ≤ first }
    requires low { first + pages ≤ 0x1000 }
    ensures { result ≡ record { first = first; pages = pages } }
{
    PageRange::new(first, pages).unwrap()
}

fn frame(number: u64) -> Frame
    requires { number < FRAMES_END }
    ensures { result ≡ number }
{
    Frame::new(number).unwrap()
}

#[test]
fn split_and_cut(rt: HostRuntime) -> Result<(), Fail> {
    let mut pool = Pool::new(rt.alloc(), 16)?;
    let mut tree = Tree::new(&mut pool, Width::W39)?;
    assert_eq!(rt; pool.free_count(), 15);
    let rights = Rights::from_number(3).expect(&rt, "both rights");
    tree.map(&mut pool, pages(0x200, 512), frame(0x400), rights)
        .expect(&rt, "a free frame");
    assert_eq!(rt; pool.free_count(), 14);

    assert!(rt; tree.may_unmap(&pool, pages(0x201, 1)).is_ok());
    let first_cut = tree.unmap(&mut pool, pages(0x201, 1));
    assert!(rt; first_cut.frames().is_empty() && first_cut.split());
    assert_eq!(rt; pool.free_count(), 13);
    let page = Page::new(0x202).expect(&rt, "a page");
    let (found, _) = tree.walk(&pool, page).expect(&rt, "a leaf");
    assert_eq!(rt; found.number(), 0x402);

    assert!(rt; tree.may_unmap(&pool, pages(0x202, 510)).is_ok());
    let second_cut = tree.unmap(&mut pool, pages(0x202, 510));
    assert!(rt; second_cut.frames().is_empty() && !second_cut.split());
    assert!(rt; tree.may_unmap(&pool, pages(0x200, 1)).is_ok());
    let third_cut = tree.unmap(&mut pool, pages(0x200, 1));
    assert!(rt; third_cut.frames().is_empty() && !third_cut.split());
    assert_eq!(rt; pool.free_count(), 13);

    tree.map(&mut pool, pages(0x200, 512), frame(0x600), rights)
        .expect(&rt, "the empty table");
    assert_eq!(rt; pool.free_count(), 13);
    assert!(rt; tree.may_unmap(&pool, pages(0x200, 512)).is_ok());
    let last_cut = tree.unmap(&mut pool, pages(0x200, 512));
    assert_eq!(rt; last_cut.frames().len(), 1);
    assert!(rt; !last_cut.split());
    pool.give_back(last_cut.frames());
    assert_eq!(rt; pool.free_count(), 14);
    tree.destroy(&mut pool);
    assert_eq!(rt; pool.free_count(), 16);
    Ok(())
}

// Two pages of a wide domain, on either side of the end of the narrow ones, lie in no table together.
#[test]
fn tables_of_a_wide_tree(rt: HostRuntime) -> Result<(), Fail> {
    let mut pool = Pool::new(rt.alloc(), 16)?;
    let mut tree = Tree::new(&mut pool, Width::W48)?;
    assert_eq!(rt; pool.free_count(), 15);
    let rights = Rights::from_number(3).expect(&rt, "both rights");
    let range = PageRange::new(0x7ffffff, 2).expect(&rt, "two pages");
    tree.map(&mut pool, range, frame(0x400), rights)
        .expect(&rt, "free frames");
    assert_eq!(rt; pool.free_count(), 9);
    for (number, host) in [(0x7ffffff, 0x400), (0x8000000, 0x401)] {
        let page = Page::new(number).expect(&rt, "a page");
        let (found, _) = tree.walk(&pool, page).expect(&rt, "a leaf");
        assert_eq!(rt; found.number(), host);
    }
    tree.destroy(&mut pool);
    assert_eq!(rt; pool.free_count(), 16);
    Ok(())
}
