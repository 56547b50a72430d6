// Requests: what serves them, what they are answered, and what is remembered of them.

ghost use Rattle.std.specs.Prelude.{◌≡◌, ◌+◌, ◌<◌, ◌≤◌, ◌^◌, IfOk};
ghost use Rattle.dmatypes.specs.Page.{Fits, levels};
ghost use Rattle.dmatypes.specs.declared.width.Width.TheVariants as Width;
ghost use Rattle.tables.specs.Pool.{IsTree};

use super::tests::{
    absent, assert_absent, assert_remembered, context, domain_of, large, small, table, unit_of,
};
use super::*;
use crate::entries::CachedLeaf;
use crate::recent::LEAVES;
use dmatypes::{Frame, PageRange, Rights, Width};
use std::alloc::{AllocError, Global};
use std::process::Abort;
use tables::Tree;
use vtdbits::ContextEntry;

const NEITHER: Whim = Whim {
    look: false,
    fill: false,
};

const LOOK: Whim = Whim {
    look: true,
    fill: false,
};

const FILL: Whim = Whim {
    look: false,
    fill: true,
};

const BOTH: Whim = Whim {
    look: true,
    fill: true,
};

// A tree of a 39-bit domain, to be read alone. Pages 0x200 to 0x3ff are one large leaf from frame 0x400 on, and pages 0x400 and
// 0x401 small ones of frames 0x600 and 0x601.
fn mapped_tree(rt: &impl Abort, alloc: Global) -> Result<(Pool, Tree), AllocError>
    ensures { IfOk result (λ made. IsTree made.0 (levels made.1.width) made.1.root) }
{
    tree_with(rt, alloc, Width::W39, pages(0x200, 514))
}

// A tree in which, to be read alone, the pages of a range are mapped to frames from 0x400 on.
fn tree_with(
    rt: &impl Abort,
    alloc: Global,
    width: Width,
    range: PageRange,
) -> Result<(Pool, Tree), AllocError>
    requires fits { Fits range width }
    ensures { IfOk result (λ made. IsTree made.0 (levels made.1.width) made.1.root) }
{
    let mut pool = Pool::new(alloc, 16)?;
    let mut tree = Tree::new(&mut pool, width).expect(rt, "a free frame");
    let rights = Rights::from_number(1).expect(rt, "the right to read");
    tree.map(&mut pool, range, first_frame(0x400), rights)
        .expect(rt, "free frames");
    Ok((pool, tree))
}

// A few pages before the interrupt address range.
fn pages(first: u64, pages: u64) -> PageRange
    requires some { 1 ≤ pages }
    requires few { pages ≤ 4096 }
    requires first { 1 ≤ first }
    requires low { first + pages ≤ 0x1000 }
    ensures value { result ≡ record { first = first; pages = pages } }
    ensures fits { Fits result Width.W39 }
{
    PageRange::new(first, pages).unwrap()
}

fn first_frame(number: u64) -> Frame
    requires { number < 2 ^ 24 }
    ensures { result ≡ number }
{
    Frame::new(number).unwrap()
}

// The row in which device 3 is attached to domain 1 with this tree.
fn attached(rt: &impl Abort, tree: &Tree) -> Contexts {
    let mut row = Contexts::new();
    row.set(
        3,
        ContextEntry::Present {
            root: tree.root(),
            width: tree.width(),
            domain: domain_of(rt, 1),
        },
    );
    row
}

// The host address of a read by device 3, or the number of the fault.
fn read(
    unit: &mut Unit,
    pool: &Pool,
    row: &Contexts,
    address: u64,
    whim: Whim,
) -> Result<u64, u64> {
    unit.dma(pool, row, 3, address, Access::Read, whim)
        .map(|hit| hit.host)
        .map_err(|fault| fault.number())
}

#[test]
fn without_look_or_fill(rt: HostRuntime) -> Result<(), AllocError> {
    let (mut pool, tree) = mapped_tree(&rt, rt.alloc())?;
    let row = attached(&rt, &tree);
    let mut unit = Unit::new();
    for (address, answer) in [
        (0x200_000, Ok(0x400_000)),
        (0x1ff_000, Err(6)),
        (0x3ff_fff, Ok(0x5ff_fff)),
        (0x401_008, Ok(0x601_008)),
        (0x402_000, Err(6)),
        (0x7f_ffff_ffff, Err(6)),
        (0x80_0000_0000, Err(4)),
    ] {
        assert_eq!(rt; read(&mut unit, &pool, &row, address, NEITHER), answer);
    }
    assert!(rt;
        unit.leaves.as_slice().is_empty() && unit.non_leaves.is_empty() && unit.contexts.is_empty()
    );
    tree.destroy(&mut pool);
    Ok(())
}

// A unit that remembers these entries, in this order.
fn unit_with(
    rt: &impl Abort,
    leaves: &[CachedLeaf],
    tables: &[CachedNonLeaf],
    contexts: &[CachedContext],
) -> Unit {
    let mut cached_leaves = ArrayVec::new();
    for leaf in leaves {
        assert!(rt; cached_leaves.try_push(*leaf).is_ok());
    }
    let mut cached_tables = ArrayVec::new();
    for table in tables {
        assert!(rt; cached_tables.try_push(*table).is_ok());
    }
    let mut cached_contexts = ArrayVec::new();
    for context in contexts {
        assert!(rt; cached_contexts.try_push(*context).is_ok());
    }
    unit_of(
        cached_leaves,
        cached_tables,
        cached_contexts,
        ArrayVec::new(),
    )
}

#[test]
fn what_fills_remember(rt: HostRuntime) -> Result<(), AllocError> {
    let (mut pool, tree) = mapped_tree(&rt, rt.alloc())?;
    let row = attached(&rt, &tree);
    let mut unit = Unit::new();
    let way = [(0, 2), (0x400, 1)].as_slice();
    for (address, whim, answer, leaves) in [
        (0x402_000, FILL, Err(6), [].as_slice()),
        (0x400_000, FILL, Ok(0x600_000), [(0x400, 1)].as_slice()),
        (0x400_000, FILL, Ok(0x600_000), [(0x400, 1)].as_slice()),
        (
            0x250_000,
            BOTH,
            Ok(0x450_000),
            [(0x400, 1), (0x200, 512)].as_slice(),
        ),
        (
            0x402_000,
            BOTH,
            Err(6),
            [(0x400, 1), (0x200, 512)].as_slice(),
        ),
        (
            0x401_000,
            LOOK,
            Ok(0x601_000),
            [(0x400, 1), (0x200, 512)].as_slice(),
        ),
    ] {
        assert_eq!(rt; read(&mut unit, &pool, &row, address, whim), answer);
        assert_remembered(&rt, &unit, leaves, way, &[3]);
    }
    tree.destroy(&mut pool);
    Ok(())
}

#[test]
fn what_refused_fills_remember(rt: HostRuntime) -> Result<(), AllocError> {
    let (mut pool, tree) = mapped_tree(&rt, rt.alloc())?;
    let row = attached(&rt, &tree);
    let mut unit = Unit::new();
    let unattached = unit.dma(&pool, &row, 5, 0x400_000, Access::Read, FILL);
    assert_eq!(rt; unattached, Err(Fault::NotAttached));
    assert_remembered(&rt, &unit, &[], &[], &[]);
    assert_eq!(rt; read(&mut unit, &pool, &row, 1 << 39, FILL), Err(4));
    assert_remembered(&rt, &unit, &[], &[], &[3]);
    let written = unit.dma(&pool, &row, 3, 0x401_000, Access::Write, FILL);
    assert_eq!(rt; written, Err(Fault::Write));
    assert_remembered(&rt, &unit, &[(0x401, 1)], &[(0, 2), (0x400, 1)], &[3]);
    tree.destroy(&mut pool);
    Ok(())
}

#[test]
fn full_lists_lose_their_first_entry(rt: HostRuntime) -> Result<(), AllocError> {
    let (mut pool, tree) = mapped_tree(&rt, rt.alloc())?;
    let row = attached(&rt, &tree);
    let mut leaves = ArrayVec::new();
    let mut non_leaves = ArrayVec::new();
    for number in 0..64 {
        assert!(rt; leaves.try_push(small(&rt, 2, number)).is_ok());
        let _ = non_leaves.try_push(table(&rt, 2, 512 * number, 1));
    }
    let mut contexts = ArrayVec::new();
    for domain in 0..16 {
        let entry = context(&rt, 15 - domain / 15, 1 + domain % 15);
        assert!(rt; contexts.try_push(entry).is_ok());
    }
    let mut faults = ArrayVec::new();
    for page in 0..64 {
        assert!(rt; faults.try_push(absent(&rt, 2, page)).is_ok());
    }
    let mut unit = unit_of(leaves, non_leaves, contexts, faults);
    assert!(rt;
        unit.leaves.as_slice().len() == LEAVES
            && unit.non_leaves.is_full()
            && unit.contexts.is_full()
    );
    assert!(rt; unit.faults.is_full());
    assert_eq!(rt;
        read(&mut unit, &pool, &row, 0x400_000, FILL),
        Ok(0x600_000)
    );
    assert!(rt;
        unit.leaves
            .as_slice()
            .iter()
            .map(|leaf| leaf.first)
            .eq((1..64).chain([0x400]))
    );
    let firsts = unit.non_leaves.iter().map(|table| table.first / 512);
    assert!(rt; firsts.eq((2..32).chain([0, 2])));
    let domains = unit.contexts.iter().map(|context| context.domain.number());
    assert!(rt; domains.eq((2..16).chain([1, 1])));
    assert_eq!(rt; read(&mut unit, &pool, &row, 0x402_000, FILL), Err(6));
    let pages = unit.faults.iter().map(|fault| fault.page);
    assert!(rt; pages.eq((1..64).chain([0x402])));
    tree.destroy(&mut pool);
    Ok(())
}

#[test]
fn the_order_of_search(rt: HostRuntime) -> Result<(), AllocError> {
    let (mut pool, tree) = mapped_tree(&rt, rt.alloc())?;
    let row = attached(&rt, &tree);
    let mut filled = Unit::new();
    assert!(rt; read(&mut filled, &pool, &row, 0x400_000, FILL).is_ok());
    let way = filled.non_leaves.last().copied().expect(&rt, "a table");
    // Tables without entries, which answer nothing where they serve.
    let low = table(&rt, 1, 0x400, 1);
    let high = table(&rt, 1, 0, 2);
    let other = table(&rt, 2, 0x400, 1);
    for (first, second, answer) in [
        (high, other, Err(6)),
        (high, way, Ok(0x600_000)),
        (low, way, Err(6)),
        (way, low, Ok(0x600_000)),
        (other, way, Ok(0x600_000)),
    ] {
        let mut unit = unit_with(&rt, &[], &[first, second], &[]);
        assert_eq!(rt; read(&mut unit, &pool, &row, 0x400_000, LOOK), answer);
        assert_eq!(rt;
            read(&mut unit, &pool, &row, 0x400_000, NEITHER),
            Ok(0x600_000)
        );
    }
    for (first, second, answer) in [
        (small(&rt, 1, 0x200), large(&rt, 1, 0x200), Ok(0x100_000)),
        (large(&rt, 1, 0x200), small(&rt, 1, 0x200), Ok(0x400_000)),
        (small(&rt, 2, 0x200), small(&rt, 1, 0x201), Err(6)),
    ] {
        let mut unit = unit_with(&rt, &[first, second], &[high], &[]);
        assert_eq!(rt; read(&mut unit, &pool, &row, 0x200_000, LOOK), answer);
    }
    tree.destroy(&mut pool);
    Ok(())
}

#[test]
fn which_context_serves(rt: HostRuntime) -> Result<(), AllocError> {
    let (mut pool, tree) = mapped_tree(&rt, rt.alloc())?;
    let row = attached(&rt, &tree);
    let mut filled = Unit::new();
    assert!(rt; read(&mut filled, &pool, &row, 0x400_000, FILL).is_ok());
    let own = filled.contexts.first().copied().expect(&rt, "a context");
    // Its root has no entries.
    let stale = context(&rt, 3, 2);
    let other = context(&rt, 4, 2);
    for (first, second, answer) in [
        (stale, own, Err(6)),
        (own, stale, Ok(0x600_000)),
        (other, stale, Err(6)),
    ] {
        let mut unit = unit_with(&rt, &[], &[], &[first, second]);
        assert_eq!(rt; read(&mut unit, &pool, &row, 0x400_000, LOOK), answer);
        assert_eq!(rt;
            read(&mut unit, &pool, &row, 0x400_000, NEITHER),
            Ok(0x600_000)
        );
        let empty = Contexts::new();
        assert_eq!(rt; read(&mut unit, &pool, &empty, 0x400_000, LOOK), answer);
        assert_eq!(rt; read(&mut unit, &pool, &empty, 0x400_000, NEITHER), Err(2));
    }
    tree.destroy(&mut pool);
    Ok(())
}

#[test]
fn absent_pages(rt: HostRuntime) -> Result<(), AllocError> {
    let (mut pool, tree) = mapped_tree(&rt, rt.alloc())?;
    let row = attached(&rt, &tree);
    let mut unit = Unit::with_caching(true);
    // No context, no fill, beyond the width, and a page that is there, without the right.
    let unattached = unit.dma(&pool, &row, 5, 0x402_000, Access::Read, BOTH);
    assert_eq!(rt; unattached, Err(Fault::NotAttached));
    assert_eq!(rt; read(&mut unit, &pool, &row, 0x402_000, LOOK), Err(6));
    assert_eq!(rt; read(&mut unit, &pool, &row, 1 << 39, FILL), Err(4));
    let written = unit.dma(&pool, &row, 3, 0x401_000, Access::Write, FILL);
    assert_eq!(rt; written, Err(Fault::Write));
    assert_absent(&rt, &unit, &[]);

    // Twice the same page is one entry.
    for address in [0x402_000, 0x402_fff, 0x1ff_000, 0x402_008] {
        assert_eq!(rt; read(&mut unit, &pool, &row, address, FILL), Err(6));
    }
    assert_absent(&rt, &unit, &[(1, 0x402), (1, 0x1ff)]);
    let written = unit.dma(&pool, &row, 3, 0x403_000, Access::Write, BOTH);
    assert_eq!(rt; written, Err(Fault::Write));
    assert_absent(&rt, &unit, &[(1, 0x402), (1, 0x1ff), (1, 0x403)]);

    // Without Caching Mode none is remembered.
    let mut unit = Unit::new();
    assert!(rt; !unit.is_caching());
    assert_eq!(rt; read(&mut unit, &pool, &row, 0x402_000, BOTH), Err(6));
    assert_absent(&rt, &unit, &[]);
    tree.destroy(&mut pool);
    Ok(())
}

#[test]
fn what_absent_pages_answer(rt: HostRuntime) -> Result<(), AllocError> {
    let (mut pool, tree) = mapped_tree(&rt, rt.alloc())?;
    let row = attached(&rt, &tree);
    let mut faults = ArrayVec::new();
    for fault in [
        absent(&rt, 1, 0x400),
        absent(&rt, 2, 0x401),
        absent(&rt, 1, 0x200),
    ] {
        assert!(rt; faults.try_push(fault).is_ok());
    }
    let mut leaves = ArrayVec::new();
    assert!(rt; leaves.try_push(small(&rt, 1, 0x200)).is_ok());
    let mut unit = unit_of(leaves, ArrayVec::new(), ArrayVec::new(), faults);
    assert!(rt; unit.is_caching());
    for (address, whim, answer) in [
        (0x400_000, LOOK, Err(6)),
        (0x400_000, NEITHER, Ok(0x600_000)),
        (0x401_000, LOOK, Ok(0x601_000)),
        // A cached leaf serves before.
        (0x200_000, LOOK, Ok(0x100_000)),
        (0x201_000, LOOK, Ok(0x401_000)),
    ] {
        assert_eq!(rt; read(&mut unit, &pool, &row, address, whim), answer);
    }
    let written = unit.dma(&pool, &row, 3, 0x400_000, Access::Write, LOOK);
    assert_eq!(rt; written, Err(Fault::Write));
    tree.destroy(&mut pool);
    Ok(())
}

#[test]
fn a_wide_domain(rt: HostRuntime) -> Result<(), AllocError> {
    let high = 1 << 27;
    let range = PageRange::new(high + 0x400, 2).expect(&rt, "a range");
    assert!(rt; range.fits(Width::W48));
    let (mut pool, tree) = tree_with(&rt, rt.alloc(), Width::W48, range)?;
    let row = attached(&rt, &tree);
    let mut unit = Unit::with_caching(true);
    for (address, whim, answer) in [
        (0x80_0040_0008, FILL, Ok(0x400_008)),
        (0x80_0040_1000, LOOK, Ok(0x401_000)),
        (0x40_1000, FILL, Err(6)),
        (0xffff_ffff_f000, BOTH, Err(6)),
        (0x1_0000_0000_0000, BOTH, Err(4)),
    ] {
        assert_eq!(rt; read(&mut unit, &pool, &row, address, whim), answer);
    }
    let way = [(high, 3), (high, 2), (high + 0x400, 1)];
    assert_remembered(&rt, &unit, &[(high + 0x400, 1)], &way, &[3]);
    assert_absent(&rt, &unit, &[(1, 0x401), (1, 0xf_ffff_ffff)]);
    tree.destroy(&mut pool);
    Ok(())
}
