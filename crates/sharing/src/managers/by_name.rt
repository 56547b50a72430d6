//! Each call of a book by its name.

ghost use Rattle.manager.specs.Kept.{IsNamedBy};

use super::{made, seed_of};
use arrayvec::ArrayVec;
use dmatypes::{Access, Cache, Mode, Progress, Refusal, Reply, Segment, Whim, Width};
use manager::*;
use std::alloc::Global;
use std::marker::Brand;
use std::process::Abort;
use std::sync::Wait;
use std::test::Fail;

#[test]
fn calls_by_name(rt: HostRuntime) -> Result<(), Fail> {
    let seed = seed_of(rt.alloc(), 64, 16, 1)?;
    named::<Brand, _>(&rt, rt.alloc(), seed)
}

// One of each. The history's events are those calls, and a call without room isn't among them.
fn named<B: Owner, R: Wait + Abort>(rt: &R, alloc: Global, seed: Seed) -> Result<(), Fail>
    requires { IsNamedBy seed B.name B.parts B.shares B.room B.frames B.mode B.rows B.most B.handing }
{
    let (manager, rows, _, mut mine) = made::<B>(alloc, seed)?;
    let mut guard = manager.lock(rt);
    let book = &mut *guard;
    make_and_map(rt, book, &rows, &mut mine)?;
    end_and_flush(rt, book, &rows, &mut mine)?;
    assert_eq!(rt; book.detach(&rows, &mut mine, 3), Ok((15, Reply::Done)));
    let refused = Reply::Refused(Refusal::NoDomain);
    assert_eq!(rt; book.drop_domain(&rows, &mut mine, 2), Ok((16, refused)));
    assert!(rt; book.drop_domain(&rows, &mut mine, 1).is_err());
    assert_eq!(rt; book.events().len(), 16);
    Ok(())
}

// A lazy domain with four pages, of which a device reads one.
fn make_and_map<B: Owner, R: Abort>(
    rt: &R,
    book: &mut Book<B>,
    rows: &Rows<B>,
    mine: &mut Share<B>,
) -> Result<(), Fail> {
    let made = book.domain(rows, mine, Mode::Lazy, Width::W39);
    assert_eq!(rt; made, Ok((1, Reply::Made(1))));
    assert_eq!(rt; book.attach(rows, mine, 3, 1), Ok((2, Reply::Done)));
    let mapped = book.map(rows, mine, 1, 0x100, 2, 0, 3);
    assert_eq!(rt; mapped, Ok((3, Reply::Mapped(0x1000))));
    let mut segments = ArrayVec::new();
    segments.push(Segment {
        frame: 0x200,
        pages: 1,
    });
    segments.push(Segment {
        frame: 0x300,
        pages: 1,
    });
    let mapped = book.map_list(rows, mine, 1, 0, 1, segments);
    assert_eq!(rt; mapped, Ok((4, Reply::Mapped(0x3000))));
    let whim = Whim {
        look: true,
        fill: true,
    };
    let read = book.dma(rows, mine, 3, 0x4010, Access::Read, whim);
    assert_eq!(rt; read, Ok((5, Reply::Host(0x30_0010))));
    assert_eq!(rt;
        book.evict(rows, mine, Cache::Leaf, 0),
        Ok((6, Reply::Done))
    );
    Ok(())
}

// They end, and are flushed at once and in two halves.
fn end_and_flush<B: Owner, R: Abort>(
    rt: &R,
    book: &mut Book<B>,
    rows: &Rows<B>,
    mine: &mut Share<B>,
) -> Result<(), Fail> {
    let ended = Reply::Unmapped(0);
    assert_eq!(rt; book.unmap(rows, mine, 1, 0x1000, 2), Ok((7, ended)));
    assert_eq!(rt; book.flush(rows, mine, 1), Ok((8, Reply::Flushed(1))));
    assert_eq!(rt; book.unmap(rows, mine, 1, 0x3000, 2), Ok((9, ended)));
    let ticket = Reply::Ticket {
        domain: 1,
        number: 1,
    };
    assert_eq!(rt; book.begin(rows, mine, 1), Ok((10, ticket)));
    assert_eq!(rt; book.reap(rows, mine, 1, 1), Ok((11, Reply::Pending)));
    let did = Reply::Stepped(Progress::Did);
    assert_eq!(rt; book.unit_step(rows, mine), Ok((12, did)));
    assert_eq!(rt; book.unit_step(rows, mine), Ok((13, did)));
    assert_eq!(rt; book.reap(rows, mine, 1, 1), Ok((14, Reply::Reaped(1))));
    Ok(())
}
