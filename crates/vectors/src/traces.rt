//! Traces judged event by event, and what would have been allowed.

use checker::{Checker, PageState, Verdict, audit, parse_event};
use dmatypes::{Access, PageRange, Refusal, Reply, parse_line};
use std::test::Fail;

#[test]
fn events_in_a_strict_domain(rt: HostRuntime) -> Result<(), Fail> {
    let rows: [(&[u8], bool); 16] = [
        (b"domain strict => domain 1", true),
        (b"domain strict => domain 1", false),
        (b"attach 3 1 => ok", true),
        (b"attach 3 1 => ok", false),
        (b"attach 3 1 => refused 3", true),
        (b"map 1 0x400 512 9 r => map 0x200000", true),
        (b"map 1 0x400 1 0 rw => map 0x200000", false),
        (b"map 1 0xf 1 0 rw => map 0x1000", false),
        (b"map 1 0xf 1 0 rw => refused 6", true),
        (b"dma 3 0x201004 r => host 0x401004", true),
        (b"dma 3 0x201004 r => fault 6", false),
        (b"dma 3 0x201004 w => fault 5", true),
        (b"dma 3 0x8000000000 r => fault 4", true),
        (b"unmap 1 0x201000 1 => unmapped 0", true),
        (b"dma 3 0x201004 r => host 0x401004", false),
        (b"unmap 1 0x200000 2 => refused 10", true),
    ];
    let mut checker = Checker::new(rt.alloc(), 16);
    for (line, legal) in rows {
        let event = parse_event(line).expect(&rt, "an event");
        assert_eq!(rt; checker.judge(&event.call, event.reply)?, legal);
    }
    Ok(())
}

#[test]
fn events_in_a_lazy_wide_domain(rt: HostRuntime) -> Result<(), Fail> {
    let rows: [(&[u8], bool); 16] = [
        (b"domain lazy 48 => domain 15", true),
        (b"attach 0 15 => ok", true),
        (b"maplist 15 0 rw 0x100:1 0x90:2 => map 0x8000000000", true),
        (b"unmap 15 0x8000001000 1 => unmapped 0", true),
        (b"map 15 0x200 1 0 rw => map 0x8000001000", false),
        (b"dma 0 0x8000001008 w => host 0x90008", true),
        (b"dma 0 0x8000001008 w => fault 5", true),
        (b"begin 15 => ticket 15 2", false),
        (b"begin 15 => ticket 15 1", true),
        (b"unmap 15 0x8000002000 1 => unmapped 0", true),
        (b"reap 15 1 => pending", true),
        (b"reap 15 1 => reaped 2", false),
        (b"reap 15 1 => reaped 1", true),
        (b"map 15 0x200 1 0 rw => map 0x8000001000", true),
        (b"flush 15 => flushed 1", true),
        (b"unit => unit did", true),
    ];
    let mut checker = Checker::new(rt.alloc(), 16);
    for (line, legal) in rows {
        let event = parse_event(line).expect(&rt, "an event");
        assert_eq!(rt; checker.judge(&event.call, event.reply)?, legal);
    }
    Ok(())
}

#[test]
fn verdicts(rt: HostRuntime) -> Result<(), Fail> {
    let lines: [&[u8]; 3] = [
        b"domain strict => domain 2",
        b"map 2 0x20 1 0 rw => map 0x1000",
        b"drop 2 => refused 3",
    ];
    let mut history = Vec::new(rt.alloc());
    for line in lines {
        history.push(parse_event(line).expect(&rt, "an event"))?;
    }
    let (_, two) = history.as_slice().split_last().expect(&rt, "an event");
    assert_eq!(rt; audit(rt.alloc(), 16, two)?, Verdict::Legal(2));
    assert_eq!(rt;
        audit(rt.alloc(), 16, history.as_slice())?,
        Verdict::Illegal(3)
    );
    assert_eq!(rt;
        audit(rt.alloc(), 33, history.as_slice())?,
        Verdict::Illegal(2)
    );
    Ok(())
}

#[test]
fn what_would_have_been_allowed(rt: HostRuntime) -> Result<(), Fail> {
    let lines: [&[u8]; 5] = [
        b"domain lazy => domain 1",
        b"attach 3 1 => ok",
        b"map 1 0x20 1 0 rw => map 0x1000",
        b"unmap 1 0x1000 1 => unmapped 0",
        b"map 1 0x30 1 0 rw => map 0x3000",
    ];
    let mut checker = Checker::new(rt.alloc(), 16);
    for line in lines {
        let event = parse_event(line).expect(&rt, "an event");
        assert!(rt; checker.judge(&event.call, event.reply)?);
    }
    let drop = parse_line(b"drop 1").expect(&rt, "a call");
    assert_eq!(rt; checker.refusal_of(&drop), Some(Refusal::Busy));
    let rows: [(&[u8], Reply); 7] = [
        (b"drop 1", Reply::Refused(Refusal::Busy)),
        (b"domain strict", Reply::Made(2)),
        (b"map 1 0x30 2 0 r", Reply::Mapped(0x4000)),
        (b"unmap 1 0x3000 1", Reply::Unmapped(0)),
        (b"flush 1", Reply::Flushed(1)),
        (
            b"begin 1",
            Reply::Ticket {
                domain: 1,
                number: 1,
            },
        ),
        (b"dma 3 0x3004 w", Reply::Host(0x30004)),
    ];
    for (line, reply) in rows {
        let call = parse_line(line).expect(&rt, "a call");
        assert_eq!(rt; checker.expected(&call), Some(reply));
    }
    let allowed = checker.allowed(rt.alloc(), 3, 0x1004, Access::Read)?;
    let stale = allowed.iter().any(|reply| *reply == Reply::Host(0x20004));
    assert!(rt; stale && allowed.len() == 2);
    let range = PageRange::new(2, 2).expect(&rt, "a range");
    assert_eq!(rt; checker.obstacle(1, range), Some(3));
    let live = PageState::Live {
        frame: 0x30,
        rights: 3,
    };
    let retired = PageState::Retired {
        first: 1,
        pages: 1,
        mark: 0,
    };
    for (page, state) in [(1, retired), (2, PageState::Free), (3, live)] {
        assert_eq!(rt; checker.page_state(1, page), Some(state));
    }
    Ok(())
}

#[test]
fn lines_that_say_no_event(rt: HostRuntime) {
    let lines: [&[u8]; 7] = [
        b"domain strict",
        b"domain strict=> domain 1",
        b"domain strict => domain 01",
        b"domain strict => domain 1 ",
        b"map 1 0x20 1 0 rw => map 0X1000",
        b"drop 1 => refused 15",
        b" => ok",
    ];
    for line in lines {
        assert!(rt; parse_event(line).is_none());
    }
}
