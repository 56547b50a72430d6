//! Script lines that say calls. Such that say none are the worked rows `near-lines.row`, `bad-lines.row`, `longest-line.row`, and
//! here those of a width that no domain has.

use arrayvec::ArrayVec;
use dmatypes::{Access, Cache, Call, Mode, Segment, Whim, Width, parse_line};

// The call of a map of domain 1, of one page at any place.
fn map_of(frame: u64, rights: u64) -> Call {
    Call::Map {
        domain: 1,
        frame,
        pages: 1,
        order: 0,
        rights,
    }
}

// The call of a read of device 3 at 0x1234.
fn read_of(look: bool, fill: bool) -> Call {
    Call::Dma {
        device: 3,
        address: 0x1234,
        access: Access::Read,
        whim: Whim { look, fill },
    }
}

// The call that makes a domain.
fn domain_of(mode: Mode, width: Width) -> Call {
    Call::Domain { mode, width }
}

// The call that attaches a device to a domain.
fn attach_of(device: u64, domain: u64) -> Call {
    Call::Attach { device, domain }
}

#[test]
fn lines_that_attach_and_map(rt: HostRuntime) {
    let rows: [(&[u8], Call); 8] = [
        (b"domain strict", domain_of(Mode::Strict, Width::W39)),
        (b"attach 3 1", attach_of(3, 1)),
        (b"attach 0 18446744073709551615", attach_of(0, u64::MAX)),
        (b"attach 0x0f 0xffffffffffffffff", attach_of(15, u64::MAX)),
        (b"map 1 0x100 1 0 r", map_of(0x100, 1)),
        (b"map 1 256 1 0 w", map_of(0x100, 2)),
        (b"map 0x1 0xabcdef 0x01 0x0 rw", map_of(0xabcdef, 3)),
        (
            b"map 2 4096 512 9 rw",
            Call::Map {
                domain: 2,
                frame: 4096,
                pages: 512,
                order: 9,
                rights: 3,
            },
        ),
    ];
    for (line, call) in rows {
        assert_eq!(rt; parse_line(line), Some(call));
    }
}

#[test]
fn lines_that_request(rt: HostRuntime) {
    let rows: [(&[u8], Call); 7] = [
        (b"dma 3 0x1234 r", read_of(false, false)),
        (b"dma 3 4660 r", read_of(false, false)),
        (b"dma 3 0x1234 r look", read_of(true, false)),
        (b"dma 3 0x1234 r fill", read_of(false, true)),
        (b"dma 3 0x1234 r look fill", read_of(true, true)),
        (b"dma 0x3 0x0000000000001234 r", read_of(false, false)),
        (
            b"dma 16 0x8000000000 w",
            Call::Dma {
                device: 16,
                address: 0x8000000000,
                access: Access::Write,
                whim: Whim {
                    look: false,
                    fill: false,
                },
            },
        ),
    ];
    for (line, call) in rows {
        assert_eq!(rt; parse_line(line), Some(call));
    }
}

// The call of an unmap of domain 1.
fn unmap_of(address: u64, pages: u64) -> Call {
    Call::Unmap {
        domain: 1,
        address,
        pages,
    }
}

// The call that evicts the entry at a place of a cache.
fn evict_of(kind: Cache, place: u64) -> Call {
    Call::Evict { kind, place }
}

#[test]
fn lines_that_unmap_and_evict(rt: HostRuntime) {
    let rows: [(&[u8], Call); 11] = [
        (b"unmap 1 0x1000 1", unmap_of(0x1000, 1)),
        (b"unmap 1 4096 0x1", unmap_of(0x1000, 1)),
        (b"unmap 0x1 0x3ff000 2", unmap_of(0x3ff000, 2)),
        (b"unmap 1 0x0 0", unmap_of(0, 0)),
        (b"unmap 1 0x1001 4097", unmap_of(0x1001, 4097)),
        (
            b"unmap 18446744073709551615 0xffffffffffffffff 18446744073709551615",
            Call::Unmap {
                domain: u64::MAX,
                address: u64::MAX,
                pages: u64::MAX,
            },
        ),
        (b"evict leaf 0", evict_of(Cache::Leaf, 0)),
        (b"evict leaf 0x3f", evict_of(Cache::Leaf, 63)),
        (b"evict nonleaf 31", evict_of(Cache::NonLeaf, 31)),
        (b"evict context 15", evict_of(Cache::Context, 15)),
        (
            b"evict context 18446744073709551615",
            evict_of(Cache::Context, u64::MAX),
        ),
    ];
    for (line, call) in rows {
        assert_eq!(rt; parse_line(line), Some(call));
    }
}

#[test]
fn lines_that_end_and_flush(rt: HostRuntime) {
    let rows: [(&[u8], Call); 9] = [
        (b"domain lazy", domain_of(Mode::Lazy, Width::W39)),
        (b"drop 1", Call::Drop { domain: 1 }),
        (
            b"drop 18446744073709551615",
            Call::Drop { domain: u64::MAX },
        ),
        (b"drop 0xffffffffffffffff", Call::Drop { domain: u64::MAX }),
        (b"detach 3", Call::Detach { device: 3 }),
        (b"detach 0x10", Call::Detach { device: 16 }),
        (b"flush 1", Call::Flush { domain: 1 }),
        (b"flush 0xf", Call::Flush { domain: 15 }),
        (
            b"flush 18446744073709551615",
            Call::Flush { domain: u64::MAX },
        ),
    ];
    for (line, call) in rows {
        assert_eq!(rt; parse_line(line), Some(call));
    }
}

// Segments, each of a frame and a number of pages.
fn segments_of(pairs: &[(u64, u64)]) -> ArrayVec<Segment, 16> {
    let mut segments = ArrayVec::new();
    for (frame, pages) in pairs {
        let _fits = segments.try_push(Segment {
            frame: *frame,
            pages: *pages,
        });
    }
    segments
}

// The call of a map of segments into domain 1 at any place.
fn list_of(rights: u64, pairs: &[(u64, u64)]) -> Call {
    Call::MapList {
        domain: 1,
        order: 0,
        rights,
        segments: segments_of(pairs),
    }
}

// As many segments as a line holds.
const SIXTEEN: [(u64, u64); 16] = [
    (0, 1),
    (1, 1),
    (2, 1),
    (3, 1),
    (4, 1),
    (5, 1),
    (6, 1),
    (7, 1),
    (8, 2),
    (9, 2),
    (10, 2),
    (11, 2),
    (12, 2),
    (13, 2),
    (14, 2),
    (15, 2),
];

#[test]
fn lines_that_map_segments(rt: HostRuntime) {
    let rows: [(&[u8], Call); 8] = [
        (b"maplist 1 0 r 0x100:1", list_of(1, &[(0x100, 1)])),
        (b"maplist 1 0 w 256:0x1", list_of(2, &[(0x100, 1)])),
        (
            b"maplist 1 0 rw 0x100:1 0x200:2",
            list_of(3, &[(0x100, 1), (0x200, 2)]),
        ),
        (
            b"maplist 0x1 0x0 rw 0x0200:0x02 256:1 512:2",
            list_of(3, &[(0x200, 2), (0x100, 1), (0x200, 2)]),
        ),
        (b"maplist 1 0 r 0:0", list_of(1, &[(0, 0)])),
        (
            b"maplist 2 9 rw 0x400:512 0x800:512",
            Call::MapList {
                domain: 2,
                order: 9,
                rights: 3,
                segments: segments_of(&[(0x400, 512), (0x800, 512)]),
            },
        ),
        (
            b"maplist 1 0 r 18446744073709551615:0xffffffffffffffff",
            list_of(1, &[(u64::MAX, u64::MAX)]),
        ),
        (
            b"maplist 1 0 r 0:1 1:1 2:1 3:1 4:1 5:1 6:1 7:1 8:2 9:2 10:2 11:2 12:2 13:2 14:2 15:2",
            list_of(1, &SIXTEEN),
        ),
    ];
    for (line, call) in rows {
        assert_eq!(rt; parse_line(line), Some(call));
    }
}

#[test]
fn lines_that_say_a_width(rt: HostRuntime) {
    let rows: [(&[u8], Call); 4] = [
        (b"domain strict 39", domain_of(Mode::Strict, Width::W39)),
        (b"domain strict 48", domain_of(Mode::Strict, Width::W48)),
        (b"domain lazy 39", domain_of(Mode::Lazy, Width::W39)),
        (b"domain lazy 48", domain_of(Mode::Lazy, Width::W48)),
    ];
    for (line, call) in rows {
        assert_eq!(rt; parse_line(line), Some(call));
    }
}

#[test]
fn lines_that_say_no_width(rt: HostRuntime) {
    let lines: [&[u8]; 4] = [
        b"domain strict 40",
        b"domain strict 0x30",
        b"domain strict 39 39",
        b"domain 48",
    ];
    for line in lines {
        assert!(rt; parse_line(line).is_none());
    }
}

// No script has such a line: a newline ends it before.
#[test]
fn a_newline_within_a_line(rt: HostRuntime) {
    assert!(rt; parse_line(b"domain strict\n").is_none());
}
