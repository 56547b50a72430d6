//! The written forms of replies, and the edges of pages, frames, ranges and rights.

use arrayvec::ArrayString;
use dmatypes::*;

#[test]
fn reply_lines(rt: HostRuntime) {
    let rows = [
        (Reply::Made(15), "domain 15\n"),
        (Reply::Made(u64::MAX), "domain 18446744073709551615\n"),
        (Reply::Done, "ok\n"),
        (Reply::Mapped(0x1000), "map 0x1000\n"),
        (Reply::Mapped(0x7ffffff000), "map 0x7ffffff000\n"),
        (Reply::Unmapped(0), "unmapped 0\n"),
        (Reply::Unmapped(256), "unmapped 256\n"),
        (Reply::Unmapped(u64::MAX), "unmapped 18446744073709551615\n"),
        (Reply::Flushed(0), "flushed 0\n"),
        (Reply::Flushed(256), "flushed 256\n"),
        (Reply::Flushed(u64::MAX), "flushed 18446744073709551615\n"),
        (Reply::Host(0), "host 0x0\n"),
        (Reply::Host(0x100234), "host 0x100234\n"),
        (Reply::Host(u64::MAX), "host 0xffffffffffffffff\n"),
        (Reply::Faulted(Fault::NotAttached), "fault 2\n"),
        (Reply::Faulted(Fault::BeyondWidth), "fault 4\n"),
        (Reply::Faulted(Fault::Write), "fault 5\n"),
        (Reply::Faulted(Fault::Read), "fault 6\n"),
    ];
    let mut line = ArrayString::new();
    for (reply, wanted) in rows {
        reply_line(reply, &mut line);
        assert_eq!(rt; line.as_str(), wanted);
        assert_eq!(rt; parse_reply(wanted.trim_end().as_bytes()), Some(reply));
    }
}

#[test]
fn refusal_lines(rt: HostRuntime) {
    let rows = [
        (Refusal::NoDomain, "refused 1\n"),
        (Refusal::NoDevice, "refused 2\n"),
        (Refusal::Busy, "refused 3\n"),
        (Refusal::NotAttached, "refused 4\n"),
        (Refusal::BadRange, "refused 5\n"),
        (Refusal::FrameOwned, "refused 6\n"),
        (Refusal::NoRange, "refused 7\n"),
        (Refusal::NoFrames, "refused 8\n"),
        (Refusal::TooManyPieces, "refused 9\n"),
        (Refusal::NotLive, "refused 10\n"),
        (Refusal::Window, "refused 11\n"),
        (Refusal::TooManyDomains, "refused 12\n"),
        (Refusal::BadTicket, "refused 13\n"),
        (Refusal::TooManyTickets, "refused 14\n"),
        (Refusal::HistoryFull, "refused 15\n"),
    ];
    let mut line = ArrayString::new();
    for (refusal, wanted) in rows {
        let event = Event {
            call: Call::Domain {
                mode: Mode::Strict,
                width: Width::W39,
            },
            reply: Reply::Refused(refusal),
        };
        event_line(&event, &mut line);
        assert_eq!(rt; line.as_str(), wanted);
        assert_eq!(rt;
            parse_reply(wanted.trim_end().as_bytes()),
            Some(event.reply)
        );
    }
}

// The number of the page of this number, where there is one.
fn page_of(number: u64) -> Option<u64> {
    Some(Page::new(number)?.number())
}

// The number of the frame of this number, where there is one.
fn frame_of(number: u64) -> Option<u64> {
    Some(Frame::new(number)?.number())
}

#[test]
fn edges_of_pages(rt: HostRuntime) {
    for (number, is_page) in [
        (1, true),
        (0xfedff, true),
        (0xfef00, true),
        (0x7ffffff, true),
        (0x8000000, true),
        (0xf_ffff_ffff, true),
        (0, false),
        (0xfee00, false),
        (0xfeeff, false),
        (0x10_0000_0000, false),
        (u64::MAX, false),
    ] {
        assert!(rt; (page_of(number) == Some(number)) == is_page);
        assert!(rt; page_of(number).is_some() == is_page);
    }
}

#[test]
fn edges_of_frames(rt: HostRuntime) {
    for (number, is_frame) in [
        (0, true),
        (0xffffff, true),
        (0x1000000, false),
        (u64::MAX, false),
    ] {
        assert!(rt; (frame_of(number) == Some(number)) == is_frame);
        assert!(rt; frame_of(number).is_some() == is_frame);
    }
}

// The first page and the number of pages of this range, where there is one.
fn range_of(start: u64, pages: u64) -> Option<(u64, u64)> {
    let range = PageRange::new(start, pages)?;
    Some((range.first(), range.pages()))
}

#[test]
fn edges_of_ranges(rt: HostRuntime) {
    for (start, pages) in [
        (1, 1),
        (1, 4096),
        (0xfedff, 1),
        (0xfef00, 4096),
        (0x7ffffff, 2),
        (0xf_ffff_ffff, 1),
        (0xf_ffff_f000, 4096),
    ] {
        assert!(rt; range_of(start, pages) == Some((start, pages)));
    }
}

#[test]
fn edges_of_no_ranges(rt: HostRuntime) {
    for (start, pages) in [
        (0, 1),
        (1, 0),
        (1, 4097),
        (0xfedff, 2),
        (0xfee00, 1),
        (0xfeeff, 1),
        (0xfe000, 4096),
        (0xf_ffff_ffff, 2),
        (0xf_ffff_f001, 4096),
        (0x10_0000_0000, 1),
        (u64::MAX, 2),
        (1, u64::MAX),
    ] {
        assert!(rt; range_of(start, pages).is_none(), "{pages} from {start}");
    }
}

// Whether this range fits 39 bits, and whether it fits 48, where there is such a range.
fn fits_of(start: u64, pages: u64) -> Option<(bool, bool)> {
    let range = PageRange::new(start, pages)?;
    Some((range.fits(Width::W39), range.fits(Width::W48)))
}

#[test]
fn widths_that_ranges_fit(rt: HostRuntime) {
    for (start, pages, fits) in [
        (1, 1, (true, true)),
        (0x7ffffff, 1, (true, true)),
        (0x7fff000, 4096, (true, true)),
        (0x7ffffff, 2, (false, true)),
        (0x7fff001, 4096, (false, true)),
        (0x8000000, 1, (false, true)),
        (0xf_ffff_ffff, 1, (false, true)),
    ] {
        assert!(rt; fits_of(start, pages) == Some(fits), "{pages} from {start}");
    }
}

// Whether the rights of this number permit an access, where there are such.
fn permits(number: u64, access: Access) -> Option<bool> {
    Some(Rights::from_number(number)?.permits(access))
}

#[test]
fn rights_by_number(rt: HostRuntime) {
    for (number, reads, writes) in [
        (1, Some(true), Some(false)),
        (2, Some(false), Some(true)),
        (3, Some(true), Some(true)),
        (0, None, None),
        (4, None, None),
        (257, None, None),
        (u64::MAX, None, None),
    ] {
        assert!(rt; permits(number, Access::Read) == reads);
        assert!(rt; permits(number, Access::Write) == writes);
    }
}

// The smallest aligned block around a range, where there is such a range.
fn block_of(start: u64, pages: u64) -> Option<(u64, u8)> {
    Some(aligned_block(PageRange::new(start, pages)?))
}

#[test]
fn smallest_blocks(rt: HostRuntime) {
    for (start, pages, block) in [
        (0x201, 1, (0x201, 0)),
        (1, 2, (0, 2)),
        (0x200, 512, (0x200, 9)),
        (0x3ff, 2, (0, 11)),
    ] {
        assert!(rt;
            block_of(start, pages) == Some(block),
            "{pages} from {start}"
        );
    }
}
