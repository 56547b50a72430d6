//! Segments of host frames in one range of pages.

ghost use Rattle.std.specs.Prelude.{◌≡◌, ◌+◌, ◌<◌, ◌≤◌, ◌^◌};
ghost use Rattle.dmatypes.specs.Conditions.{total_pages};
ghost use Rattle.tables.specs.Segments.{rest_at, is_large_at, ArePassed, AreSegments};

use dmatypes::{PAGES_END, SPAN_PAGES, Segment};

/// What is left of a page's segment from that page on, where the segments follow one another from a first
/// page on.
pub(crate) fn rest_at(segments: &[Segment], first: u64, page: u64) -> Option<Segment>
    requires segments { AreSegments segments.now }
    requires within { first + total_pages segments.now ≤ PAGES_END }
    ensures { result ≡ rest_at segments.now first page }
{
    let mut start = first;
    for segment in segments {
        let end = start + segment.pages;
        if start <= page && page < end {
            return Some(Segment {
                frame: segment.frame + (page - start),
                pages: end - page,
            });
        }
        start = end;
    }
    None
}

/// How many segments lie before a page, and where the next one begins: who goes on from page to page need not pass them again.
#[derive(Drop)]
pub(crate) struct Passed {
    pub(crate) count: usize,
    pub(crate) start: u64,
}

/// As `rest_at`, where segments that lie before the page were passed already.
pub(crate) fn rest_behind(
    segments: &[Segment],
    first: u64,
    passed: &mut Passed,
    page: u64,
) -> Option<Segment>
    requires segments { AreSegments segments.now }
    requires within { first + total_pages segments.now ≤ PAGES_END }
    requires passed { ArePassed segments.now first page passed.old }
    ensures rest { result ≡ rest_at segments.now first page }
    ensures passed { ArePassed segments.now first page passed.new }
{
    while passed.count < segments.len() {
        let segment = &segments[passed.count];
        let end = passed.start + segment.pages;
        if page < end {
            return Some(Segment {
                frame: segment.frame + (page - passed.start),
                pages: end - page,
            });
        }
        passed.count += 1;
        passed.start = end;
    }
    None
}

/// Whether a leaf of 512 pages begins at the page, where no table is there.
pub(crate) fn is_large_at(segments: &[Segment], first: u64, page: u64) -> bool
    requires segments { AreSegments segments.now }
    requires within { first + total_pages segments.now ≤ PAGES_END }
    ensures { result ≡ is_large_at segments.now first page }
{
    if page % SPAN_PAGES != 0 {
        return false;
    }
    match rest_at(segments, first, page) {
        Some(rest) => rest.frame % SPAN_PAGES == 0 && rest.pages >= SPAN_PAGES,
        None => false,
    }
}
