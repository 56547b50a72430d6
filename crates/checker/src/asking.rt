//! What maps and unmaps ask for, and whether that can be.

ghost use Rattle.std.specs.Prelude.{◌≡◌, ◌↔◌, ◌≤◌, ◌<◌, ◌+◌, ◌==◌, nat_lt, IsTrue, MatchOption};
ghost use Rattle.std.specs.List.{list_any};
ghost use Rattle.dmatypes.specs.declared.page.TheConstants.{FRAMES_END, MOST_PAGES};
ghost use Rattle.dmatypes.specs.Conditions.{IsBadMap, IsBadUnmap, SomeHas, total_pages};
ghost use Rattle.checker.specs.Pages.{range};
ghost use Rattle.dmatypes.specs.Page.{Fits, IsPageRange, offset_of, range_at};
ghost use Rattle.dmatypes.specs.Rights.{AreRights};

use dmatypes::{FRAMES_END, MOST_ORDER, MOST_PAGES, PAGE_BYTES, PageRange, Segment, Width};

/// Whether no map asks for that.
pub(crate) fn is_bad_map(segments: &[Segment], order: u64, rights: u64) -> bool
    ensures { IsTrue result ↔ IsBadMap segments.now order rights }
{
    segments.is_empty()
        || has_empty(segments)
        || pages_of(segments).is_none()
        || has_far(segments)
        || order > MOST_ORDER
        || !are_rights(rights)
}

/// How many pages the segments have together, where these are at most 4,096.
pub fn pages_of(segments: &[Segment]) -> Option<u64>
    ensures { MatchOption result (MOST_PAGES < total_pages segments.now) (λ n. (n ≡ total_pages segments.now) × (n ≤ MOST_PAGES)) }
{
    let mut pages = 0;
    for segment in segments {
        if segment.pages > MOST_PAGES - pages {
            return None;
        }
        pages += segment.pages;
    }
    Some(pages)
}

// Whether a segment has no page.
fn has_empty(segments: &[Segment]) -> bool
    ensures { IsTrue result ↔ SomeHas (λ s. s.pages ≡ 0) segments.now }
{
    any_empty(segments)
}

fn any_empty(segments: &[Segment]) -> bool
    ensures { result ≡ list_any (λ s. s.pages == 0) segments.now }
{
    segments.iter().any(|segment| segment.pages == 0)
}

// Whether a segment has frames that no host has.
fn has_far(segments: &[Segment]) -> bool
    ensures { IsTrue result ↔ SomeHas (λ s. FRAMES_END < s.frame + s.pages) segments.now }
{
    any_far(segments)
}

fn any_far(segments: &[Segment]) -> bool
    ensures { result ≡ list_any (λ s. nat_lt FRAMES_END (s.frame + s.pages)) segments.now }
{
    segments.iter().any(|segment| is_far(*segment))
}

fn is_far(segment: Segment) -> bool
    ensures { result ≡ nat_lt FRAMES_END (segment.frame + segment.pages) }
{
    segment.frame > FRAMES_END || segment.pages > FRAMES_END - segment.frame
}

/// Whether a segment has a frame below a number.
pub(crate) fn has_frame_below(segments: &[Segment], frames: u64) -> bool
    ensures { IsTrue result ↔ SomeHas (λ s. s.frame < frames) segments.now }
{
    any_below(segments, frames)
}

fn any_below(segments: &[Segment], frames: u64) -> bool
    ensures { result ≡ list_any (λ s. nat_lt s.frame frames) segments.now }
{
    segments.iter().any(|segment| segment.frame < frames)
}

fn are_rights(rights: u64) -> bool
    ensures { IsTrue result ↔ AreRights rights }
{
    1 <= rights && rights <= 3
}

/// The range that an unmap of a domain of this width names, where it names one.
pub(crate) fn unmap_range(address: u64, pages: u64, width: Width) -> Option<PageRange>
    ensures { MatchOption result
        (IsBadUnmap width address pages)
        (λ r. (r ≡ range_at address pages) × (IsBadUnmap width address pages → ⊥)) }
{
    if address % PAGE_BYTES != 0 {
        return None;
    }
    range_in(address / PAGE_BYTES, pages, width)
}

/// The range of pages from a first one on, where each of them is a page of this width.
pub(crate) fn range_in(first: u64, pages: u64, width: Width) -> Option<PageRange>
    ensures { MatchOption result
        (IsPageRange (range first pages) × Fits (range first pages) width → ⊥)
        (λ r. (r ≡ range first pages) × IsPageRange (range first pages) × Fits (range first pages) width) }
{
    match PageRange::new(first, pages) {
        Some(range) => where_fits(range, width),
        None => None,
    }
}

fn where_fits(range: PageRange, width: Width) -> Option<PageRange>
    ensures { MatchOption result (Fits range width → ⊥) (λ r. (r ≡ range) × Fits range width) }
{
    if range.fits(width) { Some(range) } else { None }
}
