//! Extents of what is to be mapped.

ghost use Rattle.std.specs.Prelude.{◌≡◌, ◌+◌, ◌-◌, ◌/◌, ◌^◌, ◌<◌, ◌≤◌};
ghost use Rattle.dmatypes.specs.Rights.{AreRights, bits_of};
ghost use Rattle.dmatypes.specs.declared.page.TheConstants.{FRAMES_END, SPAN_PAGES};
ghost use Rattle.dmatypes.specs.declared.width.TheConstants.{PAGES_END};

use crate::segments::{Passed, rest_behind};
use dmatypes::{FRAMES_END, PAGES_END, Rights, SPAN_PAGES, Segment};

/// Pages in one span of 512, and the host frames from a first one on that they are to be mapped to.
#[derive(Clone, Copy)]
pub struct Extent {
    pub from: u64,
    pub to: u64,
    pub frame: u64,
    pub rights: Rights,
    ghost some: { from < to },
    ghost one_span: { from / SPAN_PAGES ≡ (to - 1) / SPAN_PAGES },
    ghost pages: { to ≤ PAGES_END },
    ghost frames: { frame + (to - from) ≤ FRAMES_END },
    ghost may: { AreRights (bits_of rights) },
}

impl Extent {
    ghost use Rattle.std.specs.Prelude.{ℕ, ◌*◌, ◌%◌, false, IfSome, IfNone};
    ghost use Rattle.dmatypes.specs.Conditions.{total_pages};
    ghost use Rattle.dmatypes.specs.World.{placed};
    ghost use Rattle.tables.specs.Segments.{AreSegments, ArePassed, is_large_at};
    ghost use Rattle.tables.specs.Extents.{extent_states, is_large};

    /// The extent that begins at a page of the segments, which follow one another from a first page on: up to
    /// the end of the page's segment or of its span. Segments before it were passed.
    pub(crate) fn at(
        segments: &[Segment],
        first: u64,
        passed: &mut Passed,
        page: u64,
        rights: Rights,
    ) -> Option<Extent>
        requires segments { AreSegments segments.now }
        requires within { first + total_pages segments.now ≤ PAGES_END }
        requires after { first ≤ page }
        requires rights { AreRights (bits_of rights) }
        requires passed { ArePassed segments.now first page passed.old }
        ensures passed { ArePassed segments.now first page passed.new }
        ensures none { IfNone result (first + total_pages segments.now ≤ page) }
        ensures page { IfSome result (λ x. x.from ≡ page) }
        ensures within { IfSome result (λ x. x.to ≤ first + total_pages segments.now) }
        ensures placed { IfSome result
            (λ x. (p : ℕ) → page ≤ p → p < x.to → placed segments.now first (bits_of rights) p ≡ extent_states x p) }
        ensures large { IfSome result (λ x. is_large x ≡ is_large_at segments.now first page) }
        ensures inner { IfSome result
            (λ x. 0 < x.to % SPAN_PAGES → is_large_at segments.now first (SPAN_PAGES * (x.to / SPAN_PAGES)) ≡ false) }
    {
        let rest = rest_behind(segments, first, passed, page)?;
        let to = (page + rest.pages).min((page / SPAN_PAGES + 1) * SPAN_PAGES);
        Some(Extent {
            from: page,
            to,
            frame: rest.frame,
            rights,
        })
    }

    /// Whether it can be one leaf of 512 pages.
    pub(crate) fn is_large(self) -> bool
        ensures { result ≡ is_large self }
    {
        self.from % SPAN_PAGES == 0
            && self.to - self.from == SPAN_PAGES
            && self.frame % SPAN_PAGES == 0
    }
}
