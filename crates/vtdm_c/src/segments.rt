//! The segments that C names.

ghost use Rattle.std.specs.Prelude.{◌≡◌, ◌≤◌, ◌<◌, IfSome, IfNone, length, map};
ghost use Rattle.dmatypes.specs.declared.limits.TheConstants.{MOST_SEGMENTS};
ghost use Rattle.vtdm_c.specs.Base.{numbered};
ghost use Rattle.vtdm_c.specs.Segments.{named};

use crate::base::Base;
use arrayvec::ArrayVec;
use dmatypes::MOST_SEGMENTS;

/// Pages of 4 KiB that follow one another from a host frame on, as C lays it out.
#[repr(C)]
#[derive(Clone, Copy, Debug, PartialEq, Eq)]
pub struct Segment {
    pub frame: u64,
    pub pages: u64,
}

/// The segments that C names, in its order, by the manager's numbers of host frames; `None` exactly where they are more than 16.
pub(crate) fn list_of(
    segments: &[Segment],
    base: Base,
) -> Option<ArrayVec<dmatypes::Segment, MOST_SEGMENTS>>
    ensures some { IfSome result
        (λ list. (list.items ≡ map (numbered base.first) (named segments.now)) × (length segments.now ≤ MOST_SEGMENTS)) }
    ensures none { IfNone result (MOST_SEGMENTS < length segments.now) }
{
    if segments.len() > MOST_SEGMENTS {
        return None;
    }
    let mut list = ArrayVec::new();
    for segment in segments {
        list.push(dmatypes::Segment {
            frame: base.number_of(segment.frame, segment.pages),
            pages: segment.pages,
        });
    }
    Some(list)
}
