//! A map, judged before its domain is looked at.

ghost use Rattle.std.specs.Prelude.{◌≡◌, ◌↔◌, IfNone, IfSome, IsTrue};
ghost use Rattle.dmatypes.specs.Conditions.{total_pages};
ghost use Rattle.engine.specs.Judged.{AreMappable, AreOwned, IsJudged};

use crate::wanted::Wanted;
use dmatypes::{FRAMES_END, MOST_ORDER, MOST_PAGES, Refusal, Rights, Segment};

/// What is wanted of these segments; `BadRange` where no map asks for that, else `FrameOwned` where a segment begins
/// at one of the table frames, which are those below `frames`.
pub(crate) fn judge(
    frames: u64,
    segments: &[Segment],
    order: u64,
    rights: u64,
) -> Result<Wanted, Refusal>
    ensures { IsJudged frames segments.now order rights result }
{
    let (Some(pages), Some(rights)) = (pages_of(segments), Rights::from_number(rights)) else {
        return Err(Refusal::BadRange);
    };
    if order > MOST_ORDER {
        return Err(Refusal::BadRange);
    }
    if is_owned(frames, segments) {
        return Err(Refusal::FrameOwned);
    }
    Ok(Wanted {
        pages,
        order,
        rights,
    })
}

// The pages of all segments, where a map can ask for these.
fn pages_of(segments: &[Segment]) -> Option<u64>
    ensures some { IfSome result (λ pages. (pages ≡ total_pages segments.now) × AreMappable segments.now) }
    ensures none { IfNone result (AreMappable segments.now → ⊥) }
{
    let mut pages = 0;
    for segment in segments {
        if segment.pages == 0
            || segment.pages > MOST_PAGES - pages
            || segment.frame > FRAMES_END - segment.pages
        {
            return None;
        }
        pages += segment.pages;
    }
    if pages == 0 {
        return None;
    }
    Some(pages)
}

// Whether a segment begins at a table frame.
fn is_owned(frames: u64, segments: &[Segment]) -> bool
    ensures { IsTrue result ↔ AreOwned frames segments.now }
{
    for segment in segments {
        if segment.frame < frames {
            return true;
        }
    }
    false
}
