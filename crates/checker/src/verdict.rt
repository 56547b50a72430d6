//! Judges whole histories.

ghost use Rattle.std.specs.Prelude.{IfOk};
ghost use Rattle.checker.specs.Verdicts.{IsVerdict};

use crate::checker::Checker;
use dmatypes::Event;
use std::alloc::{AllocError, Global};

/// What a history is found to be.
#[derive(Clone, Copy, Debug, PartialEq, Eq)]
pub enum Verdict {
    /// Every event is a step. The number counts them.
    Legal(u64),
    /// The event of this number, from 1, is the first that is no step.
    Illegal(u64),
}

/// Whether every event of a history is a step, from the world with so many table frames and nothing else; where not, which is
/// the first that isn't.
pub fn audit(alloc: Global, table_frames: u64, history: &[Event]) -> Result<Verdict, AllocError>
    ensures { IfOk result (IsVerdict table_frames history.now) }
{
    let mut checker = Checker::new(alloc, table_frames);
    let mut events = 0;
    for event in history {
        events += 1;
        if !checker.judge(&event.call, event.reply)? {
            return Ok(Verdict::Illegal(events));
        }
    }
    Ok(Verdict::Legal(events))
}
