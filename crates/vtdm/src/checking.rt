//! The program's checks of traces.

use crate::status::End;
use script::RunError;
use std::alloc::Global;
use std::io::{Read, Write};
use std::sync::Wait;
use streams::Counted;
use traces::{Judgement, check};

/// Judges a trace, and writes the verdict.
// Its room on the stack is not taken where no check is asked for.
#[inline(never)]
pub(crate) fn check_trace<T: Wait, R: Read + Drop, W: Write>(
    rt: &T,
    alloc: Global,
    frames: u64,
    input: R,
    output: &mut W,
) -> End {
    let mut reader = Counted::new(input);
    let (written, end) = match check(rt, alloc, &mut reader, frames) {
        Ok(Judgement::Legal(events)) => (writeln!(output, "legal {events}"), End::Done),
        Ok(Judgement::Illegal(finding)) => (writeln!(output, "{finding}"), End::Illegal),
        Err(error) => return End::Unchecked(error),
    };
    match written {
        Ok(()) => end,
        Err(_) => End::Stopped(RunError::Write),
    }
}
