//! The lines of a trace, judged one after the other.

ghost use Rattle.std.specs.Prelude.{◌≡◌, ◌↔◌, [], true, false, IsErrOf};
ghost use Rattle.std.specs.Io.KnownBytes.{prepend_known};
ghost use Rattle.traces.specs.Checked.{CheckedKnown};

use crate::error::CheckError;
use crate::finding::Finding;
use arrayvec::ArrayVec;
use checker::{Checker, LONGEST_TRACE_LINE, parse_event};
use std::alloc::Global;
use std::io::Read;
use std::sync::Wait;
use streams::{Counted, LineEnd, NoSink, Source, Stream, StreamError, next_line};

/// What a trace is found to be.
#[derive(Drop)]
pub enum Judgement {
    /// Every event is a step. The number counts them.
    Legal(u64),
    /// An event is no step.
    Illegal(Finding),
}

/// Reads a trace to its end, its first bad line or the first event that is no step, from the world with so many table frames and
/// nothing else.
///
/// A line of a trace is what `checker::parse_event` reads, and its newline. Of a bad line at most 601 bytes are taken, and after it,
/// or after an event that is no step, nothing is. Memory is taken for what is live or retired, and no more.
pub fn check<T: Wait, R: Read>(
    rt: &T,
    alloc: Global,
    reader: &mut Counted<R>,
    table_frames: u64,
) -> Result<Judgement, CheckError>
    requires reader { reader.old.wrapped.failed ≡ false }
    ensures checked { CheckedKnown table_frames
        (prepend_known reader.old.block (R.remaining reader.old.wrapped.inner))
        (prepend_known reader.new.block (R.remaining reader.new.wrapped.inner)) result }
    ensures reader { (reader.new.wrapped.failed ≡ true) ↔ IsErrOf result CheckError.Read }
    ensures used_up { IsErrOf result CheckError.Read → reader.new.block ≡ [] }
{
    check_lines(rt, alloc, reader, table_frames)
}

fn check_lines<T: Wait, R: Source>(
    rt: &T,
    alloc: Global,
    reader: &mut Stream<R>,
    table_frames: u64,
) -> Result<Judgement, CheckError>
    requires reader { R.has_failed reader.old.wrapped ≡ false }
    ensures checked { CheckedKnown table_frames
        (prepend_known reader.old.block (R.remaining reader.old.wrapped))
        (prepend_known reader.new.block (R.remaining reader.new.wrapped)) result }
    ensures reader { (R.has_failed reader.new.wrapped ≡ true) ↔ IsErrOf result CheckError.Read }
    ensures used_up { IsErrOf result CheckError.Read → reader.new.block ≡ [] }
{
    let mut checker = Checker::new(alloc, table_frames);
    let mut line = ArrayVec::<u8, LONGEST_TRACE_LINE>::new();
    let mut nowhere = Stream::over(NoSink);
    let mut number = 1u64;
    for _ in rt.forever() {
        match next_line(reader, &mut nowhere, &mut line) {
            Ok(LineEnd::Newline) => {}
            Ok(LineEnd::Nothing) => return Ok(Judgement::Legal(number - 1)),
            Ok(LineEnd::Cut) => return Err(CheckError::BadLine(number)),
            Ok(LineEnd::Long) => return Err(CheckError::BadLine(number)),
            Err(StreamError::Read) => return Err(CheckError::Read),
            Err(StreamError::Write) => unreachable!(),
        }
        let Some(event) = parse_event(line.as_slice()) else {
            return Err(CheckError::BadLine(number));
        };
        if !checker.judge(&event.call, event.reply)? {
            let finding = Finding::of(&checker, alloc, number, event)?;
            return Ok(Judgement::Illegal(finding));
        }
        number = number.saturating_add(1);
    }
    unreachable!()
}
