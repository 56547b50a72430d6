//! A script on a manager of its own: a run, or a report.

ghost use Rattle.std.specs.Prelude.{◌≡◌, ◌↔◌, ◌≤◌, ◌⊎◌, [], Err, true, false, length, vec_len, All, IfOk, IsErrOf};
ghost use Rattle.std.specs.Io.KnownBytes.{prepend_known};
ghost use Rattle.manager.specs.Kept.{IsNamedBy, new_share};
ghost use Rattle.script.specs.Reported.{Concludes, DrawnKnown, OutputKnown, ReaderEnds, ReportedKnown, replies_of};
ghost use Rattle.script.specs.Run.{IsAllSent, RanKnown};
ghost use Rattle.script.specs.declared.answering.Replies.TheVariants.{Traced, Written};

use crate::answering::{Replies, answer_lines};
use crate::drawing::send_drawing;
use crate::error::RunError;
use manager::{Config, Made, Manager, Owner, Report, Seed};
use std::alloc::{AllocError, Global};
use std::io::{Read, Write};
use std::marker::Brand;
use std::sync::Wait;
use streams::{Counted, Failed, Sink, Source, Stream};

/// What is written for a script.
#[derive(Drop)]
pub(crate) enum Output {
    /// A line for each of its lines.
    Answers,
    /// The trace of what is entered in the history.
    Trace,
    /// At its end the report of what the manager holds.
    Report(Report),
    /// The report, and then a drawing of its address spaces.
    Drawing(Report),
}

/// Reads a script to its first bad line, and writes one line for each line, on a manager of its own. All
/// answers to the lines that were read are written before the next read.
///
/// A bad line ends the work, as does a failed read: the lines before it are answered. Of a bad line at most 513 bytes
/// are taken, and what follows is left for the next call, in the reader or in its block. After a failed write a beginning
/// of the answers is written. With no memory for the manager nothing is read or written.
///
/// With a configuration that hands on, at most `calls` events are kept at one time. Where there is no room for one more, those that
/// are kept are forgotten, and no call is refused for want of room before the history has 2^56 events. The answers are those of the
/// whole history, forgotten events too.
pub fn run<T: Wait, R: Read, W: Write>(
    rt: &T,
    alloc: Global,
    reader: &mut Counted<R>,
    writer: &mut Counted<W>,
    config: Config,
) -> Result<(), RunError>
    requires one { config.shares ≡ 1 }
    requires reader { reader.old.wrapped.failed ≡ false }
    requires writer { writer.old.wrapped.failed ≡ false }
    ensures written { RanKnown Written (record { frames = config.frames; room = config.most; caching = config.caching })
        (prepend_known reader.old.block (R.remaining reader.old.wrapped.inner))
        (prepend_known reader.new.block (R.remaining reader.new.wrapped.inner))
        (W.contents writer.old.wrapped.inner) writer.old.block (W.contents writer.new.wrapped.inner) result }
    ensures reader { (reader.new.wrapped.failed ≡ true) ↔ IsErrOf result RunError.Read }
    ensures writer { (writer.new.wrapped.failed ≡ true) ↔ IsErrOf result RunError.Write }
    ensures used_up { IsErrOf result RunError.Read → reader.new.block ≡ [] }
    ensures all_sent { IsAllSent writer.new.block result }
    ensures no_memory { IsErrOf result RunError.NoMemory → (reader.new ≡ reader.old) × (writer.new ≡ writer.old) }
{
    work(rt, alloc, reader, writer, config, Output::Answers)
}

/// Reads a script as `run` does, and writes the trace of its calls in the place of their answers. For each event of the history a line
/// that `checker::parse_event` reads as this event: the call as it stands in the script, ` => ` and its reply. Of a call that the full
/// history refuses nothing is written.
///
/// It ends as `run` does.
pub fn trace<T: Wait, R: Read, W: Write>(
    rt: &T,
    alloc: Global,
    reader: &mut Counted<R>,
    writer: &mut Counted<W>,
    config: Config,
) -> Result<(), RunError>
    requires one { config.shares ≡ 1 }
    requires reader { reader.old.wrapped.failed ≡ false }
    requires writer { writer.old.wrapped.failed ≡ false }
    ensures written { RanKnown Traced (record { frames = config.frames; room = config.most; caching = config.caching })
        (prepend_known reader.old.block (R.remaining reader.old.wrapped.inner))
        (prepend_known reader.new.block (R.remaining reader.new.wrapped.inner))
        (W.contents writer.old.wrapped.inner) writer.old.block (W.contents writer.new.wrapped.inner) result }
    ensures reader { (reader.new.wrapped.failed ≡ true) ↔ IsErrOf result RunError.Read }
    ensures writer { (writer.new.wrapped.failed ≡ true) ↔ IsErrOf result RunError.Write }
    ensures used_up { IsErrOf result RunError.Read → reader.new.block ≡ [] }
    ensures all_sent { IsAllSent writer.new.block result }
    ensures no_memory { IsErrOf result RunError.NoMemory → (reader.new ≡ reader.old) × (writer.new ≡ writer.old) }
{
    work(rt, alloc, reader, writer, config, Output::Trace)
}

/// Reads a script to its first bad line as `run` does, on a manager of its own, and writes no answers, but at the end the
/// report of what the manager then holds.
///
/// After a bad line or a failed read the report of the lines before it is written. All memory is taken before anything
/// is read or written. After a failed write a beginning of the report is written, and that failure is answered in the
/// place of any other.
pub fn report<T: Wait, R: Read, W: Write>(
    rt: &T,
    alloc: Global,
    reader: &mut Counted<R>,
    writer: &mut Counted<W>,
    config: Config,
) -> Result<(), RunError>
    requires one { config.shares ≡ 1 }
    requires reader { reader.old.wrapped.failed ≡ false }
    requires writer { writer.old.wrapped.failed ≡ false }
    ensures written { ReportedKnown (record { frames = config.frames; room = config.most; caching = config.caching })
        (prepend_known reader.old.block (R.remaining reader.old.wrapped.inner))
        (prepend_known reader.new.block (R.remaining reader.new.wrapped.inner))
        (W.contents writer.old.wrapped.inner) writer.old.block (W.contents writer.new.wrapped.inner) result }
    ensures read { IsErrOf result RunError.Read → reader.new.wrapped.failed ≡ true }
    ensures reader { reader.new.wrapped.failed ≡ true → IsErrOf result RunError.Read ⊎ IsErrOf result RunError.Write }
    ensures writer { (writer.new.wrapped.failed ≡ true) ↔ IsErrOf result RunError.Write }
    ensures used_up { IsErrOf result RunError.Read → reader.new.block ≡ [] }
    ensures all_sent { IsAllSent writer.new.block result }
    ensures no_memory { IsErrOf result RunError.NoMemory → (reader.new ≡ reader.old) × (writer.new ≡ writer.old) }
{
    let Ok(text) = Report::new(alloc) else {
        return Err(RunError::NoMemory);
    };
    work(rt, alloc, reader, writer, config, Output::Report(text))
}

/// Reads a script as `report` does, and writes after the report a drawing. It has for each domain the runs of its pages, live,
/// retired or free, with their first and last byte addresses and how many pages they have. Each has a bar of a mark for each
/// binary digit of that number. Then come its retired records, the oldest first, with their marks.
///
/// It ends as `report` does, and what it writes begins with what `report` writes. What the drawing says is not part of the contract.
pub fn report_with_drawing<T: Wait, R: Read, W: Write>(
    rt: &T,
    alloc: Global,
    reader: &mut Counted<R>,
    writer: &mut Counted<W>,
    config: Config,
) -> Result<(), RunError>
    requires one { config.shares ≡ 1 }
    requires reader { reader.old.wrapped.failed ≡ false }
    requires writer { writer.old.wrapped.failed ≡ false }
    ensures written { DrawnKnown (record { frames = config.frames; room = config.most; caching = config.caching })
        (prepend_known reader.old.block (R.remaining reader.old.wrapped.inner))
        (prepend_known reader.new.block (R.remaining reader.new.wrapped.inner))
        (W.contents writer.old.wrapped.inner) writer.old.block (W.contents writer.new.wrapped.inner) result }
    ensures read { IsErrOf result RunError.Read → reader.new.wrapped.failed ≡ true }
    ensures reader { reader.new.wrapped.failed ≡ true → IsErrOf result RunError.Read ⊎ IsErrOf result RunError.Write }
    ensures writer { (writer.new.wrapped.failed ≡ true) ↔ IsErrOf result RunError.Write }
    ensures used_up { IsErrOf result RunError.Read → reader.new.block ≡ [] }
    ensures all_sent { IsAllSent writer.new.block result }
    ensures no_memory { IsErrOf result RunError.NoMemory → (reader.new ≡ reader.old) × (writer.new ≡ writer.old) }
{
    let Ok(text) = Report::new(alloc) else {
        return Err(RunError::NoMemory);
    };
    work(rt, alloc, reader, writer, config, Output::Drawing(text))
}

// Makes a manager, and works through the script on it.
pub(crate) fn work<T: Wait, R: Source, W: Sink>(
    rt: &T,
    alloc: Global,
    reader: &mut Stream<R>,
    writer: &mut Stream<W>,
    config: Config,
    output: Output,
) -> Result<(), RunError>
    requires one { config.shares ≡ 1 }
    requires reader { R.has_failed reader.old.wrapped ≡ false }
    requires writer { W.has_failed writer.old.wrapped ≡ false }
    ensures written { OutputKnown output (record { frames = config.frames; room = config.most; caching = config.caching })
        (prepend_known reader.old.block (R.remaining reader.old.wrapped))
        (prepend_known reader.new.block (R.remaining reader.new.wrapped))
        (W.contents writer.old.wrapped) writer.old.block (W.contents writer.new.wrapped) result }
    ensures reader { ReaderEnds output (R.has_failed reader.new.wrapped) result }
    ensures writer { (W.has_failed writer.new.wrapped ≡ true) ↔ IsErrOf result RunError.Write }
    ensures used_up { IsErrOf result RunError.Read → reader.new.block ≡ [] }
    ensures all_sent { IsAllSent writer.new.block result }
    ensures no_memory { IsErrOf result RunError.NoMemory → (reader.new ≡ reader.old) × (writer.new ≡ writer.old) }
{
    let Ok(seed) = Seed::new(alloc, config) else {
        return Err(RunError::NoMemory);
    };
    work_through::<Brand, T, R, W>(rt, alloc, reader, writer, seed, output)
}

// Makes the manager of a seed, over an owner that names it, and works through the script on it.
fn work_through<B: Owner, T: Wait, R: Source, W: Sink>(
    rt: &T,
    alloc: Global,
    reader: &mut Stream<R>,
    writer: &mut Stream<W>,
    seed: Seed,
    output: Output,
) -> Result<(), RunError>
    requires named { IsNamedBy seed B.name B.parts B.shares B.room B.frames B.mode B.rows B.most B.handing }
    requires one { seed.shares ≡ 1 }
    requires reader { R.has_failed reader.old.wrapped ≡ false }
    requires writer { W.has_failed writer.old.wrapped ≡ false }
    ensures written { OutputKnown output (record { frames = seed.frames; room = seed.most; caching = seed.caching })
        (prepend_known reader.old.block (R.remaining reader.old.wrapped))
        (prepend_known reader.new.block (R.remaining reader.new.wrapped))
        (W.contents writer.old.wrapped) writer.old.block (W.contents writer.new.wrapped) result }
    ensures reader { ReaderEnds output (R.has_failed reader.new.wrapped) result }
    ensures writer { (W.has_failed writer.new.wrapped ≡ true) ↔ IsErrOf result RunError.Write }
    ensures used_up { IsErrOf result RunError.Read → reader.new.block ≡ [] }
    ensures all_sent { IsAllSent writer.new.block result }
    ensures no_memory { IsErrOf result RunError.NoMemory → (reader.new ≡ reader.old) × (writer.new ≡ writer.old) }
{
    work_on(rt, Manager::<B>::new(alloc, seed), reader, writer, output)
}

// Works through the script on a manager, where there was memory for one, and writes what is to be written. While the manager is made
// its state stands on the stack: what this takes of the stack is not taken yet then.
#[inline(never)]
fn work_on<B: Owner, T: Wait, R: Source, W: Sink>(
    rt: &T,
    mut made: Result<Made<B>, AllocError>,
    reader: &mut Stream<R>,
    writer: &mut Stream<W>,
    output: Output,
) -> Result<(), RunError>
    requires one { B.shares ≡ 1 }
    requires shares { IfOk made (λ m. vec_len m.shares ≡ 1) }
    requires fresh { IfOk made (λ m. All (λ s. s ≡ new_share) m.shares.items) }
    requires reader { R.has_failed reader.old.wrapped ≡ false }
    requires writer { W.has_failed writer.old.wrapped ≡ false }
    ensures written { OutputKnown output (record { frames = B.frames; room = B.most; caching = B.mode })
        (prepend_known reader.old.block (R.remaining reader.old.wrapped))
        (prepend_known reader.new.block (R.remaining reader.new.wrapped))
        (W.contents writer.old.wrapped) writer.old.block (W.contents writer.new.wrapped) result }
    ensures reader { ReaderEnds output (R.has_failed reader.new.wrapped) result }
    ensures writer { (W.has_failed writer.new.wrapped ≡ true) ↔ IsErrOf result RunError.Write }
    ensures used_up { IsErrOf result RunError.Read → reader.new.block ≡ [] }
    ensures all_sent { IsAllSent writer.new.block result }
    ensures no_memory { IsErrOf result RunError.NoMemory → (reader.new ≡ reader.old) × (writer.new ≡ writer.old) }
{
    let Ok(made) = &mut made else {
        return Err(RunError::NoMemory);
    };
    let Some(mut mine) = made.shares.pop() else {
        unreachable!()
    };
    let mut guard = made.manager.lock(rt);
    let book = &mut *guard;
    book.audit(&mut mine);
    let end = answer_lines(
        rt,
        book,
        &made.rows,
        &mut mine,
        &mut made.epoch,
        reader,
        writer,
        replies_for(&output),
    );
    match output {
        Output::Answers | Output::Trace => end,
        Output::Report(mut text) => {
            book.write_report(&mut text);
            send_report(writer, &text, end)
        }
        Output::Drawing(mut text) => {
            book.write_report(&mut text);
            let end = send_report(writer, &text, end);
            send_drawing(writer, book.state(), end)
        }
    }
}

// What is written of the calls.
fn replies_for(output: &Output) -> Replies
    ensures { result ≡ replies_of output.now }
{
    match output {
        Output::Answers => Replies::Written,
        Output::Trace => Replies::Traced,
        Output::Report(_) | Output::Drawing(_) => Replies::Silent,
    }
}

// Writes a report at the end of a script. Nothing follows a write that failed.
fn send_report<W: Sink>(
    writer: &mut Stream<W>,
    text: &Report,
    end: Result<(), RunError>,
) -> Result<(), RunError>
    requires { (W.has_failed writer.old.wrapped ≡ true) ↔ IsErrOf end RunError.Write }
    ensures sent { Concludes (W.contents writer.old.wrapped) (W.contents writer.new.wrapped)
        writer.old.block writer.new.block text.now end result }
    ensures writer { (W.has_failed writer.new.wrapped ≡ true) ↔ IsErrOf result RunError.Write }
    ensures same { (result ≡ end) ⊎ (result ≡ Err RunError.Write) }
{
    if let Err(RunError::Write) = end {
        return end;
    }
    match writer.send(text.text().as_bytes()) {
        Ok(()) => end,
        Err(Failed) => Err(RunError::Write),
    }
}
