//! The lines of a script and their answers, to the first bad one.

ghost use Rattle.std.specs.Prelude.{◌≡◌, ◌↔◌, ◌≤◌, ◌⊎◌, ◌++◌, [], Err, false, true, length, codes, is_err, is_ok, if◌then◌else◌, IsErrOf};
ghost use Rattle.std.specs.Io.KnownBytes.{prepend_known};
ghost use Rattle.dmatypes.specs.declared.limits.TheConstants.{LONGEST_LINE};
ghost use Rattle.dmatypes.specs.Replying.{HasSmallNumbers};
ghost use Rattle.manager.specs.Kept.{IsKept};
ghost use Rattle.script.specs.Reported.{GoneThroughKnown};
ghost use Rattle.script.specs.Run.{AnswersOne, IsAllSent, shown_of};
ghost use Rattle.streams.specs.Bytes.{Sent};

use crate::error::RunError;
use arrayvec::{ArrayString, ArrayVec};
use checker::LONGEST_TRACE_LINE;
use dmatypes::{Call, LONGEST_LINE, Refusal, Reply, parse_line, reply_line};
use manager::{Book, Epoch, HistoryFull, Owner, Rows, Share};
use std::sync::Wait;
use streams::{Failed, LineEnd, Sink, Source, Stream, StreamError, next_line};

// The bytes between a call and its reply in a trace.
const ARROW: &[u8] = b" => ";

// A line of a trace, and its newline.
const TRACE_BYTES: usize = LONGEST_TRACE_LINE + 1;

/// What is written of the calls of a script.
#[derive(Clone, Copy, Debug, PartialEq, Eq)]
pub(crate) enum Replies {
    /// A line for each call: its reply.
    Written,
    /// A line for each call that was entered: the call as it stands in the script, and its reply.
    Traced,
    /// Nothing.
    Silent,
}

/// Makes the call of each line, to the end or the first bad one, and writes what is to be written of each.
/// The lock is held from the first to the last.
pub(crate) fn answer_lines<B: Owner, T: Wait, R: Source, W: Sink>(
    rt: &T,
    book: &mut Book<B>,
    rows: &Rows<B>,
    mine: &mut Share<B>,
    epoch: &mut Epoch<B>,
    reader: &mut Stream<R>,
    writer: &mut Stream<W>,
    replies: Replies,
) -> Result<(), RunError>
    requires none { book.old.history ≡ [] }
    requires reader { R.has_failed reader.old.wrapped ≡ false }
    requires writer { W.has_failed writer.old.wrapped ≡ false }
    ensures written { GoneThroughKnown replies (record { frames = B.frames; room = B.most; caching = B.mode })
        (prepend_known reader.old.block (R.remaining reader.old.wrapped))
        (prepend_known reader.new.block (R.remaining reader.new.wrapped))
        (W.contents writer.old.wrapped) writer.old.block (W.contents writer.new.wrapped) book.new result }
    ensures reader { (R.has_failed reader.new.wrapped ≡ true) ↔ IsErrOf result RunError.Read }
    ensures writer { (W.has_failed writer.new.wrapped ≡ true) ↔ IsErrOf result RunError.Write }
    ensures used_up { IsErrOf result RunError.Read → reader.new.block ≡ [] }
    ensures all_sent { IsAllSent writer.new.block result }
    ensures memory { IsErrOf result RunError.NoMemory → ⊥ }
{
    let mut line = ArrayVec::<u8, LONGEST_LINE>::new();
    let mut text = ArrayString::new();
    let mut number = 1u64;
    // It changes nothing: its contract says what every book keeps, here before the first call.
    book.keeps();
    for _ in rt.forever() {
        match next_line(reader, writer, &mut line) {
            Ok(LineEnd::Newline) => {}
            Ok(LineEnd::Nothing) => return Ok(()),
            Ok(LineEnd::Cut) => return Err(RunError::BadLine(number)),
            Ok(LineEnd::Long) => return stop_at(writer, number),
            Err(StreamError::Read) => return Err(RunError::Read),
            Err(StreamError::Write) => return Err(RunError::Write),
        }
        let Some(call) = parse_line(line.as_slice()) else {
            return stop_at(writer, number);
        };
        let entered = answer(book, rows, mine, epoch, call, &mut text);
        match show(replies, writer, line.as_slice(), entered, &text) {
            Ok(()) => {}
            Err(Failed) => return Err(RunError::Write),
        }
        number = number.saturating_add(1);
    }
    unreachable!()
}

// A bad line: what is still to be written is written first.
fn stop_at<W: Sink>(writer: &mut Stream<W>, number: u64) -> Result<(), RunError>
    requires { W.has_failed writer.old.wrapped ≡ false }
    ensures sent { Sent (W.contents writer.old.wrapped) (W.contents writer.new.wrapped) writer.old.block writer.new.block [] }
    ensures stopped { ((result ≡ Err (RunError.BadLine number)) × (writer.new.block ≡ []) × (W.has_failed writer.new.wrapped ≡ false))
        ⊎ ((result ≡ Err RunError.Write) × (W.has_failed writer.new.wrapped ≡ true)) }
{
    match writer.flush() {
        Ok(()) => Err(RunError::BadLine(number)),
        Err(Failed) => Err(RunError::Write),
    }
}

// One call of the book, and the line of its answer; whether it is entered in the history. Where that needs room, the epoch takes what
// is kept, and forgets what it had.
fn answer<B: Owner>(
    book: &mut Book<B>,
    rows: &Rows<B>,
    mine: &mut Share<B>,
    epoch: &mut Epoch<B>,
    call: Call,
    text: &mut ArrayString<64>,
) -> bool
    ensures one { AnswersOne B.most book.old book.new call result text.new.bytes }
    ensures kept { IsKept B.frames B.room B.mode B.most book.new }
{
    // Where the manager hands on, room is made first: then a call is refused only where the history has the most in all.
    book.make_room(rows, mine, epoch);
    let answered = book.call(rows, mine, call);
    // The same of the book after the call.
    book.keeps();
    match answered {
        Ok((_, reply)) => {
            fits(reply);
            reply_line(reply, text);
            true
        }
        Err(HistoryFull { .. }) => {
            reply_line(Reply::Refused(Refusal::HistoryFull), text);
            false
        }
    }
}

// It does nothing: its contract says that a reply's numbers have 64 bits.
fn fits(reply: Reply)
    ensures { HasSmallNumbers reply }
{
    match reply {
        Reply::Ticket { .. } | Reply::Made(_) | Reply::Mapped(_) | Reply::Unmapped(_) => {}
        Reply::Flushed(_) | Reply::Reaped(_) | Reply::Host(_) => {}
        Reply::Done | Reply::Stepped(_) | Reply::Pending | Reply::Faulted(_) | Reply::Refused(_) =>
            {}
    }
}

// Puts what is to be written of a call after what is still to be written.
fn show<W: Sink>(
    replies: Replies,
    writer: &mut Stream<W>,
    line: &[u8],
    entered: bool,
    text: &ArrayString<64>,
) -> Result<(), Failed>
    requires short { length line.now ≤ LONGEST_LINE }
    requires unfailed { W.has_failed writer.old.wrapped ≡ false }
    ensures sent { Sent (W.contents writer.old.wrapped) (W.contents writer.new.wrapped) writer.old.block writer.new.block
        (if is_ok result then shown_of replies line.now entered text.now.bytes else []) }
    ensures failed { W.has_failed writer.new.wrapped ≡ is_err result }
{
    match replies {
        Replies::Written => writer.put(text.as_str().as_bytes()),
        Replies::Traced if entered => put_event(writer, line, text.as_str().as_bytes()),
        Replies::Traced | Replies::Silent => writer.put(b""),
    }
}

// Puts the line of an event.
fn put_event<W: Sink>(writer: &mut Stream<W>, call: &[u8], reply: &[u8]) -> Result<(), Failed>
    requires call { length call.now ≤ LONGEST_LINE }
    requires reply { length reply.now ≤ 64 }
    requires unfailed { W.has_failed writer.old.wrapped ≡ false }
    ensures sent { Sent (W.contents writer.old.wrapped) (W.contents writer.new.wrapped) writer.old.block writer.new.block
        (if is_ok result then call.now ++ codes " => " ++ reply.now else []) }
    ensures failed { W.has_failed writer.new.wrapped ≡ is_err result }
{
    let mut event = ArrayVec::<u8, TRACE_BYTES>::new();
    event.try_extend_from_slice(call).unwrap();
    event.try_extend_from_slice(ARROW).unwrap();
    event.try_extend_from_slice(reply).unwrap();
    writer.put(event.as_slice())
}
