//! Lines out of a reader.

ghost use Rattle.std.specs.Prelude.{◌≡◌, ◌≢◌, ◌≤◌, ◌⊎◌, [], true, false, length, Err, OnOk, OnErr};
ghost use Rattle.std.specs.Io.KnownBytes.{prepend_known};
ghost use Rattle.streams.specs.Bytes.{IsAnswered, ReadLine, Sent};

use crate::ends::{Failed, Sink, Source};
use crate::error::StreamError;
use crate::stream::{LineScan, Stream};
use arrayvec::ArrayVec;

/// How a line ended.
#[derive(Clone, Copy, Debug, PartialEq, Eq)]
pub enum LineEnd {
    /// At a newline.
    Newline,
    /// Nothing was left to read.
    Nothing,
    /// The bytes ended before a newline.
    Cut,
    /// It is longer than a line may be.
    Long,
}

/// Reads the bytes of the next line, its newline left out. Of a line of more than `MOST` bytes one byte more is taken.
/// What is still to be written is written before each read, so that whoever feeds the reader has all
/// answers to the lines that it was given.
pub fn next_line<R: Source, W: Sink, const MOST: usize>(
    reader: &mut Stream<R>,
    writer: &mut Stream<W>,
    line: &mut ArrayVec<u8, MOST>,
) -> Result<LineEnd, StreamError>
    requires reader { R.has_failed reader.old.wrapped ≡ false }
    requires writer { W.has_failed writer.old.wrapped ≡ false }
    ensures few { length line.new.items ≤ MOST }
    ensures bytes { ReadLine MOST (prepend_known reader.old.block (R.remaining reader.old.wrapped))
        (prepend_known reader.new.block (R.remaining reader.new.wrapped)) line.new.items result }
    ensures sent { Sent (W.contents writer.old.wrapped) (W.contents writer.new.wrapped) writer.old.block writer.new.block [] }
    ensures answered { IsAnswered writer.new.block result }
    ensures ok { OnOk result ((R.has_failed reader.new.wrapped ≡ false) × (W.has_failed writer.new.wrapped ≡ false)) }
    ensures read { result ≡ Err StreamError.Read → (R.has_failed reader.new.wrapped ≡ true) × (W.has_failed writer.new.wrapped ≡ false) }
    ensures used_up { result ≡ Err StreamError.Read → reader.new.block ≡ [] }
    ensures write { result ≡ Err StreamError.Write → (R.has_failed reader.new.wrapped ≡ false) × (W.has_failed writer.new.wrapped ≡ true) }
    ensures no_other { OnErr result ((result ≡ Err StreamError.Read) ⊎ (result ≡ Err StreamError.Write)) }
{
    line.clear();
    'reading: loop {
        match reader.take_line(line) {
            LineScan::Newline => return Ok(LineEnd::Newline),
            LineScan::Long => return Ok(LineEnd::Long),
            LineScan::More => {}
        }
        writer.flush().map_err(|_| StreamError::Write)?;
        match reader.fill() {
            Ok(true) => {}
            Ok(false) if line.is_empty() => return Ok(LineEnd::Nothing),
            Ok(false) => return Ok(LineEnd::Cut),
            Err(Failed) => return Err(StreamError::Read),
        }
    }
}
