//! A reader or a writer that works in blocks, and remembers whether it has failed.

ghost use Rattle.std.specs.Prelude.{◌≡◌, ◌≢◌, ◌≤◌, ◌<◌, ◌+◌, ◌++◌, ◌∷◌, [], true, false, length, take, drop, OnOk, OnErr, IfSome};
ghost use Rattle.std.specs.Prelude.{IfNone, is_err, is_ok, if◌then◌else◌};
ghost use Rattle.std.specs.Io.KnownBytes.{Appends, Consumes, IsAtEnd};
ghost use Rattle.streams.specs.Bytes.{EndsLine, Filled, IsUnbroken, Sent, SentFront, TakesLine};

use crate::block::{BLOCK_BYTES, Block, Full};
use crate::ends::{Failed, Sink, Source};
use crate::wrapped::Wrapped;
use arrayvec::ArrayVec;
use memchr::memchr;

/// A source or a sink, with a block of the bytes that were read and not yet used, or that are still to be written.
#[derive(Drop)]
pub struct Stream<S> {
    wrapped: S,
    block: Block,
}

/// A reader or a writer of the standard library as a stream, which answers whether a call of it has failed.
pub type Counted<T> = Stream<Wrapped<T>>;

/// How far a line was found in a block.
#[derive(Clone, Copy, Debug, PartialEq, Eq)]
pub(crate) enum LineScan {
    /// To its newline.
    Newline,
    /// To the block's end.
    More,
    /// Past the bytes that a line has at most.
    Long,
}

impl<T> Counted<T> {
    /// Wraps a reader or a writer.
    pub fn new(inner: T) -> Counted<T>
        ensures inner { result.wrapped.inner ≡ inner }
        ensures block { result.block ≡ [] }
        ensures failed { result.wrapped.failed ≡ false }
    {
        Stream::over(Wrapped::new(inner))
    }

    /// Whether a call of the wrapped one has failed: true from the first failing call on.
    pub fn failed(&self) -> bool
        ensures { result ≡ self.now.wrapped.failed }
    {
        self.wrapped.failed()
    }
}

impl<S> Stream<S> {
    /// A source or a sink with an empty block.
    pub fn over(wrapped: S) -> Stream<S>
        ensures wrapped { result.wrapped ≡ wrapped }
        ensures block { result.block ≡ [] }
    {
        Stream {
            wrapped,
            block: Block::new(),
        }
    }

    /// The source or the sink. What is in the block is let go.
    pub fn into_wrapped(self) -> S
        ensures { result ≡ self.wrapped }
    {
        self.wrapped
    }
}

impl<R: Source> Stream<R> {
    /// Reads the next block, where the last one is used up; `false` at the end.
    pub(crate) fn fill(&mut self) -> Result<bool, Failed>
        requires empty { self.old.block ≡ [] }
        requires unfailed { R.has_failed self.old.wrapped ≡ false }
        ensures bytes { Filled (R.remaining self.old.wrapped) (R.remaining self.new.wrapped) self.new.block result }
        ensures failed { R.has_failed self.new.wrapped ≡ is_err result }
    {
        let mut bytes = [0u8; BLOCK_BYTES];
        match self.wrapped.read(&mut bytes) {
            Ok(0) => Ok(false),
            Ok(count) => {
                self.block.refill(&bytes[..count]);
                Ok(true)
            }
            Err(_) => Err(Failed),
        }
    }

    /// Moves bytes of the block to the line's end, up to a newline, which is left out.
    pub(crate) fn take_line<const MOST: usize>(&mut self, line: &mut ArrayVec<u8, MOST>) -> LineScan
        requires { length line.old.items ≤ MOST }
        ensures few { length line.new.items ≤ MOST }
        ensures bytes { TakesLine MOST self.old.block self.new.block line.old.items line.new.items result }
        ensures wrapped { self.new.wrapped ≡ self.old.wrapped }
    {
        let (count, taken) = line_end(self.block.as_slice(), MOST - line.len());
        self.block.move_to(line, count);
        match taken {
            LineScan::Newline | LineScan::Long => self.block.advance(1),
            LineScan::More => {}
        }
        taken
    }
}

// How many bytes go to a line that has room for so many more, and how far it then is found.
#[tactic(auto, using(crate::proofs::Past::unbroken_within, crate::proofs::Past::unbroken_front))]
fn line_end(bytes: &[u8], room: usize) -> (usize, LineScan)
    ensures within { (result.0 ≤ room) × (result.0 ≤ length bytes.now) }
    ensures end { EndsLine bytes.now room result.0 result.1 }
{
    match first_newline(bytes) {
        Some(end) if end <= room => (end, LineScan::Newline),
        None if bytes.len() <= room => (bytes.len(), LineScan::More),
        _ => (room, LineScan::Long),
    }
}

// Where the first newline stands.
#[tactic(auto, using(crate::proofs::Newlines::found, crate::proofs::Newlines::not_found))]
fn first_newline(bytes: &[u8]) -> Option<usize>
    ensures some { IfSome result (λ i. (i < length bytes.now) × IsUnbroken (take i bytes.now)
        × (bytes.now ≡ take i bytes.now ++ 10 ∷ drop (i + 1) bytes.now)) }
    ensures none { IfNone result (IsUnbroken bytes.now) }
{
    memchr(b'\n', bytes)
}

impl<W: Sink> Stream<W> {
    /// Writes what is still to be written. Where a write fails, or takes nothing, a front of it is written.
    pub fn flush(&mut self) -> Result<(), Failed>
        requires { W.has_failed self.old.wrapped ≡ false }
        ensures sent { Sent (W.contents self.old.wrapped) (W.contents self.new.wrapped) self.old.block self.new.block [] }
        ensures empty { OnOk result (self.new.block ≡ []) }
        ensures failed { W.has_failed self.new.wrapped ≡ is_err result }
    {
        while !self.block.is_empty() {
            match self.wrapped.write(self.block.as_slice()) {
                Ok(0) => return Err(Failed),
                Ok(count) => self.block.advance(count),
                Err(_) => return Err(Failed),
            }
        }
        Ok(())
    }

    /// Puts a text after what is still to be written, which is written first where there is no room.
    pub fn put(&mut self, text: &[u8]) -> Result<(), Failed>
        requires short { length text.now ≤ BLOCK_BYTES }
        requires unfailed { W.has_failed self.old.wrapped ≡ false }
        ensures sent { Sent (W.contents self.old.wrapped) (W.contents self.new.wrapped) self.old.block self.new.block
            (if is_ok result then text.now else []) }
        ensures failed { W.has_failed self.new.wrapped ≡ is_err result }
    {
        let Err(Full) = self.block.append(text) else {
            return Ok(());
        };
        self.flush()?;
        self.block.refill(text);
        Ok(())
    }

    /// Writes what is still to be written, and a text after it. Where a write fails, or takes nothing, a front of these
    /// is written.
    pub fn send(&mut self, text: &[u8]) -> Result<(), Failed>
        requires short { length text.now ≤ BLOCK_BYTES }
        requires unfailed { W.has_failed self.old.wrapped ≡ false }
        ensures sent { OnOk result (Sent (W.contents self.old.wrapped) (W.contents self.new.wrapped)
            self.old.block [] text.now) }
        ensures empty { OnOk result (self.new.block ≡ []) }
        ensures front { OnErr result (SentFront (W.contents self.old.wrapped) (W.contents self.new.wrapped)
            self.old.block text.now) }
        ensures failed { W.has_failed self.new.wrapped ≡ is_err result }
    {
        self.put(text)?;
        self.flush()
    }
}
