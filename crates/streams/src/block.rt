//! Bytes on their way.

ghost use Rattle.std.specs.Prelude.{◌≡◌, ◌≢◌, ◌+◌, ◌≤◌, ◌↔◌, ◌++◌, [], drop, length, take};
ghost use Rattle.std.specs.Prelude.{IsTrue, OnOk, OnErr};

use arrayvec::ArrayVec;
use std::marker::Model;

/// The most bytes of a block.
pub const BLOCK_BYTES: usize = 4096;

/// Bytes that came in and have not gone out, in their order.
#[derive(Drop)]
pub(crate) struct Block {
    bytes: ArrayVec<u8, BLOCK_BYTES>,
    gone: usize,
}

/// There is no room for the bytes.
#[derive(Clone, Copy, Debug, PartialEq, Eq)]
pub(crate) struct Full;

impl Model for Block {
    ghost use Rattle.std.specs.Prelude.{◌≤◌, List, ℕ, drop, length};

    ghost Value = { List ℕ };

    ghost view = { λ b. drop b.gone b.bytes.items };

    ghost invariant = { λ b. b.gone ≤ length b.bytes.items };
}

impl Block {
    /// A block with no bytes.
    pub(crate) fn new() -> Block
        ensures { result ≡ [] }
    {
        Block {
            bytes: ArrayVec::new(),
            gone: 0,
        }
    }

    /// Whether no byte is in it.
    pub(crate) fn is_empty(&self) -> bool
        ensures { IsTrue result ↔ (self.now ≡ []) }
    {
        self.gone == self.bytes.len()
    }

    /// Its bytes.
    pub(crate) fn as_slice(&self) -> &[u8]
        ensures { result.now ≡ self.now }
    {
        &self.bytes.as_slice()[self.gone..]
    }

    /// Moves the first bytes to the line's end.
    pub(crate) fn move_to<const MOST: usize>(&mut self, line: &mut ArrayVec<u8, MOST>, count: usize)
        requires { (count ≤ length self.old) × (length line.old.items + count ≤ MOST) }
        ensures line { line.new.items ≡ line.old.items ++ take count self.old }
        ensures rest { self.new ≡ drop count self.old }
    {
        line.try_extend_from_slice(&self.as_slice()[..count])
            .unwrap();
        self.advance(count);
    }

    /// Lets the first bytes go.
    pub(crate) fn advance(&mut self, count: usize)
        requires { count ≤ length self.old }
        ensures { self.new ≡ drop count self.old }
    {
        let end = self.bytes.len();
        prove!(count <= end - self.gone);
        self.gone += count;
    }

    /// Puts bytes at the end, where there is room; there is in an empty block. Else it stays as it is.
    pub(crate) fn append(&mut self, bytes: &[u8]) -> Result<(), Full>
        requires { length bytes.now ≤ BLOCK_BYTES }
        ensures ok { OnOk result (self.new ≡ self.old ++ bytes.now) }
        ensures err { OnErr result ((self.new ≡ self.old) × (self.old ≢ [])) }
    {
        if self.is_empty() {
            self.refill(bytes);
            return Ok(());
        }
        if self.bytes.try_extend_from_slice(bytes).is_err() {
            return Err(Full);
        }
        Ok(())
    }

    /// Puts bytes into the empty block.
    pub(crate) fn refill(&mut self, bytes: &[u8])
        requires empty { self.old ≡ [] }
        requires room { length bytes.now ≤ BLOCK_BYTES }
        ensures { self.new ≡ bytes.now }
    {
        self.bytes.clear();
        self.gone = 0;
        self.bytes.try_extend_from_slice(bytes).unwrap();
    }
}
