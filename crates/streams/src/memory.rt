//! Streams that never fail.

ghost use Rattle.std.specs.Prelude.{List, ℕ, [], Some, None, false};

use crate::ends::{Sink, Source};
use std::io;
use std::io::Read;

/// No read of bytes in memory fails.
impl Source for &[u8] {
    ghost remaining = { λ bytes. Some bytes.now };

    ghost has_failed = { λ _. false };

    fn read(&mut self, bytes: &mut [u8]) -> io::Result<usize> {
        Read::read(self, bytes)
    }
}

/// A sink that takes all and keeps nothing, for whoever reads lines and writes none.
#[derive(Clone, Copy, Debug)]
pub struct NoSink;

impl Sink for NoSink {
    ghost contents = { λ _. None };

    ghost has_failed = { λ _. false };

    fn write(&mut self, bytes: &[u8]) -> io::Result<usize> {
        Ok(bytes.len())
    }
}
