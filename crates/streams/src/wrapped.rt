//! A reader or a writer of the standard library, as a source or a sink.

ghost use Rattle.std.specs.Prelude.{◌≡◌, false};

use crate::ends::{Sink, Source};
use std::io;
use std::io::{Read, Write};

/// A reader or a writer, and whether a call of it has failed.
#[derive(Drop)]
pub struct Wrapped<T> {
    inner: T,
    failed: bool,
}

impl<T> Wrapped<T> {
    /// Wraps a reader or a writer of which no call has failed.
    pub(crate) fn new(inner: T) -> Wrapped<T>
        ensures inner { result.inner ≡ inner }
        ensures failed { result.failed ≡ false }
    {
        Wrapped {
            inner,
            failed: false,
        }
    }

    /// Whether a call has failed.
    pub(crate) fn failed(&self) -> bool
        ensures { result ≡ self.now.failed }
    {
        self.failed
    }
}

impl<R: Read> Source for Wrapped<R> {
    ghost remaining = { λ w. R.remaining w.inner };

    ghost has_failed = { λ w. w.failed };

    fn read(&mut self, bytes: &mut [u8]) -> io::Result<usize> {
        let answer = self.inner.read(bytes);
        self.failed = answer.is_err();
        answer
    }
}

impl<W: Write> Sink for Wrapped<W> {
    ghost contents = { λ w. W.contents w.inner };

    ghost has_failed = { λ w. w.failed };

    fn write(&mut self, bytes: &[u8]) -> io::Result<usize> {
        let answer = self.inner.write(bytes);
        self.failed = !matches!(&answer, Ok(count) if *count > 0);
        answer
    }
}
