//! Where bytes come from, and where they go.

ghost use Rattle.std.specs.Prelude.{◌≡◌, ◌≢◌, ℕ, Bool, List, [], Option, false, is_err};
ghost use Rattle.std.specs.Io.{ReadsAtMost, WritesAtMost};
ghost use Rattle.std.specs.Io.KnownBytes.{ReadConsumes, WriteAppends};
ghost use Rattle.streams.specs.Streams.{takes_none};

use std::io;

/// A read or a write failed.
#[derive(Clone, Copy, Debug, PartialEq, Eq)]
pub struct Failed;

/// Where bytes come from. No call follows one that failed.
pub trait Source {
    /// The bytes that are left to read, where they are known.
    ghost remaining: { Self → Option (List ℕ) };

    /// Whether a read has failed.
    ghost has_failed: { Self → Bool };

    /// One read. It has failed exactly where this is an error, of whatever kind, and then nothing was taken.
    fn read(&mut self, bytes: &mut [u8]) -> io::Result<usize>
        requires { has_failed self.old ≡ false }
        ensures bound { ReadsAtMost result bytes.new }
        ensures bytes { ReadConsumes (remaining self.old) (remaining self.new) result bytes.new }
        ensures failed { has_failed self.new ≡ is_err result };
}

/// Where bytes go to. No call follows one that failed.
pub trait Sink {
    /// The bytes that were written, where they are known.
    ghost contents: { Self → Option (List ℕ) };

    /// Whether a write has failed.
    ghost has_failed: { Self → Bool };

    /// One write of at least one byte. It has failed exactly where this is an error, of whatever kind, or no byte was taken.
    fn write(&mut self, bytes: &[u8]) -> io::Result<usize>
        requires unfailed { has_failed self.old ≡ false }
        requires some { bytes.now ≢ [] }
        ensures bound { WritesAtMost result bytes.now }
        ensures bytes { WriteAppends (contents self.old) (contents self.new) result bytes.now }
        ensures failed { has_failed self.new ≡ takes_none result };
}
