//! Host frames, where the table frames begin at one of them.

ghost use Rattle.std.specs.Prelude.{◌≡◌, ℕ, ◌+◌, ◌%◌, ◌<◌, ◌≤◌, ◌↔◌, IfSome, IsSome, length, slice_index};
ghost use Rattle.dmatypes.specs.declared.limits.TheConstants.{MOST_TABLE_FRAMES};
ghost use Rattle.dmatypes.specs.declared.page.TheConstants.{FRAMES_END, SPAN_PAGES};

use dmatypes::{FRAMES_END, PAGE_BYTES, SPAN_PAGES};
use vtdbits::Words;

// Host addresses are below it.
const HOSTS_END: u64 = FRAMES_END * PAGE_BYTES;

/// The host frame of table frame 0, and of each other the one as far behind it. The manager has numbers of its own for host frames, from
/// there on and around the end of host memory.
#[derive(Clone, Copy)]
pub(crate) struct Base {
    first: u64,
    ghost spans: { first % SPAN_PAGES ≡ 0 },
    ghost within: { first < FRAMES_END },
}

impl Base {
    ghost use Rattle.vtdm_c.specs.Base.{IsBase, address_of, number_of, word_of, words_of};

    /// The first host frame: a host frame's number is its own.
    pub(crate) fn zero() -> Base
        ensures { result.first ≡ 0 }
    {
        Base { first: 0 }
    }

    /// This host frame, if so many table frames can begin there.
    pub(crate) fn new(first: u64, frames: u64) -> Option<Base>
        requires some { 0 < frames }
        requires few { frames ≤ MOST_TABLE_FRAMES }
        ensures some { IsSome result ↔ IsBase frames first }
        ensures first { IfSome result (λ base. base.first ≡ first) }
    {
        if first % SPAN_PAGES != 0 || first > FRAMES_END - frames {
            return None;
        }
        Some(Base { first })
    }

    /// The manager's number of the first of so many host frames, or one by which a map of them is refused.
    pub(crate) fn number_of(self, frame: u64, pages: u64) -> u64
        ensures { result ≡ number_of self.first frame pages }
    {
        let end = frame.saturating_add(pages);
        if end > FRAMES_END {
            frame
        } else if self.first <= frame {
            frame - self.first
        } else if end <= self.first {
            frame + (FRAMES_END - self.first)
        } else {
            0
        }
    }

    /// The host address that the manager tells by a number of a frame.
    pub(crate) fn address_of(self, address: u64) -> u64
        ensures { result ≡ address_of self.first address }
    {
        if address < HOSTS_END {
            (address + self.first * PAGE_BYTES) % HOSTS_END
        } else {
            address
        }
    }

    /// A word of a table with host frames.
    pub(crate) fn word_of(self, word: u64) -> u64
        ensures { result ≡ word_of self.first word }
    {
        if word == 0 { 0 } else { self.address_of(word) }
    }

    /// Copies words of a table with host frames.
    pub(crate) fn copy_words(self, words: &[u64], to: &mut [u64])
        requires { length words.now ≡ length to.old }
        ensures length { length to.new ≡ length to.old }
        ensures words { (k : ℕ) → k < length to.old → slice_index to.new k ≡ word_of self.first (slice_index words.now k) }
    {
        if self.first == 0 {
            to.copy_from_slice(words);
            return;
        }
        for (at, word) in words.iter().enumerate() {
            to[at] = self.word_of(*word);
        }
    }

    /// The words of a context entry with host frames.
    pub(crate) fn words_of(self, words: Words) -> Words
        ensures { result ≡ words_of self.first words }
    {
        Words {
            low: self.word_of(words.low),
            high: words.high,
        }
    }
}
