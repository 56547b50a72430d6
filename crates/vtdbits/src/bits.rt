//! Fields of words.

ghost use Rattle.std.specs.Prelude.{◌≡◌, ◌/◌, ◌%◌, ◌^◌, ◌<◌};

/// The `count` bits of a word from bit `from` on, as a number.
#[inline]
pub(crate) fn field(word: u64, from: u32, count: u32) -> u64
    requires from { from < 64 }
    requires count { count < 64 }
    ensures { result ≡ word / 2 ^ from % 2 ^ count }
{
    (word >> from) & ((1 << count) - 1)
}
