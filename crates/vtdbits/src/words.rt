//! Spellings of two words.

/// The two words of a context entry or a descriptor.
#[derive(Clone, Copy, Debug, PartialEq, Eq)]
pub struct Words {
    pub low: u64,
    pub high: u64,
}
