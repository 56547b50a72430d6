//! Numbers that look random, the same at each run.

/// A sequence of numbers that a seed fixes (xorshift64* of Marsaglia and Vigna).
#[derive(Clone, Copy, Debug)]
pub(crate) struct Random {
    state: u64,
}

impl Random {
    /// The sequence of a seed and of one of its streams.
    pub(crate) fn new(seed: u64, stream: u64) -> Random {
        let mixed = seed
            .wrapping_add(1)
            .wrapping_mul(0x9e37_79b9_7f4a_7c15)
            .wrapping_add(stream.wrapping_mul(0xd1b5_4a32_d192_ed03));
        // The sequence of 0 is all zeros.
        Random { state: mixed | 1 }
    }

    /// The next number.
    pub(crate) fn number(&mut self) -> u64 {
        self.state ^= self.state >> 12;
        self.state ^= self.state << 25;
        self.state ^= self.state >> 27;
        self.state.wrapping_mul(0x2545_f491_4f6c_dd1d) >> 16
    }

    /// A number below an end; 0 where the end is 0.
    pub(crate) fn below(&mut self, end: u64) -> u64 {
        self.number().checked_rem(end).unwrap_or(0)
    }
}
