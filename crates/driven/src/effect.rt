//! What a call asks of whoever keeps the memory and the queue that a unit reads.

use dmatypes::Frame;

/// One thing that a call asks, in the order in which it has to be done (own).
#[derive(Clone, Copy, Debug, Default, PartialEq, Eq)]
pub enum Effect {
    /// Bring these words to the memory that the unit reads, each by one store of 64 bits. They are `count` words from an index of a
    /// table frame on, and lie in that frame; those of a drop are more, and go on in the frames after it. `State::table_word` has them.
    Words {
        frame: Frame,
        first: u64,
        count: u64,
    },
    /// What was brought so far is in memory before what follows: a fence, and the lines written back where the unit doesn't snoop.
    #[default]
    Barrier,
    /// Bring a device's context entry to memory, as `State::context_words` has it: this half, and then the other. The half with the
    /// present bit goes last, and first where the entry goes (context entry).
    Context {
        device: u64,
        first: Half,
    },
    /// Put a descriptor into the queue, by its two words, and tell the unit the new tail (queued invalidation). The high word of a wait is
    /// where its status goes: whoever keeps the queue puts an address of its own there.
    Send {
        low: u64,
        high: u64,
    },
    /// Go on when the unit has written the status of the wait of this number. Waits are numbered from 1.
    Await(u64),
}

/// One of the two words of a context entry (context entry).
#[derive(Clone, Copy, Debug, PartialEq, Eq)]
pub enum Half {
    /// Bits 0 to 63, the present bit among them.
    Low,
    /// Bits 64 to 127.
    High,
}
