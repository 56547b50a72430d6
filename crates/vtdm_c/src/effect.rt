//! What a call asks, as C is told it.

ghost use Rattle.std.specs.Prelude.{◌≡◌, ◌≤◌, length};
ghost use Rattle.vtdm_c.specs.Effects.{AreTold, effect_told, high_told, number_of_half};

use driven::Half;

/// One thing that a call asks of whoever keeps the memory and the queue that a unit reads. Its kind says which members it uses; the
/// others are 0.
#[repr(C)]
#[derive(Clone, Copy, Debug, PartialEq, Eq)]
pub struct Effect {
    pub kind: u64,
    pub number: u64,
    pub first: u64,
    pub count: u64,
    pub low: u64,
    pub high: u64,
}

impl Effect {
    /// Bring words of a table frame to memory: `count` of them from index `first` of frame `number` on.
    pub const WORDS: u64 = 1;
    /// What was brought before is in memory before what follows.
    pub const BARRIER: u64 = 2;
    /// Bring the context entry of device `number` to memory, its word `first` first: 0 the low one, 1 the high one.
    pub const CONTEXT: u64 = 3;
    /// Put the descriptor of the words `low` and `high` into the queue.
    pub const SEND: u64 = 4;
    /// Wait until the unit has written the status of wait `number`.
    pub const AWAIT: u64 = 5;

    // One of a kind, with a number.
    fn of_kind(kind: u64, number: u64) -> Effect
        ensures { result ≡ record { kind = kind; number = number; first = 0; count = 0; low = 0; high = 0 } }
    {
        Effect {
            kind,
            number,
            first: 0,
            count: 0,
            low: 0,
            high: 0,
        }
    }

    // This effect, where waits are to write their status to an address.
    fn told(effect: driven::Effect, status: u64) -> Effect
        ensures { result ≡ effect_told status effect }
    {
        match effect {
            driven::Effect::Words {
                frame,
                first,
                count,
            } => Effect {
                first,
                count,
                ..Effect::of_kind(Effect::WORDS, frame.number())
            },
            driven::Effect::Barrier => Effect::of_kind(Effect::BARRIER, 0),
            driven::Effect::Context { device, first } => Effect {
                first: number_of_half(first),
                ..Effect::of_kind(Effect::CONTEXT, device)
            },
            driven::Effect::Send { low, high } => Effect {
                low,
                high: high_told(low, high, status),
                ..Effect::of_kind(Effect::SEND, 0)
            },
            driven::Effect::Await(number) => Effect::of_kind(Effect::AWAIT, number),
        }
    }
}

// The number of a half of a context entry: of its two words, in the order of their addresses.
fn number_of_half(half: Half) -> u64
    ensures { result ≡ number_of_half half }
{
    match half {
        Half::Low => 0,
        Half::High => 1,
    }
}

// Bits 0 to 3 of a descriptor's first word say its type (queued invalidation): this is an invalidation wait descriptor.
const WAIT: u64 = 5;

// The second word of a descriptor: that of a wait is the address of its status.
fn high_told(low: u64, high: u64, status: u64) -> u64
    ensures { result ≡ high_told low high status }
{
    if low % 16 == WAIT { status } else { high }
}

/// Tells the effects, one a place, and leaves each place after them as it is.
pub(crate) fn tell(effects: &[driven::Effect], status: u64, to: &mut [Effect])
    requires { length effects.now ≤ length to.old }
    ensures { AreTold status effects.now to.old to.new }
{
    for (at, effect) in effects.iter().enumerate() {
        to[at] = Effect::told(*effect, status);
    }
}
