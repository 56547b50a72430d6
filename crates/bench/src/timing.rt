//! Time: what is done again and again, and what each round of it takes.

ghost use Rattle.std.specs.Prelude.{◌≡◌, ◌≤◌, ◌*◌, ◌/◌, IfSome};
ghost use Rattle.std.specs.Duration.{as_nanos};
ghost use Rattle.std.specs.NonZero.{non_zero_u32_get};

use crate::trouble::Trouble;
use std::num::NonZeroU32;
use std::time::{Clock, Duration, Instant};

/// What can be done again and again.
pub(crate) trait Work {
    /// Does it once. An answer that isn't what it must be is an error.
    fn once(&mut self) -> Result<(), Trouble>;
}

// A second, in tenths of a nanosecond.
const SECOND: u128 = 10_000_000_000;

/// What a round takes, in tenths of a nanosecond, rounded down.
#[derive(Clone, Copy, Debug, Default, PartialEq, Eq, PartialOrd, Ord)]
pub(crate) struct Tenths(u128);

impl Tenths {
    /// Whole nanoseconds.
    pub(crate) fn whole(self) -> u128 {
        self.0 / 10
    }

    /// The tenths beyond them, 0 to 9.
    pub(crate) fn rest(self) -> u128 {
        self.0 % 10
    }

    /// How many such rounds a second has; none where a round takes less than a tenth of a nanosecond.
    pub(crate) fn in_a_second(self) -> Option<u128>
        ensures { IfSome result (λ rounds. rounds ≤ SECOND) }
    {
        if self.0 == 0 {
            return None;
        }
        Some(SECOND / self.0)
    }
}

/// What each round takes by the clock.
pub(crate) fn time<C: Clock, W: Work>(
    clock: &C,
    rounds: NonZeroU32,
    work: &mut W,
) -> Result<Tenths, Trouble> {
    let start = Instant::now(clock)?;
    for _ in 0..rounds.get() {
        work.once()?;
    }
    let spent = start.elapsed(clock)?;
    Ok(each(spent, rounds))
}

/// What each of a number of equal parts takes.
pub(crate) fn each(spent: Duration, parts: NonZeroU32) -> Tenths
    ensures { result.0 ≡ 10 * as_nanos spent / non_zero_u32_get parts }
{
    Tenths(10 * spent.as_nanos() / u128::from(parts.get()))
}
