//! Why something can't be measured.

ghost use Rattle.std.specs.Prelude.{◌↔◌, IsOk, IsTrue};

use dmatypes::Refusal;
use iova::{RetireError, TakeError};
use std::alloc::AllocError;
use std::io;
use storm::StormError;
use tables::NoFrames;
use thiserror::Error;

/// Why a measurement stopped.
#[derive(Clone, Copy, Debug, Error)]
pub(crate) enum Trouble {
    /// There was no memory for what is measured.
    #[error("no memory")]
    NoMemory,
    /// The clock can't be read.
    #[error("the clock failed")]
    Clock,
    /// A call was refused that must be done.
    #[error("a call is refused")]
    Refused,
    /// A call was answered otherwise than it must be.
    #[error("an answer is wrong")]
    Wrong,
    /// The state takes no more calls.
    #[error("too many calls of one state")]
    TooManyCalls,
    /// No thread could be made.
    #[error("no thread")]
    NoThread,
}

impl From<AllocError> for Trouble {
    fn from(_: AllocError) -> Trouble {
        Trouble::NoMemory
    }
}

// Only the clock is read.
impl From<io::Error> for Trouble {
    fn from(_: io::Error) -> Trouble {
        Trouble::Clock
    }
}

impl From<Refusal> for Trouble {
    fn from(_: Refusal) -> Trouble {
        Trouble::Refused
    }
}

impl From<TakeError> for Trouble {
    fn from(_: TakeError) -> Trouble {
        Trouble::Refused
    }
}

impl From<RetireError> for Trouble {
    fn from(_: RetireError) -> Trouble {
        Trouble::Refused
    }
}

impl From<StormError> for Trouble {
    fn from(error: StormError) -> Trouble {
        match error {
            StormError::NoMemory => Trouble::NoMemory,
            StormError::NoThread => Trouble::NoThread,
        }
    }
}

impl From<NoFrames> for Trouble {
    fn from(_: NoFrames) -> Trouble {
        Trouble::Refused
    }
}

/// `Wrong` where what must hold doesn't.
pub(crate) fn check(holds: bool) -> Result<(), Trouble>
    ensures { IsOk result ↔ IsTrue holds }
{
    if holds { Ok(()) } else { Err(Trouble::Wrong) }
}
