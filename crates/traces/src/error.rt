//! Why a check stops.

ghost use Rattle.std.specs.Prelude.{◌≡◌};
ghost use Rattle.traces.specs.declared.error.CheckError.TheVariants.{NoMemory};

use std::alloc::AllocError;
use thiserror::Error;

/// Why a check stopped before the end of its trace. The lines before it were judged, and are legal.
#[derive(Clone, Copy, Debug, PartialEq, Eq, Error)]
pub enum CheckError {
    /// The line of this number, from 1, is no line of a trace.
    #[error("line {0}")]
    BadLine(u64),
    /// A read failed.
    #[error("input failed")]
    Read,
    /// There was no memory for the world, or for what is told of it.
    #[error("no memory")]
    NoMemory,
}

impl From<AllocError> for CheckError {
    ghost from_gives = { λ _ error. error ≡ NoMemory };

    fn from(_: AllocError) -> CheckError {
        CheckError::NoMemory
    }
}
