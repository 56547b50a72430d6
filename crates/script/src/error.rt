//! Why a run stops.

use thiserror::Error;

/// Why a run stopped before the end of its script.
#[derive(Clone, Copy, Debug, PartialEq, Eq, Error)]
pub enum RunError {
    /// The line of this number, from 1, is no line of a script.
    #[error("line {0}")]
    BadLine(u64),
    /// A read failed.
    #[error("input failed")]
    Read,
    /// A write failed, or took nothing.
    #[error("output failed")]
    Write,
    /// There was no memory for the manager, or for the text of its report.
    #[error("no memory")]
    NoMemory,
}
