//! Why the program fails.

use crate::trouble::Trouble;
use std::io;
use thiserror::Error;

/// Why the program stops, in the words that it says on standard error.
#[derive(Clone, Copy, Debug, Error)]
pub(crate) enum Failure {
    /// There was no memory for the command line.
    #[error("no memory")]
    NoMemory,
    /// A write failed.
    #[error("output failed")]
    Output,
    /// No line of the table has the name that was asked for.
    #[error("no line has this name")]
    NoSubject,
    /// The subject of this name can't be measured.
    #[error("{0}: {1}")]
    Subject(&'static str, Trouble),
}

// Nothing is read but what `Trouble` names.
impl From<io::Error> for Failure {
    fn from(_: io::Error) -> Failure {
        Failure::Output
    }
}
