//! Why a workload stops.

use script::RunError;
use std::alloc::AllocError;
use std::io;
use thiserror::Error;
use traces::CheckError;

/// Why a workload stops before its end.
#[derive(Clone, Copy, Debug, PartialEq, Eq, Error)]
pub(crate) enum Failure {
    /// There was no memory.
    #[error("no memory")]
    NoMemory,
    /// A write failed.
    #[error("output failed")]
    Output,
    /// The words name no workload.
    #[error("usage: workloads JOB SEED CALLS")]
    Words,
    /// An answer isn't what it must be.
    #[error("an answer is wrong")]
    Wrong,
}

impl From<AllocError> for Failure {
    fn from(_: AllocError) -> Failure {
        Failure::NoMemory
    }
}

impl From<io::Error> for Failure {
    fn from(_: io::Error) -> Failure {
        Failure::Output
    }
}

impl From<RunError> for Failure {
    fn from(error: RunError) -> Failure {
        match error {
            RunError::NoMemory => Failure::NoMemory,
            RunError::BadLine(_) | RunError::Read | RunError::Write => Failure::Wrong,
        }
    }
}

impl From<CheckError> for Failure {
    fn from(error: CheckError) -> Failure {
        match error {
            CheckError::NoMemory => Failure::NoMemory,
            CheckError::BadLine(_) | CheckError::Read => Failure::Wrong,
        }
    }
}
