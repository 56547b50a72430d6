//! Why no line was read.

use thiserror::Error;

/// Why no line was read, or none was written.
#[derive(Clone, Copy, Debug, PartialEq, Eq, Error)]
pub enum StreamError {
    /// A read failed.
    #[error("input failed")]
    Read,
    /// A write failed, or took nothing.
    #[error("output failed")]
    Write,
}
