//! Why a descriptor isn't taken.

use thiserror::Error;

/// As many descriptors wait as the ring can hold.
#[derive(Clone, Copy, Debug, PartialEq, Eq, Error)]
#[error("the ring is full")]
pub struct RingFull;
