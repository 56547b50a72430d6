//! The memory of a domain that isn't there.

ghost use Rattle.std.specs.Prelude.{◌≤◌, vec_capacity};
ghost use Rattle.dmatypes.specs.declared.limits.TheConstants.{MOST_RECORDS};

use crate::record::Record;
use dmatypes::{MOST_RECORDS, PAGES_END};
use iova::Space;
use std::alloc::{AllocError, Global};

// The last page of the widest domain.
const LAST_PAGE: u64 = PAGES_END - 1;

/// An address space and room for retired records, reserved when the state is made: a domain takes them, and leaves them
/// when it ends.
#[derive(Drop)]
pub(crate) struct Room {
    pub(crate) space: Space,
    pub(crate) records: Vec<Record>,
    ghost roomy: { MOST_RECORDS ≤ vec_capacity records },
}

impl Room {
    /// Reserves room for all pieces and all records that a domain can have.
    pub(crate) fn new(alloc: Global) -> Result<Room, AllocError> {
        Ok(Room {
            space: Space::new(alloc, LAST_PAGE)?,
            records: Vec::with_capacity(alloc, MOST_RECORDS as usize)?,
        })
    }
}
