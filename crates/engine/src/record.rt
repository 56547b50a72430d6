//! Retired records of lazy domains.

use dmatypes::PageRange;
use tables::Cut;

/// Pages that were unmapped and may still be used, with the number of flushes begun when they were unmapped. Also
/// what the unmap took out of the tree, and how many waits had been sent by then.
#[derive(Drop)]
pub(crate) struct Record {
    pub(crate) range: PageRange,
    pub(crate) mark: u64,
    pub(crate) cut: Cut,
    // Only a wait that is sent later frees the pages: until their entries were cleared, a request could bring them back
    // after an earlier one.
    pub(crate) sent: u64,
}
