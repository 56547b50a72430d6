//! Pages that follow one another.

/// So many pages, mapped to host frames that follow one another, all with the same rights.
#[derive(Clone, Copy, Debug, PartialEq, Eq)]
pub(crate) struct Run {
    pub(crate) pages: u64,
    pub(crate) frame: u64,
    pub(crate) rights: u64,
}
