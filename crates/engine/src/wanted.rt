//! What a map can ask for.

ghost use Rattle.std.specs.Prelude.{◌≤◌};
ghost use Rattle.dmatypes.specs.declared.limits.TheConstants.{MOST_ORDER};
ghost use Rattle.dmatypes.specs.declared.page.TheConstants.{MOST_PAGES};
ghost use Rattle.dmatypes.specs.Rights.{AreRights, bits_of};

use dmatypes::Rights;

/// A number of pages at a multiple of 2^`order` pages, with these rights.
#[derive(Clone, Copy)]
pub(crate) struct Wanted {
    pub(crate) pages: u64,
    pub(crate) order: u64,
    pub(crate) rights: Rights,
    ghost some_pages: { 1 ≤ pages },
    ghost few_pages: { pages ≤ MOST_PAGES },
    ghost small_order: { order ≤ MOST_ORDER },
    ghost some_right: { AreRights (bits_of rights) },
}
