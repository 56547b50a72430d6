//! What a descriptor makes the unit forget.

ghost use Rattle.std.specs.Prelude.{◌≡◌, ◌<◌, ◌≤◌, ◌*◌, ◌^◌, filter, length, not};
ghost use Rattle.dmatypes.specs.declared.page.TheConstants.{SPAN_PAGES};
ghost use Rattle.unit.specs.Filters.{drops_leaf, drops_non_leaf, drops_context, drops_fault, lie_in, meet};

use crate::entries::{CachedContext, CachedFault, CachedLeaf, CachedNonLeaf};
use arrayvec::ArrayVec;
use dmatypes::PAGES_END;
use vtdbits::{Descriptor, PageBlock};

/// An entry that a descriptor can make the unit forget.
pub(crate) trait Cached {
    ghost use Rattle.std.specs.Prelude.{Bool};
    ghost use Rattle.vtdbits.specs.declared.descriptor.Descriptor.{Descriptor};

    ghost drops: { Descriptor → Self → Bool };

    /// Whether it goes.
    fn goes(&self, descriptor: Descriptor) -> bool
        ensures { result ≡ drops descriptor self.now };
}

impl Cached for CachedLeaf {
    ghost drops = { drops_leaf };

    fn goes(&self, descriptor: Descriptor) -> bool
        ensures { result ≡ drops_leaf descriptor self.now }
    {
        match descriptor {
            Descriptor::IotlbGlobal => true,
            Descriptor::IotlbDomain(domain) => self.domain == domain,
            Descriptor::IotlbPages { domain, block, .. } => {
                self.domain == domain && lie_in(block, self.first, u64::from(self.pages))
            }
            _ => false,
        }
    }
}

impl Cached for CachedNonLeaf {
    ghost drops = { drops_non_leaf };

    fn goes(&self, descriptor: Descriptor) -> bool
        ensures { result ≡ drops_non_leaf descriptor self.now }
    {
        match descriptor {
            Descriptor::IotlbGlobal => true,
            Descriptor::IotlbDomain(domain) => self.domain == domain,
            Descriptor::IotlbPages {
                domain,
                block,
                hint,
            } => self.domain == domain && !hint && meet(block, self.first, self.pages),
            _ => false,
        }
    }
}

impl Cached for CachedContext {
    ghost drops = { drops_context };

    fn goes(&self, descriptor: Descriptor) -> bool
        ensures { result ≡ drops_context descriptor self.now }
    {
        match descriptor {
            Descriptor::ContextGlobal => true,
            Descriptor::ContextDomain(domain) => self.domain == domain,
            Descriptor::ContextDevice { device, .. } => self.device == device,
            _ => false,
        }
    }
}

impl Cached for CachedFault {
    ghost drops = { drops_fault };

    fn goes(&self, descriptor: Descriptor) -> bool
        ensures { result ≡ drops_fault descriptor self.now }
    {
        match descriptor {
            Descriptor::IotlbGlobal => true,
            Descriptor::IotlbDomain(domain) => self.domain == domain,
            Descriptor::IotlbPages { domain, block, .. } => {
                self.domain == domain && lie_in(block, self.page, 1)
            }
            _ => false,
        }
    }
}

/// Forgets the entries of a list that a descriptor drops.
pub(crate) fn forget<T: Cached + Copy + Default, const N: usize>(
    list: &mut ArrayVec<T, N>,
    descriptor: &Descriptor,
)
    ensures items { list.new.items ≡ filter (λ entry. not (T.drops descriptor.now entry)) list.old.items }
    ensures few { length list.new.items ≤ length list.old.items }
{
    // Most descriptors drop none, and then none is moved.
    if list.iter().any(|entry| entry.goes(*descriptor)) {
        list.retain(|entry| !entry.goes(*descriptor));
    }
}

// Whether `pages` pages from a first one on lie wholly in the block.
fn lie_in(block: PageBlock, first: u64, pages: u64) -> bool
    requires first { first < PAGES_END }
    requires pages { pages ≤ SPAN_PAGES * SPAN_PAGES * SPAN_PAGES }
    ensures { result ≡ lie_in block first pages }
{
    block.first() <= first && first + pages <= block.first() + (1 << block.order())
}

// Whether some of them lie in it.
fn meet(block: PageBlock, first: u64, pages: u64) -> bool
    requires first { first < PAGES_END }
    requires pages { pages ≤ SPAN_PAGES * SPAN_PAGES * SPAN_PAGES }
    ensures { result ≡ meet block first pages }
{
    first < block.first() + (1 << block.order()) && block.first() < first + pages
}
