//! Which descriptor an unmap sends, and in Caching Mode a map.

ghost use Rattle.std.specs.Prelude.{◌≡◌, ◌<◌, IfNone, IfSome};
ghost use Rattle.dmatypes.specs.Block.{block};
ghost use Rattle.dmatypes.specs.declared.width.TheConstants.{PAGES_END};
ghost use Rattle.vtdbits.specs.declared.descriptor.Descriptor.TheVariants.{IotlbDomain, IotlbPages};
ghost use Rattle.engine.specs.Ending.{IsBlockOf, IsSent, IsSentForMap, hint_of};

use dmatypes::{PageRange, SPAN_ORDER, aligned_block};
use tables::Cut;
use vtdbits::{Descriptor, DomainId, PageBlock};

/// The descriptor of a strict unmap: page-selective for the smallest aligned block that holds the range, and where a
/// leaf of 2 MiB was split for at least 512 pages; beyond 512 pages domain-selective. The invalidation hint is set
/// exactly where no table was cut and no leaf was split.
pub(crate) fn descriptor_of(domain: DomainId, range: PageRange, cut: &Cut) -> Descriptor
    ensures { IsSent domain range cut.now result }
{
    let (first, order) = block_of(range, cut.split());
    selective(domain, PageBlock::new(first, order), hint_of(cut))
}

/// The descriptor of a map in Caching Mode: page-selective for the smallest aligned block that holds the range; beyond 512
/// pages domain-selective. The invalidation hint is clear (own).
pub(crate) fn descriptor_for_map(domain: DomainId, range: PageRange) -> Descriptor
    ensures { IsSentForMap domain range result }
{
    let (first, order) = block_of(range, false);
    selective(domain, PageBlock::new(first, order), false)
}

// Page-selective for a block, and domain-selective where there is none: it would be of more than 512 pages.
fn selective(domain: DomainId, block: Option<PageBlock>, hint: bool) -> Descriptor
    ensures pages { IfSome block (λ block. result ≡ IotlbPages domain block hint) }
    ensures all { IfNone block (result ≡ IotlbDomain domain) }
{
    match block {
        Some(block) => Descriptor::IotlbPages {
            domain,
            block,
            hint,
        },
        None => Descriptor::IotlbDomain(domain),
    }
}

// The first page number and the order of the block.
fn block_of(range: PageRange, split: bool) -> (u64, u8)
    ensures block { IsBlockOf range split (block result.0 result.1) }
    ensures near { result.0 < PAGES_END }
{
    let (first, order) = aligned_block(range);
    if split && order < SPAN_ORDER {
        (first >> SPAN_ORDER << SPAN_ORDER, SPAN_ORDER)
    } else {
        (first, order)
    }
}

// Whether nothing was cut and nothing split.
fn hint_of(cut: &Cut) -> bool
    ensures { result ≡ hint_of cut.now }
{
    cut.frames().is_empty() && !cut.split()
}
