//! The first entries of lists that serve a request.

ghost use Rattle.std.specs.Prelude.{◌≡◌, ◌==◌, ◌&&◌, IfNone, IfSome, IsTrue, find};
ghost use Rattle.std.specs.List.{list_any};
ghost use Rattle.dmatypes.specs.World.{IsIn};
ghost use Rattle.unit.specs.Answers.{IsLowest};
ghost use Rattle.unit.specs.Walking.{hold};

use crate::entries::{CachedContext, CachedFault, CachedLeaf, CachedNonLeaf};
use vtdbits::DomainId;

/// The first context of a device.
pub(crate) fn first_context(contexts: &[CachedContext], device: u64) -> Option<CachedContext>
    ensures { result ≡ find (λ c. c.device == device) contexts.now }
{
    contexts
        .iter()
        .copied()
        .find(|context| context.is_of(device))
}

/// The first leaf of a domain that stands for a page.
pub(crate) fn first_leaf(leaves: &[CachedLeaf], domain: DomainId, page: u64) -> Option<CachedLeaf>
    ensures { result ≡ find (λ l. (l.domain == domain) && hold l.first l.pages page) leaves.now }
{
    leaves.iter().copied().find(|leaf| leaf.holds(domain, page))
}

/// Whether a page of a domain is remembered as absent.
pub(crate) fn is_absent(faults: &[CachedFault], domain: DomainId, page: u64) -> bool
    ensures { result ≡ list_any (λ f. (f.domain == domain) && (f.page == page)) faults.now }
{
    faults.iter().any(|fault| fault.is_of(domain, page))
}

/// The first table of a domain that covers a page, of the lowest level below one that has such a table.
pub(crate) fn lowest_table(
    tables: &[CachedNonLeaf],
    domain: DomainId,
    page: u64,
    levels: u64,
) -> Option<CachedNonLeaf>
    ensures there { IfSome result (λ t. IsIn t tables.now) }
    ensures serves { IfSome result (λ t. (t.domain ≡ domain) × IsTrue (hold t.first t.pages page)) }
    ensures lowest { IfSome result (λ t. IsLowest tables.now domain page t.level) }
    ensures none { IfNone result (IsLowest tables.now domain page levels) }
{
    for level in 1..levels {
        if let Some(table) = first_table(tables, domain, page, level) {
            return Some(table);
        }
    }
    None
}

// The first table of a level and a domain that covers a page.
fn first_table(
    tables: &[CachedNonLeaf],
    domain: DomainId,
    page: u64,
    level: u64,
) -> Option<CachedNonLeaf>
    ensures { result ≡ find (λ t. (t.level == level) && ((t.domain == domain) && hold t.first t.pages page)) tables.now }
{
    tables
        .iter()
        .copied()
        .find(|table| table.is_at(level) && table.holds(domain, page))
}
