//! What is read by whoever draws a domain's address space. None of it changes anything, or is counted as a call.

ghost use Rattle.std.specs.Prelude.{◌≡◌, IfNone, IfSome, None, Some};
ghost use Rattle.engine.specs.Domains.{domain_at};
ghost use Rattle.engine.specs.Spaces.{pieces_of, retired_record_of};

use super::{State, place_of};
use dmatypes::PageRange;
use iova::Iter;
use vtdbits::DomainId;

/// Pages that were unmapped and may still be used, and how many flushes of their domain were begun when they were.
#[derive(Clone, Copy, Debug, PartialEq, Eq)]
pub struct RetiredRecord {
    pub range: PageRange,
    pub mark: u64,
}

impl State {
    /// The pieces of a domain's address space, in the order of their pages; `None` exactly where there is no such domain.
    pub fn pieces_of(&self, id: u64) -> Option<Iter<'_>>
        ensures some { IfSome result (λ pieces. pieces_of (domain_at self.now.domains id) ≡ Some pieces) }
        ensures none { IfNone result (domain_at self.now.domains id ≡ None) }
    {
        let domains = &self.domains;
        let id = DomainId::new(id)?;
        let domain = domains[place_of(id)].as_ref()?;
        Some(domain.pieces())
    }

    /// The retired record of a domain at an index, the oldest at 0; `None` exactly where there is none.
    pub fn retired_record(&self, id: u64, index: usize) -> Option<RetiredRecord>
        ensures { result ≡ retired_record_of (domain_at self.now.domains id) index }
    {
        let domains = &self.domains;
        let id = DomainId::new(id)?;
        let domain = domains[place_of(id)].as_ref()?;
        domain.retired_record(index)
    }
}
