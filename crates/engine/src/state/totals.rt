//! What a report says of the state.

ghost use Rattle.std.specs.Prelude.{◌≡◌, ◌≤◌, length, slice_get};
ghost use Rattle.dmatypes.specs.declared.limits.TheConstants.{MOST_DOMAINS};
ghost use Rattle.engine.specs.Domains.{domain_at};
ghost use Rattle.vtdbits.specs.Context.{attached};
ghost use Rattle.engine.specs.Totals.{domain_totals_of, held_by_all, totals_of};

use super::{State, place_of};
use crate::domain::Domain;
use dmatypes::{DEVICES, Mode};
use vtdbits::DomainId;

/// How many table frames are free, used by trees, and held by retired records; how many tickets are open, and how
/// many descriptors wait.
#[derive(Clone, Copy, Debug, PartialEq, Eq)]
pub struct Totals {
    pub free: u64,
    pub used: u64,
    pub held: u64,
    pub tickets: u64,
    pub pending: u64,
}

/// The mode of a domain, and how many live pages, retired records and pieces of its address space it has.
#[derive(Clone, Copy, Debug, PartialEq, Eq)]
pub struct DomainTotals {
    pub mode: Mode,
    pub live: u64,
    pub retired: u64,
    pub pieces: u64,
}

impl State {
    /// How many calls were made, the refused ones too. It changes nothing, and isn't counted as a call.
    pub fn calls(&self) -> u64
        ensures { result ≡ self.now.calls }
    {
        self.calls
    }

    /// How many table frames are free. It changes nothing, and isn't counted as a call.
    pub fn free_frames(&self) -> u64
        ensures { result ≡ length self.now.pool.free }
    {
        self.pool.free_count()
    }

    /// What is free, used, held, open and waiting, over all domains. It changes nothing, and isn't counted as a call.
    pub fn totals(&self) -> Totals
        ensures { result ≡ totals_of self.now }
    {
        let free = self.pool.free_count();
        let held = held_by_all(self.domains.as_slice());
        Totals {
            free,
            used: self.pool.frames().saturating_sub(free).saturating_sub(held),
            held,
            tickets: self.tickets.len() as u64,
            pending: self.iommu.ring.pending(),
        }
    }

    /// What a domain has; `None` exactly where there is none of this id. It changes nothing, and isn't counted as a call.
    pub fn domain_totals(&self, id: u64) -> Option<DomainTotals>
        ensures { result ≡ domain_totals_of (domain_at self.now.domains id) }
    {
        let domains = &self.domains;
        let id = DomainId::new(id)?;
        let domain = domains[place_of(id)].as_ref()?;
        Some(domain.totals())
    }

    /// The id of the domain that a device is attached to; `None` exactly where it is attached to nothing, or there is
    /// no such device. It changes nothing, and isn't counted as a call.
    pub fn domain_of(&self, device: u64) -> Option<u64>
        ensures { result ≡ attached (slice_get self.now.iommu.contexts device) }
    {
        let contexts = &self.iommu.contexts;
        if device >= DEVICES {
            return None;
        }
        contexts.domain_of(device)
    }
}

// How many table frames the records of all domains hold.
fn held_by_all(domains: &[Option<Domain>]) -> u64
    requires { length domains.now ≤ MOST_DOMAINS }
    ensures { result ≡ held_by_all domains.now }
{
    let mut held = 0;
    for place in domains {
        if let Some(domain) = place {
            held += domain.held();
        }
    }
    held
}
