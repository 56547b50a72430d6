//! What is asked of a state by whoever keeps words for its devices.

ghost use Rattle.std.specs.Prelude.{◌≡◌, ◌↔◌, ℕ, IsTrue, Some, slice_get};
ghost use Rattle.std.specs.Int.{bit_at};
ghost use Rattle.engine.specs.Domains.{domain_at};
ghost use Rattle.engine.specs.Hits.{mode_of, width_of};
ghost use Rattle.vtdbits.specs.Context.{attached};

use super::{State, place_of};
use dmatypes::{DEVICES, Mode, Width};
use vtdbits::DomainId;

impl State {
    /// The devices that are attached to a domain: bit j is device j. None are where there is no such domain. It changes
    /// nothing, and isn't counted as a call.
    pub fn devices_of(&self, id: u64) -> u16
        ensures { (device : ℕ) → (bit_at result device ≡ 1) ↔ (attached (slice_get self.now.iommu.contexts device) ≡ Some id) }
    {
        // The row has an entry for each device, and no other: what its type keeps.
        let _ = &self.iommu;
        let mut devices = 0;
        for device in 0..DEVICES {
            if self.is_attached_to(device, id) {
                devices |= 1 << device;
            }
        }
        devices
    }

    // Whether a device is attached to a domain.
    fn is_attached_to(&self, device: u64, id: u64) -> bool
        ensures { IsTrue result ↔ attached (slice_get self.now.iommu.contexts device) ≡ Some id }
    {
        self.domain_of(device) == Some(id)
    }

    /// The mode of a domain; `None` exactly where there is no such domain. It changes nothing, and isn't counted as a call.
    pub fn mode_of(&self, id: u64) -> Option<Mode>
        ensures { result ≡ mode_of (domain_at self.now.domains id) }
    {
        let domains = &self.domains;
        let id = DomainId::new(id)?;
        let domain = domains[place_of(id)].as_ref()?;
        Some(domain.mode())
    }

    /// The width of a domain's addresses; `None` exactly where there is no such domain. It changes nothing, and isn't counted as a
    /// call.
    pub fn width_of(&self, id: u64) -> Option<Width>
        ensures { result ≡ width_of (domain_at self.now.domains id) }
    {
        let domains = &self.domains;
        let id = DomainId::new(id)?;
        let domain = domains[place_of(id)].as_ref()?;
        Some(domain.width())
    }
}
