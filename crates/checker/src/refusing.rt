//! Which refusal a call meets.

ghost use Rattle.std.specs.Prelude.{◌↔◌, IsTrue};
ghost use Rattle.dmatypes.specs.Page.{IsInWindow};

use crate::asking::{has_frame_below, is_bad_map, pages_of, unmap_range};
use crate::checker::Checker;
use dmatypes::{
    Call, DEVICES, MOST_TICKETS, PAGE_BYTES, PageRange, Refusal, Segment, WINDOW_FIRST, WINDOW_LAST,
};

#[tactic(auto, unfolding(dmatypes::specs::Conditions::Stands))]
impl Checker {
    ghost use Rattle.std.specs.Prelude.{◌≡◌, ◌↔◌, ℕ, IsSome, IsSomeAnd, IsTrue, MatchOption, [], ◌∷◌};
    ghost use Rattle.dmatypes.specs.declared.call.Access.{Access};
    ghost use Rattle.dmatypes.specs.declared.call.Mode.{Mode};
    ghost use Rattle.dmatypes.specs.declared.call.Whim.{Whim};
    ghost use Rattle.dmatypes.specs.declared.width.Width.{Width};
    ghost use Rattle.dmatypes.specs.declared.call.Call.TheVariants as calls;
    ghost use Rattle.dmatypes.specs.declared.refusal.Refusal.TheVariants as refusals;
    ghost use Rattle.dmatypes.specs.Conditions.{IsBadUnmap, NoneStands, SomeIsNotLive, StandsAtMap};
    ghost use Rattle.dmatypes.specs.Page.{range_at};
    ghost use Rattle.checker.specs.Refusing.{IsFirstOf, IsRefusalOf, IsUnmapRange, map_conditions, plain_conditions};
    ghost use Rattle.checker.specs.World.{world_of};

    /// The first condition of refusals that stands at a call, where one does.
    pub fn refusal_of(&self, call: &Call) -> Option<Refusal>
        ensures { IsRefusalOf (world_of self.now) call.now result }
    {
        match call {
            Call::Domain { .. } => self.no_id(),
            Call::Drop { domain } => self.drop_refusal(*domain),
            Call::Attach { device, domain } => self.attach_refusal(*device, *domain),
            Call::Detach { device } => self.detach_refusal(*device),
            Call::Map {
                domain,
                frame,
                pages,
                order,
                rights,
            } => {
                let segment = Segment {
                    frame: *frame,
                    pages: *pages,
                };
                self.map_refusal(*domain, &[segment], *order, *rights)
            }
            Call::MapList {
                domain,
                order,
                rights,
                segments,
            } => self.map_refusal(*domain, segments.as_slice(), *order, *rights),
            Call::Unmap {
                domain,
                address,
                pages,
            } => self.unmap_refusal(*domain, *address, *pages),
            Call::Flush { domain } => self.flush_refusal(*domain),
            Call::Begin { domain } => self.begin_refusal(*domain),
            Call::Unit => None,
            Call::Reap { domain, number } => self.reap_refusal(*domain, *number),
            Call::Dma {
                device,
                address,
                ..
            } => self.dma_refusal(*device, *address),
            Call::Evict { .. } => None,
        }
    }

    // ---- conditions, by call

    fn no_id(&self) -> Option<Refusal>
        ensures { (mode : Mode) (width : Width) → IsRefusalOf (world_of self.now) (calls.Domain mode width) result }
    {
        match self.unused() {
            Some(_) => None,
            None => Some(Refusal::TooManyDomains),
        }
    }

    fn drop_refusal(&self, domain: u64) -> Option<Refusal>
        ensures { IsRefusalOf (world_of self.now) (calls.Drop domain) result }
    {
        if !self.has_domain(domain) {
            Some(Refusal::NoDomain)
        } else if self.is_attached(domain) || self.has_ticket(domain) {
            Some(Refusal::Busy)
        } else {
            None
        }
    }

    fn attach_refusal(&self, device: u64, domain: u64) -> Option<Refusal>
        ensures { IsRefusalOf (world_of self.now) (calls.Attach device domain) result }
    {
        if device >= DEVICES {
            Some(Refusal::NoDevice)
        } else if !self.has_domain(domain) {
            Some(Refusal::NoDomain)
        } else if self.domain_of_device(device).is_some() {
            Some(Refusal::Busy)
        } else {
            None
        }
    }

    fn detach_refusal(&self, device: u64) -> Option<Refusal>
        ensures { IsRefusalOf (world_of self.now) (calls.Detach device) result }
    {
        if device >= DEVICES {
            Some(Refusal::NoDevice)
        } else if self.domain_of_device(device).is_none() {
            Some(Refusal::NotAttached)
        } else {
            None
        }
    }

    fn unmap_refusal(&self, domain: u64, address: u64, pages: u64) -> Option<Refusal>
        ensures { IsRefusalOf (world_of self.now) (calls.Unmap domain address pages) result }
    {
        if !self.has_domain(domain) {
            return Some(Refusal::NoDomain);
        }
        let Some(range) = self.unmap_range(domain, address, pages) else {
            return Some(Refusal::BadRange);
        };
        if self.is_not_live(domain, range) {
            Some(Refusal::NotLive)
        } else {
            None
        }
    }

    /// The range that an unmap of a domain names, where it names one.
    pub(crate) fn unmap_range(&self, domain: u64, address: u64, pages: u64) -> Option<PageRange>
        ensures { IsUnmapRange ((world_of self.now).domains domain) address pages result }
    {
        let domain = self.domain(domain)?;
        unmap_range(address, pages, domain.width())
    }

    // Whether a page of the range isn't live in the domain.
    fn is_not_live(&self, domain: u64, range: PageRange) -> bool
        ensures { IsTrue result ↔ SomeIsNotLive (world_of self.now) domain range }
    {
        match self.domain(domain) {
            None => false,
            Some(domain) => domain.not_live_in(range).is_some(),
        }
    }

    fn flush_refusal(&self, domain: u64) -> Option<Refusal>
        ensures { IsRefusalOf (world_of self.now) (calls.Flush domain) result }
    {
        if !self.has_domain(domain) {
            Some(Refusal::NoDomain)
        } else {
            None
        }
    }

    fn begin_refusal(&self, domain: u64) -> Option<Refusal>
        ensures { IsRefusalOf (world_of self.now) (calls.Begin domain) result }
    {
        if !self.has_domain(domain) {
            Some(Refusal::NoDomain)
        } else if self.tickets.len() as u64 >= MOST_TICKETS {
            Some(Refusal::TooManyTickets)
        } else {
            None
        }
    }

    fn reap_refusal(&self, domain: u64, number: u64) -> Option<Refusal>
        ensures { IsRefusalOf (world_of self.now) (calls.Reap domain number) result }
    {
        if !self.is_open(domain, number) {
            Some(Refusal::BadTicket)
        } else {
            None
        }
    }

    fn dma_refusal(&self, device: u64, address: u64) -> Option<Refusal>
        ensures { (access : Access) (whim : Whim) → IsRefusalOf (world_of self.now) (calls.Dma device address access whim) result }
    {
        if device >= DEVICES {
            Some(Refusal::NoDevice)
        } else if is_in_window(address) {
            Some(Refusal::Window)
        } else {
            None
        }
    }

    // The first condition of a map that stands, where one does.
    fn map_refusal(
        &self,
        domain: u64,
        segments: &[Segment],
        order: u64,
        rights: u64,
    ) -> Option<Refusal>
        ensures { IsFirstOf (StandsAtMap (world_of self.now) domain segments.now order rights) map_conditions result }
    {
        match self.plain_map_refusal(domain, segments, order, rights) {
            Some(refusal) => Some(refusal),
            None => self.range_refusal(domain, segments, order, rights),
        }
    }

    /// The first condition of a map that stands, where one does that needs no search for a range.
    pub(crate) fn plain_map_refusal(
        &self,
        domain: u64,
        segments: &[Segment],
        order: u64,
        rights: u64,
    ) -> Option<Refusal>
        ensures { IsFirstOf (StandsAtMap (world_of self.now) domain segments.now order rights) plain_conditions result }
    {
        if !self.has_domain(domain) {
            Some(Refusal::NoDomain)
        } else if is_bad_map(segments, order, rights) {
            Some(Refusal::BadRange)
        } else if has_frame_below(segments, self.table_frames) {
            Some(Refusal::FrameOwned)
        } else {
            None
        }
    }

    // Where no other condition stands.
    fn range_refusal(
        &self,
        domain: u64,
        segments: &[Segment],
        order: u64,
        rights: u64,
    ) -> Option<Refusal>
        requires { NoneStands (StandsAtMap (world_of self.now) domain segments.now order rights) plain_conditions }
        ensures { IsFirstOf (StandsAtMap (world_of self.now) domain segments.now order rights) (refusals.NoRange ∷ []) result }
    {
        let pages = pages_of(segments)?;
        let domain = self.domain(domain)?;
        match domain.free_range(pages, order) {
            Some(_) => None,
            None => Some(Refusal::NoRange),
        }
    }
}

// Whether an address lies in the interrupt address range.
fn is_in_window(address: u64) -> bool
    ensures { IsTrue result ↔ IsInWindow address }
{
    let page = address / PAGE_BYTES;
    WINDOW_FIRST <= page && page <= WINDOW_LAST
}
