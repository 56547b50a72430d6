//! What the unit remembers.

ghost use Rattle.std.specs.Prelude.{◌≡◌, ◌==◌, ◌&&◌, IsTrue, ◌-◌, ◌%◌, ◌^◌, ◌<◌, ◌≤◌};
ghost use Rattle.unit.specs.Caches.{leaf};
ghost use Rattle.unit.specs.Walking.{hold, met_non_leaf, stated_by};

use dmatypes::{Frame, PAGES_END, Rights, SPAN_PAGES, Width};
use std::fmt;
use std::marker::Model;
use tables::span_of;
use vtdbits::{DeviceNumber, DomainId, LargeTranslation, Translation};

/// A leaf that a walk met: the pages that it stands for, and what they are mapped to, one frame after the
/// other.
// Its fields are as narrow as they can be, as a table's level is, and stand as they take the least room. A unit is moved where it is made,
// and stands on the stack meanwhile.
#[derive(Clone, Copy, PartialEq, Eq)]
pub(crate) struct CachedLeaf {
    pub(crate) domain: DomainId,
    pub(crate) first: u64,
    pub(crate) frame: Frame,
    pub(crate) pages: u16,
    pub(crate) rights: Rights,
}

impl Model for CachedLeaf {
    ghost use Rattle.dmatypes.specs.Rights.{bits_of};
    ghost use Rattle.unit.specs.Caches.{CachedLeaf, IsLeaf, leaf};

    ghost Value = { CachedLeaf };

    ghost view = { λ l. leaf l.domain l.first l.pages l.frame (bits_of l.rights) };

    ghost invariant = { λ l. IsLeaf (leaf l.domain l.first l.pages l.frame (bits_of l.rights)) };

    ghost inverse = { λ v.
        record { domain = v.domain; first = v.first; pages = v.pages; frame = v.frame; rights = record { 0 = v.rights } } };
}

impl CachedLeaf {
    /// The leaf of one page of a domain.
    pub(crate) fn small(domain: DomainId, page: u64, to: Translation) -> CachedLeaf
        requires { page < PAGES_END }
        ensures { result ≡ leaf domain page 1 to.frame to.rights }
    {
        CachedLeaf {
            domain,
            first: page,
            pages: 1,
            frame: to.frame(),
            rights: to.rights(),
        }
    }

    /// The leaf of the span of a domain around a page.
    pub(crate) fn large(domain: DomainId, page: u64, to: LargeTranslation) -> CachedLeaf
        requires { page < PAGES_END }
        ensures { result ≡ leaf domain (page - page % SPAN_PAGES) SPAN_PAGES to.frame to.rights }
    {
        CachedLeaf {
            domain,
            first: page - page % SPAN_PAGES,
            pages: SPAN_PAGES as u16,
            frame: to.frame(),
            rights: to.rights(),
        }
    }

    /// Whether it is of a domain and stands for a page.
    pub(crate) fn holds(&self, domain: DomainId, page: u64) -> bool
        ensures { result ≡ ((self.now.domain == domain) && hold self.now.first self.now.pages page) }
    {
        self.domain == domain && self.first <= page && page - self.first < u64::from(self.pages)
    }

    /// What it states of a page that it stands for.
    pub(crate) fn translation(&self, page: u64) -> Translation
        requires { IsTrue (hold self.now.first self.now.pages page) }
        ensures { result ≡ stated_by page self.now }
    {
        let frame = self.frame.number() + (page - self.first);
        Translation::new(Frame::new(frame).unwrap(), self.rights)
    }
}

impl fmt::Debug for CachedLeaf {
    fn fmt<W: fmt::Write>(&self, f: &mut fmt::Formatter<W>) -> fmt::Result {
        f.debug_struct("CachedLeaf")
            .field("domain", &self.domain)
            .field("first", &self.first)
            .field("pages", &self.pages)
            .field("frame", &self.frame)
            .field("rights", &self.rights)
            .finish()
    }
}

// A blank for the unused places of a list.
impl Default for CachedLeaf {
    fn default() -> CachedLeaf {
        CachedLeaf {
            domain: DomainId::new(1).unwrap(),
            first: 0,
            pages: 1,
            frame: Frame::new(0).unwrap(),
            rights: Rights::READ,
        }
    }
}

/// A table below a root that a walk passed: the pages that it covers, its level and its frame.
#[derive(Clone, Copy, Debug, PartialEq, Eq)]
pub(crate) struct CachedNonLeaf {
    pub(crate) domain: DomainId,
    pub(crate) first: u64,
    pub(crate) pages: u64,
    pub(crate) level: u8,
    pub(crate) frame: Frame,
}

impl Model for CachedNonLeaf {
    ghost use Rattle.unit.specs.Caches.{CachedNonLeaf, IsNonLeaf, non_leaf};

    ghost Value = { CachedNonLeaf };

    ghost view = { λ t. non_leaf t.domain t.first t.pages t.level t.frame };

    ghost invariant = { λ t. IsNonLeaf (non_leaf t.domain t.first t.pages t.level t.frame) };

    ghost inverse = { λ v. record { domain = v.domain; first = v.first; pages = v.pages; level = v.level; frame = v.frame } };
}

impl CachedNonLeaf {
    /// The table of a level that covers a page of a domain.
    pub(crate) fn new(domain: DomainId, page: u64, level: u64, frame: Frame) -> CachedNonLeaf
        requires page { page < PAGES_END }
        requires low { 1 ≤ level }
        requires high { level ≤ 3 }
        ensures { result ≡ met_non_leaf domain page level frame }
    {
        let pages = span_of(level);
        CachedNonLeaf {
            domain,
            first: page - page % pages,
            pages,
            level: level as u8,
            frame,
        }
    }

    /// Whether it is of a domain and covers a page.
    pub(crate) fn holds(&self, domain: DomainId, page: u64) -> bool
        ensures { result ≡ ((self.now.domain == domain) && hold self.now.first self.now.pages page) }
    {
        self.domain == domain && self.first <= page && page < self.first + self.pages
    }

    /// Whether it is of a level.
    pub(crate) fn is_at(&self, level: u64) -> bool
        ensures { result ≡ (self.now.level == level) }
    {
        u64::from(self.level) == level
    }
}

impl Default for CachedNonLeaf {
    fn default() -> CachedNonLeaf {
        CachedNonLeaf {
            domain: DomainId::new(1).unwrap(),
            first: 0,
            pages: SPAN_PAGES,
            level: 1,
            frame: Frame::new(0).unwrap(),
        }
    }
}

/// A device's context: its domain, the frame of the domain's root, and the width of its addresses.
#[derive(Clone, Copy, Debug, PartialEq, Eq)]
pub(crate) struct CachedContext {
    pub(crate) device: DeviceNumber,
    pub(crate) domain: DomainId,
    pub(crate) root: Frame,
    pub(crate) width: Width,
}

impl Model for CachedContext {
    ghost use Rattle.unit.specs.Caches.{CachedContext, context};

    ghost Value = { CachedContext };

    ghost view = { λ c. context c.device c.domain c.root c.width };

    ghost inverse = { λ v. record { device = v.device; domain = v.domain; root = v.root; width = v.width } };
}

impl CachedContext {
    /// Whether it is of a device.
    pub(crate) fn is_of(&self, device: u64) -> bool
        ensures { result ≡ (self.now.device == device) }
    {
        self.device.number() == device
    }
}

/// A page of a domain that a walk found absent.
#[derive(Clone, Copy, Debug, PartialEq, Eq)]
pub(crate) struct CachedFault {
    pub(crate) domain: DomainId,
    pub(crate) page: u64,
}

impl Model for CachedFault {
    ghost use Rattle.unit.specs.Caches.{CachedFault, IsFault, fault};

    ghost Value = { CachedFault };

    ghost view = { λ f. fault f.domain f.page };

    ghost invariant = { λ f. IsFault (fault f.domain f.page) };

    ghost inverse = { λ v. record { domain = v.domain; page = v.page } };
}

impl CachedFault {
    /// Whether it is of a domain and a page.
    pub(crate) fn is_of(&self, domain: DomainId, page: u64) -> bool
        ensures { result ≡ ((self.now.domain == domain) && (self.now.page == page)) }
    {
        self.domain == domain && self.page == page
    }
}

impl Default for CachedFault {
    fn default() -> CachedFault {
        CachedFault {
            domain: DomainId::new(1).unwrap(),
            page: 0,
        }
    }
}

impl Default for CachedContext {
    fn default() -> CachedContext {
        CachedContext {
            device: DeviceNumber::new(0).unwrap(),
            domain: DomainId::new(1).unwrap(),
            root: Frame::new(0).unwrap(),
            width: Width::W39,
        }
    }
}
