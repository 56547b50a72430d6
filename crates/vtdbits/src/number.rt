//! The numbers of domains and devices, and blocks of page numbers, each within its bounds.

ghost use Rattle.std.specs.Prelude.{◌≡◌, ◌↔◌, IsSome, IfSome};
ghost use Rattle.dmatypes.specs.Block.{block};
ghost use Rattle.vtdbits.specs.Numbers.{IsDevice, IsDomainId, IsPageBlock};

use crate::bits::field;
use dmatypes::{DEVICES, MOST_DOMAINS, PAGES_END};
use std::marker::Model;

/// The greatest order (AM) of a block that a page-selective descriptor names (own).
pub const MOST_BLOCK_ORDER: u8 = 9;

/// The id of a domain: 1 to 15 (own).
#[derive(Clone, Copy, Debug, PartialEq, Eq, PartialOrd, Ord)]
pub struct DomainId {
    number: u64,
}

impl Model for DomainId {
    ghost use Rattle.std.specs.Prelude.{ℕ};
    ghost use Rattle.vtdbits.specs.Numbers.{IsDomainId};

    ghost Value = { ℕ };

    ghost view = { λ d. d.number };

    ghost invariant = { λ d. IsDomainId d.number };

    ghost inverse = { λ n. record { number = n } };
}

impl DomainId {
    /// The id of this number, if it is one.
    pub fn new(number: u64) -> Option<DomainId>
        ensures some { IsSome result ↔ IsDomainId number }
        ensures value { IfSome result (λ d. d ≡ number) }
    {
        if 1 <= number && number <= MOST_DOMAINS {
            Some(DomainId { number })
        } else {
            None
        }
    }

    /// Its number.
    pub fn number(self) -> u64
        ensures value { result ≡ self }
        ensures domain { IsDomainId self }
    {
        self.number
    }
}

/// The number of a device on the one bus: 0 to 15 (own).
#[derive(Clone, Copy, Debug, PartialEq, Eq, PartialOrd, Ord)]
pub struct DeviceNumber {
    number: u64,
}

impl Model for DeviceNumber {
    ghost use Rattle.std.specs.Prelude.{ℕ};
    ghost use Rattle.vtdbits.specs.Numbers.{IsDevice};

    ghost Value = { ℕ };

    ghost view = { λ v. v.number };

    ghost invariant = { λ v. IsDevice v.number };

    ghost inverse = { λ n. record { number = n } };
}

impl DeviceNumber {
    /// The device of this number, if there is one.
    pub fn new(number: u64) -> Option<DeviceNumber>
        ensures some { IsSome result ↔ IsDevice number }
        ensures value { IfSome result (λ v. v ≡ number) }
    {
        if number < DEVICES {
            Some(DeviceNumber { number })
        } else {
            None
        }
    }

    /// Its number.
    pub fn number(self) -> u64
        ensures value { result ≡ self }
        ensures device { IsDevice self }
    {
        self.number
    }
}

/// A block of 2^order page numbers, aligned to 2^order, that one page-selective descriptor names: an order
/// (AM) of at most 9, and a first page number below 2^36. The first may be 0, which is no page.
#[derive(Clone, Copy, Debug, PartialEq, Eq)]
pub struct PageBlock {
    first: u64,
    order: u8,
}

impl Model for PageBlock {
    ghost use Rattle.dmatypes.specs.Block.{Block, block};
    ghost use Rattle.vtdbits.specs.Numbers.{IsPageBlock};

    ghost Value = { Block };

    ghost view = { λ b. block b.first b.order };

    ghost invariant = { λ b. IsPageBlock (block b.first b.order) };

    ghost inverse = { λ v. record { first = v.first; order = v.order } };
}

impl PageBlock {
    /// The block of this first page number and this order, if a descriptor can name it.
    pub fn new(first: u64, order: u8) -> Option<PageBlock>
        ensures some { IsSome result ↔ IsPageBlock (block first order) }
        ensures value { IfSome result (λ b. b ≡ block first order) }
    {
        if order <= MOST_BLOCK_ORDER
            && first < PAGES_END
            && field(first, 0, u32::from(order)) == 0
        {
            Some(PageBlock { first, order })
        } else {
            None
        }
    }

    /// Its first page number.
    pub fn first(self) -> u64
        ensures value { result ≡ self.first }
        ensures block { IsPageBlock self }
    {
        self.first
    }

    /// Its order: it has 2^order page numbers.
    pub fn order(self) -> u8
        ensures value { result ≡ self.order }
        ensures block { IsPageBlock self }
    {
        self.order
    }
}
