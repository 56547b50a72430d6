//! Flushes that were begun.

use vtdbits::DomainId;

/// A flush of a domain that was begun: its number among the begun flushes of the domain, from 1, and the number of the wait
/// that was sent for it.
#[derive(Clone, Copy)]
pub(crate) struct Ticket {
    pub(crate) domain: DomainId,
    pub(crate) number: u64,
    pub(crate) wait: u64,
}

// A blank for the unused places of a list.
impl Default for Ticket {
    fn default() -> Ticket {
        Ticket {
            domain: DomainId::new(1).unwrap(),
            number: 0,
            wait: 0,
        }
    }
}
