//! What readers answer to C, where it is more than one number.

ghost use Rattle.std.specs.Prelude.{◌≡◌};
ghost use Rattle.vtdm_c.specs.Told.{context_told, domain_totals_told, no_context, no_domain_totals, no_sent, no_totals};
ghost use Rattle.vtdm_c.specs.Told.{bits_of_width, number_of_mode, sent_told, totals_told};

use crate::answer::Answer;
use dmatypes::{Mode, Width};
use vtdbits::Words;

/// A status, and where it is 0 how many table frames are free, used by trees, and held by retired records; how many tickets are
/// open, and how many descriptors wait.
#[repr(C)]
#[derive(Clone, Copy, Debug, PartialEq, Eq)]
pub struct Totals {
    pub status: u64,
    pub free: u64,
    pub used: u64,
    pub held: u64,
    pub tickets: u64,
    pub pending: u64,
}

/// A status, and where it is 0 the mode of a domain, 0 strict and 1 lazy, and how many live pages, retired records and pieces
/// of its address space it has.
#[repr(C)]
#[derive(Clone, Copy, Debug, PartialEq, Eq)]
pub struct DomainTotals {
    pub status: u64,
    pub mode: u64,
    pub live: u64,
    pub retired: u64,
    pub pieces: u64,
}

/// A status, and where it is 0 the two words of a context entry.
#[repr(C)]
#[derive(Clone, Copy, Debug, PartialEq, Eq)]
pub struct Context {
    pub status: u64,
    pub low: u64,
    pub high: u64,
}

/// A status, and where it is 0 the two words of a descriptor that was sent.
#[repr(C)]
#[derive(Clone, Copy, Debug, PartialEq, Eq)]
pub struct Sent {
    pub status: u64,
    pub low: u64,
    pub high: u64,
}

impl Totals {
    /// A status with no totals.
    pub(crate) fn none(status: u64) -> Totals
        ensures { result ≡ no_totals status }
    {
        Totals {
            status,
            free: 0,
            used: 0,
            held: 0,
            tickets: 0,
            pending: 0,
        }
    }

    /// These totals.
    pub(crate) fn of(totals: engine::Totals) -> Totals
        ensures { result ≡ totals_told totals }
    {
        Totals {
            status: Answer::OK,
            free: totals.free,
            used: totals.used,
            held: totals.held,
            tickets: totals.tickets,
            pending: totals.pending,
        }
    }
}

impl DomainTotals {
    /// A status with no totals.
    pub(crate) fn none(status: u64) -> DomainTotals
        ensures { result ≡ no_domain_totals status }
    {
        DomainTotals {
            status,
            mode: 0,
            live: 0,
            retired: 0,
            pieces: 0,
        }
    }

    /// The totals of a domain that may be there.
    pub(crate) fn of(totals: Option<engine::DomainTotals>) -> DomainTotals
        ensures { result ≡ domain_totals_told totals }
    {
        let Some(totals) = totals else {
            return DomainTotals::none(Answer::NO_DOMAIN);
        };
        DomainTotals {
            status: Answer::OK,
            mode: number_of_mode(totals.mode),
            live: totals.live,
            retired: totals.retired,
            pieces: totals.pieces,
        }
    }
}

impl Context {
    /// A status with no words.
    pub(crate) fn none(status: u64) -> Context
        ensures { result ≡ no_context status }
    {
        Context {
            status,
            low: 0,
            high: 0,
        }
    }

    /// These words.
    pub(crate) fn of(words: Words) -> Context
        ensures { result ≡ context_told words }
    {
        Context {
            status: Answer::OK,
            low: words.low,
            high: words.high,
        }
    }
}

impl Sent {
    /// A status with no words.
    pub(crate) fn none(status: u64) -> Sent
        ensures { result ≡ no_sent status }
    {
        Sent {
            status,
            low: 0,
            high: 0,
        }
    }

    /// These words.
    pub(crate) fn of(words: Words) -> Sent
        ensures { result ≡ sent_told words }
    {
        Sent {
            status: Answer::OK,
            low: words.low,
            high: words.high,
        }
    }
}

/// The number of a mode: 0 strict, 1 lazy.
pub(crate) fn number_of_mode(mode: Mode) -> u64
    ensures { result ≡ number_of_mode mode }
{
    match mode {
        Mode::Strict => 0,
        Mode::Lazy => 1,
    }
}

/// The number of a width: its bits.
pub(crate) fn bits_of_width(width: Width) -> u64
    ensures { result ≡ bits_of_width width }
{
    match width {
        Width::W39 => 39,
        Width::W48 => 48,
    }
}
