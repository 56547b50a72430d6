//! Entries of the row of contexts.

ghost use Rattle.std.specs.Prelude.{◌≡◌, IfSome, IfNone};
ghost use Rattle.vtdbits.specs.Context.{number_of_width, width_of_number};

use crate::bits::field;
use crate::number::DomainId;
use crate::words::Words;
use dmatypes::{Frame, Width};

/// What a context entry states of its device (legacy mode, second stage alone).
#[derive(Clone, Copy, Debug, PartialEq, Eq)]
pub enum ContextEntry {
    /// The device is attached to nothing.
    Absent,
    /// The device is attached to a domain: the frame of its root table, and the width of its addresses.
    Present {
        root: Frame,
        width: Width,
        domain: DomainId,
    },
}

impl ContextEntry {
    ghost use Rattle.vtdbits.specs.Context.{Spells, context_of};

    /// The entry that two words spell, if they spell one.
    #[tactic(auto, unfolding(crate::specs::Context::context_of))]
    pub fn decode(words: Words) -> Option<ContextEntry>
        ensures some { IfSome result (Spells words) }
        ensures none { IfNone result ((e : ContextEntry) → Spells words e → ⊥) }
        ensures read { result ≡ context_of words }
    {
        if words.low == 0 && words.high == 0 {
            return Some(ContextEntry::Absent);
        }
        if field(words.low, 0, 12) != 1 {
            return None;
        }
        let root = Frame::new(words.low >> 12)?;
        let width = width_of(field(words.high, 0, 8))?;
        let domain = DomainId::new(words.high >> 8)?;
        Some(ContextEntry::Present {
            root,
            width,
            domain,
        })
    }

    /// The words that spell it.
    #[tactic(auto, unfolding(crate::specs::Context::context_of))]
    pub fn encode(self) -> Words
        ensures spells { Spells result self }
        ensures read { context_of result ≡ Some self }
    {
        match self {
            ContextEntry::Absent => Words { low: 0, high: 0 },
            ContextEntry::Present {
                root,
                width,
                domain,
            } => Words {
                low: 1 + (root.number() << 12),
                high: width_number(width) + (domain.number() << 8),
            },
        }
    }
}

// The number of an address width in a context entry.
fn width_number(width: Width) -> u64
    ensures { result ≡ number_of_width width }
{
    match width {
        Width::W39 => 1,
        Width::W48 => 2,
    }
}

// The address width of a number, if there is one.
fn width_of(number: u64) -> Option<Width>
    ensures some { IfSome result (λ w. number ≡ number_of_width w) }
    ensures none { IfNone result ((w : Width) → number ≡ number_of_width w → ⊥) }
    ensures read { result ≡ width_of_number number }
{
    match number {
        1 => Some(Width::W39),
        2 => Some(Width::W48),
        _ => None,
    }
}
