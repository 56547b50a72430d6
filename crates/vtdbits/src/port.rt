//! Port words: what a device may be answered without a lock.

ghost use Rattle.std.specs.Prelude.{◌≡◌, ◌↔◌, ℕ, IsSome, IfSome, IfNone};

use crate::bits::field;
use crate::translation::Translation;
use bitflags::Flags;
use dmatypes::{Access, Frame, Page, Rights};

/// A page with its host frame and rights, as one word states it (own). The empty word, 0, is none.
#[derive(Clone, Copy, Debug, PartialEq, Eq)]
pub struct PortWord {
    pub page: Page,
    pub translation: Translation,
}

impl PortWord {
    ghost use Rattle.vtdbits.specs.Port.{IsEmptyOrSpelling, Spells, States, port_of};

    /// What a word states, if it is a spelling.
    #[inline]
    #[tactic(auto, unfolding(crate::specs::Port::port_of))]
    pub fn decode(word: u64) -> Option<PortWord>
        ensures some { IfSome result (Spells word) }
        ensures none { IfNone result ((p : PortWord) → Spells word p → ⊥) }
        ensures read { result ≡ port_of word }
    {
        let rights = Rights::from_number(field(word, 0, 2))?;
        let frame = Frame::new(field(word, 2, 24))?;
        let page = Page::new(word >> 26)?;
        Some(PortWord {
            page,
            translation: Translation::new(frame, rights),
        })
    }

    /// The word that spells it.
    #[inline]
    #[tactic(auto, unfolding(crate::specs::Port::port_of))]
    pub fn encode(self) -> u64
        ensures spells { Spells result self }
        ensures read { port_of result ≡ Some self }
    {
        let rights = u64::from(self.translation.rights().bits());
        rights + (self.translation.frame().number() << 2) + (self.page.number() << 26)
    }

    /// The host byte address of a device's request at a byte address, where a word states the page of the
    /// address with the right. No more of the word is read, so it is to be empty or a spelling.
    #[inline]
    pub fn host(word: u64, address: u64, access: Access) -> Option<u64>
        requires { IsEmptyOrSpelling word }
        ensures some { IfSome result (States word address access) }
        ensures none { IfNone result ((host : ℕ) → States word address access host → ⊥) }
    {
        let right = match access {
            Access::Read => field(word, 0, 1),
            Access::Write => field(word, 1, 1),
        };
        if word >> 26 == address >> 12 && right == 1 {
            Some((field(word, 2, 24) << 12) + field(address, 0, 12))
        } else {
            None
        }
    }
}
