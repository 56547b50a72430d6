//! Entries of second-stage tables.

ghost use Rattle.std.specs.Prelude.{◌≡◌, ℕ, IfSome, IfNone, unwrap_or};

use crate::bits::field;
use crate::translation::{LargeTranslation, Translation};
use bitflags::Flags;
use dmatypes::{Frame, Rights, SPAN_PAGES};

/// What a word of a second-stage table states (second-stage paging).
#[derive(Clone, Copy, Debug, PartialEq, Eq)]
pub enum SsEntry {
    /// Nothing: there is no page below.
    Absent,
    /// The table of the next level lies in this frame.
    Table(Frame),
    /// A page of 4 KiB, in a table of level 1.
    Leaf(Translation),
    /// 512 pages, 2 MiB, in a table of level 2.
    LargeLeaf(LargeTranslation),
}

// Where a frame begins in an entry.
const FRAME: u32 = 12;

// The bit of an entry of level 2 that states 512 pages.
const PAGE_SIZE: u64 = 1 << 7;

impl SsEntry {
    ghost use Rattle.std.specs.Prelude.{◌+◌};
    ghost use Rattle.dmatypes.specs.Page.{IsFrame};
    ghost use Rattle.vtdbits.specs.Entry.{Spells, MayStandAt, entry_of, look};
    ghost use Rattle.dmatypes.specs.World.{Target};
    ghost use Rattle.vtdbits.specs.Translation.{target};

    /// The entry that a word spells in a table of a level, if it spells one.
    #[inline]
    #[tactic(auto, unfolding(crate::specs::Entry::entry_of, crate::specs::Entry::look))]
    pub fn decode(level: u64, word: u64) -> Option<SsEntry>
        ensures some { IfSome result (Spells level word) }
        ensures none { IfNone result ((e : SsEntry) → Spells level word e → ⊥) }
        ensures read { result ≡ entry_of level word }
        ensures looked { look level word ≡ unwrap_or result SsEntry.Absent }
    {
        if word == 0 {
            return Some(SsEntry::Absent);
        }
        let frame = Frame::new(word >> FRAME)?;
        let number = field(word, 0, 2);
        let rights = Rights::from_number(number)?;
        let other = field(word, 0, FRAME) - number;
        match level {
            1 if other == 0 => Some(SsEntry::Leaf(Translation::new(frame, rights))),
            2..=4 if other == 0 && number == 3 => Some(SsEntry::Table(frame)),
            2 if other == PAGE_SIZE && frame.number() % SPAN_PAGES == 0 => {
                Some(SsEntry::LargeLeaf(LargeTranslation::new(frame, rights)))
            }
            _ => None,
        }
    }

    /// The word that spells it, at each level where it may stand.
    #[inline]
    #[tactic(auto, unfolding(crate::specs::Entry::entry_of, crate::specs::Entry::look))]
    pub fn encode(self) -> u64
        ensures spells { (level : ℕ) → MayStandAt level self → Spells level result self }
        ensures read { (level : ℕ) → MayStandAt level self → entry_of level result ≡ Some self }
        ensures looked { (level : ℕ) → MayStandAt level self → look level result ≡ self }
    {
        match self {
            SsEntry::Absent => 0,
            SsEntry::Table(frame) => 3 + (frame.number() << FRAME),
            SsEntry::Leaf(page) => u64::from(page.rights().bits())
                + (page.frame().number() << FRAME),
            SsEntry::LargeLeaf(pages) => {
                u64::from(pages.rights().bits()) + PAGE_SIZE + (pages.frame().number() << FRAME)
            }
        }
    }

    /// The word of a leaf of 4 KiB like the one that this word spells, but of the frame after its frame.
    #[inline]
    pub fn leaf_after(word: u64) -> u64
        ensures { (leaf : Target) → Spells 1 word (SsEntry.Leaf leaf) → IsFrame (leaf.frame + 1)
            → Spells 1 result (SsEntry.Leaf (target (leaf.frame + 1) leaf.rights)) }
    {
        word.wrapping_add(1 << FRAME)
    }
}
