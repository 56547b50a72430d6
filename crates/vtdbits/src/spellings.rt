//! The laws of the codecs, each the contract of a function that does nothing. The words that spell a value
//! are those that are read as that value, no words spell two values, and no value has two spellings.

ghost use Rattle.std.specs.Prelude.{◌≡◌, ℕ, ◌↔◌};
ghost use Rattle.vtdbits.specs.Context as context;
ghost use Rattle.vtdbits.specs.Descriptor as descriptor;
ghost use Rattle.vtdbits.specs.Entry as entry;
ghost use Rattle.vtdbits.specs.Port as port;

use crate::context::ContextEntry;
use crate::descriptor::Descriptor;
use crate::entry::SsEntry;
use crate::port::PortWord;
use crate::words::Words;

/// A word spells one entry at a level, and an entry has one word, the same at each level where it may stand.
pub fn entry_spellings()
    ensures exact { (level word : ℕ) (e : SsEntry) →
        (entry.entry_of level word ≡ Some e) ↔ entry.Spells level word e }
    ensures one_value { (level word : ℕ) (a b : SsEntry) →
        entry.Spells level word a → entry.Spells level word b → a ≡ b }
    ensures one_word { (j k v w : ℕ) (e : SsEntry) →
        entry.Spells j v e → entry.Spells k w e → v ≡ w }
{}

/// Two words spell one context entry, and a context entry has one spelling.
pub fn context_spellings()
    ensures exact { (words : Words) (e : ContextEntry) →
        (context.context_of words ≡ Some e) ↔ context.Spells words e }
    ensures one_value { (words : Words) (a b : ContextEntry) →
        context.Spells words a → context.Spells words b → a ≡ b }
    ensures one_spelling { (v w : Words) (e : ContextEntry) →
        context.Spells v e → context.Spells w e → v ≡ w }
{}

/// Two words spell one descriptor, and a descriptor has one spelling.
pub fn descriptor_spellings()
    ensures exact { (words : Words) (d : Descriptor) →
        (descriptor.descriptor_of words ≡ Some d) ↔ descriptor.Spells words d }
    ensures one_value { (words : Words) (a b : Descriptor) →
        descriptor.Spells words a → descriptor.Spells words b → a ≡ b }
    ensures one_spelling { (v w : Words) (d : Descriptor) →
        descriptor.Spells v d → descriptor.Spells w d → v ≡ w }
{}

/// A word spells one page with its translation, and these have one word, which is never the empty one.
pub fn port_spellings()
    ensures exact { (word : ℕ) (p : PortWord) → (port.port_of word ≡ Some p) ↔ port.Spells word p }
    ensures one_value { (word : ℕ) (a b : PortWord) →
        port.Spells word a → port.Spells word b → a ≡ b }
    ensures one_word { (v w : ℕ) (p : PortWord) → port.Spells v p → port.Spells w p → v ≡ w }
    ensures not_empty { (p : PortWord) → port.Spells 0 p → ⊥ }
{}
