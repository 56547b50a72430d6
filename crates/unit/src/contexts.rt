//! The row of contexts.

ghost use Rattle.std.specs.Prelude.{◌≡◌, ◌<◌, Some, slice_get, slice_set, replicate, length};
ghost use Rattle.vtdbits.specs.Context.{attached};

use dmatypes::DEVICES;
use std::marker::Model;
use vtdbits::{ContextEntry, Words};

/// The row of context entries, by the number of the device, as the words that spell them.
#[derive(Debug, Drop)]
pub struct Contexts {
    words: [Words; DEVICES as usize],
}

// Clauses see the entries.
impl Model for Contexts {
    ghost use Rattle.std.specs.Prelude.{List, map};
    ghost use Rattle.vtdbits.specs.declared.context.ContextEntry.{ContextEntry};
    ghost use Rattle.unit.specs.Row.{IsRow, entry_in};

    ghost Value = { List ContextEntry };

    ghost view = { λ r. map entry_in r.words };

    ghost invariant = { λ r. IsRow r.words };
}

impl Contexts {
    /// A row in which every device is attached to nothing.
    pub fn new() -> Contexts
        ensures { result ≡ replicate DEVICES ContextEntry.Absent }
    {
        Contexts {
            words: [Words { low: 0, high: 0 }; DEVICES as usize],
        }
    }

    /// The entry of a device.
    pub fn get(&self, device: u64) -> ContextEntry
        requires { device < DEVICES }
        ensures { slice_get self.now device ≡ Some result }
    {
        ContextEntry::decode(self.words[device as usize]).unwrap_or(ContextEntry::Absent)
    }

    /// The domain that a device is attached to, by its number.
    pub fn domain_of(&self, device: u64) -> Option<u64>
        requires { device < DEVICES }
        ensures { result ≡ attached (slice_get self.now device) }
    {
        // Each pair of words spells an entry, and no domain has the number 0: so the rest needn't be read.
        let domain = self.words[device as usize].high >> 8;
        if domain == 0 { None } else { Some(domain) }
    }

    /// Writes the entry of a device.
    pub fn set(&mut self, device: u64, entry: ContextEntry)
        requires { device < DEVICES }
        ensures { self.new ≡ slice_set self.old device entry }
    {
        self.words[device as usize] = entry.encode();
    }

    /// Makes the entry of a device absent.
    pub fn clear(&mut self, device: u64)
        requires { device < DEVICES }
        ensures { self.new ≡ slice_set self.old device ContextEntry.Absent }
    {
        self.set(device, ContextEntry::Absent);
    }
}
