//! What is read by whoever brings the tables and the descriptors to a unit that isn't the state's own. None of it changes
//! anything, or is counted as a call.

ghost use Rattle.std.specs.Prelude.{◌≡◌, ℕ, ◌<◌, ◌≤◌, ◌↔◌, length, slice_get, slice_index, IfSome, IsSome};
ghost use Rattle.dmatypes.specs.declared.limits.TheConstants.{DEVICES, MOST_TABLE_FRAMES};
ghost use Rattle.engine.specs.Domains.{domain_at};
ghost use Rattle.engine.specs.Walkable.{SpellsContext, root_of, table_at};
ghost use Rattle.queue.specs.Ring.{submitted_in};
ghost use Rattle.tables.specs.Pool.{word};
ghost use Rattle.tables.specs.declared.entries.TheConstants.{TABLE_ENTRIES};
ghost use Rattle.vtdbits.specs.Descriptor.{descriptor_of};

use super::{State, place_of};
use dmatypes::{DEVICES, Frame};
use tables::TABLE_ENTRIES;
use vtdbits::{Descriptor, DomainId, Words};

impl State {
    /// The frame of the root table of a domain; `None` exactly where there is no such domain.
    pub fn root_of(&self, id: u64) -> Option<Frame>
        ensures { result ≡ root_of (domain_at self.now.domains id) }
    {
        let domains = &self.domains;
        let id = DomainId::new(id)?;
        let domain = domains[place_of(id)].as_ref()?;
        Some(domain.root())
    }

    /// The table of a level, 1 for the lowest, on a page's way down the tree of a domain; `None` exactly where there is no such
    /// domain, or the way ends above that level.
    pub fn table_at(&self, id: u64, page: u64, level: u64) -> Option<Frame>
        requires { 1 ≤ level }
        ensures { result ≡ table_at self.now.pool (domain_at self.now.domains id) page level }
    {
        let domains = &self.domains;
        let id = DomainId::new(id)?;
        let domain = domains[place_of(id)].as_ref()?;
        domain.table_at(&self.pool, page, level)
    }

    /// How many table frames there are.
    pub fn table_frames(&self) -> u64
        ensures count { result ≡ self.now.pool.frames }
        ensures few { result ≤ MOST_TABLE_FRAMES }
    {
        // A pool has few frames, which is known where its free ones are counted.
        let _ = self.pool.free_count();
        self.pool.frames()
    }

    /// The word of a table frame at an index, 0 to 511: a second-stage entry where the frame is of a tree. `None` exactly
    /// where there is no such table frame, or no such index.
    pub fn table_word(&self, frame: u64, index: u64) -> Option<u64>
        ensures word { IfSome result (λ found. found ≡ word self.now.pool.words frame index) }
        ensures some { IsSome result ↔ (frame < self.now.pool.frames) × (index < TABLE_ENTRIES) }
    {
        if frame >= self.pool.frames() || index >= TABLE_ENTRIES {
            return None;
        }
        // A pool has few frames, which is known where its free ones are counted: so the number is a frame's.
        let _ = self.pool.free_count();
        Some(self.pool.read(Frame::new(frame)?, index))
    }

    /// The 512 words of a table frame, index 0 first: second-stage entries where the frame is of a tree. `None` exactly where
    /// there is no such table frame.
    pub fn table_words(&self, frame: u64) -> Option<&[u64]>
        ensures length { IfSome result (λ found. length found.now ≡ TABLE_ENTRIES) }
        ensures words { IfSome result (λ found.
            (k : ℕ) → k < TABLE_ENTRIES → slice_index found.now k ≡ word self.now.pool.words frame k) }
        ensures some { IsSome result ↔ (frame < self.now.pool.frames) }
    {
        if frame >= self.pool.frames() {
            return None;
        }
        // A pool has few frames, which is known where its free ones are counted: so the number is a frame's.
        let _ = self.pool.free_count();
        Some(self.pool.words_of(Frame::new(frame)?))
    }

    /// The two words of a device's entry in the row of contexts; `None` exactly where there is no such device.
    pub fn context_words(&self, device: u64) -> Option<Words>
        ensures words { IfSome result (SpellsContext self.now device) }
        ensures some { IsSome result ↔ (device < DEVICES) }
    {
        let contexts = &self.iommu.contexts;
        if device >= DEVICES {
            return None;
        }
        Some(contexts.get(device).encode())
    }

    /// The descriptor that was sent last where `back` is 0, the one before it where it is 1, and so on. `None` where the ring
    /// doesn't hold it any more.
    pub fn sent(&self, back: u64) -> Option<Descriptor>
        ensures { result ≡ slice_get (submitted_in self.now.iommu.ring) back }
    {
        self.iommu.ring.submitted(back)
    }

    /// The words of the descriptor that `sent` answers there.
    pub fn sent_words(&self, back: u64) -> Words
        requires { back < length (submitted_in self.now.iommu.ring) }
        ensures { descriptor_of result ≡ slice_get (submitted_in self.now.iommu.ring) back }
    {
        self.iommu.ring.submitted_words(back)
    }

    /// How many waits were sent, which is the number of the last one: 0 before the first. A wait writes its number's low 32 bits
    /// as the status.
    pub fn waits(&self) -> u64
        ensures { result ≡ self.now.iommu.sent }
    {
        self.iommu.sent()
    }
}
