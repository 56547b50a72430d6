//! The pool of table frames.

ghost use Rattle.std.specs.Prelude.{◌≡◌, ℕ, ◌+◌, ◌<◌, ◌≤◌, ◌^◌, [], ◌∷◌, ◌++◌, length, slice_index, IfOk};
ghost use Rattle.dmatypes.specs.Rights.{AreRights, bits_of};
ghost use Rattle.dmatypes.specs.declared.limits.TheConstants.{LEAST_TABLE_FRAMES, MOST_TABLE_FRAMES};
ghost use Rattle.vtdbits.specs.Entry.{look};
ghost use Rattle.vtdbits.specs.Translation.{target};
ghost use Rattle.tables.specs.Tree.{one_if_same};
ghost use Rattle.tables.specs.Pool.{word, occurs, moment_of, IsZeroed, IsWrite, KeepsOtherWords, IsPool};

use crate::entries::TABLE_ENTRIES;
use crate::trail::Trail;
use dmatypes::{FRAMES_END, Frame, Rights};
use std::alloc::{AllocError, Global};
use std::fmt;
use std::marker::Model;
use vtdbits::{SsEntry, Translation};

/// Frames for tables, of a word for each entry. Some of them are free, and these are zeroed; the others are of trees, or
/// were cut from one and not given back.
///
/// The words stand in one block, frame after frame: those of frame F begin F × 4,096 bytes behind those of frame 0, where
/// the block begins. So a unit that walks the block where it lies walks the tables. `Pool::new` alone takes memory, and
/// writes all of it.
#[derive(Drop)]
pub struct Pool {
    // The view is this very list, so what `word` says of it is where a frame's words lie in memory.
    words: Vec<u64>,
    // The free frames come first, in no order.
    slots: Vec<Frame>,
    free: usize,
    trail: Trail,
}

impl Model for Pool {
    ghost use Rattle.std.specs.Prelude.{◌≤◌, length, take};
    ghost use Rattle.tables.specs.Pool.{Pool, IsPool};

    ghost Value = { Pool };

    ghost view = { λ a. record {
      words = a.words.items;
      free = take a.free a.slots.items;
      frames = length a.slots.items;
      trail = a.trail.moments;
    } };

    ghost invariant = { λ a.
        IsPool (record {
          words = a.words.items;
          free = take a.free a.slots.items;
          frames = length a.slots.items;
          trail = a.trail.moments;
        })
        × (a.free ≤ length a.slots.items) };
}

impl Pool {
    /// A pool of 16 to 4,096 frames (own), all of them free. The block of its words is asked for by one request, and cleared
    /// here: no later call takes memory, or is the first to write any.
    pub fn new(alloc: Global, frames: u64) -> Result<Pool, AllocError>
        requires some { LEAST_TABLE_FRAMES ≤ frames }
        requires few { frames ≤ MOST_TABLE_FRAMES }
        ensures pool { IfOk result (λ pool. IsPool pool) }
        ensures frames { IfOk result (λ pool. pool.frames ≡ frames) }
        ensures free { IfOk result (λ pool. (f : ℕ) → f < frames → occurs f pool.free ≡ 1) }
        ensures zeroed { IfOk result (λ pool. (f : ℕ) → f < frames → IsZeroed pool.words f) }
        ensures count { IfOk result (λ pool. length pool.free ≡ frames) }
    {
        let words = vec![in alloc; 0u64; (frames * TABLE_ENTRIES) as usize]?;
        let mut slots = Vec::new(alloc);
        for number in 0..frames {
            slots.push(Frame::new(number).unwrap())?;
        }
        Ok(Pool {
            words,
            slots,
            free: frames as usize,
            trail: Trail::new(),
        })
    }

    /// How many frames are free.
    pub fn free_count(&self) -> u64
        ensures count { result ≡ length self.now.free }
        ensures pool { IsPool self.now }
    {
        self.free as u64
    }

    /// How many table frames the pool has.
    pub fn frames(&self) -> u64
        ensures { result ≡ self.now.frames }
    {
        self.slots.len() as u64
    }

    /// The word of a frame at an index; 0 in a frame that the pool doesn't have.
    pub fn read(&self, frame: Frame, index: u64) -> u64
        requires { index < TABLE_ENTRIES }
        ensures { result ≡ word self.now.words frame index }
    {
        let place = (frame.number() * TABLE_ENTRIES + index) as usize;
        if place < self.words.len() {
            self.words[place]
        } else {
            0
        }
    }

    /// The word of a frame of the pool at an index: `read` without its test, for the tables of a tree.
    pub(crate) fn word_of(&self, frame: Frame, index: u64) -> u64
        requires frame { frame < self.now.frames }
        requires index { index < TABLE_ENTRIES }
        ensures { result ≡ word self.now.words frame index }
    {
        self.words[(frame.number() * TABLE_ENTRIES + index) as usize]
    }

    /// The 512 words of a frame of the pool, index 0 first. They lie one after the other.
    pub fn words_of(&self, frame: Frame) -> &[u64]
        requires { frame < self.now.frames }
        ensures length { length result.now ≡ TABLE_ENTRIES }
        ensures words { (k : ℕ) → k < TABLE_ENTRIES → slice_index result.now k ≡ word self.now.words frame k }
    {
        let start = (frame.number() * TABLE_ENTRIES) as usize;
        &self.words[start..start + TABLE_ENTRIES as usize]
    }

    /// Sets a word of a frame that isn't free.
    pub(crate) fn write(&mut self, frame: Frame, index: u64, value: u64)
        requires frame { frame < self.old.frames }
        requires index { index < TABLE_ENTRIES }
        requires taken { occurs frame self.old.free ≡ 0 }
        ensures wrote { IsWrite self.old.words self.new.words frame index value }
        ensures trail { self.new.trail ≡ self.old.trail ++ moment_of self.new ∷ [] }
        ensures free { self.new.free ≡ self.old.free }
        ensures frames { self.new.frames ≡ self.old.frames }
        ensures pool { IsPool self.new }
    {
        self.words[(frame.number() * TABLE_ENTRIES + index) as usize] = value;
        self.trail = self.trail.and(&self.words, &self.slots, self.free);
    }

    /// Clears `count` words of a frame that isn't free, from an index on.
    pub(crate) fn clear(&mut self, frame: Frame, from: u64, count: u64)
        requires frame { frame < self.old.frames }
        requires within { from + count ≤ TABLE_ENTRIES }
        requires taken { occurs frame self.old.free ≡ 0 }
        ensures cleared { (k : ℕ) → k < count → word self.new.words frame (from + k) ≡ 0 }
        ensures rest { KeepsOtherWords self.old.words self.new.words frame from count }
        ensures trail { self.new.trail ≡ self.old.trail ++ moment_of self.new ∷ [] }
        ensures free { self.new.free ≡ self.old.free }
        ensures frames { self.new.frames ≡ self.old.frames }
        ensures pool { IsPool self.new }
    {
        let start = (frame.number() * TABLE_ENTRIES + from) as usize;
        self.words[start..start + count as usize].fill(0);
        self.trail = self.trail.and(&self.words, &self.slots, self.free);
    }

    /// Spells leaves of one page each in `count` words of a frame that isn't free, from an index on: host frames that
    /// follow one another from a first one on.
    pub(crate) fn write_leaves(
        &mut self,
        frame: Frame,
        from: u64,
        count: u64,
        first: u64,
        rights: Rights,
    )
        requires frame { frame < self.old.frames }
        requires within { from + count ≤ TABLE_ENTRIES }
        requires taken { occurs frame self.old.free ≡ 0 }
        requires frames { first + count ≤ FRAMES_END }
        requires rights { AreRights (bits_of rights) }
        ensures leaves { (k : ℕ) → k < count
            → look 1 (word self.new.words frame (from + k)) ≡ SsEntry.Leaf (target (first + k) (bits_of rights)) }
        ensures rest { KeepsOtherWords self.old.words self.new.words frame from count }
        ensures trail { self.new.trail ≡ self.old.trail ++ moment_of self.new ∷ [] }
        ensures free { self.new.free ≡ self.old.free }
        ensures frames { self.new.frames ≡ self.old.frames }
        ensures pool { IsPool self.new }
    {
        let start = (frame.number() * TABLE_ENTRIES + from) as usize;
        spell_leaves(
            &mut self.words[start..start + count as usize],
            first,
            rights,
        );
        self.trail = self.trail.and(&self.words, &self.slots, self.free);
    }

    /// Takes a free frame.
    pub(crate) fn take(&mut self) -> Frame
        requires { 0 < length self.old.free }
        ensures within { result < self.old.frames }
        ensures free { (f : ℕ) → occurs f self.new.free + one_if_same result f ≡ occurs f self.old.free }
        ensures count { length self.new.free + 1 ≡ length self.old.free }
        ensures zeroed { IsZeroed self.new.words result }
        ensures words { self.new.words ≡ self.old.words }
        ensures trail { self.new.trail ≡ self.old.trail }
        ensures frames { self.new.frames ≡ self.old.frames }
        ensures old_pool { IsPool self.old }
        ensures pool { IsPool self.new }
    {
        self.free -= 1;
        self.slots[self.free]
    }

    /// Gives a zeroed frame back.
    pub(crate) fn give(&mut self, frame: Frame)
        requires within { frame < self.old.frames }
        requires taken { occurs frame self.old.free ≡ 0 }
        requires zeroed { IsZeroed self.old.words frame }
        ensures free { (f : ℕ) → occurs f self.new.free ≡ occurs f self.old.free + one_if_same frame f }
        ensures count { length self.new.free ≡ length self.old.free + 1 }
        ensures words { self.new.words ≡ self.old.words }
        ensures trail { self.new.trail ≡ self.old.trail ++ moment_of self.new ∷ [] }
        ensures frames { self.new.frames ≡ self.old.frames }
        ensures pool { IsPool self.new }
    {
        self.slots[self.free] = frame;
        self.free += 1;
        self.trail = self.trail.and(&self.words, &self.slots, self.free);
    }

    /// Makes frames free: different zeroed frames of the pool, neither free nor of a tree.
    pub fn give_back(&mut self, frames: &[Frame])
        requires once { (f : ℕ) → occurs f self.old.free + occurs f frames.now ≤ 1 }
        requires within { (f : ℕ) → 0 < occurs f frames.now → f < self.old.frames }
        requires zeroed { (f : ℕ) → 0 < occurs f frames.now → IsZeroed self.old.words f }
        ensures free { (f : ℕ) → occurs f self.new.free ≡ occurs f self.old.free + occurs f frames.now }
        ensures count { length self.new.free ≡ length self.old.free + length frames.now }
        ensures words { self.new.words ≡ self.old.words }
        ensures trail { self.new.trail ≡ self.old.trail }
        ensures frames { self.new.frames ≡ self.old.frames }
        ensures pool { IsPool self.new }
    {
        let end = self.free + frames.len();
        // Most unmaps cut no table, and then nothing is copied.
        if frames.is_empty() {
            return;
        }
        self.slots[self.free..end].copy_from_slice(frames);
        self.free = end;
    }
}

// How many frames there are and are free, and none of their words.
impl fmt::Debug for Pool {
    fn fmt<W: fmt::Write>(&self, f: &mut fmt::Formatter<W>) -> fmt::Result {
        f.debug_struct("Pool")
            .field("frames", &self.frames())
            .field("free", &self.free_count())
            .finish()
    }
}

/// Spells leaves of one page each: host frames that follow one another from a first one on.
fn spell_leaves(words: &mut [u64], first: u64, rights: Rights)
    requires frames { first + length words.old ≤ FRAMES_END }
    requires rights { AreRights (bits_of rights) }
    ensures length { length words.new ≡ length words.old }
    ensures leaves { (k : ℕ) → k < length words.old
        → look 1 (slice_index words.new k) ≡ SsEntry.Leaf (target (first + k) (bits_of rights)) }
{
    // Where there is a word, the first frame is one.
    let Some(frame) = Frame::new(first) else {
        return;
    };
    let mut word = SsEntry::Leaf(Translation::new(frame, rights)).encode();
    for place in words.iter_mut() {
        *place = word;
        word = SsEntry::leaf_after(word);
    }
}
