//! What an unmap took out of a tree.

ghost use Rattle.std.specs.Prelude.{◌≡◌, ◌+◌, ◌≤◌, [], ◌++◌, ◌||◌, false, length};
ghost use Rattle.tables.specs.Extents.{cut_of, was_split};

use crate::unmapping::Cleared;
use dmatypes::{Frame, MOST_PAGES, SPAN_PAGES};
use std::marker::Model;

/// The most tables that an unmap can cut: as many as its pages cover spans.
const MOST_TABLES: usize = (MOST_PAGES / SPAN_PAGES) as usize;

/// The table frames that an unmap cut, at most 8, and whether it split a leaf of 2 MiB. The frames are
/// zeroed, and neither free nor used: [`crate::Pool::give_back`] makes them free.
#[derive(Drop)]
pub struct Cut {
    // The first ones count.
    frames: [Frame; MOST_TABLES],
    count: usize,
    split: bool,
}

impl Model for Cut {
    ghost use Rattle.std.specs.Prelude.{◌≡◌, ◌≤◌, length, take};
    ghost use Rattle.tables.specs.Cut.{Cut};
    ghost use Rattle.tables.specs.declared.cut.TheConstants.{MOST_TABLES};

    ghost Value = { Cut };

    ghost view = { λ c. record { frames = take c.count c.frames; split = c.split } };

    ghost invariant = { λ c. (c.count ≤ MOST_TABLES) × (length c.frames ≡ MOST_TABLES) };
}

impl Cut {
    // Nothing was cut or split. Some frame stands in the places that don't count.
    pub(crate) fn none(blank: Frame) -> Cut
        ensures frames { result.frames ≡ [] }
        ensures split { result.split ≡ false }
    {
        Cut {
            frames: [blank; MOST_TABLES],
            count: 0,
            split: false,
        }
    }

    // Notes what became of an extent.
    pub(crate) fn note(&mut self, cleared: Cleared)
        requires { length self.old.frames + length (cut_of cleared) ≤ MOST_TABLES }
        ensures frames { self.new.frames ≡ self.old.frames ++ cut_of cleared }
        ensures split { self.new.split ≡ (self.old.split || was_split cleared) }
    {
        match cleared {
            Cleared::Words => {}
            Cleared::Split => self.split = true,
            Cleared::Table(frame) => {
                self.frames[self.count] = frame;
                self.count += 1;
            }
        }
    }

    /// The table frames.
    pub fn frames(&self) -> &[Frame]
        ensures all { result.now ≡ self.now.frames }
        ensures few { length result.now ≤ MOST_TABLES }
    {
        &self.frames[..self.count]
    }

    /// Whether a leaf of 2 MiB was split.
    pub fn split(&self) -> bool
        ensures { result ≡ self.now.split }
    {
        self.split
    }
}
