//! What a leaf states of its pages.

ghost use Rattle.std.specs.Prelude.{◌≡◌, ◌+◌, ◌%◌, ◌<◌};
ghost use Rattle.dmatypes.specs.Rights.{AreRights, bits_of};
ghost use Rattle.vtdbits.specs.Translation.{target};

use dmatypes::{Frame, Rights, SPAN_PAGES};
use std::marker::Model;

/// The host frame of one page, and what may be done there: at least one right.
#[derive(Clone, Copy, Debug, PartialEq, Eq)]
pub struct Translation {
    frame: Frame,
    rights: Rights,
}

impl Model for Translation {
    ghost use Rattle.dmatypes.specs.Rights.{AreRights, bits_of};
    ghost use Rattle.dmatypes.specs.World.{Target};
    ghost use Rattle.vtdbits.specs.Translation.{target};

    ghost Value = { Target };

    ghost view = { λ t. target t.frame (bits_of t.rights) };

    ghost invariant = { λ t. AreRights (bits_of t.rights) };

    ghost inverse = { λ v. record { frame = v.frame; rights = record { 0 = v.rights } } };
}

impl Translation {
    /// This frame with these rights, of which there is at least one.
    pub fn new(frame: Frame, rights: Rights) -> Translation
        requires { AreRights (bits_of rights) }
        ensures { result ≡ target frame (bits_of rights) }
    {
        Translation { frame, rights }
    }

    /// The host frame.
    pub fn frame(self) -> Frame
        ensures { result ≡ self.frame }
    {
        self.frame
    }

    /// The rights.
    pub fn rights(self) -> Rights
        ensures value { bits_of result ≡ self.rights }
        ensures some { AreRights self.rights }
    {
        self.rights
    }
}

/// The first host frame of 512 pages, one after the other, and what may be done at each of them: at least
/// one right. The frame is a multiple of 512.
#[derive(Clone, Copy, Debug, PartialEq, Eq)]
pub struct LargeTranslation {
    frame: Frame,
    rights: Rights,
}

impl Model for LargeTranslation {
    ghost use Rattle.std.specs.Prelude.{◌≡◌, ◌%◌};
    ghost use Rattle.dmatypes.specs.declared.page.TheConstants.{SPAN_PAGES};
    ghost use Rattle.dmatypes.specs.Rights.{AreRights, bits_of};
    ghost use Rattle.dmatypes.specs.World.{Target};
    ghost use Rattle.vtdbits.specs.Translation.{target};

    ghost Value = { Target };

    ghost view = { λ t. target t.frame (bits_of t.rights) };

    ghost invariant = { λ t. AreRights (bits_of t.rights) × (t.frame % SPAN_PAGES ≡ 0) };

    ghost inverse = { λ v. record { frame = v.frame; rights = record { 0 = v.rights } } };
}

impl LargeTranslation {
    /// The frames from this multiple of 512 on with these rights, of which there is at least one.
    pub fn new(frame: Frame, rights: Rights) -> LargeTranslation
        requires aligned { frame % SPAN_PAGES ≡ 0 }
        requires rights { AreRights (bits_of rights) }
        ensures { result ≡ target frame (bits_of rights) }
    {
        LargeTranslation { frame, rights }
    }

    /// What it states of the page at this place among its 512.
    pub fn page(self, place: u64) -> Translation
        requires { place < SPAN_PAGES }
        ensures { result ≡ target (self.frame + place) self.rights }
    {
        let frame = Frame::new(self.frame.number() + place).unwrap();
        Translation {
            frame,
            rights: self.rights,
        }
    }

    /// The first host frame.
    pub fn frame(self) -> Frame
        ensures value { result ≡ self.frame }
        ensures aligned { self.frame % SPAN_PAGES ≡ 0 }
    {
        self.frame
    }

    /// The rights.
    pub fn rights(self) -> Rights
        ensures value { bits_of result ≡ self.rights }
        ensures some { AreRights self.rights }
    {
        self.rights
    }
}
