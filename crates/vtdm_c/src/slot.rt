//! A session on the heap, as C holds it: an address that means nothing to C.

ghost use Rattle.std.specs.Prelude.{◌≡◌, Some, None, Option, IsNone, IsSome};
ghost use Rattle.vtdm_c.specs.declared.session.Session.{Session};

use crate::loose::Loose;
use crate::session::Session;
use std::alloc::Global;
use std::marker::{Model, Send};
use std::ptr;

/// The place of a session on the heap, or of none. It isn't `Drop`: it can't be let go, but only taken back or, where it is of
/// none, discarded.
#[repr(C)]
pub struct Slot {
    at: *mut u8,
    pub ghost held: { Option Session },
}

impl Model for Slot {
    ghost use Rattle.vtdm_c.specs.Held.{held_at};

    ghost also_owns = { λ s. held_at s.at s.held };
}

// A session goes to another thread with the address that C holds.
unsafe impl Send for Slot {}

impl Slot {
    /// The place of none.
    pub(crate) fn none() -> Slot
        ensures { result.held ≡ None }
    {
        Slot {
            at: ptr::null_mut(),
        }
    }

    /// The place of a session.
    pub(crate) fn of(loose: Loose<Session, Global>) -> Slot
        ensures { result.held ≡ Some loose.value }
    {
        let Loose { at, alloc: _ } = loose;
        Slot { at: at as *mut u8 }
    }

    /// The session at the place.
    pub(crate) fn into_loose(self, alloc: Global) -> Loose<Session, Global>
        requires { IsSome self.held }
        ensures { self.held ≡ Some result.value }
    {
        let Slot { at } = self;
        Loose {
            at: at as *mut Session,
            alloc,
        }
    }

    /// Lets the place of none go.
    pub(crate) fn discard(self)
        requires { IsNone self.held }
    {
        let Slot { at: _ } = self;
    }
}
