//! A manager, as C holds it.

ghost use Rattle.std.specs.Prelude.{◌≡◌, IsNone, IfSome, None, Some, is_some};

use crate::loose::Loose;
use crate::session::Session;
use crate::slot::Slot;
use std::alloc::Global;
use std::mem;

/// A manager or none. C makes one by zeros, and never copies or writes it.
#[repr(C)]
pub struct Handle {
    pub slot: Slot,
    live: bool,
    pub ghost is_live: { live ≡ is_some slot.held },
}

impl Handle {
    /// Whether there is a manager.
    pub(crate) fn is_live(&self) -> bool
        ensures { result ≡ is_some self.now.slot.held }
    {
        self.live
    }

    /// Takes the session out.
    pub(crate) fn take(&mut self, alloc: Global) -> Option<Box<Session>>
        ensures none { IsNone result → IsNone self.old.slot.held }
        ensures some { IfSome result (λ b. self.old.slot.held ≡ Some b.value) }
        ensures empty { self.new.slot.held ≡ None }
    {
        if !self.live {
            return None;
        }
        let slot = mem::replace(&mut self.slot, Slot::none());
        self.live = false;
        Some(slot.into_loose(alloc).into_box())
    }

    /// Lets the session go, if there is one, and frees its memory. What isn't freed here can't be let go: a slot that holds a
    /// session is neither dropped nor discarded.
    pub(crate) fn end(&mut self, alloc: Global)
        ensures { self.new.slot.held ≡ None }
    {
        let slot = mem::replace(&mut self.slot, Slot::none());
        if !self.live {
            slot.discard();
            return;
        }
        self.live = false;
        drop(slot.into_loose(alloc).into_box());
    }

    /// Puts a session in.
    pub(crate) fn put(&mut self, session: Box<Session>)
        requires { IsNone self.old.slot.held }
        ensures { self.new.slot.held ≡ Some session.value }
    {
        let empty = mem::replace(&mut self.slot, Slot::of(Loose::of(session)));
        empty.discard();
        self.live = true;
    }
}

// A handle may go to another thread.
const _: fn(&Handle) = crosses::<Handle>;

fn crosses<T: Send>(_value: &T) {}
