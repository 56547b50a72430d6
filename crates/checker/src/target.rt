//! What a page is mapped to.

use dmatypes::{Access, PAGE_BYTES, Reply};
use std::marker::Model;

/// A host frame, and what may be done there.
#[derive(Clone, Copy, Debug, PartialEq, Eq)]
pub(crate) struct Target {
    frame: u64,
    rights: u64,
}

impl Model for Target {
    ghost use Rattle.dmatypes.specs.Page.{IsFrame};
    ghost use Rattle.dmatypes.specs.World as world;

    ghost Value = { world.Target };

    ghost view = { λ t. record { frame = t.frame; rights = t.rights } };

    ghost invariant = { λ t. IsFrame t.frame };

    ghost inverse = { λ v. record { frame = v.frame; rights = v.rights } };
}

impl Target {
    ghost use Rattle.std.specs.Prelude.{◌≡◌};
    ghost use Rattle.dmatypes.specs.Allows.{host_of};
    ghost use Rattle.dmatypes.specs.Page.{IsFrame};
    ghost use Rattle.checker.specs.Reaching.{is_host, permits};

    /// This frame with these rights.
    pub(crate) fn new(frame: u64, rights: u64) -> Target
        requires { IsFrame frame }
        ensures { result ≡ record { frame = frame; rights = rights } }
    {
        Target { frame, rights }
    }

    /// The host frame.
    pub(crate) fn frame(self) -> u64
        ensures { result ≡ self.frame }
    {
        self.frame
    }

    /// The rights.
    pub(crate) fn rights(self) -> u64
        ensures { result ≡ self.rights }
    {
        self.rights
    }

    /// The host address at the offset of an address.
    pub(crate) fn host(self, address: u64) -> u64
        ensures { result ≡ host_of self address }
    {
        self.frame * PAGE_BYTES + address % PAGE_BYTES
    }

    /// Whether an access is permitted there.
    pub(crate) fn permits(self, access: Access) -> bool
        ensures { result ≡ permits self.rights access }
    {
        match access {
            Access::Read => self.rights % 2 == 1,
            Access::Write => self.rights / 2 % 2 == 1,
        }
    }

    /// Whether a reply is the host address at the offset of an address.
    pub(crate) fn is_host(self, address: u64, reply: Reply) -> bool
        ensures { result ≡ is_host self address reply }
    {
        match reply {
            Reply::Host(host) => host == self.host(address),
            _ => false,
        }
    }
}
