//! What calls answer.

ghost use Rattle.std.specs.Prelude.{◌≡◌};
ghost use Rattle.engine.specs.Details.{hit_of, released_by};

use dmatypes::Reply;
use unit::Hit;

/// What a call answers: its reply, and what the reply doesn't say.
#[derive(Clone, Copy, Debug, PartialEq, Eq)]
pub struct Answer {
    pub reply: Reply,
    pub detail: Detail,
}

/// What a reply doesn't say, for whoever keeps port words.
#[derive(Clone, Copy, Debug, PartialEq, Eq)]
pub enum Detail {
    /// Nothing: of a refused call, of a request that faulted, and of each call but a request and an unmap.
    Nothing,
    /// What a request hit that reached a host address.
    Hit(Hit),
    /// What became of the pages of an unmap.
    Unmapped(Unmapped),
}

impl Detail {
    /// What a request hit.
    #[inline]
    pub fn hit(&self) -> Option<Hit>
        ensures { result ≡ hit_of self.now }
    {
        match self {
            Detail::Hit(hit) => Some(*hit),
            Detail::Nothing | Detail::Unmapped(_) => None,
        }
    }
}

/// Where a map put its pages.
#[derive(Clone, Copy, Debug, PartialEq, Eq)]
pub struct Placed {
    /// The byte address of the first.
    pub address: u64,
    /// How many they are.
    pub pages: u64,
}

/// What became of the pages of an unmap (own).
#[derive(Clone, Copy, Debug, PartialEq, Eq)]
pub enum Unmapped {
    /// In a strict domain: no device reaches them, and their addresses are free.
    Free,
    /// In a lazy domain: they are its last retired record. All records before it were released for it where 256 were there, else none.
    Retired {
        /// How many were.
        released: u64,
    },
}

impl Unmapped {
    /// How many retired records were released for it.
    #[inline]
    pub fn released(self) -> u64
        ensures { result ≡ released_by self }
    {
        match self {
            Unmapped::Free => 0,
            Unmapped::Retired { released } => released,
        }
    }
}
