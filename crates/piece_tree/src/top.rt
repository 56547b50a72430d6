//! What is handed on of a tree.

ghost use Rattle.std.specs.Prelude.{◌≡◌, ◌≤◌, ◌↔◌, IsTrue, Some};

use std::marker::Model;

/// The key of a node.
pub(crate) type Key = u32;

/// Keys are below it.
pub(crate) const KEYS_END: usize = 1 << 32;

/// A tree as it is handed on: the key of its root, how many nodes lie on the longest way down, and the greatest length of a free piece.
// Each node has two of them, so they are small: the height tells whether there is a root.
#[derive(Clone, Copy)]
pub(crate) struct Top {
    // 0 where the height is.
    key: Key,
    height: u32,
    longest: u64,
}

impl Model for Top {
    ghost use Rattle.std.specs.Prelude.{◌≡◌};
    ghost use Rattle.std.proofs.Common.{ap};
    ghost use Rattle.piece_tree.specs.Top.{Top, key-back, key_or_0, root_under};

    ghost Value = { Top };

    ghost view = { λ t. record { root = root_under t.height t.key; height = t.height; longest = t.longest } };

    ghost invariant = { λ t. t.height ≡ 0 → t.key ≡ 0 };

    ghost inverse = { λ v. record { key = key_or_0 v.root; height = v.height; longest = v.longest } };

    ghost inverse_ok = { λ t h. ap (λ k. record { key = k; height = t.height; longest = t.longest }) (key-back t.height t.key h) };
}

impl Top {
    /// A tree that has a root, by the key of that.
    #[inline(always)]
    pub(crate) fn of(key: Key, height: u32, longest: u64) -> Top
        requires { 1 ≤ height }
        ensures { result ≡ record { root = Some key; height = height; longest = longest } }
    {
        Top {
            key,
            height,
            longest,
        }
    }

    /// The key of its root, if it has a piece.
    #[inline(always)]
    pub(crate) fn root(self) -> Option<Key>
        ensures { result ≡ self.root }
    {
        if self.height == 0 {
            None
        } else {
            Some(self.key)
        }
    }

    /// How many nodes lie on the longest way down.
    #[inline(always)]
    pub(crate) fn height(self) -> u32
        ensures { result ≡ self.height }
    {
        self.height
    }

    /// The greatest length of a free piece.
    #[inline(always)]
    pub(crate) fn longest(self) -> u64
        ensures { result ≡ self.longest }
    {
        self.longest
    }

    /// Shows another greatest length.
    #[inline(always)]
    pub(crate) fn set_longest(&mut self, longest: u64)
        ensures { self.new ≡ record self.old { longest = longest } }
    {
        self.longest = longest;
    }

    /// Whether it has the root and the height of another one.
    #[inline(always)]
    pub(crate) fn stands_as(self, other: Top) -> bool
        ensures { IsTrue result ↔ ((self.root ≡ other.root) × (self.height ≡ other.height)) }
    {
        self.key == other.key && self.height == other.height
    }
}

/// The top of the tree that has no piece.
pub(crate) const NO_TREE: Top = Top {
    key: 0,
    height: 0,
    longest: 0,
};
