//! What is shown of a manager: how many shares it has. Its lock isn't taken.

use super::Manager;
use crate::owner::Owner;
use std::fmt;

impl<B: Owner> fmt::Debug for Manager<B> {
    fn fmt<W: fmt::Write>(&self, f: &mut fmt::Formatter<W>) -> fmt::Result {
        f.debug_struct("Manager")
            .field("shares", &self.shares)
            .finish()
    }
}
