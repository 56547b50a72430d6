//! Tests alone: managers that threads share, and ports that hit beside them, by public calls of `manager`; and a state late in its
//! life, and what is shown of one, by those of `engine` (own). They stand apart from the crates they test, for the check of a crate's
//! tests proves the whole crate once more. `rt try --test` runs them unproved.
//! managers/device_thread.rt is also an example: a device's thread, which asks its port first.
#![tactic(auto)]

#[cfg(test)]
mod managers;
#[cfg(test)]
mod shown;
#[cfg(test)]
mod waits;
