//! The manager in charge of a unit that isn't its own. A `Driven` is a state that tells after each call what the call asks of whoever
//! keeps the memory and the queue which the unit reads. It asks for words to bring, descriptors to send, and what to wait for.
#![tactic(auto)]

mod detaching;
mod driven;
mod effect;
pub mod laws;
mod stepping;
mod telling;
#[cfg(test)]
mod tests;
mod untold;

pub use driven::Driven;
pub use effect::{Effect, Half};
pub use telling::MOST_EFFECTS;
