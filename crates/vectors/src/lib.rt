//! Tests alone, by public calls (own): vectors of numbers, texts and bit layouts (`dmatypes`, `vtdbits`), takes of device addresses
//! (`iova`), a tree (`tables`), and what is shown of a space and a pool. Also a full ring (`queue`), hits without the lock (`ports`), and
//! judged traces (`checker`). They stand apart from the crates they test, for the check of a crate's tests proves the whole crate once
//! more. `rt try --test` runs them unproved.
#![tactic(auto)]

#[cfg(test)]
mod addresses;
#[cfg(test)]
mod hits;
#[cfg(test)]
mod layouts;
#[cfg(test)]
mod lines;
#[cfg(test)]
mod ring;
#[cfg(test)]
mod shown;
#[cfg(test)]
mod texts;
#[cfg(test)]
mod traces;
#[cfg(test)]
mod trees;
