//! Tests alone, by public calls of `manager`: the answers of ports beside threads that map and unmap, compared with the history that
//! is handed out. Also a history that is handed on beside two drivers (own). They stand apart from the other tests of managers, so
//! that both crates are proved at once. `rt try --test` runs them unproved.
#![tactic(auto)]

#[cfg(test)]
mod epochs;
#[cfg(test)]
mod hits;
