//! When host memory may be used again that was unmapped. A hit takes no lock, and whoever is answered a host address by it may use that
//! later. So a driver waits until the thread of each port has seen the unmap and uses nothing older. From then on the port answers nothing
//! by the page but what a later map gives. Each function does nothing: its contract is the law, and its proof is from the public contracts
//! of `ports` and the laws of histories.
#![tactic(auto)]

ghost use Rattle.grace.specs.Grace.{CountsAreSeen, HitsAreSeen, ReleasesEndHits, StrictUnmapsEndHits};

/// A port that was answered a count has seen all events up to it, at that moment and at each later one. So has one after a hit.
pub fn counts_are_seen()
    ensures counts { CountsAreSeen }
    ensures hits { HitsAreSeen }
{}

/// A port that has seen a strict unmap is answered by its pages only what a later map gives.
pub fn strict_unmaps_end_hits()
    ensures { StrictUnmapsEndHits }
{}

/// In a lazy domain so is one that has seen what released them.
pub fn releases_end_hits()
    ensures { ReleasesEndHits }
{}
