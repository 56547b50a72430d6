//! What was mapped at pages that were unmapped.

ghost use Rattle.std.specs.Prelude.{◌≡◌, ◌≤◌, length, nat_le, true, false, IsTrue};
ghost use Rattle.std.specs.List.Sorted.{IsPartitionPoint, IsPartitionedBy};
ghost use Rattle.checker.specs.Rising.{is_rising};

use crate::run::Run;
use crate::target::Target;
use std::alloc::{AllocError, Global};

/// Runs of pages that left, each with its first page, in the order of their pages. They are made once and never taken from, so that they
/// need no map.
#[derive(Drop)]
pub(crate) struct Taken {
    runs: Vec<(u64, Run)>,
    ghost rising: { IsTrue (is_rising 0 runs.items) },
}

impl Taken {
    ghost use Rattle.std.specs.Prelude.{◌≡◌, ◌+◌, ◌≤◌, ℕ, [], ◌∷◌, Some, None, IfOk, MatchOption};
    ghost use Rattle.std.specs.Option.{option_or};
    ghost use Rattle.dmatypes.specs.declared.page.TheConstants.{FRAMES_END};
    ghost use Rattle.dmatypes.specs.World.{placed};
    ghost use Rattle.checker.specs.Rising.{IsSoundRun};
    ghost use Rattle.checker.specs.Taken.{taken_at, taken_end, taken_room};
    ghost use Rattle.checker.specs.Runs.{by_run};

    /// No page, and room for so many runs.
    pub(crate) fn with_room(alloc: Global, runs: usize) -> Result<Taken, AllocError>
        ensures none { IfOk result (λ t. (p : ℕ) → taken_at t p ≡ None) }
        ensures end { IfOk result (λ t. taken_end t ≡ 0) }
        ensures room { IfOk result (λ t. taken_room t ≡ runs) }
    {
        let runs = Vec::with_capacity(alloc, runs)?;
        Ok(Taken { runs })
    }

    /// A run that left, after those before.
    pub(crate) fn push(&mut self, first: u64, run: Run)
        requires some { 1 ≤ run.pages }
        requires frames { run.frame + run.pages ≤ FRAMES_END }
        requires order { taken_end self.old ≤ first }
        requires room { 1 ≤ taken_room self.old }
        ensures pages { (p : ℕ) → taken_at self.new p
            ≡ option_or (placed (record { frame = run.frame; pages = run.pages } ∷ []) first run.rights p) (taken_at self.old p) }
        ensures end { taken_end self.new ≡ first + run.pages }
        ensures room { taken_room self.new + 1 ≡ taken_room self.old }
    {
        self.runs.push_reserved((first, run));
    }

    /// What a page was mapped to.
    pub(crate) fn get(&self, page: u64) -> Option<Target>
        ensures { result ≡ taken_at self.now page }
    {
        let (first, run) = self.last_run(page)?;
        if page - first < run.pages {
            Some(Target::new(run.frame + (page - first), run.rights))
        } else {
            None
        }
    }

    // The last run that begins at a page or before, and its first page.
    fn last_run(&self, page: u64) -> Option<(u64, Run)>
        ensures { MatchOption result
            (taken_at self.now page ≡ None)
            (λ e. (e.0 ≤ page) × IsSoundRun e.1 × (taken_at self.now page ≡ by_run e.0 (Some e.1) page)) }
    {
        let begun = begun_at(self.runs.as_slice(), page);
        if begun == 0 {
            return None;
        }
        Some(self.runs[begun - 1])
    }
}

// How many of the runs begin at a page or before, where they are in order.
fn begun_at(runs: &[(u64, Run)], page: u64) -> usize
    ensures few { result ≤ length runs.now }
    ensures begun { IsPartitionedBy (λ e. nat_le e.0 page) runs.now
        → IsPartitionPoint (λ e. nat_le e.0 page ≡ true) (λ e. nat_le e.0 page ≡ false) runs.now result }
{
    runs.partition_point(|entry| entry.0 <= page)
}
