//! What pages are mapped to.

ghost use Rattle.std.specs.BTreeMap as tree;
ghost use Rattle.std.specs.Ordering.{nat_cmp};
ghost use Rattle.checker.specs.Runs.{AreApart};

use crate::run::Run;
use crate::taken::Taken;
use crate::target::Target;
use dmatypes::Segment;
use std::alloc::{AllocError, Global};
use std::collections::BTreeMap;

/// Pages in runs by their first pages, each run with what it is mapped to. No page is in two.
#[derive(Drop)]
pub(crate) struct Pages {
    runs: BTreeMap<u64, Run>,
    ghost apart: { AreApart (tree.get nat_cmp runs) },
}

impl Pages {
    ghost use Rattle.std.specs.Prelude.{◌≡◌, ◌+◌, ◌-◌, ◌<◌, ◌≤◌, ◌^◌, ℕ, [], ◌∷◌, Some, None, IfOk, IfSome, OnErr, OnOk, MatchOption};
    ghost use Rattle.std.specs.List.{AllByRecursion};
    ghost use Rattle.std.specs.Option.{option_or};
    ghost use Rattle.dmatypes.specs.declared.page.TheConstants.{FRAMES_END};
    ghost use Rattle.dmatypes.specs.Conditions.{total_pages};
    ghost use Rattle.dmatypes.specs.World.{placed, restricted, without};
    ghost use Rattle.checker.specs.Pages.{AllAreMappedIn, IsMappedIn, IsUnmappedIn, NoneIsMappedIn, range, runs_between, runs_of, target_at};
    ghost use Rattle.checker.specs.Taken.{taken_at};
    ghost use Rattle.checker.specs.Runs.{Holds, IsCutAt, RunLeaves};

    /// No page is mapped.
    pub(crate) fn new(alloc: Global) -> Pages
        ensures runs { (k : ℕ) → runs_of result k ≡ None }
        ensures pages { (p : ℕ) → target_at result p ≡ None }
    {
        Pages {
            runs: BTreeMap::new(alloc),
        }
    }

    /// What a page is mapped to.
    pub(crate) fn get(&self, page: u64) -> Option<Target>
        ensures { result ≡ target_at self.now page }
    {
        match self.run_of(page) {
            Some((first, run)) => Some(Target::new(run.frame + (page - first), run.rights)),
            None => None,
        }
    }

    // The run that holds a page, and its first page.
    fn run_of(&self, page: u64) -> Option<(u64, Run)>
        ensures { MatchOption result (target_at self.now page ≡ None) (λ e. (runs_of self.now e.0 ≡ Some e.1) × Holds e.0 e.1 page) }
    {
        let (first, run) = self.last_run(page)?;
        if page - first < run.pages {
            Some((first, run))
        } else {
            None
        }
    }

    // The last run that begins at a page or before, and its first page.
    fn last_run(&self, page: u64) -> Option<(u64, Run)>
        ensures { MatchOption result
            ((k : ℕ) → k ≤ page → runs_of self.now k ≡ None)
            (λ e. (runs_of self.now e.0 ≡ Some e.1) × (e.0 ≤ page) × ((k : ℕ) → e.0 < k → k ≤ page → runs_of self.now k ≡ None)) }
    {
        let (first, run) = self.runs.range(..=page).next_back()?;
        Some((*first, *run))
    }

    /// The last page of a range that is mapped.
    pub(crate) fn last_mapped_in(&self, first: u64, pages: u64) -> Option<u64>
        requires some { 1 ≤ pages }
        requires ends { first + pages < 2 ^ 64 }
        ensures { MatchOption result (NoneIsMappedIn self.now (range first pages)) (IsMappedIn self.now (range first pages)) }
    {
        let (start, run) = self.last_run(first + (pages - 1))?;
        let end = (start + run.pages).min(first + pages);
        if first < end { Some(end - 1) } else { None }
    }

    /// The first page of a range that isn't mapped.
    pub(crate) fn unmapped_in(&self, first: u64, pages: u64) -> Option<u64>
        requires { first + pages < 2 ^ 64 }
        ensures { MatchOption result (AllAreMappedIn self.now (range first pages)) (IsUnmappedIn self.now (range first pages)) }
    {
        let mut page = first;
        while page < first + pages {
            match self.run_of(page) {
                Some((start, run)) => page = start + run.pages,
                None => return Some(page),
            }
        }
        None
    }

    /// Maps the pages of a segment, one after the other from a first one on.
    pub(crate) fn put(
        &mut self,
        first: u64,
        segment: Segment,
        rights: u64,
    ) -> Result<(), AllocError>
        requires some { 1 ≤ segment.pages }
        requires pages { first + segment.pages < 2 ^ 64 }
        requires frames { segment.frame + segment.pages ≤ FRAMES_END }
        requires free { NoneIsMappedIn self.old (range first segment.pages) }
        ensures { OnOk result ((p : ℕ) → target_at self.new p ≡ option_or (placed (segment ∷ []) first rights p) (target_at self.old p)) }
    {
        let run = Run {
            pages: segment.pages,
            frame: segment.frame,
            rights,
        };
        self.runs.insert(first, run)?;
        Ok(())
    }

    /// Maps the pages of the segments, one segment after the other from a first page on.
    pub(crate) fn put_all(
        &mut self,
        first: u64,
        segments: &[Segment],
        rights: u64,
    ) -> Result<(), AllocError>
        requires some { AllByRecursion (λ s. 1 ≤ s.pages) segments.now }
        requires pages { first + total_pages segments.now < 2 ^ 64 }
        requires frames { AllByRecursion (λ s. s.frame + s.pages ≤ FRAMES_END) segments.now }
        requires free { NoneIsMappedIn self.old (range first (total_pages segments.now)) }
        ensures { OnOk result ((p : ℕ) → target_at self.new p ≡ option_or (placed segments.now first rights p) (target_at self.old p)) }
    {
        let Some((segment, rest)) = segments.split_first() else {
            return Ok(());
        };
        self.put_all(first + segment.pages, rest, rights)?;
        self.put(first, *segment, rights)
    }

    /// The pages of a range are mapped no more.
    pub(crate) fn remove(&mut self, first: u64, pages: u64) -> Result<(), AllocError>
        requires { first + pages < 2 ^ 64 }
        ensures left { OnOk result ((p : ℕ) → target_at self.new p ≡ without (range first pages) (target_at self.old) p) }
        ensures kept { OnErr result ((p : ℕ) → target_at self.new p ≡ target_at self.old p) }
    {
        self.part(first, pages)?;
        let end = first + pages;
        let mut page = first;
        while let Some((start, run)) = self.pop_run(page, end) {
            page = start + run.pages;
        }
        Ok(())
    }

    /// The pages of a range are mapped no more, and are handed out.
    pub(crate) fn take(
        &mut self,
        alloc: Global,
        first: u64,
        pages: u64,
    ) -> Result<Taken, AllocError>
        requires { first + pages < 2 ^ 64 }
        ensures left { OnOk result ((p : ℕ) → target_at self.new p ≡ without (range first pages) (target_at self.old) p) }
        ensures taken { IfOk result (λ t. (p : ℕ) → taken_at t p ≡ restricted (range first pages) (target_at self.old) p) }
        ensures kept { OnErr result ((p : ℕ) → target_at self.new p ≡ target_at self.old p) }
    {
        match self.run_at(first) {
            Some(run) if run.pages == pages => return self.take_run(alloc, first, run),
            Some(_) => self.cut_at(first + pages)?,
            None => self.cut_ends(first, first + pages)?,
        }
        self.take_runs(alloc, first, first + pages)
    }

    // The same where the range is just one run.
    fn take_run(&mut self, alloc: Global, first: u64, run: Run) -> Result<Taken, AllocError>
        requires there { runs_of self.old first ≡ Some run }
        ensures left { OnOk result ((p : ℕ) → target_at self.new p ≡ without (range first run.pages) (target_at self.old) p) }
        ensures taken { IfOk result (λ t. (p : ℕ) → taken_at t p ≡ restricted (range first run.pages) (target_at self.old) p) }
        ensures kept { OnErr result ((p : ℕ) → target_at self.new p ≡ target_at self.old p) }
    {
        let mut taken = Taken::with_room(alloc, 1)?;
        let _ = self.remove_at(first);
        taken.push(first, run);
        Ok(taken)
    }

    // The same between two pages that no run crosses. The runs are counted, so that all memory for them is asked for before one leaves.
    #[inline(never)]
    fn take_runs(&mut self, alloc: Global, first: u64, end: u64) -> Result<Taken, AllocError>
        requires order { first ≤ end }
        requires first { IsCutAt (runs_of self.old) first }
        requires end { IsCutAt (runs_of self.old) end }
        ensures left { OnOk result ((p : ℕ) → target_at self.new p ≡ without (range first (end - first)) (target_at self.old) p) }
        ensures taken { IfOk result (λ t. (p : ℕ) → taken_at t p ≡ restricted (range first (end - first)) (target_at self.old) p) }
        ensures kept { OnErr result ((p : ℕ) → target_at self.new p ≡ target_at self.old p) }
    {
        let mut taken = Taken::with_room(alloc, self.count_between(first, end))?;
        let mut page = first;
        while let Some((start, run)) = self.pop_run(page, end) {
            taken.push(start, run);
            page = start + run.pages;
        }
        Ok(taken)
    }

    // How many runs begin from a page on and before another.
    fn count_between(&self, first: u64, end: u64) -> usize
        requires { first ≤ end }
        ensures { result ≡ runs_between self.now first end }
    {
        self.runs.range(first..end).count()
    }

    // Cuts what crosses the ends of a range, so that all memory for that is asked for before a run leaves. A range that is just one run has
    // nothing to cut, and none is crossed where a run begins.
    fn part(&mut self, first: u64, pages: u64) -> Result<(), AllocError>
        requires { first + pages < 2 ^ 64 }
        ensures same { (p : ℕ) → target_at self.new p ≡ target_at self.old p }
        ensures first { OnOk result (IsCutAt (runs_of self.new) first) }
        ensures end { OnOk result (IsCutAt (runs_of self.new) (first + pages)) }
    {
        match self.run_at(first) {
            Some(run) if run.pages == pages => Ok(()),
            Some(_) => self.cut_at(first + pages),
            None => self.cut_ends(first, first + pages),
        }
    }

    // The run that begins at a page.
    fn run_at(&self, page: u64) -> Option<Run>
        ensures { result ≡ runs_of self.now page }
    {
        self.runs.get(&page).copied()
    }

    // Cuts what crosses one of two pages. No page's target changes, whether or not there is memory.
    fn cut_ends(&mut self, first: u64, end: u64) -> Result<(), AllocError>
        ensures same { (p : ℕ) → target_at self.new p ≡ target_at self.old p }
        ensures first { OnOk result (IsCutAt (runs_of self.new) first) }
        ensures end { OnOk result (IsCutAt (runs_of self.new) end) }
    {
        self.cut_at(first)?;
        self.cut_at(end)
    }

    // The run that has pages on both sides of a page's beginning becomes two, where there is one.
    fn cut_at(&mut self, page: u64) -> Result<(), AllocError>
        ensures same { (p : ℕ) → target_at self.new p ≡ target_at self.old p }
        ensures here { OnOk result (IsCutAt (runs_of self.new) page) }
        ensures others { OnOk result ((q : ℕ) → IsCutAt (runs_of self.old) q → IsCutAt (runs_of self.new) q) }
    {
        let Some((first, run)) = self.run_of(page) else {
            return Ok(());
        };
        if first == page {
            return Ok(());
        }
        self.cut_run(first, run, page)
    }

    // Between two pages that no run crosses, the first run leaves, and is handed out with its first page. Most often it begins at the
    // first of the two, and leaves by one search.
    fn pop_run(&mut self, page: u64, end: u64) -> Option<(u64, Run)>
        requires order { page ≤ end }
        requires first { IsCutAt (runs_of self.old) page }
        requires end { IsCutAt (runs_of self.old) end }
        ensures leaves { RunLeaves (target_at self.old) (target_at self.new) page end result }
        ensures within { IfSome result (λ e. e.0 + e.1.pages ≤ end) }
        ensures next { IfSome result (λ e. IsCutAt (runs_of self.new) (e.0 + e.1.pages)) }
        ensures fewer { IfSome result (λ e. runs_between self.new (e.0 + e.1.pages) end + 1 ≤ runs_between self.old page end) }
        ensures end { IsCutAt (runs_of self.new) end }
    {
        if page == end {
            return None;
        }
        match self.remove_at(page) {
            Some(run) => Some((page, run)),
            None => self.pop_next(page, end),
        }
    }

    // The same where none begins at the first page. Its room on the stack is not taken where one does.
    #[inline(never)]
    fn pop_next(&mut self, page: u64, end: u64) -> Option<(u64, Run)>
        requires order { page ≤ end }
        requires first { IsCutAt (runs_of self.old) page }
        requires end { IsCutAt (runs_of self.old) end }
        ensures leaves { RunLeaves (target_at self.old) (target_at self.new) page end result }
        ensures within { IfSome result (λ e. e.0 + e.1.pages ≤ end) }
        ensures next { IfSome result (λ e. IsCutAt (runs_of self.new) (e.0 + e.1.pages)) }
        ensures fewer { IfSome result (λ e. runs_between self.new (e.0 + e.1.pages) end + 1 ≤ runs_between self.old page end) }
        ensures end { IsCutAt (runs_of self.new) end }
    {
        let (start, run) = self.first_run_in(page, end)?;
        let _ = self.remove_at(start);
        Some((start, run))
    }

    // The run that begins at a page leaves, where one does.
    fn remove_at(&mut self, page: u64) -> Option<Run>
        ensures run { result ≡ runs_of self.old page }
        ensures gone { runs_of self.new page ≡ None }
        ensures left { (r : Run) → runs_of self.old page ≡ Some r
            → (p : ℕ) → target_at self.new p ≡ without (range page r.pages) (target_at self.old) p }
        ensures same { runs_of self.old page ≡ None → (p : ℕ) → target_at self.new p ≡ target_at self.old p }
        ensures cuts { (q : ℕ) → IsCutAt (runs_of self.old) q → IsCutAt (runs_of self.new) q }
        ensures end { (r : Run) → runs_of self.old page ≡ Some r → IsCutAt (runs_of self.new) (page + r.pages) }
        ensures fewer { (r : Run) → runs_of self.old page ≡ Some r → (from next end : ℕ) → from ≤ page → page < next → page < end
            → runs_between self.new next end + 1 ≤ runs_between self.old from end }
        ensures as_many { runs_of self.old page ≡ None → (from end : ℕ) → runs_between self.new from end ≡ runs_between self.old from end }
    {
        self.runs.remove(&page)
    }

    // The run becomes two.
    fn cut_run(&mut self, first: u64, run: Run, page: u64) -> Result<(), AllocError>
        requires there { runs_of self.old first ≡ Some run }
        requires less { first < page }
        requires below { page < first + run.pages }
        ensures same { (p : ℕ) → target_at self.new p ≡ target_at self.old p }
        ensures here { OnOk result (IsCutAt (runs_of self.new) page) }
        ensures others { OnOk result ((q : ℕ) → IsCutAt (runs_of self.old) q → IsCutAt (runs_of self.new) q) }
    {
        let pages = page - first;
        let rest = Run {
            pages: run.pages - pages,
            frame: run.frame + pages,
            rights: run.rights,
        };
        let front = Run {
            pages,
            frame: run.frame,
            rights: run.rights,
        };
        // The rest first: it alone may find no memory, since the run's own entry is there.
        self.runs.insert(page, rest)?;
        self.runs.insert(first, front)?;
        Ok(())
    }

    // The first run that begins between two pages, and its first page.
    fn first_run_in(&self, first: u64, end: u64) -> Option<(u64, Run)>
        requires { first ≤ end }
        ensures { MatchOption result
            ((k : ℕ) → first ≤ k → k < end → runs_of self.now k ≡ None)
            (λ e. (first ≤ e.0) × (e.0 < end) × (runs_of self.now e.0 ≡ Some e.1)
            × ((k : ℕ) → first ≤ k → k < e.0 → runs_of self.now k ≡ None)) }
    {
        let (start, run) = self.runs.range(first..end).next()?;
        Some((*start, *run))
    }
}
