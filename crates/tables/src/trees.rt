//! Trees of tables in a pool.

ghost use Rattle.std.specs.Prelude.{◌≡◌, ◌↔◌, ℕ, ◌+◌, ◌-◌, ◌/◌, ◌^◌, ◌<◌, ◌≤◌, ◌⊎◌, [], false, Some, None, length, IsErr, IsSome, IfOk};
ghost use Rattle.std.specs.Prelude.{OnOk, OnErr, IfSome, IfNone, IsTrue};
ghost use Rattle.dmatypes.specs.Conditions.{total_pages};
ghost use Rattle.dmatypes.specs.Page.{Fits, IsPageRange, IsWithin, levels};
ghost use Rattle.dmatypes.specs.Rights.{AreRights, bits_of};
ghost use Rattle.dmatypes.specs.World.{placed};
ghost use Rattle.vtdbits.specs.Translation.{target};
ghost use Rattle.tables.specs.Tree.{one_if_same, root_states, span, states, leaf_from, table_from, uses, IsLeafAt, IsTableAt, LeafEntry};
ghost use Rattle.tables.specs.Pool.{word, memory, occurs, IsPool, IsTree};
ghost use Rattle.tables.specs.Changes.{TakesAndGivesFrames, MapsPages, MakesTables, UnmapsPages, KeepsLeaves, KeepsTables, KeepsOthers};
ghost use Rattle.tables.specs.Changes.{KeepsSpellings};
ghost use Rattle.tables.specs.Spelled.{AreSpelled};
ghost use Rattle.tables.specs.Segments.{AreSegments, is_large_at, one_segment};
ghost use Rattle.tables.specs.Lacks.{frames_to_map, leaves_splitting};
ghost use Rattle.tables.specs.Trail.{FillsInOrder, WritesInOrder, EndsInOrder};

use crate::cut::Cut;
use crate::entries::{TABLE_ENTRIES, find, table_at};
use crate::error::NoFrames;
use crate::frames::Pool;
use crate::mapping::map_segments;
use crate::unmapping::{leaves_splitting, spans_met, take_down, unmap_extents};
use dmatypes::{FRAMES_END, Frame, Page, PageRange, Rights, SPAN_PAGES, Segment, Width};

// How many levels a tree has, by its width: constants, so that the way down is written out for each.
const NARROW: u64 = 3;

const WIDE: u64 = 4;

/// A tree of tables in a pool, by the frame of its root and the width of its pages. Its calls ask that it is a tree of the pool that
/// they are given.
#[derive(Drop)]
pub struct Tree {
    root: Frame,
    width: Width,
}

impl Tree {
    /// A tree of this width that maps no page, in one free frame.
    pub fn new(pool: &mut Pool, width: Width) -> Result<Tree, NoFrames>
        ensures refused { IsErr result ↔ (length pool.old.free ≡ 0) }
        ensures unchanged { OnErr result (pool.new ≡ pool.old) }
        ensures width { IfOk result (λ tree. tree.width ≡ width) }
        ensures tree { IfOk result (λ tree. IsTree pool.new (levels width) tree.root) }
        ensures empty { IfOk result (λ tree. (p : ℕ) → leaf_from (memory pool.new.words) (levels width) tree.root p ≡ None) }
        ensures tables { IfOk result (λ tree. (p w : ℕ) → w < levels width
            → table_from (memory pool.new.words) (levels width) tree.root p w ≡ None) }
        ensures spelled { IfOk result (λ tree. AreSpelled pool.new.words (levels width) tree.root) }
        ensures frames { IfOk result (λ tree. (f : ℕ) → uses (memory pool.new.words) (levels width) tree.root f ≡ one_if_same tree.root f) }
        ensures free { IfOk result (λ tree. (f : ℕ) → occurs f pool.new.free + one_if_same tree.root f ≡ occurs f pool.old.free) }
        ensures count { OnOk result (length pool.new.free + 1 ≡ length pool.old.free) }
        ensures words { pool.new.words ≡ pool.old.words }
        ensures size { pool.new.frames ≡ pool.old.frames }
        ensures pool { IsPool pool.new }
    {
        if pool.free_count() == 0 {
            return Err(NoFrames);
        }
        Ok(Tree {
            root: pool.take(),
            width,
        })
    }

    /// The frame of its root.
    pub fn root(&self) -> Frame
        ensures { result ≡ self.now.root }
    {
        self.root
    }

    /// The width of its pages.
    pub fn width(&self) -> Width
        ensures { result ≡ self.now.width }
    {
        self.width
    }

    /// The host frame and the rights that a page is mapped to; nothing where it is none of the tree's width.
    pub fn walk(&self, pool: &Pool, page: Page) -> Option<(Frame, Rights)>
        requires { IsTree pool.now (levels self.now.width) self.now.root }
        ensures some { IfSome result
            (λ to. root_states (memory pool.now.words) self.now.width self.now.root page ≡ Some (target to.0 (bits_of to.1))) }
        ensures none { IfNone result (root_states (memory pool.now.words) self.now.width self.now.root page ≡ None) }
    {
        let number = page.number();
        let to = match self.width {
            Width::W39 if number >= Width::W39.pages_end() => return None,
            Width::W39 => find(pool, NARROW, self.root, number),
            // No page is beyond this width.
            Width::W48 => find(pool, WIDE, self.root, number),
        };
        to.map(|to| (to.frame(), to.rights()))
    }

    /// The table of a level, 1 for the lowest, on a page's way from the root; nothing where the way ends above that level.
    pub fn table_at(&self, pool: &Pool, page: u64, level: u64) -> Option<Frame>
        requires tree { IsTree pool.now (levels self.now.width) self.now.root }
        requires level { 1 ≤ level }
        ensures { result ≡ table_from (memory pool.now.words) (levels self.now.width) self.now.root page level }
    {
        table_at(pool, self.width.levels(), self.root, page, level)
    }

    /// Maps the pages of a range, which are absent, to as many host frames from one on.
    pub fn map(
        &mut self,
        pool: &mut Pool,
        range: PageRange,
        frame: Frame,
        rights: Rights,
    ) -> Result<(), NoFrames>
        requires tree { IsTree pool.old (levels self.old.width) self.old.root }
        requires fits { Fits range self.old.width }
        requires absent { (p : ℕ) → IsWithin range p → states (memory pool.old.words) (levels self.old.width) self.old.root p ≡ None }
        requires frames { frame + range.pages ≤ FRAMES_END }
        requires rights { AreRights (bits_of rights) }
        ensures refused { IsErr result
            ↔ (length pool.old.free < frames_to_map pool.old (levels self.old.width) self.old.root (one_segment frame range.pages)
            range.first) }
        ensures unchanged { OnErr result (pool.new ≡ pool.old) }
        ensures root { self.new ≡ self.old }
        ensures moves { TakesAndGivesFrames pool.old pool.new (levels self.old.width) self.old.root [] }
        ensures spelled { KeepsSpellings pool.old pool.new (levels self.old.width) self.old.root }
        ensures order { AreSpelled pool.old.words (levels self.old.width) self.old.root → FillsInOrder pool.old pool.new }
        ensures maps { OnOk result (MapsPages pool.old pool.new (levels self.old.width) self.old.root range.first
            (range.first + range.pages)
            (λ p. Some (target (frame + (p - range.first)) (bits_of rights)))) }
        ensures makes { OnOk result (MakesTables pool.old pool.new (levels self.old.width) self.old.root range.first
            (range.first + range.pages)
            (is_large_at (one_segment frame range.pages) range.first)) }
        ensures count { OnOk result (length pool.new.free
            + frames_to_map pool.old (levels self.old.width) self.old.root (one_segment frame range.pages)
            range.first ≡ length pool.old.free) }
        ensures leaves { KeepsLeaves pool.old pool.new (levels self.old.width) self.old.root }
        ensures tables { KeepsTables pool.old pool.new (levels self.old.width) self.old.root }
        ensures others { KeepsOthers pool.old pool.new (levels self.old.width) self.old.root }
        ensures tree { IsTree pool.new (levels self.old.width) self.old.root }
        ensures pool { IsPool pool.new }
    {
        let segment = Segment {
            frame: frame.number(),
            pages: range.pages(),
        };
        let start = Page::new(range.first()).unwrap();
        self.map_sized_list(pool, start, &[segment], segment.pages, rights)
    }

    /// Maps the pages from a start on, which are absent, to 1 to 16 segments, one after the other.
    pub fn map_list(
        &mut self,
        pool: &mut Pool,
        start: Page,
        segments: &[Segment],
        rights: Rights,
    ) -> Result<(), NoFrames>
        requires tree { IsTree pool.old (levels self.old.width) self.old.root }
        requires some { 1 ≤ length segments.now }
        requires few { length segments.now ≤ 16 }
        requires segments { AreSegments segments.now }
        requires range { IsPageRange (record { first = start; pages = total_pages segments.now }) }
        requires fits { Fits (record { first = start; pages = total_pages segments.now }) self.old.width }
        requires absent { (p : ℕ) → start ≤ p → p < start + total_pages segments.now
            → states (memory pool.old.words) (levels self.old.width) self.old.root p ≡ None }
        requires rights { AreRights (bits_of rights) }
        ensures refused { IsErr result ↔ (length pool.old.free < frames_to_map pool.old (levels self.old.width)
            self.old.root segments.now start) }
        ensures unchanged { OnErr result (pool.new ≡ pool.old) }
        ensures root { self.new ≡ self.old }
        ensures moves { TakesAndGivesFrames pool.old pool.new (levels self.old.width) self.old.root [] }
        ensures spelled { KeepsSpellings pool.old pool.new (levels self.old.width) self.old.root }
        ensures order { AreSpelled pool.old.words (levels self.old.width) self.old.root → FillsInOrder pool.old pool.new }
        ensures maps { OnOk result (MapsPages pool.old pool.new (levels self.old.width) self.old.root start
            (start + total_pages segments.now)
            (placed segments.now start (bits_of rights))) }
        ensures makes { OnOk result (MakesTables pool.old pool.new (levels self.old.width) self.old.root start
            (start + total_pages segments.now)
            (is_large_at segments.now start)) }
        ensures count { OnOk result
            (length pool.new.free + frames_to_map pool.old (levels self.old.width)
            self.old.root segments.now start ≡ length pool.old.free) }
        ensures leaves { KeepsLeaves pool.old pool.new (levels self.old.width) self.old.root }
        ensures tables { KeepsTables pool.old pool.new (levels self.old.width) self.old.root }
        ensures others { KeepsOthers pool.old pool.new (levels self.old.width) self.old.root }
        ensures tree { IsTree pool.new (levels self.old.width) self.old.root }
        ensures pool { IsPool pool.new }
    {
        let pages: u64 = segments.iter().map(|segment| segment.pages).sum();
        self.map_sized_list(pool, start, segments, pages, rights)
    }

    /// `map_list`, for a caller that knows how many pages the segments have.
    pub fn map_sized_list(
        &mut self,
        pool: &mut Pool,
        start: Page,
        segments: &[Segment],
        pages: u64,
        rights: Rights,
    ) -> Result<(), NoFrames>
        requires tree { IsTree pool.old (levels self.old.width) self.old.root }
        requires some { 1 ≤ length segments.now }
        requires few { length segments.now ≤ 16 }
        requires segments { AreSegments segments.now }
        requires pages { pages ≡ total_pages segments.now }
        requires range { IsPageRange (record { first = start; pages = total_pages segments.now }) }
        requires fits { Fits (record { first = start; pages = total_pages segments.now }) self.old.width }
        requires absent { (p : ℕ) → start ≤ p → p < start + total_pages segments.now
            → states (memory pool.old.words) (levels self.old.width) self.old.root p ≡ None }
        requires rights { AreRights (bits_of rights) }
        ensures refused { IsErr result ↔ (length pool.old.free < frames_to_map pool.old (levels self.old.width)
            self.old.root segments.now start) }
        ensures unchanged { OnErr result (pool.new ≡ pool.old) }
        ensures root { self.new ≡ self.old }
        ensures moves { TakesAndGivesFrames pool.old pool.new (levels self.old.width) self.old.root [] }
        ensures spelled { KeepsSpellings pool.old pool.new (levels self.old.width) self.old.root }
        ensures order { AreSpelled pool.old.words (levels self.old.width) self.old.root → FillsInOrder pool.old pool.new }
        ensures maps { OnOk result (MapsPages pool.old pool.new (levels self.old.width) self.old.root start
            (start + total_pages segments.now)
            (placed segments.now start (bits_of rights))) }
        ensures makes { OnOk result (MakesTables pool.old pool.new (levels self.old.width) self.old.root start
            (start + total_pages segments.now)
            (is_large_at segments.now start)) }
        ensures count { OnOk result
            (length pool.new.free + frames_to_map pool.old (levels self.old.width)
            self.old.root segments.now start ≡ length pool.old.free) }
        ensures leaves { KeepsLeaves pool.old pool.new (levels self.old.width) self.old.root }
        ensures tables { KeepsTables pool.old pool.new (levels self.old.width) self.old.root }
        ensures others { KeepsOthers pool.old pool.new (levels self.old.width) self.old.root }
        ensures tree { IsTree pool.new (levels self.old.width) self.old.root }
        ensures pool { IsPool pool.new }
    {
        let first = start.number();
        match self.width {
            Width::W39 => map_segments(pool, NARROW, self.root, segments, first, pages, rights),
            Width::W48 => map_segments(pool, WIDE, self.root, segments, first, pages, rights),
        }
    }

    /// Whether the free frames suffice to unmap a range: each leaf of 2 MiB that it meets and doesn't cover
    /// takes one.
    pub fn may_unmap(&self, pool: &Pool, range: PageRange) -> Result<(), NoFrames>
        requires tree { IsTree pool.now (levels self.now.width) self.now.root }
        requires fits { Fits range self.now.width }
        ensures { IsErr result
            ↔ (length pool.now.free
            < leaves_splitting (memory pool.now.words) (levels self.now.width) self.now.root range.first (range.first + range.pages)) }
    {
        let from = range.first();
        let to = from + range.pages();
        let free = pool.free_count();
        // Where as many frames are free as the range meets spans, the leaves to be split needn't be counted.
        if free < spans_met(from, to)
            && free < leaves_splitting(pool, self.width.levels(), self.root, from, to)
        {
            return Err(NoFrames);
        }
        Ok(())
    }

    /// Unmaps the pages of a range, all of which are there, where `may_unmap` allows it. A table whose span
    /// the range covers is cut.
    #[inline(always)]
    pub fn unmap(&mut self, pool: &mut Pool, range: PageRange) -> Cut
        requires tree { IsTree pool.old (levels self.old.width) self.old.root }
        requires fits { Fits range self.old.width }
        requires there { (p : ℕ) → IsWithin range p → IsSome (states (memory pool.old.words) (levels self.old.width) self.old.root p) }
        requires may { leaves_splitting (memory pool.old.words) (levels self.old.width) self.old.root range.first
            (range.first + range.pages)
            ≤ length pool.old.free }
        ensures root { self.new ≡ self.old }
        ensures moves { TakesAndGivesFrames pool.old pool.new (levels self.old.width) self.old.root result.frames }
        ensures spelled { KeepsSpellings pool.old pool.new (levels self.old.width) self.old.root }
        ensures unmaps { UnmapsPages pool.old pool.new (levels self.old.width) self.old.root range.first (range.first + range.pages)
            result.frames }
        ensures order { WritesInOrder pool.old pool.new }
        ensures split { IsTrue result.split
            ↔ (0 < leaves_splitting (memory pool.old.words) (levels self.old.width) self.old.root range.first (range.first + range.pages)) }
        ensures whole { (p : ℕ) (x : LeafEntry) → IsWithin range p → result.split ≡ false
            → leaf_from (memory pool.old.words) (levels self.old.width) self.old.root p ≡ Some x
            → (q : ℕ) → q / span x.size ≡ p / span x.size → IsWithin range q }
        ensures count { length pool.new.free
            + leaves_splitting (memory pool.old.words) (levels self.old.width) self.old.root range.first (range.first + range.pages)
            ≡ length pool.old.free }
        ensures leaves { (first pages frame rights : ℕ) → IsLeafAt (memory pool.old.words) (levels self.old.width)
            self.old.root first pages frame rights
            → (first + pages ≤ range.first) ⊎ (range.first + range.pages ≤ first)
            → IsLeafAt (memory pool.new.words) (levels self.old.width) self.old.root first pages frame rights }
        ensures tables { (first level table : ℕ) → IsTableAt (memory pool.old.words) (levels self.old.width) self.old.root first level table
            → IsTableAt (memory pool.new.words) (levels self.old.width) self.old.root first level table
            ⊎ ((level ≡ 1) × (range.first ≤ first) × (first + SPAN_PAGES ≤ range.first + range.pages) × (0 < occurs table result.frames)) }
        ensures others { KeepsOthers pool.old pool.new (levels self.old.width) self.old.root }
        ensures tree { IsTree pool.new (levels self.old.width) self.old.root }
        ensures pool { IsPool pool.new }
    {
        let from = range.first();
        let to = from + range.pages();
        match self.width {
            Width::W39 => unmap_extents(pool, NARROW, self.root, from, to),
            Width::W48 => unmap_extents(pool, WIDE, self.root, from, to),
        }
    }

    /// Gives all its frames back.
    pub fn destroy(self, pool: &mut Pool)
        requires { IsTree pool.old (levels self.width) self.root }
        ensures free { (f : ℕ) → occurs f pool.new.free
            ≡ occurs f pool.old.free + uses (memory pool.old.words) (levels self.width) self.root f }
        ensures words { (f k : ℕ) → k < TABLE_ENTRIES → uses (memory pool.old.words) (levels self.width) self.root f ≡ 0
            → word pool.new.words f k ≡ word pool.old.words f k }
        ensures order { EndsInOrder pool.old pool.new (levels self.width) self.root }
        ensures others { KeepsOthers pool.old pool.new (levels self.width) self.root }
        ensures size { pool.new.frames ≡ pool.old.frames }
        ensures pool { IsPool pool.new }
    {
        let Tree { root, width } = self;
        take_down(pool, width.levels(), root);
    }
}
