//! Pages mapped to host frames, in trees of up to 4 levels, and so of up to 2^36 pages.

ghost use Rattle.std.specs.Prelude.{◌≡◌, ℕ, Bool, ◌+◌, ◌-◌, ◌*◌, ◌/◌, ◌%◌, ◌^◌, ◌<◌, ◌≤◌, [], ◌∷◌, ◌++◌, length, false, None};
ghost use Rattle.std.specs.Prelude.{if◌then◌else◌, IsSome, IsErr, OnOk, OnErr, true, ◌↔◌};
ghost use Rattle.dmatypes.specs.Conditions.{total_pages};
ghost use Rattle.dmatypes.specs.Rights.{AreRights, bits_of};
ghost use Rattle.dmatypes.specs.World.{placed};
ghost use Rattle.tables.specs.Tree.{Memory, span, index_in, states, leaf_from, table_from};
ghost use Rattle.tables.specs.Pool.{memory, moment_of, occurs, IsPool, IsTree, IsZeroed};
ghost use Rattle.tables.specs.Changes.{TakesAndGivesFrames, KeepsSpellings, MapsPages, MakesTables};
ghost use Rattle.tables.specs.Spelled.{AreSpelled};
ghost use Rattle.tables.specs.Trail.{FillsInOrder};
ghost use Rattle.tables.specs.Segments.{is_large_at, AreSegments};
ghost use Rattle.tables.specs.Lacks.{lacks_table, tables_lacking, tables_lacking_at, frames_to_map, sum_spans};
ghost use Rattle.tables.specs.Extents.{extent_states, is_large, WritesEntries, leaf_at};

use crate::entries::{TABLE_ENTRIES, entry, index_of, span_of, table_at};
use crate::error::NoFrames;
use crate::extent::Extent;
use crate::frames::Pool;
use crate::segments::{Passed, is_large_at};
use dmatypes::{Frame, MOST_LEVELS, PAGES_END, Rights, SPAN_PAGES, Segment};
use vtdbits::{LargeTranslation, SsEntry};

/// Writes the leaves of an extent in a table of level 1.
pub(crate) fn write_run(pool: &mut Pool, table: Frame, extent: Extent)
    requires table { table < pool.old.frames }
    requires taken { occurs table pool.old.free ≡ 0 }
    ensures run { WritesEntries pool.old.words pool.new.words table extent.from extent.to (leaf_at extent) }
    ensures trail { pool.new.trail ≡ pool.old.trail ++ moment_of pool.new ∷ [] }
    ensures free { pool.new.free ≡ pool.old.free }
    ensures frames { pool.new.frames ≡ pool.old.frames }
    ensures pool { IsPool pool.new }
{
    pool.write_leaves(
        table,
        extent.from % SPAN_PAGES,
        extent.to - extent.from,
        extent.frame,
        extent.rights,
    );
}

/// A new table under an absent entry.
fn add_table(pool: &mut Pool, level: u64, table: Frame, index: u64) -> Frame
    requires low { 2 ≤ level }
    requires high { level ≤ MOST_LEVELS }
    requires tree { IsTree pool.old level table }
    requires index { index < TABLE_ENTRIES }
    requires absent { memory pool.old.words level table index ≡ SsEntry.Absent }
    requires room { 0 < length pool.old.free }
    ensures moves { TakesAndGivesFrames pool.old pool.new level table [] }
    ensures spelled { KeepsSpellings pool.old pool.new level table }
    ensures order { AreSpelled pool.old.words level table → FillsInOrder pool.old pool.new }
    ensures maps { (from to : ℕ) → from < to → index_in (level - 1) from ≡ index
        → MapsPages pool.old pool.new level table from to (states (memory pool.old.words) level table) }
    ensures leaves { (p : ℕ) → leaf_from (memory pool.new.words) level table p ≡ leaf_from (memory pool.old.words) level table p }
    ensures names { memory pool.new.words level table index ≡ SsEntry.Table result }
    ensures zeroed { IsZeroed pool.new.words result }
    ensures count { length pool.new.free + 1 ≡ length pool.old.free }
    ensures pool { IsPool pool.new }
{
    let below = pool.take();
    pool.write(table, index, SsEntry::Table(below).encode());
    below
}

/// Maps an extent: one walk down, with the tables that it lacks, and one run of words or one leaf of 512 pages.
#[inline(always)]
pub(crate) fn map_extent(pool: &mut Pool, level: u64, table: Frame, extent: &Extent)
    requires low { 1 ≤ level }
    requires high { level ≤ MOST_LEVELS }
    requires tree { IsTree pool.old level table }
    requires absent { (p : ℕ) → extent.now.from ≤ p → p < extent.now.to → leaf_from (memory pool.old.words) level table p ≡ None }
    requires room { tables_lacking_at (memory pool.old.words) level table (is_large extent.now) extent.now.from ≤ length pool.old.free }
    ensures moves { TakesAndGivesFrames pool.old pool.new level table [] }
    ensures spelled { KeepsSpellings pool.old pool.new level table }
    ensures order { AreSpelled pool.old.words level table → FillsInOrder pool.old pool.new }
    ensures maps { MapsPages pool.old pool.new level table extent.now.from extent.now.to (extent_states extent.now) }
    ensures made { (w : ℕ) → 1 ≤ w → w < level → (w ≡ 1 → is_large extent.now ≡ false)
        → IsSome (table_from (memory pool.new.words) level table extent.now.from w) }
    ensures spared { 1 < level → is_large extent.now ≡ true
        → table_from (memory pool.new.words) level table extent.now.from 1
        ≡ table_from (memory pool.old.words) level table extent.now.from 1 }
    ensures count { length pool.new.free + tables_lacking_at (memory pool.old.words) level table (is_large extent.now) extent.now.from
        ≡ length pool.old.free }
    ensures pool { IsPool pool.new }
{
    if level == 1 {
        // By value into what writes the pool: a loop would read the fields anew after each write.
        write_run(pool, table, *extent);
        return;
    }
    let index = index_of(level, extent.from);
    match entry(pool, level, table, index) {
        SsEntry::Table(below) => map_extent(pool, level - 1, below, extent),
        SsEntry::Absent => {
            if level == 2 && extent.is_large() {
                write_large(pool, table, index, extent);
            } else {
                let below = add_table(pool, level, table, index);
                map_extent(pool, level - 1, below, extent);
            }
        }
        SsEntry::Leaf(_) | SsEntry::LargeLeaf(_) => unreachable!(),
    }
}

/// Writes an extent as one leaf of 512 pages in a table of level 2.
fn write_large(pool: &mut Pool, table: Frame, index: u64, extent: &Extent)
    requires tree { IsTree pool.old 2 table }
    requires index { index ≡ index_in 1 extent.now.from }
    requires absent { memory pool.old.words 2 table index ≡ SsEntry.Absent }
    requires large { is_large extent.now ≡ true }
    ensures moves { TakesAndGivesFrames pool.old pool.new 2 table [] }
    ensures spelled { KeepsSpellings pool.old pool.new 2 table }
    ensures order { AreSpelled pool.old.words 2 table → FillsInOrder pool.old pool.new }
    ensures maps { MapsPages pool.old pool.new 2 table extent.now.from extent.now.to (extent_states extent.now) }
    ensures tables { (p w : ℕ) → table_from (memory pool.new.words) 2 table p w ≡ table_from (memory pool.old.words) 2 table p w }
    ensures free { pool.new.free ≡ pool.old.free }
    ensures pool { IsPool pool.new }
{
    let frame = Frame::new(extent.frame).unwrap();
    let leaf = LargeTranslation::new(frame, extent.rights);
    pool.write(table, index, SsEntry::LargeLeaf(leaf).encode());
}

/// Whether a page has no table of a level below the root's and needs one.
fn lacks_table(
    pool: &Pool,
    level: u64,
    root: Frame,
    segments: &[Segment],
    first: u64,
    page: u64,
    wanted: u64,
) -> bool
    requires low { 1 ≤ wanted }
    requires lower { wanted < level }
    requires high { level ≤ MOST_LEVELS }
    requires tree { IsTree pool.now level root }
    requires segments { AreSegments segments.now }
    requires within { first + total_pages segments.now ≤ PAGES_END }
    ensures { (if result then 1 else 0) ≡ lacks_table (memory pool.now.words) level root (is_large_at segments.now first page) wanted page }
{
    if table_at(pool, level, root, page, wanted).is_some() {
        return false;
    }
    wanted != 1 || !is_large_at(segments, first, page)
}

/// How many tables of a level below a root's are lacking where pages are to be mapped.
fn spans_lacking(
    pool: &Pool,
    level: u64,
    root: Frame,
    segments: &[Segment],
    first: u64,
    end: u64,
    wanted: u64,
) -> u64
    requires low { 1 ≤ wanted }
    requires lower { wanted < level }
    requires high { level ≤ MOST_LEVELS }
    requires tree { IsTree pool.now level root }
    requires segments { AreSegments segments.now }
    requires some { first < end }
    requires end { end ≡ first + total_pages segments.now }
    requires within { end ≤ PAGES_END }
    ensures value { result
        ≡ sum_spans (λ p. lacks_table (memory pool.now.words) level root (is_large_at segments.now first p) wanted p) wanted first end }
    ensures small { result ≤ PAGES_END }
{
    let width = span_of(wanted);
    let mut count = 0;
    for number in first / width..(end - 1) / width + 1 {
        let page = number * width;
        if lacks_table(pool, level, root, segments, first, page, wanted) {
            count += 1;
        }
    }
    count
}

/// How many tables are lacking where pages are to be mapped.
fn tables_lacking(
    pool: &Pool,
    level: u64,
    root: Frame,
    segments: &[Segment],
    first: u64,
    end: u64,
) -> u64
    requires low { 1 ≤ level }
    requires high { level ≤ MOST_LEVELS }
    requires tree { IsTree pool.now level root }
    requires segments { AreSegments segments.now }
    requires some { first < end }
    requires end { end ≡ first + total_pages segments.now }
    requires within { end ≤ PAGES_END }
    ensures { result ≡ tables_lacking (memory pool.now.words) level root (is_large_at segments.now first) first end }
{
    let mut count = 0;
    for wanted in 1..level {
        count += spans_lacking(pool, level, root, segments, first, end, wanted);
    }
    count
}

/// No fewer tables than can be lacking where pages are to be mapped: one for each span of a lower level that they
/// meet.
fn most_lacking(level: u64, first: u64, end: u64) -> u64
    requires low { 1 ≤ level }
    requires high { level ≤ MOST_LEVELS }
    requires some { first < end }
    requires within { end ≤ PAGES_END }
    ensures { (m : Memory) (root : ℕ) (large : ℕ → Bool) → tables_lacking m level root large first end ≤ result }
{
    let mut most = 0;
    for wanted in 1..level {
        let width = span_of(wanted);
        most += (end - 1) / width + 1 - first / width;
    }
    most
}

/// Maps pages to segments, where no frame is lacking.
#[inline(always)]
fn map_extents(
    pool: &mut Pool,
    level: u64,
    root: Frame,
    segments: &[Segment],
    first: u64,
    rights: Rights,
)
    requires low { 1 ≤ level }
    requires high { level ≤ MOST_LEVELS }
    requires tree { IsTree pool.old level root }
    requires segments { AreSegments segments.now }
    requires some { 0 < total_pages segments.now }
    requires within { first + total_pages segments.now ≤ PAGES_END }
    requires one_span { first / span level ≡ (first + total_pages segments.now - 1) / span level }
    requires rights { AreRights (bits_of rights) }
    requires absent { (p : ℕ) → first ≤ p → p < first + total_pages segments.now → leaf_from (memory pool.old.words) level root p ≡ None }
    requires room { frames_to_map pool.old level root segments.now first ≤ length pool.old.free }
    ensures moves { TakesAndGivesFrames pool.old pool.new level root [] }
    ensures spelled { KeepsSpellings pool.old pool.new level root }
    ensures order { AreSpelled pool.old.words level root → FillsInOrder pool.old pool.new }
    ensures maps { MapsPages pool.old pool.new level root first (first + total_pages segments.now)
        (placed segments.now first (bits_of rights)) }
    ensures makes { MakesTables pool.old pool.new level root first (first + total_pages segments.now) (is_large_at segments.now first) }
    ensures count { length pool.new.free + frames_to_map pool.old level root segments.now first ≡ length pool.old.free }
    ensures pool { IsPool pool.new }
{
    let mut place = first;
    let mut passed = Passed {
        count: 0,
        start: first,
    };
    while let Some(extent) = Extent::at(segments, first, &mut passed, place, rights) {
        map_extent(pool, level, root, &extent);
        place = extent.to;
    }
}

/// Maps the pages from a first one on to segments, one after the other, all or none.
#[inline(always)]
pub(crate) fn map_segments(
    pool: &mut Pool,
    level: u64,
    root: Frame,
    segments: &[Segment],
    first: u64,
    pages: u64,
    rights: Rights,
) -> Result<(), NoFrames>
    requires low { 1 ≤ level }
    requires high { level ≤ MOST_LEVELS }
    requires tree { IsTree pool.old level root }
    requires segments { AreSegments segments.now }
    requires pages { pages ≡ total_pages segments.now }
    requires some { 0 < total_pages segments.now }
    requires within { first + total_pages segments.now ≤ PAGES_END }
    requires one_span { first / span level ≡ (first + total_pages segments.now - 1) / span level }
    requires rights { AreRights (bits_of rights) }
    requires absent { (p : ℕ) → first ≤ p → p < first + total_pages segments.now → leaf_from (memory pool.old.words) level root p ≡ None }
    ensures refused { IsErr result ↔ (length pool.old.free < frames_to_map pool.old level root segments.now first) }
    ensures unchanged { OnErr result (pool.new ≡ pool.old) }
    ensures moves { TakesAndGivesFrames pool.old pool.new level root [] }
    ensures spelled { KeepsSpellings pool.old pool.new level root }
    ensures order { AreSpelled pool.old.words level root → FillsInOrder pool.old pool.new }
    ensures maps { OnOk result
        (MapsPages pool.old pool.new level root first (first + total_pages segments.now) (placed segments.now first (bits_of rights))) }
    ensures makes { OnOk result
        (MakesTables pool.old pool.new level root first (first + total_pages segments.now) (is_large_at segments.now first)) }
    ensures count { OnOk result (length pool.new.free + frames_to_map pool.old level root segments.now first ≡ length pool.old.free) }
    ensures pool { IsPool pool.new }
{
    let free = pool.free_count();
    let end = first + pages;
    // Mostly as many frames are free as the pages meet spans: then none can be lacking, and the tables needn't be counted.
    if free < most_lacking(level, first, end)
        && free < tables_lacking(pool, level, root, segments, first, end)
    {
        return Err(NoFrames);
    }
    map_extents(pool, level, root, segments, first, rights);
    Ok(())
}
