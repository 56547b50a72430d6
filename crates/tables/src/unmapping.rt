//! Pages unmapped, and tables given back, in trees of up to 4 levels, and so of up to 2^36 pages.

ghost use Rattle.std.specs.Prelude.{◌≡◌, ◌≢◌, ℕ, ◌+◌, ◌-◌, ◌*◌, ◌/◌, ◌%◌, ◌^◌, ◌<◌, ◌≤◌, [], ◌∷◌, ◌++◌, false, length};
ghost use Rattle.std.specs.Prelude.{if◌then◌else◌, IsSome, IsTrue, ◌↔◌};
ghost use Rattle.tables.specs.Tree.{Memory, span, index_in, leaf_from, uses};
ghost use Rattle.tables.specs.Pool.{word, memory, occurs, IsPool, IsTree, IsWrite};
ghost use Rattle.vtdbits.specs.Entry.{look};
ghost use Rattle.vtdbits.specs.Translation.{target};
ghost use Rattle.tables.specs.Changes.{TakesAndGivesFrames, KeepsSpellings, UnmapsPages};
ghost use Rattle.tables.specs.Lacks.{splits_leaf, leaves_splitting};
ghost use Rattle.tables.specs.Trail.{EndsInOrder, WritesBySteps, WritesInOrder};
ghost use Rattle.tables.specs.Under.{EndsUnder, IsSplit, used_at};
ghost use Rattle.tables.specs.Extents.{WritesEntries, cut_of, was_split, extent_splits};

use crate::cut::Cut;
use crate::entries::{TABLE_ENTRIES, entry, index_of, is_in_large_leaf};
use crate::extent::Extent;
use crate::frames::Pool;
use crate::mapping::write_run;
use dmatypes::{Frame, MOST_LEVELS, MOST_PAGES, PAGES_END, SPAN_PAGES};
use vtdbits::{LargeTranslation, SsEntry};

/// What became of an extent that was unmapped.
#[derive(Clone, Copy)]
pub enum Cleared {
    /// Its entries are absent.
    Words,
    /// They are, after the split of a leaf of 512 pages.
    Split,
    /// It covered the span of this table, which was cut.
    Table(Frame),
}

/// Clears the entries of pages in a table of level 1.
fn clear_run(pool: &mut Pool, table: Frame, from: u64, to: u64)
    requires some { from < to }
    requires one_span { from / SPAN_PAGES ≡ (to - 1) / SPAN_PAGES }
    requires table { table < pool.old.frames }
    requires taken { occurs table pool.old.free ≡ 0 }
    ensures run { WritesEntries pool.old.words pool.new.words table from to (λ p. SsEntry.Absent) }
    ensures zeroed { (p : ℕ) → from ≤ p → p < to → word pool.new.words table (p % SPAN_PAGES) ≡ 0 }
    ensures order { WritesInOrder pool.old pool.new }
    ensures free { pool.new.free ≡ pool.old.free }
    ensures frames { pool.new.frames ≡ pool.old.frames }
    ensures pool { IsPool pool.new }
{
    // One word is what most unmaps clear, and less than what the call of a fill costs.
    if to - from == 1 {
        pool.write(table, from % SPAN_PAGES, 0);
    } else {
        pool.clear(table, from % SPAN_PAGES, to - from);
    }
}

/// Spells a leaf of 512 pages by a new table of 512 leaves.
fn split(pool: &mut Pool, table: Frame, page: u64, leaf: LargeTranslation) -> Frame
    requires tree { IsTree pool.old 2 table }
    requires page { page < PAGES_END }
    requires leaf { memory pool.old.words 2 table (index_in 1 page) ≡ SsEntry.LargeLeaf leaf }
    requires room { 0 < length pool.old.free }
    ensures moves { TakesAndGivesFrames pool.old pool.new 2 table [] }
    ensures spelled { KeepsSpellings pool.old pool.new 2 table }
    ensures split { IsSplit pool.old pool.new table (index_in 1 page) page result leaf }
    ensures order { WritesInOrder pool.old pool.new }
    ensures count { length pool.new.free + 1 ≡ length pool.old.free }
    ensures pool { IsPool pool.new }
{
    let below = pool.take();
    let from = page / SPAN_PAGES * SPAN_PAGES;
    let extent = Extent {
        from,
        to: from + SPAN_PAGES,
        frame: leaf.frame().number(),
        rights: leaf.rights(),
    };
    write_run(pool, below, extent);
    // Not sooner: a unit may walk the words where they lie.
    pool.write(table, index_of(2, page), SsEntry::Table(below).encode());
    below
}

/// Unmaps an extent in a table of level 2.
fn clear_span(pool: &mut Pool, table: Frame, from: u64, to: u64) -> Cleared
    requires tree { IsTree pool.old 2 table }
    requires some { from < to }
    requires one_span { from / SPAN_PAGES ≡ (to - 1) / SPAN_PAGES }
    requires within { to ≤ PAGES_END }
    requires there { (p : ℕ) → from ≤ p → p < to → IsSome (leaf_from (memory pool.old.words) 2 table p) }
    requires room { extent_splits (memory pool.old.words) 2 table from to ≤ length pool.old.free }
    ensures moves { TakesAndGivesFrames pool.old pool.new 2 table (cut_of result) }
    ensures spelled { KeepsSpellings pool.old pool.new 2 table }
    ensures unmaps { UnmapsPages pool.old pool.new 2 table from to (cut_of result) }
    ensures order { WritesInOrder pool.old pool.new }
    ensures split { (if was_split result then 1 else 0) ≡ extent_splits (memory pool.old.words) 2 table from to }
    ensures count { length pool.new.free + extent_splits (memory pool.old.words) 2 table from to ≡ length pool.old.free }
    ensures cut { SPAN_PAGES * length (cut_of result) ≤ to - from }
    ensures pool { IsPool pool.new }
{
    let is_whole = to - from == SPAN_PAGES;
    let index = index_of(2, from);
    match entry(pool, 2, table, index) {
        SsEntry::Table(below) => {
            clear_run(pool, below, from, to);
            if !is_whole {
                return Cleared::Words;
            }
            pool.write(table, index, 0);
            Cleared::Table(below)
        }
        SsEntry::LargeLeaf(leaf) => {
            if is_whole {
                pool.write(table, index, 0);
                return Cleared::Words;
            }
            let below = split(pool, table, from, leaf);
            clear_run(pool, below, from, to);
            Cleared::Split
        }
        SsEntry::Absent | SsEntry::Leaf(_) => unreachable!(),
    }
}

/// Unmaps an extent: one walk down, and one run of words or one leaf of 512 pages.
#[inline(always)]
fn clear_extent(pool: &mut Pool, level: u64, table: Frame, from: u64, to: u64) -> Cleared
    requires low { 2 ≤ level }
    requires high { level ≤ MOST_LEVELS }
    requires tree { IsTree pool.old level table }
    requires some { from < to }
    requires one_span { from / SPAN_PAGES ≡ (to - 1) / SPAN_PAGES }
    requires within { to ≤ PAGES_END }
    requires there { (p : ℕ) → from ≤ p → p < to → IsSome (leaf_from (memory pool.old.words) level table p) }
    requires room { extent_splits (memory pool.old.words) level table from to ≤ length pool.old.free }
    ensures moves { TakesAndGivesFrames pool.old pool.new level table (cut_of result) }
    ensures spelled { KeepsSpellings pool.old pool.new level table }
    ensures unmaps { UnmapsPages pool.old pool.new level table from to (cut_of result) }
    ensures order { WritesInOrder pool.old pool.new }
    ensures split { (if was_split result then 1 else 0) ≡ extent_splits (memory pool.old.words) level table from to }
    ensures count { length pool.new.free + extent_splits (memory pool.old.words) level table from to ≡ length pool.old.free }
    ensures cut { SPAN_PAGES * length (cut_of result) ≤ to - from }
    ensures pool { IsPool pool.new }
{
    if level == 2 {
        return clear_span(pool, table, from, to);
    }
    match entry(pool, level, table, index_of(level, from)) {
        SsEntry::Table(below) => clear_extent(pool, level - 1, below, from, to),
        SsEntry::Absent | SsEntry::Leaf(_) | SsEntry::LargeLeaf(_) => unreachable!(),
    }
}

/// Unmaps pages that are there, where no frame is lacking.
#[inline(always)]
pub(crate) fn unmap_extents(pool: &mut Pool, level: u64, root: Frame, from: u64, to: u64) -> Cut
    requires low { 2 ≤ level }
    requires high { level ≤ MOST_LEVELS }
    requires tree { IsTree pool.old level root }
    requires some { from < to }
    requires few { to - from ≤ MOST_PAGES }
    requires within { to ≤ PAGES_END }
    requires one_span { from / span level ≡ (to - 1) / span level }
    requires there { (p : ℕ) → from ≤ p → p < to → IsSome (leaf_from (memory pool.old.words) level root p) }
    requires room { leaves_splitting (memory pool.old.words) level root from to ≤ length pool.old.free }
    ensures moves { TakesAndGivesFrames pool.old pool.new level root result.frames }
    ensures spelled { KeepsSpellings pool.old pool.new level root }
    ensures unmaps { UnmapsPages pool.old pool.new level root from to result.frames }
    ensures order { WritesInOrder pool.old pool.new }
    ensures split { IsTrue result.split ↔ (0 < leaves_splitting (memory pool.old.words) level root from to) }
    ensures count { length pool.new.free + leaves_splitting (memory pool.old.words) level root from to ≡ length pool.old.free }
    ensures pool { IsPool pool.new }
{
    let mut cut = Cut::none(root);
    let mut place = from;
    while place < to {
        let next = to.min((place / SPAN_PAGES + 1) * SPAN_PAGES);
        let cleared = clear_extent(pool, level, root, place, next);
        cut.note(cleared);
        place = next;
    }
    cut
}

/// Whether a page is in a large leaf, and the pages from one up to another don't cover the 512 from it on.
fn splits_leaf(pool: &Pool, level: u64, root: Frame, from: u64, to: u64, page: u64) -> bool
    requires low { 1 ≤ level }
    requires high { level ≤ MOST_LEVELS }
    requires tree { IsTree pool.now level root }
    requires page { page ≤ PAGES_END }
    ensures { (if result then 1 else 0) ≡ splits_leaf (memory pool.now.words) level root from to page }
{
    if from <= page && page + SPAN_PAGES <= to {
        return false;
    }
    is_in_large_leaf(pool, level, root, page)
}

/// How many large leaves meet the pages and aren't covered by them.
pub(crate) fn leaves_splitting(pool: &Pool, level: u64, root: Frame, from: u64, to: u64) -> u64
    requires low { 1 ≤ level }
    requires high { level ≤ MOST_LEVELS }
    requires tree { IsTree pool.now level root }
    requires some { from < to }
    requires within { to ≤ PAGES_END }
    ensures { result ≡ leaves_splitting (memory pool.now.words) level root from to }
{
    let mut count = 0;
    for number in from / SPAN_PAGES..(to - 1) / SPAN_PAGES + 1 {
        let page = number * SPAN_PAGES;
        if splits_leaf(pool, level, root, from, to, page) {
            count += 1;
        }
    }
    count
}

/// How many spans of 512 pages the pages meet: no fewer than the large leaves that meet them and aren't covered.
pub(crate) fn spans_met(from: u64, to: u64) -> u64
    requires some { from < to }
    requires within { to ≤ PAGES_END }
    ensures { (m : Memory) (level root : ℕ) → leaves_splitting m level root from to ≤ result }
{
    (to - 1) / SPAN_PAGES + 1 - from / SPAN_PAGES
}

/// Gives back the frames of a table and of all tables below it.
#[cycle(taking_down)]
pub(crate) fn take_down(pool: &mut Pool, level: u64, table: Frame)
    requires low { 1 ≤ level }
    requires high { level ≤ MOST_LEVELS }
    requires tree { IsTree pool.old level table }
    ensures free { (f : ℕ) → occurs f pool.new.free ≡ occurs f pool.old.free + uses (memory pool.old.words) level table f }
    ensures others { (f k : ℕ) → k < TABLE_ENTRIES → uses (memory pool.old.words) level table f ≡ 0
        → word pool.new.words f k ≡ word pool.old.words f k }
    ensures order { EndsInOrder pool.old pool.new level table }
    ensures frames { pool.new.frames ≡ pool.old.frames }
    ensures pool { IsPool pool.new }
{
    for index in 0..TABLE_ENTRIES {
        take_down_entry(pool, level, table, index);
    }
    pool.give(table);
}

/// Clears an entry, and gives back what lies below it.
#[cycle(taking_down)]
fn take_down_entry(pool: &mut Pool, level: u64, table: Frame, index: u64)
    requires low { 1 ≤ level }
    requires high { level ≤ MOST_LEVELS }
    requires table { table < pool.old.frames }
    requires taken { occurs table pool.old.free + used_at pool.old level table table index ≡ 0 }
    requires index { index < TABLE_ENTRIES }
    requires below { (c : ℕ) → memory pool.old.words level table index ≡ SsEntry.Table c → IsTree pool.old (level - 1) c }
    ensures free { (f : ℕ) → occurs f pool.new.free ≡ occurs f pool.old.free + used_at pool.old level table f index }
    ensures cleared { word pool.new.words table index ≡ 0 }
    ensures row { (k : ℕ) → k < TABLE_ENTRIES → k ≢ index → word pool.new.words table k ≡ word pool.old.words table k }
    ensures others { (f k : ℕ) → k < TABLE_ENTRIES → f ≢ table → used_at pool.old level table f index ≡ 0
        → word pool.new.words f k ≡ word pool.old.words f k }
    ensures order { WritesBySteps pool.old pool.new (EndsUnder pool.old level table index) }
    ensures frames { pool.new.frames ≡ pool.old.frames }
    ensures pool { IsPool pool.new }
{
    let named = entry(pool, level, table, index);
    // The word goes first: a unit that walks the words where they lie must not meet a table that is free already.
    pool.write(table, index, 0);
    if let SsEntry::Table(below) = named {
        take_down(pool, level - 1, below);
    }
}
