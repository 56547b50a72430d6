//! Entries of tables, and walks along them.

ghost use Rattle.std.specs.Prelude.{◌≡◌, ◌-◌, ◌/◌, ◌%◌, ◌^◌, ◌<◌, ◌≤◌};
ghost use Rattle.vtdbits.specs.Entry.{MayStandAt};
ghost use Rattle.tables.specs.Tree.{span, index_in, states, leaf_from, table_from, is_large_leaf};
ghost use Rattle.tables.specs.Pool.{memory, IsTree};

use crate::frames::Pool;
use dmatypes::{Frame, MOST_LEVELS, SPAN_PAGES};
use vtdbits::{SsEntry, Translation};

/// Entries of a table, one a word of its frame; those of a lowest table have a page each (second-stage paging).
pub const TABLE_ENTRIES: u64 = SPAN_PAGES;

/// How many pages a table of a level covers, and an entry of the level above (second-stage paging): one at level 0.
#[tactic(auto, unfolding(crate::specs::Tree::span))]
pub fn span_of(level: u64) -> u64
    requires { level < MOST_LEVELS }
    ensures exact { result ≡ span level }
    ensures some { 0 < result }
    ensures few { result ≤ span (MOST_LEVELS - 1) }
{
    match level {
        0 => 1,
        1 => TABLE_ENTRIES,
        2 => TABLE_ENTRIES * TABLE_ENTRIES,
        _ => TABLE_ENTRIES * TABLE_ENTRIES * TABLE_ENTRIES,
    }
}

/// The index of a page's entry in a table of a level (second-stage paging).
pub fn index_of(level: u64, page: u64) -> u64
    requires low { 1 ≤ level }
    requires high { level ≤ MOST_LEVELS }
    ensures exact { result ≡ index_in (level - 1) page }
    ensures inside { result < TABLE_ENTRIES }
{
    page / span_of(level - 1) % TABLE_ENTRIES
}

/// The entry of a table at an index: absent where the word spells none, and where the pool doesn't have the frame.
pub fn read_entry(pool: &Pool, level: u64, table: Frame, index: u64) -> SsEntry
    requires index { index < TABLE_ENTRIES }
    ensures is { memory pool.now.words level table index ≡ result }
    ensures stands { MayStandAt level result }
{
    SsEntry::decode(level, pool.read(table, index)).unwrap_or(SsEntry::Absent)
}

/// The entry of a table of the pool at an index: `read_entry` without its test, for the tables of a tree.
pub(crate) fn entry(pool: &Pool, level: u64, table: Frame, index: u64) -> SsEntry
    requires table { table < pool.now.frames }
    requires index { index < TABLE_ENTRIES }
    ensures is { memory pool.now.words level table index ≡ result }
    ensures stands { MayStandAt level result }
{
    SsEntry::decode(level, pool.word_of(table, index)).unwrap_or(SsEntry::Absent)
}

/// What a table of the level states of a page. A loop, so that it can be inlined where a walk begins.
#[inline(always)]
pub(crate) fn find(pool: &Pool, level: u64, table: Frame, page: u64) -> Option<Translation>
    requires low { 1 ≤ level }
    requires high { level ≤ MOST_LEVELS }
    requires tree { IsTree pool.now level table }
    ensures { result ≡ states (memory pool.now.words) level table page }
{
    let mut height = level;
    let mut at = table;
    while height > 0 {
        match entry(pool, height, at, index_of(height, page)) {
            SsEntry::Absent => return None,
            SsEntry::Table(below) => {
                at = below;
                height -= 1;
            }
            SsEntry::Leaf(leaf) => return Some(leaf),
            SsEntry::LargeLeaf(leaf) => {
                let frame = leaf.frame().number() + page % SPAN_PAGES;
                return Some(Translation::new(Frame::new(frame).unwrap(), leaf.rights()));
            }
        }
    }
    unreachable!()
}

/// The table of the wanted level on a page's way from a table of the level.
pub(crate) fn table_at(
    pool: &Pool,
    level: u64,
    table: Frame,
    page: u64,
    wanted: u64,
) -> Option<Frame>
    requires low { 1 ≤ level }
    requires high { level ≤ MOST_LEVELS }
    requires wanted { 1 ≤ wanted }
    requires tree { IsTree pool.now level table }
    ensures { result ≡ table_from (memory pool.now.words) level table page wanted }
{
    if level == wanted {
        return Some(table);
    }
    match entry(pool, level, table, index_of(level, page)) {
        SsEntry::Table(below) => table_at(pool, level - 1, below, page, wanted),
        SsEntry::Absent | SsEntry::Leaf(_) | SsEntry::LargeLeaf(_) => None,
    }
}

/// Whether the page's leaf stands for more than one page.
pub(crate) fn is_in_large_leaf(pool: &Pool, level: u64, table: Frame, page: u64) -> bool
    requires low { 1 ≤ level }
    requires high { level ≤ MOST_LEVELS }
    requires tree { IsTree pool.now level table }
    ensures { result ≡ is_large_leaf (leaf_from (memory pool.now.words) level table page) }
{
    match entry(pool, level, table, index_of(level, page)) {
        SsEntry::Table(below) => is_in_large_leaf(pool, level - 1, below, page),
        SsEntry::LargeLeaf(_) => true,
        SsEntry::Absent | SsEntry::Leaf(_) => false,
    }
}
