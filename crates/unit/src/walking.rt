//! Walks through the tables of a domain.

ghost use Rattle.std.specs.Prelude.{◌≡◌, ◌-◌, ◌^◌, ◌<◌, ◌≤◌, IsTrue, length};
ghost use Rattle.dmatypes.specs.World.{IsIn};
ghost use Rattle.vtdbits.specs.Entry.{MayStandAt};
ghost use Rattle.tables.specs.Tree.{span, index_in, leaf_from};
ghost use Rattle.tables.specs.Pool.{memory};
ghost use Rattle.unit.specs.Caches.{CachedNonLeaf};
ghost use Rattle.unit.specs.Walking.{met, IsPassed};
ghost use Rattle.unit.specs.Answers.{IsLowest};
ghost use Rattle.unit.specs.Lists.{Gains};

use crate::entries::{CachedLeaf, CachedNonLeaf};
use crate::lists::remember;
use arrayvec::ArrayVec;
use dmatypes::{Frame, MOST_CACHED_NON_LEAVES, MOST_LEVELS, PAGES_END};
use tables::{Pool, index_of, read_entry};
use vtdbits::{DomainId, SsEntry};

/// The places for tables.
pub(crate) const NON_LEAVES: usize = MOST_CACHED_NON_LEAVES;

/// What a walk is for: a page of a domain, whether what it passes is remembered, and whether it begins below each remembered
/// table of the domain that covers the page, as after a look. Then what it passes isn't remembered yet.
#[derive(Clone, Copy)]
pub(crate) struct WalkRequest {
    pub(crate) domain: DomainId,
    pub(crate) page: u64,
    pub(crate) fill: bool,
    pub(crate) is_lowest: bool,
}

/// The leaf on the way from a table of a level, if there is one.
pub(crate) fn walk(
    pool: &Pool,
    passed: &mut ArrayVec<CachedNonLeaf, NON_LEAVES>,
    asked: WalkRequest,
    level: u64,
    table: Frame,
) -> Option<CachedLeaf>
    requires page { asked.page < PAGES_END }
    requires low { 1 ≤ level }
    requires high { level ≤ MOST_LEVELS }
    requires lowest { IsTrue asked.is_lowest → IsLowest passed.old.items asked.domain asked.page level }
    ensures leaf { result ≡ met asked.domain asked.page (leaf_from (memory pool.now.words) level table asked.page) }
    ensures passed { Gains asked.fill (IsPassed (memory pool.now.words) level table asked.domain asked.page) passed.old.items
        passed.new.items }
    ensures few { length passed.old.items ≤ NON_LEAVES → length passed.new.items ≤ NON_LEAVES }
{
    match read_entry(pool, level, table, index_of(level, asked.page)) {
        SsEntry::Absent => None,
        SsEntry::Table(below) => {
            let table = CachedNonLeaf::new(asked.domain, asked.page, level - 1, below);
            remember(passed, table, asked.fill, asked.is_lowest);
            walk(pool, passed, asked, level - 1, below)
        }
        SsEntry::Leaf(leaf) => Some(CachedLeaf::small(asked.domain, asked.page, leaf)),
        SsEntry::LargeLeaf(leaf) => Some(CachedLeaf::large(asked.domain, asked.page, leaf)),
    }
}
