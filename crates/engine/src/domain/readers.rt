//! What a report says of one domain, and what is read to draw it.

ghost use Rattle.std.specs.Prelude.{◌≡◌, ◌*◌, ◌<◌, ◌≤◌, ◌^◌, All, length, slice_get};
ghost use Rattle.dmatypes.specs.Page.{levels};
ghost use Rattle.dmatypes.specs.declared.limits.TheConstants.{MOST_RECORDS};
ghost use Rattle.iova.specs.Pieces.{IsOrdered};
ghost use Rattle.engine.specs.Spaces.{shown_of};
ghost use Rattle.engine.specs.Totals.{held_by, live_pages, totals_of_domain};
ghost use Rattle.tables.specs.Pool.{IsTree, memory};
ghost use Rattle.tables.specs.Tree.{table_from};

use super::Domain;
use crate::record::Record;
use crate::state::{DomainTotals, RetiredRecord};
use dmatypes::Frame;
use iova::{Iter, PageState};
use tables::Pool;

impl Domain {
    /// What the domain has.
    pub(crate) fn totals(&self) -> DomainTotals
        ensures { result ≡ totals_of_domain self.now }
    {
        DomainTotals {
            mode: self.mode,
            live: live_pages(self.space.pieces()),
            retired: self.records.len() as u64,
            pieces: self.space.piece_count() as u64,
        }
    }

    /// The pieces of its address space.
    pub(crate) fn pieces(&self) -> Iter<'_>
        ensures { result ≡ self.now.space.pieces }
    {
        self.space.pieces()
    }

    /// Its retired record at an index, if there is one.
    pub(crate) fn retired_record(&self, index: usize) -> Option<RetiredRecord>
        ensures { result ≡ shown_of (slice_get self.now.records index) }
    {
        let record = self.records.get(index)?;
        Some(RetiredRecord {
            range: record.range,
            mark: record.mark,
        })
    }

    /// The table of a level, 1 for the lowest, on a page's way down its tree; nothing where the way ends above that level.
    pub(crate) fn table_at(&self, pool: &Pool, page: u64, level: u64) -> Option<Frame>
        requires tree { IsTree pool.now (levels self.now.width) self.now.root }
        requires level { 1 ≤ level }
        ensures { result ≡ table_from (memory pool.now.words) (levels self.now.width) self.now.root page level }
    {
        self.tree.table_at(pool, page, level)
    }

    /// How many table frames the retired records hold: at most 8 each.
    pub(crate) fn held(&self) -> u64
        ensures held { result ≡ held_by self.now.records }
        ensures few { result ≤ 8 * MOST_RECORDS }
    {
        held_by(self.records.as_slice())
    }
}

// How many table frames the records hold.
fn held_by(records: &[Record]) -> u64
    requires { length records.now ≤ MOST_RECORDS }
    ensures held { result ≡ held_by records.now }
    ensures few { result ≤ 8 * MOST_RECORDS }
{
    let mut held = 0;
    for record in records {
        held += record.cut.frames().len() as u64;
    }
    held
}

// How many pages of the pieces are live.
fn live_pages(pieces: Iter<'_>) -> u64
    requires ordered { IsOrdered 1 pieces }
    requires narrow { All (λ p. p.last < 2 ^ 40) pieces }
    requires few { length pieces ≤ 1024 }
    ensures { result ≡ live_pages pieces.entry }
{
    let mut live = 0;
    for piece in pieces {
        if let PageState::Live = piece.state {
            live += piece.last + 1 - piece.first;
        }
    }
    live
}
