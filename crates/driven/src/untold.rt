//! What is kept of a map and of an unmap, and what is told by it once it is asked for.

ghost use Rattle.std.specs.Prelude.{◌≡◌, ◌≢◌, ◌⊎◌, ◌+◌, ◌-◌, ◌/◌, ◌<◌, ◌≤◌, [], false, length};
ghost use Rattle.dmatypes.specs.Page.{IsPageRange, range_at};
ghost use Rattle.dmatypes.specs.declared.page.TheConstants.{MOST_PAGES};
ghost use Rattle.engine.specs.Domains.{domain_at};
ghost use Rattle.driven.specs.Driven.{AreLowest, CanTell, IsEnded, IsMapped, Tells, TellsMap, TellsUnmap};
ghost use Rattle.driven.specs.Telling.{AreTablesOf, StayInPart};
ghost use Rattle.driven.specs.declared.untold.Lowest.TheVariants as lowest;
ghost use Rattle.driven.specs.declared.untold.Untold.TheVariants.{Nothing};

use crate::telling::{
    Effects, Tables, bring_mapped, bring_unmapped, fill_tables, leave_out_tables, send,
};
use dmatypes::{PAGE_BYTES, PageRange, SPAN_PAGES};
use engine::State;
use std::mem;

/// What the last call asks, where that isn't told yet: mostly nobody but a unit that isn't the state's own asks for it.
#[derive(Clone, Copy, Debug, PartialEq, Eq)]
pub(crate) enum Untold {
    /// All is told.
    Nothing,
    Map(Mapped),
    Unmap(Ended),
}

/// The pages that a map took, from a first one on; how many waits were sent before it; and whether it made a table.
#[derive(Clone, Copy, Debug, PartialEq, Eq)]
pub(crate) struct Mapped {
    pub(crate) domain: u64,
    pub(crate) first: u64,
    pub(crate) pages: u64,
    pub(crate) waits: u64,
    pub(crate) grew: bool,
}

/// The pages that an unmap ended, from one to another; how many waits were sent before it; how many records it released; and what is known
/// of the tables of level 1 that were there before it.
#[derive(Clone, Copy, Debug, PartialEq, Eq)]
pub(crate) struct Ended {
    pub(crate) domain: u64,
    pub(crate) first: u64,
    pub(crate) last: u64,
    pub(crate) waits: u64,
    pub(crate) released: u64,
    pub(crate) lowest: Lowest,
}

/// What is known of the tables of level 1 that were on the ways of an unmap's pages before it.
#[derive(Clone, Copy, Debug, PartialEq, Eq)]
pub(crate) enum Lowest {
    /// They were noted.
    Noted,
    /// The same are there now.
    Stay,
    /// All that were there stay, and some may have come.
    MayCome,
}

/// How many waits were sent, and how many table frames were free, before a map or an unmap.
#[derive(Clone, Copy, Debug, PartialEq, Eq)]
pub(crate) struct Before {
    waits: u64,
    free: u64,
}

impl Before {
    /// Before a call of this state.
    #[inline]
    pub(crate) fn of(state: &State) -> Before
        ensures waits { result.waits ≡ state.now.iommu.sent }
        ensures free { result.free ≡ length state.now.pool.free }
    {
        Before {
            waits: state.waits(),
            free: state.free_frames(),
        }
    }

    /// What is kept of a map of so many pages at a byte address, after which the state is this one.
    #[inline]
    pub(crate) fn mapped(self, state: &State, domain: u64, address: u64, pages: u64) -> Mapped
        ensures pages { (result.domain ≡ domain) × (result.first ≡ address / PAGE_BYTES) × (result.pages ≡ pages)
            × (result.waits ≡ self.waits) }
        ensures stays { result.grew ≡ false → length state.now.pool.free ≡ self.free }
    {
        Mapped {
            domain,
            first: address / PAGE_BYTES,
            pages,
            waits: self.waits,
            grew: state.free_frames() != self.free,
        }
    }

    /// What is kept of an unmap of so many pages at a byte address, which released so many records and after which the state is this one.
    #[inline]
    pub(crate) fn ended(
        self,
        state: &State,
        domain: u64,
        address: u64,
        pages: u64,
        released: u64,
    ) -> Ended
        requires { (1 ≤ pages) × (pages ≤ MOST_PAGES) }
        ensures pages { (result.domain ≡ domain) × (result.first ≡ address / PAGE_BYTES)
            × (address / PAGE_BYTES + pages ≡ result.last + 1) × (result.waits ≡ self.waits) × (result.released ≡ released) }
        ensures noted { result.lowest ≡ lowest.Noted → SPAN_PAGES ≤ pages }
        ensures stay { result.lowest ≡ lowest.Stay → (released ≡ 0) × (length state.now.pool.free ≡ self.free) }
        ensures narrow { result.lowest ≢ lowest.Noted → pages < SPAN_PAGES }
    {
        let lowest = if pages >= SPAN_PAGES {
            Lowest::Noted
        } else if released == 0 && state.free_frames() == self.free {
            Lowest::Stay
        } else {
            Lowest::MayCome
        };
        let first = address / PAGE_BYTES;
        Ended {
            domain,
            first,
            last: first + pages - 1,
            waits: self.waits,
            released,
            lowest,
        }
    }
}

/// Forgets what the last call asks.
#[inline]
pub(crate) fn forget(effects: &mut Effects, untold: &mut Untold)
    ensures told { effects.new.items ≡ [] }
    ensures all { untold.new ≡ Nothing }
{
    effects.clear();
    *untold = Untold::Nothing;
}

/// Notes the tables of level 1 on the ways of an unmap's pages, where it has as many as a span. Fewer take no table away.
pub(crate) fn note(tables: &mut Tables, state: &State, domain: u64, address: u64, pages: u64)
    ensures { SPAN_PAGES ≤ pages → (IsPageRange (range_at address pages) → ⊥)
        ⊎ AreTablesOf state.now.pool (domain_at state.now.domains domain) (address / PAGE_BYTES) (address / PAGE_BYTES + pages - 1)
        tables.new.items }
{
    if pages < SPAN_PAGES {
        return;
    }
    if let Some(range) = PageRange::new(address / PAGE_BYTES, pages) {
        let last = range.first() + range.pages() - 1;
        fill_tables(tables, state, domain, range.first(), last);
    }
}

/// Tells what isn't told yet.
pub(crate) fn tell(effects: &mut Effects, untold: &mut Untold, tables: &mut Tables, state: &State)
    requires { CanTell state.now tables.old.items untold.old }
    ensures told { Tells state.now effects.old.items tables.old.items untold.old effects.new.items }
    ensures all { untold.new ≡ Nothing }
{
    match mem::replace(untold, Untold::Nothing) {
        Untold::Nothing => {}
        Untold::Map(map) => tell_map(effects, state, map),
        Untold::Unmap(unmap) => tell_unmap(effects, tables, state, unmap),
    }
}

// Tells what a map changed and sent.
fn tell_map(effects: &mut Effects, state: &State, map: Mapped)
    requires { IsMapped state.now map }
    ensures { TellsMap state.now map effects.new.items }
{
    let Mapped {
        domain,
        first,
        pages,
        waits,
        grew,
    } = map;
    effects.clear();
    bring_mapped(effects, state, domain, first, pages, grew);
    send(effects, state, waits, true);
}

// Puts what is known of the tables of level 1 that were there before an unmap in the place of those that were noted.
fn look_up(tables: &mut Tables, state: &State, unmap: &Ended)
    requires { IsEnded state.now unmap.now tables.old.items }
    ensures lowest { AreLowest state.now unmap.now tables.old.items unmap.now.lowest tables.new.items }
    ensures count { length tables.new.items ≡ unmap.now.last / SPAN_PAGES + 1 - unmap.now.first / SPAN_PAGES }
    ensures stay { StayInPart state.now.pool (domain_at state.now.domains unmap.now.domain) unmap.now.first unmap.now.last
        tables.new.items }
{
    match unmap.lowest {
        Lowest::Noted => {}
        Lowest::Stay => fill_tables(tables, state, unmap.domain, unmap.first, unmap.last),
        Lowest::MayCome => leave_out_tables(tables, unmap.first, unmap.last),
    }
}

// Tells what an unmap changed and sent; where it released records, it flushed first.
fn tell_unmap(effects: &mut Effects, tables: &mut Tables, state: &State, unmap: Ended)
    requires { IsEnded state.now unmap tables.old.items }
    ensures { TellsUnmap state.now unmap tables.old.items effects.new.items }
{
    look_up(tables, state, &unmap);
    let Ended {
        domain,
        first,
        last,
        waits,
        released,
        ..
    } = unmap;
    effects.clear();
    if released > 0 {
        send(effects, state, waits, true);
        bring_unmapped(effects, state, domain, first, last, tables);
    } else {
        bring_unmapped(effects, state, domain, first, last, tables);
        send(effects, state, waits, true);
    }
}
