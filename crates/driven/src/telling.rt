//! The effects of a call, as they are told once it was made.

ghost use Rattle.std.specs.Prelude.{◌≡◌, ◌≢◌, ◌+◌, ◌-◌, ◌*◌, ◌/◌, ◌%◌, ◌<◌, ◌≤◌, ◌++◌, ℕ, List, length, Some, IfSome, IsTrue};
ghost use Rattle.arrayvec.specs.ArrayVec.{array_vec_len};
ghost use Rattle.engine.specs.Domains.{domain_at};
ghost use Rattle.engine.specs.Walkable.{table_at};
ghost use Rattle.driven.specs.Effects.{IsSending};
ghost use Rattle.driven.specs.Telling.{AreLeftOut, AreTablesOf, BringsLevel, BringsLowest, BringsPart, BringsTable, BringsUpper};
ghost use Rattle.driven.specs.Telling.{BringsFrames, BringsWhole, BringsMapped, BringsUnmapped, BringsWalks, HasSent, IsSentBy, StayInPart, TablesStay};
ghost use Rattle.driven.specs.Telling.{most_tables};
ghost use Rattle.driven.specs.declared.effect.Effect.{Effect};
ghost use Rattle.vtdbits.specs.Descriptor.{descriptor_of};

use crate::effect::Effect;
use arrayvec::ArrayVec;
use dmatypes::{Frame, MOST_PAGES, PAGES_END, SPAN_PAGES};
use engine::State;
use tables::{TABLE_ENTRIES, span_of};
use vtdbits::Words;

/// A call asks this many things at most: of nine spans the table that went and the one that came, of three levels above them two tables
/// each, two barriers, and what is sent.
pub const MOST_EFFECTS: usize = 32;

/// A range lies in this many spans of 512 pages at most.
pub(crate) const MOST_SPANS: usize = 9;

/// What a call asks, in order.
pub(crate) type Effects = ArrayVec<Effect, MOST_EFFECTS>;

/// The table of level 1 of each span of 512 pages of a range, the first span first.
pub(crate) type Tables = ArrayVec<Option<Frame>, MOST_SPANS>;

/// Tells what was submitted since so many waits were sent: nothing, or a descriptor and its wait. Who doesn't wait for it reaps it.
pub(crate) fn send(effects: &mut Effects, state: &State, waits: u64, awaits: bool)
    requires room { array_vec_len effects.old + 3 ≤ MOST_EFFECTS }
    requires sent { HasSent state.now waits }
    ensures { (more : List Effect) × (effects.new.items ≡ effects.old.items ++ more) × IsSentBy state.now waits awaits more }
{
    if state.waits() == waits {
        return;
    }
    let descriptor = state.sent_words(1);
    let wait = state.sent_words(0);
    effects.push(sending(descriptor));
    effects.push(sending(wait));
    if awaits {
        effects.push(Effect::Await(state.waits()));
    }
}

// Sends these words, which spell a descriptor.
fn sending(words: Words) -> Effect
    ensures { IfSome (descriptor_of words) (λ descriptor. IsSending descriptor result) }
{
    let Words { low, high } = words;
    Effect::Send { low, high }
}

/// Tells the words of a level on the ways of the pages from one to another.
pub(crate) fn bring_level(
    effects: &mut Effects,
    state: &State,
    domain: u64,
    level: u64,
    first: u64,
    last: u64,
)
    requires level { (1 ≤ level) × (level ≤ 4) }
    requires pages { first ≤ last }
    requires room { array_vec_len effects.old + most_tables level first last ≤ MOST_EFFECTS }
    ensures { (more : List Effect) × (effects.new.items ≡ effects.old.items ++ more) × (length more ≤ most_tables level first last)
        × BringsLevel state.now.pool (domain_at state.now.domains domain) level first last more }
{
    let width = span_of(level - 1);
    let low = first / width;
    let high = last / width;
    for table in low / TABLE_ENTRIES..high / TABLE_ENTRIES + 1 {
        let from = low.max(table * TABLE_ENTRIES);
        let to = high.min(table * TABLE_ENTRIES + (TABLE_ENTRIES - 1));
        if let Some(frame) = state.table_at(domain, from * width, level) {
            effects.push(part(frame, from, to));
        }
    }
}

/// The tables of level 1 of a domain on the ways of the pages from one to another.
pub(crate) fn fill_tables(tables: &mut Tables, state: &State, domain: u64, first: u64, last: u64)
    requires { (first ≤ last) × (last / SPAN_PAGES < first / SPAN_PAGES + MOST_SPANS) }
    ensures { AreTablesOf state.now.pool (domain_at state.now.domains domain) first last tables.new.items }
{
    tables.clear();
    for span in first / SPAN_PAGES..last / SPAN_PAGES + 1 {
        tables.push(state.table_at(domain, span * SPAN_PAGES, 1));
    }
}

/// Takes no table for one that was there before.
pub(crate) fn leave_out_tables(tables: &mut Tables, first: u64, last: u64)
    requires { (first ≤ last) × (last / SPAN_PAGES < first / SPAN_PAGES + MOST_SPANS) }
    ensures { AreLeftOut first last tables.new.items }
{
    tables.clear();
    for _span in first / SPAN_PAGES..last / SPAN_PAGES + 1 {
        tables.push(None);
    }
}

/// Tells of each span of the pages from one to another. Where its table of level 1 stays, these are the words of the pages. Where
/// it went or came, all words of the one and of the other. Answers whether each span had a table that stays.
pub(crate) fn bring_lowest(
    effects: &mut Effects,
    state: &State,
    domain: u64,
    first: u64,
    last: u64,
    before: &Tables,
) -> bool
    requires pages { (first ≤ last) × (last / SPAN_PAGES < first / SPAN_PAGES + MOST_SPANS) }
    requires before { length before.now.items ≡ last / SPAN_PAGES + 1 - first / SPAN_PAGES }
    requires stay { StayInPart state.now.pool (domain_at state.now.domains domain) first last before.now.items }
    requires room { array_vec_len effects.old + 2 * MOST_SPANS ≤ MOST_EFFECTS }
    ensures brings { (more : List Effect) × (effects.new.items ≡ effects.old.items ++ more) × (length more ≤ 2 * MOST_SPANS)
        × BringsLowest state.now.pool (domain_at state.now.domains domain) first last before.now.items more }
    ensures stay { IsTrue result → TablesStay state.now.pool (domain_at state.now.domains domain) first last before.now.items }
{
    let begin = first / SPAN_PAGES;
    let mut stay = true;
    for span in begin..last / SPAN_PAGES + 1 {
        let was = before.as_slice()[(span - begin) as usize];
        let from = first.max(span * SPAN_PAGES);
        let to = last.min(span * SPAN_PAGES + (SPAN_PAGES - 1));
        let now = table_after(state, domain, &was, from, to);
        if !is_kept(&was, &now) {
            stay = false;
        }
        bring_table(effects, was, now, from, to);
    }
    stay
}

/// Tells the words of the levels above the lowest, between two barriers.
pub(crate) fn bring_upper(effects: &mut Effects, state: &State, domain: u64, first: u64, last: u64)
    requires pages { (first ≤ last) × (last < first + MOST_PAGES) }
    requires room { array_vec_len effects.old + 8 ≤ MOST_EFFECTS }
    ensures { (more : List Effect) × (effects.new.items ≡ effects.old.items ++ more) × (length more ≤ 8)
        × BringsUpper state.now.pool (domain_at state.now.domains domain) first last more }
{
    effects.push(Effect::Barrier);
    bring_level(effects, state, domain, 2, first, last);
    bring_level(effects, state, domain, 3, first, last);
    bring_level(effects, state, domain, 4, first, last);
    effects.push(Effect::Barrier);
}

/// Tells the words on the ways of so many pages, from a first one on: the lowest tables first, so that a table is filled before it is
/// named.
pub(crate) fn bring_walks(effects: &mut Effects, state: &State, domain: u64, first: u64, pages: u64)
    requires pages { (1 ≤ pages) × (pages ≤ MOST_PAGES) × (first + pages ≤ PAGES_END) }
    requires room { array_vec_len effects.old + 17 ≤ MOST_EFFECTS }
    ensures { (more : List Effect) × (effects.new.items ≡ effects.old.items ++ more) × (length more ≤ 17)
        × BringsWalks state.now.pool (domain_at state.now.domains domain) first (first + pages) more }
{
    let last = first + pages - 1;
    bring_level(effects, state, domain, 1, first, last);
    bring_upper(effects, state, domain, first, last);
}

/// Tells the words of so many pages, from a first one on, that a map changed, which made a table or didn't.
pub(crate) fn bring_mapped(
    effects: &mut Effects,
    state: &State,
    domain: u64,
    first: u64,
    pages: u64,
    grew: bool,
)
    requires pages { (1 ≤ pages) × (pages ≤ MOST_PAGES) × (first + pages ≤ PAGES_END) }
    requires room { array_vec_len effects.old + 17 ≤ MOST_EFFECTS }
    ensures { (more : List Effect) × (effects.new.items ≡ effects.old.items ++ more) × (length more ≤ 17)
        × BringsMapped state.now.pool (domain_at state.now.domains domain) first (first + pages) grew more }
{
    let last = first + pages - 1;
    if !grew && first / SPAN_PAGES == last / SPAN_PAGES {
        if let Some(frame) = state.table_at(domain, first, 1) {
            effects.push(part(frame, first, last));
            effects.push(Effect::Barrier);
            return;
        }
    }
    bring_walks(effects, state, domain, first, pages);
}

/// Tells what an unmap of the pages from one to another changed, of the tables of level 1 that were there before it first. Where all of
/// these stay, no word above them was changed.
pub(crate) fn bring_unmapped(
    effects: &mut Effects,
    state: &State,
    domain: u64,
    first: u64,
    last: u64,
    before: &Tables,
)
    requires pages { (first ≤ last) × (last < first + MOST_PAGES) }
    requires before { length before.now.items ≡ last / SPAN_PAGES + 1 - first / SPAN_PAGES }
    requires stay { StayInPart state.now.pool (domain_at state.now.domains domain) first last before.now.items }
    requires room { array_vec_len effects.old + 26 ≤ MOST_EFFECTS }
    ensures { (more : List Effect) × (effects.new.items ≡ effects.old.items ++ more) × (length more ≤ 26)
        × BringsUnmapped state.now.pool (domain_at state.now.domains domain) first last before.now.items more }
{
    if bring_lowest(effects, state, domain, first, last, before) {
        effects.push(Effect::Barrier);
    } else {
        bring_upper(effects, state, domain, first, last);
    }
}

/// Tells all words of all table frames, and a barrier.
pub(crate) fn bring_frames(effects: &mut Effects, state: &State)
    requires room { array_vec_len effects.old + 2 ≤ MOST_EFFECTS }
    ensures { (more : List Effect) × (effects.new.items ≡ effects.old.items ++ more) × (length more ≤ 2)
        × BringsFrames state.now.pool.frames more }
{
    effects.push(Effect::Words {
        frame: Frame::new(0).unwrap(),
        first: 0,
        count: TABLE_ENTRIES * state.table_frames(),
    });
    effects.push(Effect::Barrier);
}

// The words from the entry of a number to that of another in one table, which has every 512th number first.
#[inline]
fn part(frame: Frame, from: u64, to: u64) -> Effect
    requires { (from ≤ to) × (from / TABLE_ENTRIES ≡ to / TABLE_ENTRIES) }
    ensures { BringsPart frame from to result }
{
    Effect::Words {
        frame,
        first: from % TABLE_ENTRIES,
        count: to - from + 1,
    }
}

// The table of level 1 of the pages from one to another of a span, where it was this before they were unmapped. One that has pages besides
// stays, and isn't asked for.
fn table_after(state: &State, domain: u64, was: &Option<Frame>, from: u64, to: u64) -> Option<Frame>
    requires pages { from ≤ to }
    requires stays { to - from < SPAN_PAGES - 1 → (f : ℕ) → was.now ≡ Some f
        → table_at state.now.pool (domain_at state.now.domains domain) from 1 ≡ Some f }
    ensures { result ≡ table_at state.now.pool (domain_at state.now.domains domain) from 1 }
{
    if let Some(frame) = was {
        if to - from < SPAN_PAGES - 1 {
            return Some(*frame);
        }
    }
    state.table_at(domain, from, 1)
}

// Whether a span had a table that it has still.
fn is_kept(was: &Option<Frame>, now: &Option<Frame>) -> bool
    ensures { IsTrue result → (f : ℕ) × ((was.now ≡ Some f) × (now.now ≡ Some f)) }
{
    was.is_some() && was == now
}

// Tells of one span: the words from a page to another where its table stays, else all of the table that went and of the one that came.
fn bring_table(effects: &mut Effects, was: Option<Frame>, now: Option<Frame>, from: u64, to: u64)
    requires pages { (from ≤ to) × (from / TABLE_ENTRIES ≡ to / TABLE_ENTRIES) }
    requires room { array_vec_len effects.old + 2 ≤ MOST_EFFECTS }
    ensures { (more : List Effect) × (effects.new.items ≡ effects.old.items ++ more) × (length more ≤ 2)
        × BringsTable was now from to more }
{
    if was != now {
        bring_whole(effects, was);
        bring_whole(effects, now);
    } else if let Some(frame) = now {
        effects.push(part(frame, from, to));
    }
}

// Tells all words of a table, if there is one.
fn bring_whole(effects: &mut Effects, table: Option<Frame>)
    requires room { array_vec_len effects.old + 1 ≤ MOST_EFFECTS }
    ensures { (more : List Effect) × (effects.new.items ≡ effects.old.items ++ more) × (length more ≤ 1) × BringsWhole table more }
{
    if let Some(frame) = table {
        effects.push(part(frame, 0, TABLE_ENTRIES - 1));
    }
}
