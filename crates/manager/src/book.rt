//! What lies under a manager's lock: the state, and the history of its calls.

ghost use Rattle.std.specs.Prelude.{◌≡◌, ◌+◌, ◌<◌, ◌≤◌, ◌↔◌, ◌++◌, ◌∷◌, [], length, IsErr, IfOk, OnOk, OnErr, All, sum_by, vec_len};
ghost use Rattle.dmatypes.specs.History.{event};
ghost use Rattle.dmatypes.specs.declared.limits.TheConstants.{LEAST_TABLE_FRAMES, MOST_TABLE_FRAMES};
ghost use Rattle.engine.specs.State.{IsNew};
ghost use Rattle.engine.specs.Steps.{Does};
ghost use mathlib.Core.List.{IsPrefix};
ghost use Rattle.dmatypes.specs.History.{after};
ghost use Rattle.manager.specs.Kept.{AllSaw, Book, IsEndOf, IsKept, IsWithinLimits, Share, end_of, kept_events, new_epoch, new_share, upto};
ghost use Rattle.ports.specs.Seen.{new_desk};
ghost use Rattle.ports.specs.Steps.{counter};
ghost use Rattle.ports.specs.declared.known.OwnStep.TheVariants.{Loaded};
ghost use Rattle.manager.specs.Words.{IsLastAfter};
ghost use Rattle.manager.specs.Report.{report_text};

use crate::config::Config;
use crate::entering::enter;
use crate::epoch::Epoch;
use crate::kept::Kept;
use crate::manager::History;
use crate::owner::{Handing, Owner};
use crate::port::{Port, Rows};
use crate::report::Report;
use crate::share::{Share, merged, shares_of};
use dmatypes::{Call, Event, Reply};
use engine::{Answer, State};
use ports::{Desk, Pass};
use std::alloc::{AllocError, Global};
use std::marker::Model;
use std::mem;
use std::sync::ledger;
use std::sync::ledger::Blank;

/// There is no room left for an event. Nothing was changed, but for what the share has seen. A book alone can make one, and it can't
/// be copied: each is of one call that found no room.
#[derive(Debug, Drop, PartialEq, Eq)]
pub struct HistoryFull {
    by_a_book: (),
}

/// The state, the history of its calls, and the desk that stores port words and makes the history known. Its type keeps
/// that the history is legal, that the events which are kept are its end, and that the state fits the world after it. It
/// also keeps that the history follows states by the state's methods alone, and that every word in the rows is lawful
/// after it.
#[derive(Drop)]
pub struct Book<B: Owner> {
    // In a place of its own, since it is large and whoever has a book moves it.
    state: Box<State>,
    // The end of the history. All of it stands in the desk's, which only contracts see.
    kept: Kept,
    handed: u64,
    // How long the history is when there is no room left: a number that a call need not add up.
    end: u64,
    room: u64,
    most: u64,
    counted: ledger::Book<B>,
    handing: ledger::Book<Handing<B>>,
    desk: Desk,
}

impl<B: Owner> Model for Book<B> {
    ghost use Rattle.std.specs.Prelude.{◌≡◌, ◌+◌, ◌≤◌, drop, length, min};
    ghost use Rattle.dmatypes.specs.declared.limits.TheConstants.{CALLS_END};
    ghost use Rattle.manager.specs.Kept.{Book, IsKept};

    ghost Value = { Book };

    ghost view = { λ b. record { history = b.desk.history; state = b.state.value; last = b.desk.last; handed = b.handed } };

    ghost invariant = { λ b. IsKept B.frames B.room B.mode B.most
        (record { history = b.desk.history; state = b.state.value; last = b.desk.last; handed = b.handed })
        × (b.room ≡ B.room) × (B.room ≤ b.kept.room) × (B.most ≤ CALLS_END) × (b.counted.total ≡ length b.desk.history)
        × (1 ≤ B.shares) × (B.shares ≡ B.parts) × (b.desk.rows ≡ B.rows) × (B.rows.frames ≡ B.frames)
        × (b.kept.events ≡ drop b.handed b.desk.history) × (b.most ≡ B.most) × (b.end ≡ min (b.handed + B.room) B.most)
        × (b.handing.total ≡ b.handed) × (1 ≤ B.room) };
}

impl<B: Owner> Book<B> {
    /// An empty book, with its shares and its epoch.
    pub(crate) fn new(
        alloc: Global,
        config: Config,
        blank: Blank,
        handing: Blank,
        desk: Desk,
        passes: Vec<Pass>,
    ) -> Result<(Book<B>, Vec<Share<B>>, Epoch<B>), AllocError>
        requires config { IsWithinLimits config.frames config.calls config.shares × (config.shares ≡ B.shares) × (config.calls ≡ B.room)
            × (config.frames ≡ B.frames)
            × (config.caching ≡ B.mode)
            × (config.most ≡ B.most) }
        requires blank { (blank.name ≡ B.name) × (blank.parts ≡ B.parts) × (B.shares ≡ B.parts) }
        requires handing { (handing.name ≡ B.handing) × (handing.parts ≡ 1) }
        requires desk { (desk ≡ new_desk B.rows) × (B.rows.frames ≡ B.frames) }
        requires passes { (vec_len passes ≡ B.shares) × All (λ pass. (pass.rows ≡ B.rows) × (pass.seen ≡ [])) passes.items }
        ensures book { IfOk result (λ r. (r.0.history ≡ []) × (r.0.handed ≡ 0)) }
        ensures shares { IfOk result (λ r. vec_len r.1 ≡ B.shares) }
        ensures fresh { IfOk result (λ r. All (λ s. s ≡ new_share) r.1.items) }
        ensures epoch { IfOk result (λ r. r.2 ≡ new_epoch) }
    {
        let (counted, whole) = blank.open::<B>();
        let (handing, part) = handing.open::<Handing<B>>();
        let kept = Kept::new(alloc, config.calls() as usize)?;
        let epoch = Epoch::new(alloc, config, part)?;
        let shares = shares_of(alloc, whole, passes)?;
        let state = new_state(alloc, config.frames(), config.is_caching())?;
        Ok((
            Book {
                state,
                kept,
                handed: 0,
                end: config.calls(),
                room: config.calls(),
                most: config.most(),
                counted,
                handing,
                desk,
            },
            shares,
            epoch,
        ))
    }

    /// The events that are kept: all so far, but for those that were handed on.
    pub fn events(&self) -> &[Event]
        ensures events { result.now ≡ kept_events self.now }
        ensures all { self.now.handed ≡ 0 → result.now ≡ self.now.history }
    {
        self.kept.as_slice()
    }

    /// How many events were handed on.
    pub fn handed(&self) -> u64
        ensures { result ≡ self.now.handed }
    {
        self.handed
    }

    /// The state after the events.
    pub fn state(&self) -> &State
        ensures { result.now ≡ self.now.state }
    {
        &self.state
    }

    /// Replaces a report's text by what the book holds.
    pub fn write_report(&self, report: &mut Report)
        ensures { report.new ≡ report_text (length self.now.history) self.now.state }
    {
        report.tell(self.handed + self.kept.len() as u64, &self.state);
    }

    /// What a book keeps, as a fact for its caller.
    pub fn keeps(&self)
        ensures { IsKept B.frames B.room B.mode B.most self.now }
    {
        let _ = &self.room;
    }

    /// The share has counted no more calls than the history has, and all of them where it is the one share.
    pub fn audit(&mut self, mine: &mut Share<B>)
        ensures same { self.new ≡ self.old }
        ensures share { mine.new ≡ mine.old }
        ensures bound { mine.old.calls ≤ length self.old.history }
        ensures alone { B.shares ≡ 1 → length self.old.history ≡ mine.old.calls }
        ensures kept { IsKept B.frames B.room B.mode B.most self.old }
    {
        let Book { counted, .. } = self;
        let Share { part, .. } = mine;
        counted.audit(part);
    }

    /// Tells a port the whole history.
    pub fn meet(&mut self, rows: &Rows<B>, port: &mut Port<B>)
        ensures seen { IsPrefix port.old.seen self.old.history × (port.new.seen ≡ self.old.history) }
        ensures did { port.new.did ≡ port.old.did ++ Loaded counter (length self.old.history) ∷ [] }
        ensures same { (self.new ≡ self.old) × (port.new.device ≡ port.old.device) }
    {
        self.desk.meet(&rows.words, &mut port.port);
    }

    /// Tells a share the whole history.
    pub(crate) fn tell(&mut self, rows: &Rows<B>, mine: &mut Share<B>)
        ensures seen { IsPrefix mine.old.seen self.old.history × (mine.new.seen ≡ self.old.history) }
        ensures same { (self.new ≡ self.old) × (mine.new.calls ≡ mine.old.calls) }
    {
        self.desk.tell(&rows.words, &mut mine.pass);
    }

    /// Tells a port and a share one and the same history. No event is entered, and no word of a row changes.
    pub fn check_in(&mut self, rows: &Rows<B>, mine: &mut Share<B>, port: &mut Port<B>)
        ensures share { IsPrefix mine.old.seen self.old.history × (mine.new.seen ≡ self.old.history) × (mine.new.calls ≡ mine.old.calls) }
        ensures port { IsPrefix port.old.seen self.old.history × (port.new.seen ≡ self.old.history) × (port.new.device ≡ port.old.device) }
        ensures did { port.new.did ≡ port.old.did ++ Loaded counter (length self.old.history) ∷ [] }
        ensures same { self.new ≡ self.old }
        ensures kept { IsKept B.frames B.room B.mode B.most self.new }
    {
        // It changes nothing: its contract says that the history which both have seen is legal.
        self.keeps();
        self.tell(rows, mine);
        self.meet(rows, port);
    }

    /// Hands on the events that are kept, in place of those that the epoch had, which are the ones before them, and goes on in its
    /// room. The share has then seen the history, whose end they are. Nothing else changes.
    pub fn hand_on(&mut self, rows: &Rows<B>, mine: &mut Share<B>, epoch: &mut Epoch<B>)
        requires { B.room < B.most }
        ensures follows { upto epoch.old ≡ self.old.handed }
        ensures epoch { epoch.new ≡ record { first = self.old.handed; events = kept_events self.old } }
        ensures end { IsEndOf epoch.new mine.new.seen }
        ensures seen { IsPrefix mine.old.seen self.old.history × (mine.new.seen ≡ self.old.history) × (mine.new.calls ≡ mine.old.calls) }
        ensures handed { self.new.handed ≡ length self.old.history }
        ensures same { (self.new.history ≡ self.old.history) × (self.new.state ≡ self.old.state) × (self.new.last ≡ self.old.last) }
        ensures kept { IsKept B.frames B.room B.mode B.most self.new }
    {
        let Book {
            kept,
            handed,
            end,
            room,
            most,
            handing,
            desk,
            ..
        } = self;
        desk.tell(&rows.words, &mut mine.pass);
        handing.audit(&mut epoch.part);
        epoch.clear();
        mem::swap(kept, &mut epoch.kept);
        let more = epoch.kept.len() as u64;
        handing.add(&mut epoch.part, more);
        *handed += more;
        *end = (*handed + *room).min(*most);
    }

    /// Hands on what is kept, as `hand_on` does, where there is no room for one more event and the manager hands on at all. There is room
    /// afterwards, but where the history has the most in all.
    pub fn make_room(&mut self, rows: &Rows<B>, mine: &mut Share<B>, epoch: &mut Epoch<B>)
        ensures room { length self.old.history < B.most → length self.new.history < end_of B.room B.most self.new }
        ensures none { length self.old.history < end_of B.room B.most self.old → (self.new ≡ self.old) × (epoch.new ≡ epoch.old) }
        ensures handed { length self.old.history ≡ end_of B.room B.most self.old → B.room < B.most
            → (epoch.new ≡ record { first = self.old.handed; events = kept_events self.old }) × (mine.new.seen ≡ self.old.history) }
        ensures all_kept { B.most ≡ B.room → (self.new ≡ self.old) × (epoch.new ≡ epoch.old) × (mine.new ≡ mine.old) }
        ensures seen { IsPrefix mine.old.seen mine.new.seen × (mine.new.calls ≡ mine.old.calls) }
        ensures same { (self.new.history ≡ self.old.history) × (self.new.state ≡ self.old.state) × (self.new.last ≡ self.old.last) }
        ensures kept { IsKept B.frames B.room B.mode B.most self.new }
    {
        let before = self.handed + self.kept.len() as u64;
        if before == self.end && self.room < self.most {
            self.hand_on(rows, mine, epoch);
        }
    }

    /// The epoch has all that was handed on, and before it what it had and forgot.
    pub(crate) fn audit_epoch(&mut self, epoch: &mut Epoch<B>)
        ensures same { (self.new ≡ self.old) × (epoch.new ≡ epoch.old) }
        ensures upto { upto epoch.old ≡ self.old.handed }
    {
        let Book { handing, .. } = self;
        handing.audit(&mut epoch.part);
    }

    /// Hands the history out to whoever has all shares.
    pub fn close(self, rows: &Rows<B>, shares: Vec<Share<B>>) -> History<B>
        requires { B.shares ≤ vec_len shares }
        ensures same { result ≡ self }
        ensures all { vec_len shares ≡ B.shares }
        ensures counted { length result.history ≡ sum_by (λ s. s.calls) shares.items }
        ensures saw { AllSaw result.history shares.items }
        ensures kept { IsKept B.frames B.room B.mode B.most result }
    {
        let mut book = self;
        let Book { counted, desk, .. } = &mut book;
        let mut whole = merged(desk, &rows.words, shares);
        counted.audit(&mut whole);
        History { book }
    }

    /// Makes a call and enters it; the share has then seen the whole history. The number is the event's place in the history,
    /// from 1. A refused call is entered too; `HistoryFull` comes exactly where as many events are kept as there is room for, or the
    /// history has the most in all. Where there is room for all, that is the same. Whoever knows the call's kind pays for no look at it.
    #[inline(always)]
    pub fn call(
        &mut self,
        rows: &Rows<B>,
        mine: &mut Share<B>,
        call: Call,
    ) -> Result<(u64, Reply), HistoryFull>
        ensures full { IsErr result ↔ length self.old.history ≡ end_of B.room B.most self.old }
        ensures all_kept { B.most ≡ B.room → IsErr result ↔ length self.old.history ≡ B.room }
        ensures unchanged { OnErr result ((self.new ≡ self.old) × (mine.new.calls ≡ mine.old.calls)) }
        ensures seen { IsPrefix mine.old.seen self.new.history × (mine.new.seen ≡ self.new.history) }
        ensures history { IfOk result (λ r. self.new.history ≡ self.old.history ++ event call r.1 ∷ []) }
        ensures number { IfOk result (λ r. r.0 ≡ length self.new.history) }
        ensures handed { self.new.handed ≡ self.old.handed }
        ensures counted { OnOk result (mine.new.calls ≡ mine.old.calls + 1) }
        ensures does { IfOk result (λ r. Does self.old.state call r.1 self.new.state) }
        ensures last { IfOk result (λ r. IsLastAfter (after B.frames self.old.history) call r.1 self.old.last self.new.last) }
        ensures alone { B.shares ≡ 1 → length self.new.history ≡ mine.new.calls }
        ensures bound { mine.new.calls ≤ length self.new.history }
        ensures kept { IsKept B.frames B.room B.mode B.most self.new }
    {
        let Book {
            state,
            kept,
            handed,
            end,
            counted,
            desk,
            ..
        } = self;
        let Share { calls, part, pass } = mine;
        let state = state.as_mut();
        counted.audit(part);
        let before = *handed + kept.len() as u64;
        if before == *end {
            desk.tell(&rows.words, pass);
            return Err(HistoryFull { by_a_book: () });
        }
        // The event is made in its place, so that the call is moved once; its reply is put there below.
        let event = kept.enter(call);
        let Answer { reply, detail } = state.perform(&event.call);
        event.reply = reply;
        // It changes nothing: its contract says what every state keeps.
        state.keeps();
        enter(desk, &rows.words, state, event, &detail);
        desk.tell(&rows.words, pass);
        counted.add(part, 1);
        *calls += 1;
        Ok((before + 1, reply))
    }
}

// A new state in a place of its own. Never inlined: the room on the stack in which it is moved is given back when it returns.
#[inline(never)]
fn new_state(alloc: Global, frames: u64, caching: bool) -> Result<Box<State>, AllocError>
    requires some { LEAST_TABLE_FRAMES ≤ frames }
    requires few { frames ≤ MOST_TABLE_FRAMES }
    ensures { IfOk result (λ state. IsNew frames caching state.value) }
{
    let state = State::with_caching(alloc, frames, caching)?;
    Ok(Box::new(alloc, state)?)
}
