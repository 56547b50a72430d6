//! A book under its lock.

ghost use Rattle.std.specs.Prelude.{◌≡◌, ◌+◌, ◌<◌, ◌≤◌, ◌↔◌, ◌++◌, ◌∷◌, [], ℕ, Some, slice_get, length, IsErr, IfOk, IfErr, MatchResult};
ghost use Rattle.std.specs.Prelude.{OnOk, OnErr, All, sum_by, vec_len};
ghost use Rattle.std.specs.Sync.Mutex.{mutex_guard_value};
ghost use mathlib.Core.List.{IsPrefix};
ghost use Rattle.dmatypes.specs.History.{IsLegal};
ghost use Rattle.manager.specs.Kept.{AllSaw, Book, EndsWith, IsEndOf, IsKept, IsNamedBy, Share, kept_events, new_epoch, new_share, upto};
ghost use Rattle.ports.specs.Seen.{ArePorts, new_port};
ghost use Rattle.ports.specs.Steps.{counter};
ghost use Rattle.ports.specs.declared.known.OwnStep.TheVariants.{Loaded};

use crate::book::{Book, HistoryFull};
use crate::config::Seed;
use crate::epoch::Epoch;
use crate::owner::Owner;
use crate::port::{Port, Rows};
use crate::share::Share;
use dmatypes::{Call, Event, Reply};
use std::alloc::{AllocError, Global};
use std::hint::spin_loop;
use std::marker::{Model, PhantomData};
use std::sync::{Mutex, MutexGuard, Wait};
use std::thread::yield_now;

mod debug;

// How often the lock is asked for again before its thread sleeps.
const TRIES: u32 = 200;

// How many spins the first pause between two tries takes.
const SPINS: u32 = 4;

// How often a pause is twice as long as the one before.
const DOUBLINGS: u32 = 6;

/// A book under its lock.
#[derive(Drop)]
pub struct Manager<B: Owner> {
    book: Mutex<Book<B>>,
    shares: u64,
}

// Clauses see how many shares it has.
impl<B: Owner> Model for Manager<B> {
    ghost use Rattle.std.specs.Prelude.{◌≡◌, ℕ};

    ghost Value = { ℕ };

    ghost view = { λ m. m.shares };

    ghost invariant = { λ m. m.shares ≡ B.shares };
}

/// What a seed becomes: a manager, its port words, the ports of devices 0 to 15 in order, all its shares, and its epoch.
#[derive(Drop)]
pub struct Made<B: Owner> {
    pub manager: Manager<B>,
    pub rows: Rows<B>,
    pub ports: Vec<Port<B>>,
    pub shares: Vec<Share<B>>,
    pub epoch: Epoch<B>,
}

/// Fewer shares came than were made. The manager and the shares that came are handed back.
#[derive(Drop)]
pub struct SharesOut<B: Owner> {
    pub manager: Manager<B>,
    pub shares: Vec<Share<B>>,
}

/// What was called and answered, in order.
#[derive(Drop)]
pub struct History<B: Owner> {
    pub(crate) book: Book<B>,
}

impl<B: Owner> Model for History<B> {
    ghost use Rattle.manager.specs.Kept.{Book};

    ghost Value = { Book };

    ghost view = { λ h. h.book };
}

impl<B: Owner> History<B> {
    /// The events, the first of them first: all that were not handed on.
    pub fn events(&self) -> &[Event]
        ensures events { result.now ≡ kept_events self.now }
        ensures all { self.now.handed ≡ 0 → result.now ≡ self.now.history }
        ensures all_kept { B.most ≡ B.room → result.now ≡ self.now.history }
        ensures kept { IsKept B.frames B.room B.mode B.most self.now }
    {
        // It changes nothing: its contract says what every book keeps.
        self.book.keeps();
        self.book.events()
    }

    /// How many events were handed on before these.
    pub fn first(&self) -> u64
        ensures first { result ≡ self.now.handed }
        ensures end { IsEndOf (record { first = result; events = kept_events self.now }) self.now.history }
    {
        // It changes nothing: its contract says what every book keeps.
        self.book.keeps();
        self.book.handed()
    }

    /// Nothing is lost between the epoch's events and these: as many were handed on as the epoch has, with those that it forgot.
    pub fn audit(&mut self, epoch: &mut Epoch<B>)
        ensures upto { upto epoch.old ≡ self.old.handed }
        ensures same { (self.new ≡ self.old) × (epoch.new ≡ epoch.old) }
    {
        self.book.audit_epoch(epoch);
    }

    /// Tells a port the whole history.
    pub fn meet(&mut self, rows: &Rows<B>, port: &mut Port<B>)
        ensures seen { IsPrefix port.old.seen self.old.history × (port.new.seen ≡ self.old.history) }
        ensures did { port.new.did ≡ port.old.did ++ Loaded counter (length self.old.history) ∷ [] }
        ensures same { (self.new ≡ self.old) × (port.new.device ≡ port.old.device) }
    {
        self.book.meet(rows, port);
    }
}

impl<B: Owner> Manager<B> {
    /// Makes a manager with an empty history, its port words and ports, its shares and its epoch. No call was made by one, none of
    /// the ports and shares has seen anything, and nothing was handed on.
    pub fn new(alloc: Global, seed: Seed) -> Result<Made<B>, AllocError>
        requires { IsNamedBy seed B.name B.parts B.shares B.room B.frames B.mode B.rows B.most B.handing }
        ensures ports { IfOk result (λ m. (vec_len m.ports ≡ 16)
            × ((k : ℕ) → k < 16 → slice_get m.ports.items k ≡ Some (new_port B.rows k))) }
        ensures shares { IfOk result (λ m. vec_len m.shares ≡ B.shares) }
        ensures fresh { IfOk result (λ m. All (λ s. s ≡ new_share) m.shares.items) }
        ensures epoch { IfOk result (λ m. m.epoch ≡ new_epoch) }
    {
        let Seed {
            config,
            blank,
            handing,
            rows,
            desk,
            ports,
            passes,
        } = seed;
        // The book comes last: where one has to be given up again, there is room on the stack for its state.
        let ports = owned(alloc, ports)?;
        let (book, shares, epoch) = Book::<B>::new(alloc, config, blank, handing, desk, passes)?;
        Ok(Made {
            manager: Manager {
                book: Mutex::new(book),
                shares: config.shares(),
            },
            rows: Rows {
                words: rows,
                owner: PhantomData,
            },
            ports,
            shares,
            epoch,
        })
    }

    // The book, once the lock is free. A call takes less time than it takes to sleep and to be woken, and whoever sleeps is handed the
    // lock, for which all others wait then. So it is asked for again for a while before that. Never inlined: beside an atomic step a
    // caller's code would move the call in memory once more.
    #[inline(never)]
    fn book<R: Wait>(&self, rt: &R) -> MutexGuard<'_, Book<B>> {
        if let Some(book) = self.book.try_lock() {
            return book;
        }
        for tried in 0..TRIES {
            pause(tried);
            if let Some(book) = self.book.try_lock() {
                return book;
            }
        }
        self.book.lock(rt)
    }

    /// Waits for the lock. The book found there has kept all that a book keeps: its history is legal, and
    /// its state fits the world after it.
    pub fn lock<R: Wait>(&self, rt: &R) -> MutexGuard<'_, Book<B>>
        ensures { IsKept B.frames B.room B.mode B.most (mutex_guard_value result) }
    {
        let guard = self.book(rt);
        // What is under the lock has no value in contracts, but its type keeps this at every moment, and here says so.
        guard.keeps();
        guard
    }

    /// Makes a call under the lock; the share has then seen the whole history, which ends with the call and its reply and
    /// is as long as the number says. Where it is refused, the history is as long as the room, or longer by what was handed on.
    #[inline(always)]
    pub fn call<R: Wait>(
        &self,
        rt: &R,
        rows: &Rows<B>,
        mine: &mut Share<B>,
        call: Call,
    ) -> Result<(u64, Reply), HistoryFull>
        ensures ok { OnOk result (mine.new.calls ≡ mine.old.calls + 1) }
        ensures err { OnErr result (mine.new.calls ≡ mine.old.calls) }
        ensures seen { IsPrefix mine.old.seen mine.new.seen × IsLegal B.frames mine.new.seen }
        ensures entered { IfOk result (λ r. (r.0 ≡ length mine.new.seen) × EndsWith mine.new.seen call r.1) }
        ensures full { OnErr result (B.room ≤ length mine.new.seen) }
        ensures all_kept { B.most ≡ B.room → OnErr result (length mine.new.seen ≡ B.room)
            × IfOk result (λ r. (mine.new.calls ≤ r.0) × (r.0 ≤ B.room))
            × (B.shares ≡ 1 → MatchResult result (λ r. r.0 ≡ mine.new.calls) (λ _. mine.new.calls ≡ B.room)) }
        ensures number { IfOk result (λ r. (mine.new.calls ≤ r.0) × (r.0 ≤ B.most)) }
        ensures alone { B.shares ≡ 1 → MatchResult result (λ r. r.0 ≡ mine.new.calls) (λ _. B.most ≡ B.room → mine.new.calls ≡ B.room) }
    {
        self.book(rt).call(rows, mine, call)
    }

    /// Tells a port and a share one and the same history, under the lock.
    pub fn check_in<R: Wait>(&self, rt: &R, rows: &Rows<B>, mine: &mut Share<B>, port: &mut Port<B>)
        ensures share { IsPrefix mine.old.seen mine.new.seen × (mine.new.calls ≡ mine.old.calls) }
        ensures port { IsPrefix port.old.seen port.new.seen × (port.new.device ≡ port.old.device) }
        ensures did { port.new.did ≡ port.old.did ++ Loaded counter (length port.new.seen) ∷ [] }
        ensures same { mine.new.seen ≡ port.new.seen }
        ensures legal { IsLegal B.frames mine.new.seen }
    {
        self.book(rt).check_in(rows, mine, port);
    }

    /// Hands on the events that are kept, under the lock: the end of the history that the share has then seen, from where the epoch's
    /// own events end, which it forgets. Then as many calls have room again.
    pub fn hand_on<R: Wait>(
        &self,
        rt: &R,
        rows: &Rows<B>,
        mine: &mut Share<B>,
        epoch: &mut Epoch<B>,
    )
        requires { B.room < B.most }
        ensures first { epoch.new.first ≡ upto epoch.old }
        ensures end { IsEndOf epoch.new mine.new.seen }
        ensures seen { IsPrefix mine.old.seen mine.new.seen × (mine.new.calls ≡ mine.old.calls) }
        ensures legal { IsLegal B.frames mine.new.seen }
    {
        self.book(rt).hand_on(rows, mine, epoch);
    }

    /// Hands the history out to whoever has all shares; with fewer, the manager and the shares come back.
    pub fn finish(self, rows: &Rows<B>, shares: Vec<Share<B>>) -> Result<History<B>, SharesOut<B>>
        ensures out { IsErr result ↔ vec_len shares < B.shares }
        ensures back { IfErr result (λ o. o.shares ≡ shares) }
        ensures counted { IfOk result (λ h. length h.history ≡ sum_by (λ s. s.calls) shares.items) }
        ensures saw { IfOk result (λ h. AllSaw h.history shares.items) }
        ensures kept { IfOk result (λ h. IsKept B.frames B.room B.mode B.most h) }
    {
        if (shares.len() as u64) < self.shares {
            return Err(SharesOut {
                manager: self,
                shares,
            });
        }
        let Manager { book, .. } = self;
        Ok(book.into_inner().close(rows, shares))
    }
}

// The ports, as a manager's own.
fn owned<B: Owner>(alloc: Global, ports: Vec<ports::Port>) -> Result<Vec<Port<B>>, AllocError>
    requires { (vec_len ports ≡ 16) × ArePorts B.rows ports.items 16 }
    ensures { IfOk result (λ v. (vec_len v ≡ 16) × ((k : ℕ) → k < 16 → slice_get v.items k ≡ Some (new_port B.rows k))) }
{
    let mut owned = Vec::new(alloc);
    for port in ports {
        owned.push(Port {
            port,
            owner: PhantomData,
        })?;
    }
    Ok(owned)
}

// Waits a moment before the lock is asked for again, at first twice as long at each try, and then lets other threads have the processor
// too. Each look at the word takes its line from the thread that holds the lock.
fn pause(tried: u32) {
    let doublings = tried.min(DOUBLINGS);
    for _ in 0..SPINS << doublings {
        spin_loop();
    }
    if doublings == DOUBLINGS {
        yield_now();
    }
}
