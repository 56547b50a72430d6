//! A map and its unmap by a manager, with its history.

ghost use Rattle.manager.specs.Kept.{IsNamedBy};

use crate::driver::{BOTH_RIGHTS, TABLE_FRAMES, UNALIGNED_FRAME};
use crate::timing::{Tenths, Work, time};
use crate::trouble::{Trouble, check};
use dmatypes::{Call, Mode, PAGE_BYTES, Reply, Width};
use manager::{Book, Config, HistoryFull, Made, Manager, Owner, Rows, Seed, Share};
use std::alloc::Global;
use std::marker::Brand;
use std::num::NonZeroU32;
use std::sync::Wait;
use std::time::Clock;

/// When a manager's lock is taken.
#[derive(Clone, Copy)]
pub(crate) enum Locks {
    /// Once, for all rounds.
    Once,
    /// Each call takes it.
    EachCall,
}

/// What each round takes, a map of one page into a strict domain and its unmap. Where a device is attached
/// to the domain, the unmap clears its row.
pub(crate) fn time_manager<C: Clock + Wait>(
    clock: &C,
    alloc: Global,
    rounds: NonZeroU32,
    locks: Locks,
    attached: bool,
) -> Result<Tenths, Trouble> {
    let calls = 2 + 2 * u64::from(rounds.get());
    let config = Config::new(TABLE_FRAMES, calls, 1).ok_or(Trouble::TooManyCalls)?;
    let seed = Seed::new(alloc, config)?;
    time_owned::<Brand, C>(clock, alloc, rounds, locks, attached, seed)
}

// The same, over an owner that names the manager.
fn time_owned<B: Owner, C: Clock + Wait>(
    clock: &C,
    alloc: Global,
    rounds: NonZeroU32,
    locks: Locks,
    attached: bool,
    seed: Seed,
) -> Result<Tenths, Trouble>
    requires { IsNamedBy seed B.name B.parts B.shares B.room B.frames B.mode B.rows B.most B.handing }
{
    let Made {
        manager,
        rows,
        mut shares,
        ..
    } = Manager::<B>::new(alloc, seed)?;
    let mut mine = shares.pop().ok_or(Trouble::Wrong)?;
    make_domain(clock, &manager, &rows, &mut mine, attached)?;
    match locks {
        Locks::EachCall => {
            let mut pairs = Locking {
                clock,
                manager: &manager,
                rows: &rows,
                mine: &mut mine,
            };
            time(clock, rounds, &mut pairs)
        }
        Locks::Once => {
            let mut guard = manager.lock(clock);
            let mut pairs = Guarded {
                book: &mut *guard,
                rows: &rows,
                mine: &mut mine,
            };
            time(clock, rounds, &mut pairs)
        }
    }
}

// A strict domain, with a device attached to it or with none.
fn make_domain<B: Owner, C: Wait>(
    clock: &C,
    manager: &Manager<B>,
    rows: &Rows<B>,
    mine: &mut Share<B>,
    attached: bool,
) -> Result<(), Trouble> {
    let made = manager.call(
        clock,
        rows,
        mine,
        Call::Domain {
            mode: Mode::Strict,
            width: Width::W39,
        },
    );
    check_reply(made, Reply::Made(1))?;
    if attached {
        let attached = manager.call(clock, rows, mine, ATTACH);
        check_reply(attached, Reply::Done)?;
    }
    Ok(())
}

const ATTACH: Call = Call::Attach {
    device: 3,
    domain: 1,
};

// Where the one page is mapped.
const ADDRESS: u64 = PAGE_BYTES;

const MAP: Call = Call::Map {
    domain: 1,
    frame: UNALIGNED_FRAME,
    pages: 1,
    order: 0,
    rights: BOTH_RIGHTS,
};

const UNMAP: Call = Call::Unmap {
    domain: 1,
    address: ADDRESS,
    pages: 1,
};

/// Whether a call was answered as it must be.
#[inline(always)]
pub(crate) fn check_reply(
    answer: Result<(u64, Reply), HistoryFull>,
    wanted: Reply,
) -> Result<(), Trouble> {
    match answer {
        Ok((_, reply)) => check(reply == wanted),
        Err(HistoryFull { .. }) => Err(Trouble::TooManyCalls),
    }
}

// Each call takes the lock.
#[derive(Drop)]
struct Locking<'a, B: Owner, C: Wait> {
    clock: &'a C,
    manager: &'a Manager<B>,
    rows: &'a Rows<B>,
    mine: &'a mut Share<B>,
}

impl<'a, B: Owner, C: Wait> Work for Locking<'a, B, C> {
    fn once(&mut self) -> Result<(), Trouble> {
        let answer = self.manager.call(self.clock, self.rows, self.mine, MAP);
        check_reply(answer, Reply::Mapped(ADDRESS))?;
        let answer = self.manager.call(self.clock, self.rows, self.mine, UNMAP);
        check_reply(answer, Reply::Unmapped(0))
    }
}

// All calls are made while the lock is held.
#[derive(Drop)]
struct Guarded<'a, B: Owner> {
    book: &'a mut Book<B>,
    rows: &'a Rows<B>,
    mine: &'a mut Share<B>,
}

impl<'a, B: Owner> Work for Guarded<'a, B> {
    fn once(&mut self) -> Result<(), Trouble> {
        let answer = self.book.map(self.rows, self.mine, 1, UNALIGNED_FRAME, 1, 0, BOTH_RIGHTS);
        check_reply(answer, Reply::Mapped(ADDRESS))?;
        let answer = self.book.unmap(self.rows, self.mine, 1, ADDRESS, 1);
        check_reply(answer, Reply::Unmapped(0))
    }
}
