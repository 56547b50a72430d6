//! A history of 40,000 calls that is handed on again and again while two drivers call, judged event by event.

ghost use Rattle.std.specs.Prelude.{◌<◌};
ghost use Rattle.manager.specs.Kept.{IsNamedBy};

use checker::Checker;
use dmatypes::{Call, Event, Mode, Reply, Width};
use manager::*;
use std::alloc::{AllocError, Global};
use std::marker::Brand;
use std::process::Abort;
use std::sync::Wait;
use std::sync::atomic::{AtomicU64, Ordering};
use std::test::Fail;
use std::thread::{Threads, join, yield_now};

const TABLE_FRAMES: u64 = 64;

// The calls that each driver makes, the first of which makes its domain.
const CALLS: u64 = 20_000;

// The events that are kept at one time.
const ROOM: u64 = 1_000;

// Turns that a thread waits at most.
const TURNS: u64 = 100_000_000;

// The host frame of the page that a driver maps.
const FRAME: u64 = 0x1000;

// A driver's thread: maps a page and unmaps it, again and again, in a domain of its own. The share, when all calls are made.
fn drive<B: Owner, R: Wait>(
    rt: &R,
    manager: &Manager<B>,
    rows: &Rows<B>,
    at_work: &AtomicU64,
    mut mine: Share<B>,
) -> Share<B> {
    let mut reply = Reply::Done;
    let mut domain = 0;
    for _ in 0..TURNS {
        if mine.calls() >= CALLS {
            break;
        }
        match manager.call(rt, rows, &mut mine, next_call(domain, reply)) {
            Ok((_, made)) => reply = made,
            // Until the history is handed on.
            Err(HistoryFull { .. }) => yield_now(),
        }
        if let Reply::Made(number) = reply {
            domain = number;
        }
    }
    at_work.fetch_sub(1, Ordering::SeqCst);
    mine
}

// The call after one that was answered so.
fn next_call(domain: u64, reply: Reply) -> Call {
    match reply {
        Reply::Mapped(address) => Call::Unmap {
            domain,
            address,
            pages: 1,
        },
        _ if domain == 0 => Call::Domain {
            mode: Mode::Strict,
            width: Width::W39,
        },
        _ => Call::Map {
            domain,
            frame: FRAME,
            pages: 1,
            order: 0,
            rights: 3,
        },
    }
}

// What was handed on so far: how many events, and what judges them.
#[derive(Drop)]
struct Judged {
    checker: Checker,
    events: u64,
    are_legal: bool,
}

impl Judged {
    // Judges the next events, of which so many stood before.
    fn judge(&mut self, first: u64, events: &[Event]) -> Result<(), AllocError> {
        self.are_legal &= first == self.events;
        for event in events {
            self.are_legal &= self.checker.judge(&event.call, event.reply)?;
        }
        self.events = self.events.saturating_add(events.len() as u64);
        Ok(())
    }
}

// The third thread: hands the history on whenever its port has seen that the room is full, as long as drivers are at work, and has each
// event judged.
fn hand_on<B: Owner, R: Wait>(
    rt: &R,
    manager: &Manager<B>,
    rows: &Rows<B>,
    at_work: &AtomicU64,
    mut port: Port<B>,
    mut mine: Share<B>,
    mut epoch: Epoch<B>,
    mut judged: Judged,
) -> Result<(Share<B>, Epoch<B>, Judged), AllocError>
    requires { B.room < B.most }
{
    for _ in 0..TURNS {
        if at_work.load(Ordering::SeqCst) == 0 {
            break;
        }
        if port.count(rows) >= judged.events.saturating_add(ROOM) {
            manager.hand_on(rt, rows, &mut mine, &mut epoch);
            judged.judge(epoch.first(), epoch.events())?;
        }
        yield_now();
    }
    Ok((mine, epoch, judged))
}

#[test]
fn epochs_are_one_legal_history(rt: HostRuntime) -> Result<(), Fail> {
    let config = Config::new(TABLE_FRAMES, ROOM, 3).ok_or("within the limits")?;
    let seed = Seed::new(rt.alloc(), config.handing_on())?;
    handed_on::<Brand, _>(&rt, rt.alloc(), seed)
}

fn handed_on<B: Owner + Send + Sync, R: Threads + Wait + Abort + Sync>(
    rt: &R,
    alloc: Global,
    seed: Seed,
) -> Result<(), Fail>
    requires named { IsNamedBy seed B.name B.parts B.shares B.room B.frames B.mode B.rows B.most B.handing }
    requires hands_on { seed.room < seed.most }
{
    let Made {
        manager,
        rows,
        mut ports,
        mut shares,
        epoch,
    } = Manager::<B>::new(alloc, seed)?;
    let one = shares.pop().ok_or("a share")?;
    let two = shares.pop().ok_or("a share")?;
    let three = shares.pop().ok_or("a share")?;
    let port = ports.pop().ok_or("a port")?;
    let judged = Judged {
        checker: Checker::new(alloc, TABLE_FRAMES),
        events: 0,
        are_legal: true,
    };
    let at_work = AtomicU64::new(2);
    let (shared, rows_seen, working) = (&manager, &rows, &at_work);
    let (drivers, handed) = join(
        rt,
        || {
            join(
                rt,
                || drive(rt, shared, rows_seen, working, one),
                || drive(rt, shared, rows_seen, working, two),
            )
        },
        || hand_on(rt, shared, rows_seen, working, port, three, epoch, judged),
    );
    let (three, mut epoch, mut judged) = handed?;
    for share in [drivers.0, drivers.1, three] {
        shares.push(share)?;
    }
    let Ok(mut history) = manager.finish(&rows, shares) else {
        return Err(Fail::from("all shares came"));
    };
    // The last part begins where the epoch's events end.
    history.audit(&mut epoch);
    assert_eq!(rt; history.first(), epoch.upto());
    judged.judge(history.first(), history.events())?;
    assert!(rt; judged.are_legal);
    assert_eq!(rt; judged.events, 2 * CALLS);
    Ok(())
}
