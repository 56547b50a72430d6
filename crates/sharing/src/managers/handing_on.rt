//! A manager that hands its history on.

ghost use Rattle.std.specs.Prelude.{◌<◌};
ghost use Rattle.manager.specs.Kept.{IsNamedBy};

use dmatypes::{Call, Event, Refusal, Reply};
use manager::*;
use std::alloc::Global;
use std::marker::Brand;
use std::process::Abort;
use std::sync::Wait;
use std::test::Fail;

// The calls that are kept at one time.
const ROOM: u64 = 4;

// So many times as many calls are made, and two more.
const TIMES: u64 = 3;

// No domain has this number or one above it: a flush of one is refused, and is an event too.
const FIRST_DOMAIN: u64 = 100;

#[test]
fn a_history_is_handed_on(rt: HostRuntime) -> Result<(), Fail> {
    let config = Config::new(16, ROOM, 1).ok_or("within the limits")?;
    let seed = Seed::new(rt.alloc(), config.handing_on())?;
    handed_on::<Brand, _>(&rt, rt.alloc(), seed)
}

// A call that names the place that it will have, from 0.
fn call_at(place: u64) -> Call {
    Call::Flush {
        domain: place.saturating_add(FIRST_DOMAIN),
    }
}

// Whether the events are those of the calls from a place on.
fn are_from(events: &[Event], first: u64) -> bool {
    events.iter().enumerate().all(|(place, event)| {
        let Call::Flush { domain } = event.call else {
            return false;
        };
        domain
            == (place as u64)
                .saturating_add(first)
                .saturating_add(FIRST_DOMAIN)
    })
}

// So many calls from a place on: each is refused by the state, and answered its place, from 1.
fn make_calls<B: Owner, R: Wait + Abort>(
    rt: &R,
    manager: &Manager<B>,
    rows: &Rows<B>,
    mine: &mut Share<B>,
    first: u64,
    calls: u64,
) {
    let refused = Reply::Refused(Refusal::NoDomain);
    for made in 0..calls {
        let place = first.saturating_add(made);
        let answer = manager.call(rt, rows, mine, call_at(place));
        assert_eq!(rt; answer, Ok((place.saturating_add(1), refused)));
    }
}

// As many calls as are kept, and one more, for which there is no room. Then those that were made are handed on.
fn fill_and_hand_on<B: Owner, R: Wait + Abort>(
    rt: &R,
    manager: &Manager<B>,
    rows: &Rows<B>,
    mine: &mut Share<B>,
    epoch: &mut Epoch<B>,
    first: u64,
)
    requires { B.room < B.most }
{
    make_calls(rt, manager, rows, mine, first, ROOM);
    let answer = manager.call(rt, rows, mine, call_at(0));
    assert!(rt; answer.is_err());
    manager.hand_on(rt, rows, mine, epoch);
    assert_eq!(rt; epoch.first(), first);
    assert_eq!(rt; epoch.events().len() as u64, ROOM);
    assert!(rt; are_from(epoch.events(), first));
}

// The epoch serves again and again. The places go on counting, and the last two calls come with the history that is handed out, which
// begins where the epoch's events end.
fn handed_on<B: Owner, R: Wait + Abort>(rt: &R, alloc: Global, seed: Seed) -> Result<(), Fail>
    requires named { IsNamedBy seed B.name B.parts B.shares B.room B.frames B.mode B.rows B.most B.handing }
    requires most { seed.room < seed.most }
{
    let Made {
        manager,
        rows,
        mut shares,
        mut epoch,
        ..
    } = Manager::<B>::new(alloc, seed)?;
    let mut mine = shares.pop().ok_or("a share")?;
    for time in 0..TIMES {
        fill_and_hand_on(rt, &manager, &rows, &mut mine, &mut epoch, ROOM * time);
    }
    make_calls(rt, &manager, &rows, &mut mine, ROOM * TIMES, 2);
    let report = manager.snapshot(rt, alloc)?;
    assert!(rt; report.text().starts_with("events 14\n"));
    shares.push(mine)?;
    let Ok(mut history) = manager.finish(&rows, shares) else {
        return Err(Fail::from("all shares came"));
    };
    history.audit(&mut epoch);
    assert_eq!(rt; history.first(), epoch.upto());
    assert_eq!(rt; history.first(), ROOM * TIMES);
    assert_eq!(rt; history.events().len(), 2);
    assert!(rt; are_from(history.events(), history.first()));
    Ok(())
}
