//! Which calls the workers of a storm make.

ghost use Rattle.std.specs.Prelude.{◌≡◌, ◌+◌, ◌*◌};
ghost use Rattle.manager.specs.Kept.{IsNamedBy};

use crate::OpenGate;
use crate::storming::{Outcome, Plan, outcome_of};
use crate::workers::driver_call;
use dmatypes::{Access, Call, Event, Mode, PAGE_BYTES, Reply, Whim, Width};
use manager::{Config, Owner, Seed};
use std::alloc::Global;
use std::marker::Brand;
use std::process::Abort;
use std::sync::Wait;
use std::test::Fail;
use std::thread::Threads;

// The host frame of the first driver, and the pages that a device reads.
pub(super) const FIRST_FRAME: u64 = 0x1000;

pub(super) const PAGES_READ: u64 = 16;

// The table frames of a storm's manager.
pub(super) const FRAMES: u64 = 64;

#[test]
fn calls_of_each_worker(rt: HostRuntime) -> Result<(), Fail> {
    for (drivers, devices, calls) in [(1, 1, 1), (3, 2, 35), (2, 8, 17), (8, 1, 64)] {
        let plan = Plan {
            drivers,
            devices,
            calls,
        };
        let config = Config::new(FRAMES, plan.events(), plan.workers() + 1).ok_or(
            "within the limits",
        )?;
        let seed = Seed::new(rt.alloc(), config)?;
        made_by_each::<Brand, _>(&rt, rt.alloc(), seed, plan)?;
    }
    Ok(())
}

// The events are those of the set-up, and of each worker as many as it makes calls; a port comes back for each device.
fn made_by_each<B: Owner + Send + Sync, R: Threads + Wait + Abort + Sync>(
    rt: &R,
    alloc: Global,
    seed: Seed,
    plan: Plan,
) -> Result<(), Fail>
    requires named { IsNamedBy seed B.name B.parts B.shares B.room B.frames B.mode B.rows B.most B.handing }
    requires room { seed.room ≡ 2 + plan.devices + plan.calls * (plan.drivers + plan.devices + 1) }
    requires most { seed.most ≡ seed.room }
    requires shares { seed.shares ≡ plan.drivers + plan.devices + 2 }
    requires frames { seed.frames ≡ FRAMES }
{
    let Ok(Outcome { history, ports }) = outcome_of::<B, _, R>(rt, alloc, seed, plan, &OpenGate)
    else {
        return Err(Fail::from("memory and threads"));
    };
    assert_eq!(rt; ports.len() as u64, plan.devices);
    let events = history.events();
    assert!(rt; are_set_up(events, plan.devices));
    assert!(rt; (0..plan.drivers).all(|driver| are_driven(events, driver, plan.calls)));
    assert!(rt; (0..plan.devices).all(|device| are_read(events, device, plan.calls)));
    assert_eq!(rt; times(events, &Call::Unit), plan.calls);
    Ok(())
}

// Where the call before mapped no page, there is none to unmap: a driver flushes its domain.
#[test]
fn flush_where_nothing_was_mapped(rt: HostRuntime) {
    assert_eq!(rt;
        driver_call(2, FIRST_FRAME, 4, None),
        Call::Flush { domain: 2 }
    );
    let unmap = Call::Unmap {
        domain: 2,
        address: PAGE_BYTES,
        pages: 1,
    };
    assert_eq!(rt; driver_call(2, FIRST_FRAME, 4, Some(PAGE_BYTES)), unmap);
}

// How often a call is among the events.
fn times(events: &[Event], call: &Call) -> u64 {
    events.iter().filter(|event| event.call == *call).count() as u64
}

// A strict domain, a lazy one, and the devices attached to them by turns.
fn are_set_up(events: &[Event], devices: u64) -> bool {
    let mut first = events.iter();
    let begun = first.next().is_some_and(|event| event.call
        == Call::Domain {
            mode: Mode::Strict,
            width: Width::W39,
        })
        && first.next().is_some_and(|event| event.call
            == Call::Domain {
                mode: Mode::Lazy,
                width: Width::W39,
            });
    begun
        && first.zip(0..devices).all(|(event, device)| {
            let domain = 1 + device % 2;
            event.call == Call::Attach { device, domain } && event.reply == Reply::Done
        })
}

// A driver maps its frame in its domain at each odd call, and unmaps that page at the even one after it.
fn are_driven(events: &[Event], driver: u64, calls: u64) -> bool {
    let domain = 1 + driver % 2;
    let map = Call::Map {
        domain,
        frame: FIRST_FRAME.saturating_add(driver),
        pages: 1,
        order: 0,
        rights: 3,
    };
    let mut mapped = None;
    let mut maps = 0u64;
    let mut unmaps = 0u64;
    for event in events {
        if event.call == map {
            maps = maps.saturating_add(1);
            if mapped.is_some() {
                return false;
            }
        }
        match (&event.call, event.reply) {
            (call, Reply::Mapped(address)) if *call == map => mapped = Some(address),
            (
                Call::Unmap {
                    domain: unmapped,
                    address,
                    pages: 1,
                },
                Reply::Unmapped(_),
            ) if *unmapped == domain && mapped == Some(*address) => {
                unmaps = unmaps.saturating_add(1);
                mapped = None;
            }
            _ => {}
        }
    }
    maps == calls.div_ceil(2) && unmaps == calls / 2
}

// A device reads page 1 + k mod 16 at call k, through the unit's caches.
fn are_read(events: &[Event], device: u64, calls: u64) -> bool {
    (1..=PAGES_READ).all(|page| {
        let read = Call::Dma {
            device,
            address: PAGE_BYTES.saturating_mul(page),
            access: Access::Read,
            whim: Whim {
                look: true,
                fill: true,
            },
        };
        let wanted = (1..=calls)
            .filter(|call| 1 + call % PAGES_READ == page)
            .count() as u64;
        times(events, &read) == wanted
    })
}
