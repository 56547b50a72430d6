//! The hits of two ports while two drivers map and unmap, compared with the history that is handed out.

ghost use Rattle.manager.specs.Kept.{IsNamedBy};

use checker::Checker;
use dmatypes::{Access, Call, Event, Mode, PAGE_BYTES, Reply, Whim, Width};
use manager::*;
use std::alloc::{AllocError, Global};
use std::marker::Brand;
use std::process::Abort;
use std::sync::Wait;
use std::test::Fail;
use std::thread::{Threads, join};

const TABLE_FRAMES: u64 = 64;

// How many rounds a device goes, and how many calls a driver makes.
const ROUNDS: u64 = 400;

const DRIVEN: u64 = 1000;

// The devices, whose ports are the last ones: the first is of a strict domain, the second of a lazy one.
const STRICT: u64 = 15;

const LAZY: u64 = 14;

// The frame that a driver maps first.
const FIRST_FRAME: u64 = 0x1000;

// The pages that a device reads, 1 to 4: the first stays mapped, the others are the driver's.
const PAGES: u64 = 4;

// What a port answered to a read.
#[derive(Clone, Copy)]
struct Hit {
    address: u64,
    host: Option<u64>,
    count: u64,
}

// What a device noted of its port's answers: each of them, where memory sufficed.
#[derive(Drop)]
struct Notes {
    device: u64,
    hits: Vec<Hit>,
    are_whole: bool,
}

impl Notes {
    fn note(&mut self, hit: Hit) {
        self.are_whole &= self.hits.push(hit).is_ok();
    }
}

// What a device's thread owns: its port, a share for its requests, and what the port answered.
#[derive(Drop)]
struct Device<B: Owner> {
    port: Port<B>,
    share: Share<B>,
    notes: Notes,
}

impl<B: Owner> Device<B> {
    // Attaches the device to a domain with one page, and has the port answer a read of it.
    fn begin<R: Wait>(
        &mut self,
        rt: &R,
        manager: &Manager<B>,
        rows: &Rows<B>,
        mode: Mode,
        domain: u64,
    ) {
        let made = Call::Domain {
            mode,
            width: Width::W39,
        };
        let _ = manager.call(rt, rows, &mut self.share, made);
        let attach = Call::Attach {
            device: self.notes.device,
            domain,
        };
        let _ = manager.call(rt, rows, &mut self.share, attach);
        let _ = manager.call(rt, rows, &mut self.share, map_of(domain, 0x800));
        self.request(rt, manager, rows, PAGE_BYTES);
        self.hit(rows, PAGE_BYTES);
    }

    // One read by the port.
    fn hit(&mut self, rows: &Rows<B>, address: u64) {
        let (host, count) = self.port.hit(rows, address, Access::Read);
        self.notes.note(Hit {
            address,
            host,
            count,
        });
    }

    // One read through the unit's caches, which is remembered.
    fn request<R: Wait>(&mut self, rt: &R, manager: &Manager<B>, rows: &Rows<B>, address: u64) {
        let request = read_of(self.notes.device, address);
        let _ = manager.call(rt, rows, &mut self.share, request);
    }

    // Reads the pages by turns, by the port before and after each request.
    fn read_all<R: Wait>(&mut self, rt: &R, manager: &Manager<B>, rows: &Rows<B>) {
        for round in 0..ROUNDS {
            let address = PAGE_BYTES * (1 + round % PAGES) + round;
            self.hit(rows, address);
            self.request(rt, manager, rows, address);
            self.hit(rows, address);
        }
        manager.check_in(rt, rows, &mut self.share, &mut self.port);
    }
}

// A read through the unit's caches, which is remembered.
fn read_of(device: u64, address: u64) -> Call {
    Call::Dma {
        device,
        address,
        access: Access::Read,
        whim: Whim {
            look: true,
            fill: true,
        },
    }
}

// One page for reading and writing.
fn map_of(domain: u64, frame: u64) -> Call {
    Call::Map {
        domain,
        frame,
        pages: 1,
        order: 0,
        rights: 3,
    }
}

// Maps and unmaps a page by turns, each time to another frame, and now and then flushes the domain.
fn drive<B: Owner, R: Wait>(
    rt: &R,
    manager: &Manager<B>,
    rows: &Rows<B>,
    mut mine: Share<B>,
    domain: u64,
) -> Share<B> {
    let mut mapped = None;
    for turn in 0..DRIVEN {
        let call = driver_call(domain, turn, mapped);
        mapped = match manager.call(rt, rows, &mut mine, call) {
            Ok((_, Reply::Mapped(address))) => Some(address),
            _ => None,
        };
    }
    mine
}

// What is mapped is unmapped; else a page is mapped, or the domain flushed.
fn driver_call(domain: u64, turn: u64, mapped: Option<u64>) -> Call {
    match mapped {
        Some(address) => Call::Unmap {
            domain,
            address,
            pages: 1,
        },
        None if turn % 7 == 4 => Call::Flush { domain },
        None => map_of(domain, FIRST_FRAME.saturating_add(turn)),
    }
}

// A device's thread.
fn read_beside<B: Owner, R: Wait>(
    rt: &R,
    manager: &Manager<B>,
    rows: &Rows<B>,
    mut device: Device<B>,
) -> Device<B> {
    device.read_all(rt, manager, rows);
    device
}

#[test]
fn hits_stand_in_the_history(rt: HostRuntime) -> Result<(), Fail> {
    let config = Config::new(TABLE_FRAMES, 8 * ROUNDS, 4).ok_or("within the limits")?;
    let seed = Seed::new(rt.alloc(), config)?;
    audited::<Brand, _>(&rt, rt.alloc(), seed)
}

fn audited<B: Owner + Send + Sync, R: Threads + Wait + Abort + Sync>(
    rt: &R,
    alloc: Global,
    seed: Seed,
) -> Result<(), Fail>
    requires { IsNamedBy seed B.name B.parts B.shares B.room B.frames B.mode B.rows B.most B.handing }
{
    let Made {
        manager,
        rows,
        mut ports,
        mut shares,
        ..
    } = Manager::<B>::new(alloc, seed)?;
    if shares.len() != 4 {
        return Err(Fail::from("four shares"));
    }
    let mut strict = device_of(alloc, STRICT, ports.remove(15), shares.remove(3));
    let mut lazy = device_of(alloc, LAZY, ports.remove(14), shares.remove(2));
    strict.begin(rt, &manager, &rows, Mode::Strict, 1);
    lazy.begin(rt, &manager, &rows, Mode::Lazy, 2);
    let drivers = (shares.remove(1), shares.remove(0));
    let (drivers, devices) = all_at_once(rt, &manager, &rows, drivers, (strict, lazy));
    let (strict, lazy) = devices;
    for share in [drivers.0, drivers.1, strict.share, lazy.share] {
        shares.push(share)?;
    }
    let Ok(history) = manager.finish(&rows, shares) else {
        return Err(Fail::from("all shares are enough"));
    };
    judge(rt, alloc, history.events(), &strict.notes)?;
    judge(rt, alloc, history.events(), &lazy.notes)
}

// Asserts that a device's port went on answering by host addresses, and that the events allow each of its answers.
fn judge(rt: &impl Abort, alloc: Global, events: &[Event], notes: &Notes) -> Result<(), Fail> {
    assert!(rt; notes.are_whole);
    // The first hit came before the threads.
    assert!(rt; notes.hits.iter().skip(1).any(|hit| hit.host.is_some()));
    assert!(rt; are_allowed(alloc, events, notes.device, notes.hits.as_slice())?);
    Ok(())
}

// The drivers' threads beside those of the devices.
fn all_at_once<B: Owner + Send + Sync, R: Threads + Wait + Sync>(
    rt: &R,
    manager: &Manager<B>,
    rows: &Rows<B>,
    drivers: (Share<B>, Share<B>),
    devices: (Device<B>, Device<B>),
) -> ((Share<B>, Share<B>), (Device<B>, Device<B>)) {
    join(
        rt,
        || drive_both(rt, manager, rows, drivers),
        || read_both(rt, manager, rows, devices),
    )
}

// Two drivers, in a thread each.
fn drive_both<B: Owner + Send + Sync, R: Threads + Wait + Sync>(
    rt: &R,
    manager: &Manager<B>,
    rows: &Rows<B>,
    (one, two): (Share<B>, Share<B>),
) -> (Share<B>, Share<B>) {
    join(
        rt,
        || drive(rt, manager, rows, one, 1),
        || drive(rt, manager, rows, two, 2),
    )
}

// Two devices, in a thread each.
fn read_both<B: Owner + Send + Sync, R: Threads + Wait + Sync>(
    rt: &R,
    manager: &Manager<B>,
    rows: &Rows<B>,
    (strict, lazy): (Device<B>, Device<B>),
) -> (Device<B>, Device<B>) {
    join(
        rt,
        || read_beside(rt, manager, rows, strict),
        || read_beside(rt, manager, rows, lazy),
    )
}

// A device with its port and a share.
fn device_of<B: Owner>(alloc: Global, number: u64, port: Port<B>, share: Share<B>) -> Device<B> {
    Device {
        port,
        share,
        notes: Notes {
            device: number,
            hits: Vec::new(alloc),
            are_whole: true,
        },
    }
}

// Whether each host address that a device's port answered is allowed after some front of the events. It is no shorter than
// the count that came with the answer, and no longer than that of the port's next answer; and these events are legal.
fn are_allowed(
    alloc: Global,
    events: &[Event],
    device: u64,
    hits: &[Hit],
) -> Result<bool, AllocError> {
    let mut front = Front {
        events,
        seen: 0,
        checker: Checker::new(alloc, TABLE_FRAMES),
    };
    for (place, hit) in hits.iter().enumerate() {
        let most = match hits.get(place + 1) {
            Some(next) => next.count,
            None => events.len() as u64,
        };
        if hit.count > events.len() as u64 || !front.go_to(hit.count)? {
            return Ok(false);
        }
        if let Some(host) = hit.host {
            if !front.comes_to(device, hit.address, host, most)? {
                return Ok(false);
            }
        }
    }
    Ok(true)
}

// A front of the events, and the world that it leads to.
#[derive(Drop)]
struct Front<'a> {
    events: &'a [Event],
    seen: u64,
    checker: Checker,
}

impl Front<'_> {
    // Goes on to a front of this length; whether that is legal.
    fn go_to(&mut self, length: u64) -> Result<bool, AllocError> {
        for _ in self.seen..length {
            if let Some(event) = self.events.get(self.seen as usize) {
                if !self.checker.judge(&event.call, event.reply)? {
                    return Ok(false);
                }
                self.seen = self.seen.saturating_add(1);
            }
        }
        Ok(true)
    }

    // Goes on to the next front at which the read is allowed, no longer than the most; whether there is one.
    fn comes_to(
        &mut self,
        device: u64,
        address: u64,
        host: u64,
        most: u64,
    ) -> Result<bool, AllocError> {
        let read = read_of(device, address);
        for length in self.seen..=most {
            if !self.go_to(length)? {
                return Ok(false);
            }
            // A request leaves the world as it is.
            if self.checker.judge(&read, Reply::Host(host))? {
                return Ok(true);
            }
        }
        Ok(false)
    }
}

// A read of page 1 that came to a host frame, or to nothing, and the count that came with it.
fn read_at(frame: Option<u64>, count: u64) -> Hit {
    Hit {
        address: PAGE_BYTES + 0x234,
        host: frame.map(|frame| PAGE_BYTES.saturating_mul(frame).saturating_add(0x234)),
        count,
    }
}

// A domain with page 1 mapped to frame 0x800 at the third event, and unmapped at the fourth; the fifth flushes it.
fn short_history(alloc: Global, mode: Mode) -> Result<Vec<Event>, AllocError> {
    let released = match mode {
        Mode::Strict => 0,
        Mode::Lazy => 1,
    };
    let mut events = Vec::new(alloc);
    let attach = Call::Attach {
        device: 3,
        domain: 1,
    };
    let unmap = Call::Unmap {
        domain: 1,
        address: PAGE_BYTES,
        pages: 1,
    };
    for (call, reply) in [
        (
            Call::Domain {
                mode,
                width: Width::W39,
            },
            Reply::Made(1),
        ),
        (attach, Reply::Done),
        (map_of(1, 0x800), Reply::Mapped(PAGE_BYTES)),
        (unmap, Reply::Unmapped(0)),
        (Call::Flush { domain: 1 }, Reply::Flushed(released)),
    ] {
        events.push(Event { call, reply })?;
    }
    Ok(events)
}

// Hits that the history doesn't allow, beside such that it does.
#[test]
fn hits_are_judged(rt: HostRuntime) -> Result<(), Fail> {
    let there = Some(0x800);
    let rows: [(Mode, u64, &[Hit], bool); 11] = [
        (Mode::Strict, 3, &[read_at(there, 3)], true),
        (Mode::Strict, 3, &[read_at(there, 0)], true),
        (Mode::Strict, 3, &[read_at(Some(0x801), 0)], false),
        (Mode::Strict, 2, &[read_at(there, 3)], false),
        (Mode::Strict, 3, &[read_at(there, 4)], false),
        (
            Mode::Strict,
            3,
            &[read_at(None, 5), read_at(there, 5)],
            false,
        ),
        (
            Mode::Strict,
            3,
            &[read_at(None, 4), read_at(there, 3)],
            false,
        ),
        (
            Mode::Strict,
            3,
            &[read_at(there, 0), read_at(None, 2)],
            false,
        ),
        (Mode::Strict, 3, &[read_at(None, 6)], false),
        (Mode::Lazy, 3, &[read_at(there, 4)], true),
        (Mode::Lazy, 3, &[read_at(there, 5)], false),
    ];
    for (mode, device, hits, allowed) in rows {
        let events = short_history(rt.alloc(), mode)?;
        assert_eq!(rt;
            are_allowed(rt.alloc(), events.as_slice(), device, hits)?,
            allowed
        );
    }
    Ok(())
}
