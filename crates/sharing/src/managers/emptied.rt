//! Which rows of port words a call empties: two devices of one domain and a device of another, whose rows are full before it.

ghost use Rattle.manager.specs.Kept.{IsNamedBy};

use super::{made, request_of, seed_of};
use checker::parse_event;
use dmatypes::{Access, Call, MOST_RECORDS, PAGE_BYTES, Refusal, Reply, parse_line};
use manager::*;
use std::alloc::Global;
use std::marker::Brand;
use std::process::Abort;
use std::sync::Wait;
use std::test::Fail;

// The devices, each with its domain.
const DEVICES: [(u64, u64); 3] = [(3, 1), (4, 1), (5, 2)];

// The pages of each domain, from page 1 on: as many as a row has words.
const PAGES: u64 = 16;

// The calls that make two domains, with their pages and devices; and how many they are with a request of each device at each page, by
// which the rows get full.
const STRICT: &str =
    "domain strict\ndomain strict\nattach 3 1\nattach 4 1\nattach 5 2\nmap 1 256 16 0 r\nmap 2 512 16 0 r";

const LAZY: &str =
    "domain lazy\ndomain lazy\nattach 3 1\nattach 4 1\nattach 5 2\nmap 1 256 16 0 r\nmap 2 512 16 0 r";

const FILLING: u64 = 7 + 3 * PAGES;

// A further page of domain 1.
const ONE_PAGE: &str = "map 1 4096 1 0 r";

// Which of the devices' rows are empty, in their order.
type Emptied = [bool; 3];

const NO_ROW: Emptied = [false, false, false];

const ROWS_OF_ONE: Emptied = [true, true, false];

const ROW_OF_TWO: Emptied = [false, false, true];

// What comes before the calls of a trace, and which rows are empty after them.
#[derive(Clone, Copy)]
struct Situation<'a> {
    // The calls that make the domains.
    script: &'a str,
    // The retired records of domain 1.
    records: u64,
    trace: &'a str,
    emptied: Emptied,
}

// A manager with its port words, the ports of all devices, and the share by which it is called.
#[derive(Drop)]
struct Machine<B: Owner> {
    manager: Manager<B>,
    rows: Rows<B>,
    ports: Vec<Port<B>>,
    share: Share<B>,
}

impl<B: Owner> Machine<B> {
    fn reply_to<R: Wait>(&mut self, rt: &R, call: Call) -> Reply {
        match self.manager.call(rt, &self.rows, &mut self.share, call) {
            Ok((_, reply)) => reply,
            Err(HistoryFull { .. }) => Reply::Refused(Refusal::HistoryFull),
        }
    }

    // The reply to the call of a script's line.
    fn reply_to_line<R: Wait>(&mut self, rt: &R, line: &str) -> Result<Reply, Fail> {
        let call = parse_line(line.as_bytes()).ok_or("a call")?;
        Ok(self.reply_to(rt, call))
    }

    // Makes the calls of a script, whatever they are answered.
    fn make_calls<R: Wait>(&mut self, rt: &R, script: &str) -> Result<(), Fail> {
        for line in script.lines() {
            let _ = self.reply_to_line(rt, line)?;
        }
        Ok(())
    }

    // Makes the calls of a trace, and asserts that they are answered so.
    fn assert_trace<R: Wait + Abort>(&mut self, rt: &R, trace: &str) -> Result<(), Fail> {
        for line in trace.lines() {
            let event = parse_event(line.as_bytes()).ok_or("an event")?;
            assert_eq!(rt; self.reply_to(rt, event.call), event.reply, "{line}");
        }
        Ok(())
    }

    // Maps further pages of domain 1, and unmaps each.
    fn retire_pages<R: Wait>(&mut self, rt: &R, records: u64) -> Result<(), Fail> {
        for _ in 0..records {
            if let Reply::Mapped(address) = self.reply_to_line(rt, ONE_PAGE)? {
                let unmap = Call::Unmap {
                    domain: 1,
                    address,
                    pages: 1,
                };
                let _ = self.reply_to(rt, unmap);
            }
        }
        Ok(())
    }

    // Fills the words of all devices' rows.
    fn fill_rows<R: Wait>(&mut self, rt: &R) {
        for (device, _) in DEVICES {
            for page in 1..=PAGES {
                let request = request_of(device, PAGE_BYTES * page, Access::Read, true);
                let _ = self.reply_to(rt, request);
            }
        }
    }

    // Asserts that the rows are empty that are to be, and that all others are full.
    fn assert_rows(&mut self, rt: &impl Abort, after: &str, emptied: Emptied) {
        for ((device, domain), is_empty) in DEVICES.into_iter().zip(emptied) {
            assert!(rt;
                self.is_row(device, domain, is_empty),
                "after {after}: device {device}"
            );
        }
    }

    // Whether the port of a device answers at no page; or at each page, and by the frame that its domain has there.
    fn is_row(&mut self, device: u64, domain: u64, is_empty: bool) -> bool {
        let Some(port) = self.ports.get_mut(device as usize) else {
            return false;
        };
        for place in 0..PAGES {
            let (host, _) = port.hit(&self.rows, PAGE_BYTES * (1 + place), Access::Read);
            let there = PAGE_BYTES.saturating_mul(
                domain.saturating_mul(0x100).saturating_add(place),
            );
            if host != (if is_empty { None } else { Some(there) }) {
                return false;
            }
        }
        true
    }

    // A check-in of one of the devices.
    fn check_in<R: Wait>(&mut self, rt: &R) {
        if let Some(port) = self.ports.get_mut(3) {
            self.manager.check_in(rt, &self.rows, &mut self.share, port);
        }
    }
}

// A manager with room for so many calls, on which a script's calls were made and pages retired, so many, and whose rows are full then.
// A check-in of one of the devices empties none.
fn filled<B: Owner, R: Wait + Abort>(
    rt: &R,
    alloc: Global,
    seed: Seed,
    script: &str,
    records: u64,
) -> Result<Machine<B>, Fail>
    requires { IsNamedBy seed B.name B.parts B.shares B.room B.frames B.mode B.rows B.most B.handing }
{
    let (manager, rows, ports, share) = made::<B>(alloc, seed)?;
    let mut machine = Machine {
        manager,
        rows,
        ports,
        share,
    };
    machine.make_calls(rt, script)?;
    machine.retire_pages(rt, records)?;
    machine.fill_rows(rt);
    machine.assert_rows(rt, "requests", NO_ROW);
    machine.check_in(rt);
    machine.assert_rows(rt, "a check-in", NO_ROW);
    Ok(machine)
}

fn judge<R: Wait + Abort>(rt: &R, alloc: Global, situation: &Situation<'_>) -> Result<(), Fail> {
    let seed = seed_of(alloc, 64, 1000, 1)?;
    judged::<Brand, _>(rt, alloc, seed, situation)
}

fn judged<B: Owner, R: Wait + Abort>(
    rt: &R,
    alloc: Global,
    seed: Seed,
    situation: &Situation<'_>,
) -> Result<(), Fail>
    requires { IsNamedBy seed B.name B.parts B.shares B.room B.frames B.mode B.rows B.most B.handing }
{
    let Situation {
        script,
        records,
        trace,
        emptied,
    } = situation;
    let mut machine = filled::<B, _>(rt, alloc, seed, script, *records)?;
    machine.assert_trace(rt, trace)?;
    machine.assert_rows(rt, trace, *emptied);
    Ok(())
}

#[test]
fn calls_in_strict_domains(rt: HostRuntime) -> Result<(), Fail> {
    for (trace, emptied) in [
        ("unmap 1 0x1000 1 => unmapped 0", ROWS_OF_ONE),
        ("unmap 2 0x1000 1 => unmapped 0", ROW_OF_TWO),
        ("detach 3 => ok", [true, false, false]),
        ("detach 5 => ok", ROW_OF_TWO),
        (
            "map 1 4096 1 0 rw => map 0x11000\nattach 6 1 => ok\ndma 6 0x1000 r => host 0x100000\n\
             begin 1 => ticket 1 1\nunit => unit did\nevict leaf 0 => ok",
            NO_ROW,
        ),
        (
            "unmap 3 0x1000 1 => refused 1\nunmap 1 0x12000 1 => refused 10\ndetach 7 => refused 4\n\
             flush 3 => refused 1\nreap 2 1 => refused 13\ndrop 1 => refused 3",
            NO_ROW,
        ),
    ] {
        let situation = Situation {
            script: STRICT,
            records: 0,
            trace,
            emptied,
        };
        judge(&rt, rt.alloc(), &situation)?;
    }
    Ok(())
}

// An unmap of a lazy domain takes nothing away, but where it finds as many records as a domain can have, and flushes.
#[test]
fn calls_in_lazy_domains(rt: HostRuntime) -> Result<(), Fail> {
    for (records, trace, emptied) in [
        (0, "unmap 1 0x1000 1 => unmapped 0", NO_ROW),
        (MOST_RECORDS - 1, "unmap 1 0x1000 1 => unmapped 0", NO_ROW),
        (
            MOST_RECORDS,
            "unmap 1 0x1000 1 => unmapped 256",
            ROWS_OF_ONE,
        ),
        (1, "flush 1 => flushed 1", ROWS_OF_ONE),
        (0, "flush 2 => flushed 0", ROW_OF_TWO),
        (
            1,
            "begin 1 => ticket 1 1\nreap 1 1 => pending\nunit => unit did\nreap 1 1 => pending",
            NO_ROW,
        ),
        (
            1,
            "begin 1 => ticket 1 1\nunit => unit did\nunit => unit did\nreap 1 1 => reaped 1",
            ROWS_OF_ONE,
        ),
        (
            0,
            "begin 2 => ticket 2 1\nunit => unit did\nunit => unit did\nreap 2 1 => reaped 0",
            ROW_OF_TWO,
        ),
    ] {
        let situation = Situation {
            script: LAZY,
            records,
            trace,
            emptied,
        };
        judge(&rt, rt.alloc(), &situation)?;
    }
    Ok(())
}

#[test]
fn calls_at_a_full_history(rt: HostRuntime) -> Result<(), Fail> {
    let seed = seed_of(rt.alloc(), 64, FILLING, 1)?;
    filled_up::<Brand, _>(&rt, rt.alloc(), seed)
}

fn filled_up<B: Owner, R: Wait + Abort>(rt: &R, alloc: Global, seed: Seed) -> Result<(), Fail>
    requires { IsNamedBy seed B.name B.parts B.shares B.room B.frames B.mode B.rows B.most B.handing }
{
    let mut machine = filled::<B, _>(rt, alloc, seed, STRICT, 0)?;
    for line in ["unmap 1 0x1000 1", "detach 3", "flush 2", "unit"] {
        let reply = machine.reply_to_line(rt, line)?;
        assert_eq!(rt; reply, Reply::Refused(Refusal::HistoryFull));
        machine.assert_rows(rt, line, NO_ROW);
    }
    Ok(())
}
