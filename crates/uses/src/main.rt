//! `uses`: an example of the library, to begin one's own program from. Two drivers in threads of their own and a device share one
//! manager; at the end the history is printed. `rt run` in this folder proves and runs it.
#![tactic(auto)]

ghost use Rattle.manager.specs.Kept.{IsNamedBy};

use dmatypes::{Access, Reply, parse_line};
use manager::{Config, Manager, Owner, Rows, Seed, Share};
use std::alloc::Global;
use std::io::{self, Write};
use std::marker::Brand;
use std::process::ExitCode;
use std::sync::Wait;
use std::thread::{Threads, join};

fn main(rt: HostRuntime) -> ExitCode {
    // 64 table frames, room for 100 calls, and three shares: a share is the right to call.
    let Some(Ok(seed)) = Config::new(64, 100, 3).map(|config| Seed::new(rt.alloc(), config)) else {
        return ExitCode::FAILURE;
    };
    // A brand gives the manager a type of its own, so that shares and ports of two managers can't be mixed up.
    match two_drivers::<Brand, _, _>(&rt, rt.alloc(), seed, &mut rt.stdout()) {
        Ok(()) => ExitCode::SUCCESS,
        Err(_) => ExitCode::FAILURE,
    }
}

fn two_drivers<B: Owner + Send + Sync, R: Threads + Wait + Sync, W: Write>(
    rt: &R,
    alloc: Global,
    seed: Seed,
    output: &mut W,
) -> io::Result<()>
    requires { IsNamedBy seed B.name B.parts B.shares B.room B.frames B.mode B.rows B.most B.handing }
{
    let made = Manager::<B>::new(alloc, seed)?;
    let (manager, rows, mut shares) = (made.manager, made.rows, made.shares);
    let (Some(one), Some(two), Some(mut mine)) = (shares.pop(), shares.pop(), shares.pop()) else {
        return Ok(());
    };
    call(rt, &manager, &rows, &mut mine, b"domain strict");
    call(rt, &manager, &rows, &mut mine, b"attach 0 1");
    // Each driver maps a page, from a thread of its own.
    let (one, two) = join(
        rt,
        || map_page(rt, &manager, &rows, one),
        || map_page(rt, &manager, &rows, two),
    );
    // The ports are those of devices 0 to 15, in order.
    let Some(mut port) = made.ports.into_iter().next() else {
        return Ok(());
    };
    // The device asks its port, which takes no lock, and where that can't answer, the unit, under the lock.
    if port.hit(&rows, 0x1000, Access::Read).0.is_none() {
        call(rt, &manager, &rows, &mut mine, b"dma 0 0x1000 r look fill");
    }
    let (host, _) = port.hit(&rows, 0x1000, Access::Read);
    writeln!(output, "hit without the lock: {:#x}", host.unwrap_or(0))?;
    // After an unmap, the port never again answers by that page once it has checked in.
    call(rt, &manager, &rows, &mut mine, b"unmap 1 0x1000 1");
    manager.check_in(rt, &rows, &mut mine, &mut port);
    for share in [one, two, mine] {
        shares.push(share)?;
    }
    if let Ok(history) = manager.finish(&rows, shares) {
        for event in history.events() {
            writeln!(output, "{:?} -> {:?}", event.call, event.reply)?;
        }
    }
    Ok(())
}

// A call, as a script's line says it.
fn call<B: Owner, R: Wait>(
    rt: &R,
    manager: &Manager<B>,
    rows: &Rows<B>,
    mine: &mut Share<B>,
    line: &[u8],
) -> Option<Reply> {
    let (_, reply) = manager.call(rt, rows, mine, parse_line(line)?).ok()?;
    Some(reply)
}

// A driver's thread.
fn map_page<B: Owner, R: Wait>(
    rt: &R,
    manager: &Manager<B>,
    rows: &Rows<B>,
    mut mine: Share<B>,
) -> Share<B> {
    // In domain 1 the page of host frame 0x100, at the lowest free address, to read and to write.
    let _ = manager.lock(rt).map(rows, &mut mine, 1, 0x100, 1, 0, 3);
    mine
}
