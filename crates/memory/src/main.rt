//! `memory`: asks once for each thing that takes memory, and prints what it was answered. Where a request for memory is refused it
//! says so of that one thing, and the others are answered as ever: the gate refuses each request in turn.
#![tactic(auto)]

ghost use Rattle.manager.specs.Kept.{IsNamedBy};

use dmatypes::{Call, LEAST_TABLE_FRAMES, Mode, Width};
use engine::State;
use iova::Space;
use manager::*;
use script::run_in_memory;
use std::alloc::{AllocError, Global};
use std::io;
use std::io::Write;
use std::marker::Brand;
use std::process::ExitCode;
use std::sync::Wait;
use tables::Pool;

// The last page of a small address space, of one piece.
const LAST_PAGE: u64 = 15;

// The calls that a history has room for.
const CALLS: u64 = 100;

const SHARES: u64 = 2;

// A script, which takes memory for its manager and for its answers.
const SCRIPT: &[u8] = b"domain strict\nmap 1 0x100 1 0 rw\n";

fn main(rt: HostRuntime) -> ExitCode {
    match tell_all(&rt, rt.alloc(), &mut rt.stdout()) {
        Ok(()) => ExitCode::SUCCESS,
        Err(_) => ExitCode::FAILURE,
    }
}

// Each thing on a line of its own.
fn tell_all<R: Wait, W: Write>(rt: &R, alloc: Global, output: &mut W) -> io::Result<()> {
    let space = Space::new(alloc, LAST_PAGE);
    tell(
        output,
        "space",
        space.map(|space| space.piece_count() as u64),
    )?;
    let pool = Pool::new(alloc, LEAST_TABLE_FRAMES);
    tell(output, "pool", pool.map(|pool| pool.free_count()))?;
    let rows = ports::Rows::new(alloc, LEAST_TABLE_FRAMES, SHARES);
    tell(
        output,
        "rows",
        rows.map(|(_, _, ports, _)| ports.len() as u64),
    )?;
    let state = State::new(alloc, LEAST_TABLE_FRAMES);
    tell(output, "state", state.map(|state| state.totals().free))?;
    tell(output, "script", answered(rt, alloc))?;
    let Some(config) = Config::new(LEAST_TABLE_FRAMES, CALLS, SHARES) else {
        return Err(io::Error::from(io::ErrorKind::Other));
    };
    // One that hands on, so that its epoch takes memory too.
    match Seed::new(alloc, config.handing_on()) {
        Ok(seed) => tell_manager::<Brand, R, W>(rt, alloc, output, seed),
        Err(AllocError) => tell(output, "seed", Err(AllocError)),
    }
}

// How many bytes the script is answered, in memory.
fn answered<R: Wait>(rt: &R, alloc: Global) -> Result<u64, AllocError> {
    let Some(config) = Config::new(LEAST_TABLE_FRAMES, CALLS, 1) else {
        return Ok(0);
    };
    let mut answers = Vec::new(alloc);
    match run_in_memory(rt, alloc, SCRIPT, &mut answers, config) {
        Ok(()) => Ok(answers.len() as u64),
        Err(_) => Err(AllocError),
    }
}

// How many of something there are, or that there is no memory for it.
fn tell<W: Write>(output: &mut W, what: &str, answer: Result<u64, AllocError>) -> io::Result<()> {
    match answer {
        Ok(number) => writeln!(output, "{what} {number}"),
        Err(AllocError) => writeln!(output, "{what} no memory"),
    }
}

// A manager, and two reports of it: the one is whole where the other is refused.
fn tell_manager<B: Owner, R: Wait, W: Write>(
    rt: &R,
    alloc: Global,
    output: &mut W,
    seed: Seed,
) -> io::Result<()>
    requires { IsNamedBy seed B.name B.parts B.shares B.room B.frames B.mode B.rows B.most B.handing }
{
    let Ok(made) = Manager::<B>::new(alloc, seed) else {
        return tell(output, "manager", Err(AllocError));
    };
    let Made {
        manager,
        rows,
        mut shares,
        ..
    } = made;
    tell(output, "manager", Ok(shares.len() as u64))?;
    if let Some(mine) = shares.last_mut() {
        let _ = manager.call(
            rt,
            &rows,
            mine,
            Call::Domain {
                mode: Mode::Lazy,
                width: Width::W39,
            },
        );
    }
    for _ in 0..2u64 {
        match manager.snapshot(rt, alloc) {
            Ok(report) => write!(output, "{}", report.text())?,
            Err(AllocError) => writeln!(output, "report no memory")?,
        }
    }
    Ok(())
}
