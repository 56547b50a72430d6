//! `workloads`: does jobs that a user of this repository waits for, by its public calls, and prints what all answers come to.
//! docs/PERF.md says what they measure.
//!
//! ```text
//! workloads JOB SEED CALLS
//! ```
//!
//! With no words it does a little of each job.
#![tactic(auto)]

mod digest;
mod driving;
mod failure;
mod feeding;
mod job;
mod line;
mod profile;
mod random;
mod streaming;
mod traffic;

use crate::failure::Failure;
use crate::job::{JOBS, Job};
use std::alloc::Global;
use std::env;
use std::io::Write;
use std::process::ExitCode;
use std::sync::Wait;

// What is done of each job where the words ask for none.
const LITTLE: u64 = 4_000;

fn main(rt: HostRuntime) -> ExitCode {
    let done = match env::args(&rt) {
        Ok(words) => match words.skip(1).collect::<Vec<String>>(rt.alloc()) {
            Ok(words) => work(&rt, rt.alloc(), words.as_slice(), &mut rt.stdout()),
            Err(error) => Err(Failure::from(error)),
        },
        Err(_) => Err(Failure::Words),
    };
    match done {
        Ok(()) => ExitCode::SUCCESS,
        Err(failure) => {
            let _ = writeln!(rt.stderr(), "{failure}");
            ExitCode::FAILURE
        }
    }
}

// Does what the words ask for.
fn work<T: Wait, W: Write>(
    rt: &T,
    alloc: Global,
    words: &[String],
    output: &mut W,
) -> Result<(), Failure> {
    if words.is_empty() {
        for (name, job) in JOBS {
            print(rt, alloc, name, job, 1, LITTLE, output)?;
        }
        return Ok(());
    }
    let [name, seed, calls] = words else {
        return Err(Failure::Words);
    };
    let (Ok(seed), Ok(calls)) = (seed.parse::<u64>(), calls.parse::<u64>()) else {
        return Err(Failure::Words);
    };
    for (known, job) in JOBS {
        if known == name.as_str() {
            return print(rt, alloc, known, job, seed, calls, output);
        }
    }
    Err(Failure::Words)
}

// Does a job, and prints a line.
fn print<T: Wait, W: Write>(
    rt: &T,
    alloc: Global,
    name: &str,
    job: Job,
    seed: u64,
    calls: u64,
    output: &mut W,
) -> Result<(), Failure> {
    let digest = job.run(rt, alloc, seed, calls)?;
    writeln!(output, "{name} {:016x}", digest.value())?;
    Ok(())
}
