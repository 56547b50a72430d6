//! `bench`: measures what calls cost, and checks their answers while it does. docs/PERFORMANCE.md has what it measured.
//!
//! ```text
//! bench --rounds 100000
//! bench --rounds 1000 --turns 1 --only NAME
//! ```
#![tactic(auto)]

mod contending;
mod crowding;
mod driver;
mod failure;
mod hitting;
mod loading;
mod managing;
mod mapping;
mod options;
mod program;
mod request;
mod reusing;
mod scripting;
mod storming;
mod subject;
mod taking;
mod timing;
mod together;
mod trouble;
mod walking;

use std::alloc::AllocError;
use std::env;
use std::io::ErrorKind;
use std::process::ExitCode;

fn main(rt: HostRuntime) -> ExitCode {
    let words = match env::args(&rt) {
        Ok(words) => words,
        Err(error) => return without_words(&rt, error.kind()),
    };
    let Ok(words) = words.collect::<Vec<String>>(rt.alloc()) else {
        return without_words(&rt, ErrorKind::OutOfMemory);
    };
    let texts: Result<Vec<&str>, AllocError> = words
        .iter()
        .skip(1)
        .map(|word| word.as_str())
        .collect(rt.alloc());
    let Ok(texts) = texts else {
        return without_words(&rt, ErrorKind::OutOfMemory);
    };
    let status = program::program(&rt, rt.alloc(), texts.as_slice(), rt.stdout(), rt.stderr());
    ExitCode::from(status)
}

fn without_words(rt: &HostRuntime, kind: ErrorKind) -> ExitCode {
    ExitCode::from(program::without_words(rt.stderr(), kind))
}
