//! `vtdm`: the program. It answers scripts of calls on a manager of DMA addresses (`run`), reports what is there at a script's end
//! (`report`). It judges what any manager was asked and answered (`check`), and has threads call one manager (`storm`). `vtdm run
//! --help` explains each line of a script.
//!
//! ```text
//! printf 'domain strict\nmap 1 0x100 1 0 rw\n' | vtdm run
//! domain 1
//! map 0x1000
//! ```
#![tactic(auto)]

mod checking;
mod help;
mod options;
mod program;
mod status;
mod storming;
mod words;

use std::alloc::AllocError;
use std::io::ErrorKind;
use std::process::ExitCode;

fn main(rt: HostRuntime) -> ExitCode {
    let words = match words::words(&rt) {
        Ok(words) => words,
        Err(error) => return without_words(&rt, error.kind()),
    };
    let Ok(words) = words.collect::<Vec<String>>(rt.alloc()) else {
        return without_words(&rt, ErrorKind::OutOfMemory);
    };
    let texts: Result<Vec<&str>, AllocError> = words
        .iter()
        .map(|word| word.as_str())
        .collect(rt.alloc());
    let Ok(texts) = texts else {
        return without_words(&rt, ErrorKind::OutOfMemory);
    };
    let status = program::program(
        &rt,
        rt.alloc(),
        texts.as_slice(),
        rt.stdin(),
        rt.stdout(),
        rt.stderr(),
    );
    ExitCode::from(status)
}

fn without_words(rt: &HostRuntime, kind: ErrorKind) -> ExitCode {
    ExitCode::from(program::without_words(rt.stderr(), kind))
}
