//! The whole program, over its words.

use crate::failure::Failure;
use crate::options::{MOST_TURNS, Options, command, options_of};
use crate::subject::{SUBJECTS, Subject};
use crate::timing::Tenths;
use crate::trouble::{Trouble, check};
use arrayvec::ArrayVec;
use clap::Error;
use clap::error::ErrorKind;
use std::alloc::Global;
use std::io;
use std::io::Write;
use std::num::NonZeroU32;
use std::sync::Wait;
use std::thread::Threads;
use std::time::Clock;

// The exit statuses.
const DONE: u8 = 0;

const FAILED: u8 = 1;

const BAD: u8 = 2;

const NO_MEMORY: u8 = 3;

// More than a state has table frames, so that one which isn't given back in each round is missed, and than a lazy
// domain keeps records, so that it is flushed.
const CHECK_ROUNDS: u32 = 300;

const HEADING: &str = "nanoseconds a round                               least      median";

/// Runs the program over its words, without the program's name among them, and answers its exit status.
pub(crate) fn program<C: Clock + Wait + Threads + Sync, W: Write + Drop, E: Write + Drop>(
    clock: &C,
    alloc: Global,
    words: &[&str],
    mut output: W,
    mut errors: E,
) -> u8 {
    let Ok(command) = command(alloc) else {
        return fail(&mut errors, Failure::NoMemory);
    };
    let done = match command.try_get_matches_from(words) {
        Ok(matches) => match options_of(&matches) {
            Some(options) => run(clock, alloc, options, &mut output),
            None => Err(Failure::NoSubject),
        },
        Err(error) => return without_matches(&error, &mut output, &mut errors),
    };
    match done {
        Ok(()) => DONE,
        Err(failure) => fail(&mut errors, failure),
    }
}

// The exit status where the words ask for help, which goes to the output, or are none of the command line's,
// which standard error names.
fn without_matches<W: Write, E: Write>(error: &Error, output: &mut W, errors: &mut E) -> u8 {
    if error.kind() == ErrorKind::OutOfMemory {
        return fail(errors, Failure::NoMemory);
    }
    if error.use_stderr() {
        let _ = write!(errors, "{error}");
        return BAD;
    }
    match write!(output, "{error}") {
        Ok(()) => DONE,
        Err(_) => fail(errors, Failure::Output),
    }
}

/// The exit status where the words of the command line can't be had, with a line on standard error: memory lacked,
/// or a word isn't UTF-8.
pub(crate) fn without_words<E: Write + Drop>(mut errors: E, kind: io::ErrorKind) -> u8 {
    if kind == io::ErrorKind::OutOfMemory {
        return fail(&mut errors, Failure::NoMemory);
    }
    let _ = writeln!(errors, "error: a word of the command line isn't UTF-8");
    BAD
}

// Says why the program stops, and with which status. A failure to say it is passed over.
fn fail<E: Write>(errors: &mut E, failure: Failure) -> u8 {
    let _ = writeln!(errors, "{failure}");
    match failure {
        Failure::NoMemory | Failure::Subject(_, Trouble::NoMemory) => NO_MEMORY,
        Failure::NoSubject => BAD,
        Failure::Output | Failure::Subject(..) => FAILED,
    }
}

// Writes the table of what is asked for; with no rounds, does a few, whose answers are compared, and says that they
// were right.
fn run<C: Clock + Wait + Threads + Sync, W: Write>(
    clock: &C,
    alloc: Global,
    options: Options,
    output: &mut W,
) -> Result<(), Failure> {
    match options.rounds {
        Some(rounds) => measure_all(clock, alloc, rounds, options, output),
        None => {
            let rounds = NonZeroU32::new(CHECK_ROUNDS).unwrap();
            let once = Options {
                turns: 1,
                ..options
            };
            measure_all(clock, alloc, rounds, once, &mut io::sink())?;
            writeln!(output, "all answers are right")?;
            Ok(())
        }
    }
}

// Writes a line for each subject that is asked for: its name, and what a round takes.
fn measure_all<C: Clock + Wait + Threads + Sync, W: Write>(
    clock: &C,
    alloc: Global,
    rounds: NonZeroU32,
    options: Options,
    output: &mut W,
) -> Result<(), Failure> {
    writeln!(output, "{HEADING}")?;
    for (place, subject) in SUBJECTS.into_iter().enumerate() {
        if options.only.is_some_and(|only| only != place) {
            continue;
        }
        match turns(clock, alloc, rounds, options.turns, subject) {
            Ok((least, median)) => {
                write_row(output, subject.name, least, median)?;
                if let Some((calls, hits)) = subject.in_a_second(least) {
                    writeln!(output, "    in a second: {calls} calls, {hits} hits")?;
                }
            }
            Err(trouble) => return Err(Failure::Subject(subject.name, trouble)),
        }
    }
    Ok(())
}

// The least and the median of several turns of a subject.
fn turns<C: Clock + Wait + Threads + Sync>(
    clock: &C,
    alloc: Global,
    rounds: NonZeroU32,
    count: usize,
    subject: Subject,
) -> Result<(Tenths, Tenths), Trouble> {
    let mut taken: ArrayVec<Tenths, MOST_TURNS> = ArrayVec::new();
    for _ in 0..count {
        let each = subject.measure(clock, alloc, rounds)?;
        check(taken.try_push(each).is_ok())?;
    }
    taken.sort_unstable();
    let least = taken.first().ok_or(Trouble::Wrong)?;
    let median = taken.get(taken.len() / 2).ok_or(Trouble::Wrong)?;
    Ok((*least, *median))
}

// Writes one line of the table.
fn write_row<W: Write>(
    output: &mut W,
    name: &str,
    least: Tenths,
    median: Tenths,
) -> Result<(), Failure> {
    writeln!(
        output,
        "{name:<44}{:>9}.{}{:>10}.{}",
        least.whole(),
        least.rest(),
        median.whole(),
        median.rest(),
    )?;
    Ok(())
}
