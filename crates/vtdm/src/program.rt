//! The whole program, over its words.

ghost use Rattle.std.specs.Prelude.{◌≡◌};
ghost use Rattle.vtdm.specs.Statuses.{status_of};
ghost use Rattle.vtdm.specs.declared.status.End.{End};

use crate::checking::check_trace;
use crate::options::{Answering, Options, Task, command, config_of, task_of};
use crate::status::{End, end_of};
use crate::storming::make_storm;
use clap::error::ErrorKind;
use script::{RunError, report, report_with_drawing, run, trace};
use std::alloc::Global;
use std::io;
use std::io::{Read, Write};
use std::sync::Wait;
use std::thread::Threads;
use streams::Counted;

// The bytes of the longest word that an error repeats (own).
const LONGEST_WORD: usize = 64;

const NOT_PLAIN: &str =
    "a word of the command line is longer than 64 bytes, or isn't of printable ASCII";

/// Runs the program over its words, without the program's name among them, and answers its exit status.
/// The words are judged before anything is read.
pub fn program<T: Wait + Threads + Sync, R: Read + Drop, W: Write + Drop, E: Write + Drop>(
    rt: &T,
    alloc: Global,
    words: &[&str],
    input: R,
    output: W,
    mut errors: E,
) -> u8
    ensures { (end : End) × (result ≡ status_of end) }
{
    let end = perform(rt, alloc, words, input, output, &mut errors);
    tell(&mut errors, end)
}

/// The exit status where the words of the command line can't be had, with a line on standard error: memory lacked,
/// or a word isn't UTF-8.
pub fn without_words<E: Write + Drop>(mut errors: E, kind: io::ErrorKind) -> u8
    ensures { (end : End) × (result ≡ status_of end) }
{
    if kind == io::ErrorKind::OutOfMemory {
        return tell(&mut errors, End::Stopped(RunError::NoMemory));
    }
    let _ = writeln!(errors, "error: a word of the command line isn't UTF-8");
    tell(&mut errors, End::BadCommandLine)
}

// Says why a task stopped, and answers the status. A failure to say it is passed over.
fn tell<E: Write>(errors: &mut E, end: End) -> u8
    ensures { result ≡ status_of end }
{
    let _ = match end {
        End::Stopped(error) => writeln!(errors, "{error}"),
        End::NoStorm(error) => writeln!(errors, "{error}"),
        End::Unchecked(error) => writeln!(errors, "{error}"),
        End::Done | End::BadCommandLine | End::Illegal => Ok(()),
    };
    end.status()
}

// What the words ask for, to its end.
fn perform<T: Wait + Threads + Sync, R: Read + Drop, W: Write + Drop, E: Write>(
    rt: &T,
    alloc: Global,
    words: &[&str],
    input: R,
    output: W,
    errors: &mut E,
) -> End {
    let Ok(asked) = command(alloc) else {
        return End::Stopped(RunError::NoMemory);
    };
    let error = match asked.try_get_matches_from(words) {
        Ok(matches) => {
            return match task_of(&matches) {
                Some(task) => run_task(rt, alloc, task, input, output),
                None => End::BadCommandLine,
            };
        }
        Err(error) => error,
    };
    if error.kind() == ErrorKind::OutOfMemory || words.iter().all(|word| is_plain(word)) {
        return explain(&error, output, errors);
    }
    let Ok(mut telling) = command(alloc) else {
        return End::Stopped(RunError::NoMemory);
    };
    match telling.error(ErrorKind::InvalidValue, NOT_PLAIN) {
        Ok(error) => explain(&error, output, errors),
        Err(_) => End::Stopped(RunError::NoMemory),
    }
}

// Whether a word may be shown on a terminal as it is. An error repeats words.
fn is_plain(word: &str) -> bool {
    word.len() <= LONGEST_WORD && word.bytes().all(|byte| matches!(byte, b' '..=b'~'))
}

// Why the words ask for no task: they ask for help, or are bad.
fn explain<W: Write + Drop, E: Write>(error: &clap::Error, mut output: W, errors: &mut E) -> End {
    if error.kind() == ErrorKind::OutOfMemory {
        return End::Stopped(RunError::NoMemory);
    }
    if error.use_stderr() {
        let _ = write!(errors, "{error}");
        return End::BadCommandLine;
    }
    match write!(output, "{error}") {
        Ok(()) => End::Done,
        Err(_) => End::Stopped(RunError::Write),
    }
}

fn run_task<T: Wait + Threads + Sync, R: Read + Drop, W: Write + Drop>(
    rt: &T,
    alloc: Global,
    task: Task,
    input: R,
    mut output: W,
) -> End {
    match task {
        Task::Script(answering, options) => {
            run_script(rt, alloc, answering, options, input, output)
        }
        Task::Storm(size) => make_storm(rt, alloc, size, &mut output),
        Task::Check(frames) => check_trace(rt, alloc, frames, input, &mut output),
    }
}

// Its room on the stack is not taken while the command line is judged.
#[inline(never)]
fn run_script<T: Wait, R: Read + Drop, W: Write + Drop>(
    rt: &T,
    alloc: Global,
    answering: Answering,
    options: Options,
    input: R,
    output: W,
) -> End {
    let Some(config) = config_of(options) else {
        return End::BadCommandLine;
    };
    let mut reader = Counted::new(input);
    let mut writer = Counted::new(output);
    end_of(match answering {
        Answering::Run => run(rt, alloc, &mut reader, &mut writer, config),
        Answering::Trace => trace(rt, alloc, &mut reader, &mut writer, config),
        Answering::Report => report(rt, alloc, &mut reader, &mut writer, config),
        Answering::Drawing => report_with_drawing(rt, alloc, &mut reader, &mut writer, config),
    })
}
