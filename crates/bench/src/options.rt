//! The command line.

use crate::subject::SUBJECTS;
use clap::{Arg, ArgMatches, Command, value_parser};
use std::alloc::{AllocError, Global};
use std::num::NonZeroU32;

const ABOUT: &str = "\
Measures what calls of the domain manager and of the layers below it cost. With no words it makes each
of them a few times, compares the answers with what they must be, and prints one line.";

const STATUS: &str = "\
A round of a map is the map and its unmap, in a strict domain unless the line
says otherwise; a round of a take is the take and its release. A line of
several threads has what a round takes on the slowest. Each line is measured in
several turns, and has the least and the median of them.

Exit status: 0 done; 1 output or the clock failed, or an answer is wrong; 2 a
bad command line; 3 no memory.";

/// The most rounds: a history has room for 1,048,576 calls, and a round makes four at most.
const MOST_ROUNDS: i64 = 250_000;

/// The most turns of a line.
pub(crate) const MOST_TURNS: usize = 99;

/// How many turns each line has unless the words say it.
const TURNS: usize = 9;

/// What is asked for.
#[derive(Clone, Copy)]
pub(crate) struct Options {
    /// How many rounds are measured in each turn; none where the program is to check itself.
    pub(crate) rounds: Option<NonZeroU32>,
    /// How many turns each line has, at least one.
    pub(crate) turns: usize,
    /// The place of the one line that is asked for.
    pub(crate) only: Option<usize>,
}

/// The program's command line, without the program's name.
pub(crate) fn command<'a>(alloc: Global) -> Result<Command<'a>, AllocError> {
    Command::new(alloc, "bench")
        .about(ABOUT)
        .after_help(STATUS)
        .no_binary_name(true)
        .arg(rounds(alloc))?
        .arg(turns(alloc))?
        .arg(only(alloc))
}

fn rounds<'a>(alloc: Global) -> Arg<'a> {
    Arg::new(alloc, "rounds")
        .long("rounds")
        .value_name("N")
        .help("Prints what each of N rounds takes, 1 to 250000, in nanoseconds")
        .value_parser(value_parser!(u64).range(1..=MOST_ROUNDS))
}

fn turns<'a>(alloc: Global) -> Arg<'a> {
    Arg::new(alloc, "turns")
        .long("turns")
        .value_name("T")
        .help("Measures each line T times, 1 to 99 [default: 9]")
        .value_parser(value_parser!(u64).range(1..=MOST_TURNS as i64))
}

fn only<'a>(alloc: Global) -> Arg<'a> {
    Arg::new(alloc, "only")
        .long("only")
        .value_name("NAME")
        .help("Measures the line of this name alone")
}

/// What the words ask for; `None` where no line has the name that they give.
pub(crate) fn options_of(matches: &ArgMatches) -> Option<Options> {
    let only = match matches.get_str("only") {
        Some(name) => Some(SUBJECTS.iter().position(|subject| subject.name == name)?),
        None => None,
    };
    Some(Options {
        rounds: matches.get_one::<NonZeroU32>("rounds"),
        turns: matches.get_one::<usize>("turns").unwrap_or(TURNS),
        only,
    })
}
