//! Scripts, from memory to memory.

ghost use Rattle.std.specs.Prelude.{◌≡◌, ◌<◌};

use crate::driver::TABLE_FRAMES;
use crate::timing::{Tenths, each};
use crate::trouble::{Trouble, check};
use manager::Config;
use script::run;
use std::alloc::{AllocError, Global};
use std::io;
use std::num::NonZeroU32;
use std::sync::Wait;
use std::time::{Clock, Instant};
use streams::Counted;

/// What the lines of a script do.
#[derive(Clone, Copy)]
pub(crate) enum Lines {
    /// A device reads the same address, which the caches answer.
    Requests,
    /// A page is mapped in a strict domain, and unmapped.
    StrictPairs,
    /// A page is mapped in a lazy domain, and unmapped; the domain is flushed after each 4 pairs.
    LazyPairs,
}

impl Lines {
    /// The lines before those that count.
    fn head(self) -> &'static str {
        match self {
            Lines::Requests => "domain strict\nattach 3 1\nmap 1 0x1001 1 0 r\n",
            Lines::StrictPairs => "domain strict\n",
            Lines::LazyPairs => "domain lazy\n",
        }
    }

    /// The lines that count, again and again.
    fn part(self) -> &'static str {
        match self {
            Lines::Requests => "dma 3 0x1234 r look fill\n",
            Lines::StrictPairs => "map 1 0x1001 1 0 rw\nunmap 1 0x1000 1\n",
            Lines::LazyPairs => LAZY_PAIRS,
        }
    }

    /// How many lines these are.
    fn count(self) -> u64
        ensures some { 0 < result }
        ensures few { result < 10 }
    {
        match self {
            Lines::Requests => 1,
            Lines::StrictPairs => 2,
            Lines::LazyPairs => 9,
        }
    }
}

// No page is handed out again before the flush.
const LAZY_PAIRS: &str = "\
map 1 0x1001 1 0 rw
unmap 1 0x1000 1
map 1 0x1001 1 0 rw
unmap 1 0x2000 1
map 1 0x1001 1 0 rw
unmap 1 0x3000 1
map 1 0x1001 1 0 rw
unmap 1 0x4000 1
flush 1
";

/// What each line of a script takes, of which at least `rounds` count.
pub(crate) fn time_script<C: Clock + Wait>(
    clock: &C,
    alloc: Global,
    rounds: NonZeroU32,
    lines: Lines,
) -> Result<Tenths, Trouble> {
    let parts = u64::from(rounds.get()) / lines.count() + 1;
    let counted = parts * lines.count();
    let text = text_of(alloc, lines, parts)?;
    let config = Config::new(TABLE_FRAMES, 3 + counted, 1).ok_or(Trouble::TooManyCalls)?;
    let mut reader = Counted::new(text.as_str().as_bytes());
    let mut writer = Counted::new(io::sink());
    let start = Instant::now(clock)?;
    let done = run(clock, alloc, &mut reader, &mut writer, config);
    let spent = start.elapsed(clock)?;
    check(done.is_ok())?;
    let counted = u32::try_from(counted).ok().and_then(NonZeroU32::new);
    Ok(each(spent, counted.ok_or(Trouble::Wrong)?))
}

// A script with this number of parts.
fn text_of(alloc: Global, lines: Lines, parts: u64) -> Result<String, AllocError> {
    let mut text = String::new(alloc);
    text.push_str(lines.head())?;
    for _ in 0..parts {
        text.push_str(lines.part())?;
    }
    Ok(text)
}
