//! What a hit comes to without a table of words and its rule: two loads of plain atomics and a comparison.

use crate::driver::{BOTH_RIGHTS, UNALIGNED_FRAME};
use crate::timing::{Tenths, Work};
use crate::together::{Meeting, time_together};
use crate::trouble::{Trouble, check};
use dmatypes::{FRAMES_END, PAGE_BYTES};
use std::alloc::{AllocError, Global};
use std::num::NonZeroU32;
use std::sync::atomic::{AtomicU64, Ordering};
use std::thread::Threads;
use std::time::Clock;

// Where the frame and the page begin in a word, in bits; the rights stand below them.
const FRAME_PLACE: u32 = 2;

const PAGE_PLACE: u32 = 26;

const ADDRESS: u64 = PAGE_BYTES + 0x234;

const HOST: u64 = PAGE_BYTES * UNALIGNED_FRAME + 0x234;

// A count, and a word that states page 1 with a frame and both rights.
#[derive(Drop)]
struct Words {
    count: AtomicU64,
    word: AtomicU64,
}

/// What each round takes on the slowest of the threads that load the same two words.
pub(crate) fn time_loads<C: Clock + Threads + Sync>(
    clock: &C,
    alloc: Global,
    rounds: NonZeroU32,
    threads: u32,
) -> Result<Tenths, Trouble> {
    let words = Words {
        count: AtomicU64::new(1),
        word: AtomicU64::new(BOTH_RIGHTS + (UNALIGNED_FRAME << FRAME_PLACE) + (1 << PAGE_PLACE)),
    };
    let works = loaders(alloc, &words, threads)?;
    time_together(clock, rounds, works, &Meeting::new(threads, 0))
}

// The work of the threads.
fn loaders(alloc: Global, words: &Words, threads: u32) -> Result<Vec<Loading<'_>>, AllocError> {
    let mut works = Vec::new(alloc);
    for _ in 0..threads {
        works.push(Loading {
            words,
            address: ADDRESS,
        })?;
    }
    Ok(works)
}

#[derive(Drop)]
struct Loading<'a> {
    words: &'a Words,
    address: u64,
}

impl<'a> Loading<'a> {
    // The host byte address where the word states the address's page with the right to read, and the count.
    #[inline]
    fn look(&self) -> (Option<u64>, u64) {
        let count = self.words.count.load(Ordering::SeqCst);
        let word = self.words.word.load(Ordering::SeqCst);
        if word >> PAGE_PLACE == self.address / PAGE_BYTES && word % 2 == 1 {
            let frame = (word >> FRAME_PLACE) % FRAMES_END;
            (Some(frame * PAGE_BYTES + self.address % PAGE_BYTES), count)
        } else {
            (None, count)
        }
    }
}

impl<'a> Work for Loading<'a> {
    fn once(&mut self) -> Result<(), Trouble> {
        let (host, count) = self.look();
        check(host == Some(HOST) && count >= 1)
    }
}
