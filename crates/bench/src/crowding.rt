//! A map and its unmap while the unit's caches are full.

ghost use Rattle.std.specs.Prelude.{◌+◌, ◌≤◌};

use crate::driver::{BOTH_RIGHTS, UNALIGNED_FRAME, ready};
use crate::timing::Work;
use crate::trouble::{Trouble, check};
use dmatypes::{
    Access, DEVICES, MOST_ORDER, MOST_PAGES, Mode, PAGE_BYTES, SPAN_PAGES, Whim, Width,
};
use engine::{State, Unmapped};
use std::alloc::Global;

// Enough for two domains with 16 tables of the lowest level each, and one more.
const TABLE_FRAMES: u64 = 64;

// The devices of each domain: with those of the other domain all.
const HALF_DEVICES: u64 = DEVICES / 2;

// Each domain has this many tables of the lowest level in the cache, and one above them: 32 tables together.
const SPANS: u64 = 15;

// Each domain has this many leaves in the cache: 64 leaves together.
const LEAVES: u64 = 32;

// The bytes of a span.
const SPAN_BYTES: u64 = SPAN_PAGES * PAGE_BYTES;

/// Maps one page into a strict domain, and unmaps it again, while the caches hold 64 leaves, 32 tables and 16
/// contexts, half of them of this domain, half of another. The unmap drops none of them.
#[derive(Drop)]
pub(crate) struct Crowded {
    state: State,
    domain: u64,
}

impl Crowded {
    pub(crate) fn new(alloc: Global) -> Result<Crowded, Trouble> {
        let mut crowded = Crowded {
            state: State::new(alloc, TABLE_FRAMES)?,
            domain: 0,
        };
        crowded.fill_half(0)?;
        crowded.fill_half(HALF_DEVICES)?;
        Ok(crowded)
    }

    // Makes a domain with devices from a first one on, maps pages in each span, and has the devices read until half of
    // the caches is filled.
    fn fill_half(&mut self, first: u64) -> Result<(), Trouble>
        requires { first ≤ HALF_DEVICES }
    {
        ready(&self.state)?;
        self.domain = self.state.domain(Mode::Strict, Width::W39)?;
        self.attach_from(first)?;
        self.map_spans()?;
        self.read_pages(first)
    }

    fn attach_from(&mut self, first: u64) -> Result<(), Trouble>
        requires { first ≤ HALF_DEVICES }
    {
        for device in first..first + HALF_DEVICES {
            ready(&self.state)?;
            self.state.attach(device, self.domain)?;
        }
        Ok(())
    }

    // Two maps, so that few pieces of the address space stand beside the one that is measured.
    fn map_spans(&mut self) -> Result<(), Trouble> {
        for part in 0..2 {
            let frame = UNALIGNED_FRAME + MOST_PAGES * part;
            ready(&self.state)?;
            let mapped = self
                .state
                .map(self.domain, frame, MOST_PAGES, MOST_ORDER, BOTH_RIGHTS)?;
            check(mapped == SPAN_BYTES + PAGE_BYTES * MOST_PAGES * part)?;
        }
        Ok(())
    }

    fn read_pages(&mut self, first: u64) -> Result<(), Trouble>
        requires { first ≤ HALF_DEVICES }
    {
        for leaf in 0..LEAVES {
            let offset = SPAN_BYTES * (leaf % SPANS) + PAGE_BYTES * (leaf / SPANS);
            let filling = Whim {
                look: false,
                fill: true,
            };
            ready(&self.state)?;
            let answer = self.state.dma(
                first + leaf % HALF_DEVICES,
                SPAN_BYTES + offset,
                Access::Read,
                filling,
            )?;
            check(answer.map(|hit| hit.host) == Ok(PAGE_BYTES * UNALIGNED_FRAME + offset))?;
        }
        Ok(())
    }
}

impl Work for Crowded {
    fn once(&mut self) -> Result<(), Trouble> {
        ready(&self.state)?;
        let mapped = self
            .state
            .map(self.domain, UNALIGNED_FRAME, 1, 0, BOTH_RIGHTS)?;
        check(mapped == PAGE_BYTES)?;
        ready(&self.state)?;
        let unmapped = self.state.unmap(self.domain, mapped, 1)?;
        check(unmapped == Unmapped::Free)
    }
}
