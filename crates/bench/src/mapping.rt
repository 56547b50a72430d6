//! A map and its unmap.

ghost use Rattle.std.specs.Prelude.{◌<◌, ◌≤◌};
ghost use Rattle.dmatypes.specs.declared.limits.TheConstants.{MOST_RECORDS};

use crate::driver::{Driver, LAZY, STRICT, Setting, UNALIGNED_FRAME};
use crate::timing::Work;
use crate::trouble::{Trouble, check};
use arrayvec::ArrayVec;
use dmatypes::{
    ADDRESSES_END, MOST_ORDER, MOST_RECORDS, MOST_SEGMENTS, PAGE_BYTES, SPAN_PAGES, Segment, Width,
};
use std::alloc::Global;

/// What is mapped: pages from a host frame on, at a multiple of 2^`order` pages, and so at this byte
/// address where the domain is empty.
#[derive(Clone, Copy)]
pub(crate) struct Shape {
    pub(crate) setting: Setting,
    pub(crate) frame: u64,
    pub(crate) pages: u64,
    pub(crate) order: u64,
    pub(crate) address: u64,
}

/// Maps into an empty strict domain, and unmaps again. The pages are free again then, since the next map gets the
/// same address, and so are the table frames: there are too few for many rounds that each keep one.
#[derive(Drop)]
pub(crate) struct Mapping {
    driver: Driver,
    shape: Shape,
}

impl Mapping {
    pub(crate) fn new(alloc: Global, shape: Shape) -> Result<Mapping, Trouble> {
        Ok(Mapping {
            driver: Driver::new(alloc, shape.setting)?,
            shape,
        })
    }
}

impl Work for Mapping {
    fn once(&mut self) -> Result<(), Trouble> {
        let Shape {
            frame,
            pages,
            order,
            address,
            ..
        } = self.shape;
        let mapped = self.driver.map(frame, pages, order)?;
        check(mapped == address)?;
        let released = self.driver.unmap(address, pages)?;
        check(released == 0)
    }
}

// Segments of one page each, as many as a map takes.
const SEGMENTS: u64 = MOST_SEGMENTS as u64;

// The frames of two segments that follow one another are so far apart.
const STRIDE: u64 = 3;

/// Maps a list of segments of one page each into an empty strict domain, and unmaps them at once.
#[derive(Drop)]
pub(crate) struct Listing {
    driver: Driver,
    segments: ArrayVec<Segment, MOST_SEGMENTS>,
}

impl Listing {
    pub(crate) fn new(alloc: Global) -> Result<Listing, Trouble> {
        let mut segments = ArrayVec::new();
        for index in 0..SEGMENTS {
            let frame = UNALIGNED_FRAME + STRIDE * index;
            check(segments.try_push(Segment { frame, pages: 1 }).is_ok())?;
        }
        Ok(Listing {
            driver: Driver::new(alloc, STRICT)?,
            segments,
        })
    }
}

impl Work for Listing {
    fn once(&mut self) -> Result<(), Trouble> {
        let mapped = self.driver.map_list(&self.segments, 0)?;
        check(mapped == PAGE_BYTES)?;
        let released = self.driver.unmap(mapped, SEGMENTS)?;
        check(released == 0)
    }
}

// Where the first leaf of 2 MiB of an empty domain is mapped.
const FIRST_LARGE_LEAF: u64 = SPAN_PAGES * PAGE_BYTES;

/// Maps a leaf of 2 MiB, unmaps its first page, which splits it, maps that page again, into the table that the split
/// made, and unmaps them all.
#[derive(Drop)]
pub(crate) struct Splitting {
    driver: Driver,
}

impl Splitting {
    pub(crate) fn new(alloc: Global) -> Result<Splitting, Trouble> {
        Ok(Splitting {
            driver: Driver::new(alloc, STRICT)?,
        })
    }
}

impl Work for Splitting {
    fn once(&mut self) -> Result<(), Trouble> {
        let leaf = self.driver.map(0x1000, SPAN_PAGES, MOST_ORDER)?;
        check(leaf == FIRST_LARGE_LEAF)?;
        self.driver.unmap(leaf, 1)?;
        let page = self.driver.map(UNALIGNED_FRAME, 1, MOST_ORDER)?;
        check(page == leaf)?;
        let released = self.driver.unmap(leaf, SPAN_PAGES)?;
        check(released == 0)
    }
}

/// The byte address of the page that an empty domain maps first: the first that can be mapped, or of a 48-bit domain the first
/// that no 39-bit one has.
pub(crate) fn first_address(width: Width) -> u64
    ensures { result < ADDRESSES_END }
{
    match width {
        Width::W39 => PAGE_BYTES,
        Width::W48 => Width::W39.addresses_end(),
    }
}

/// How a lazy domain is flushed.
#[derive(Clone, Copy)]
pub(crate) enum Flushing {
    /// By one call, which runs the unit.
    AtOnce,
    /// Begun, done by two steps of the unit, and reaped.
    InTwoHalves,
}

/// Maps one page into a lazy domain and unmaps it, and flushes once a number of pages are put off. No page is handed out
/// again before that.
#[derive(Drop)]
pub(crate) struct Deferred {
    driver: Driver,
    width: Width,
    flushing: Flushing,
    put_off: u64,
    most: u64,
    ghost few: { put_off < MOST_RECORDS },
}

impl Deferred {
    /// The pages that are put off before a flush: at least one, and at most as many as a domain keeps.
    pub(crate) fn new(
        alloc: Global,
        setting: Setting,
        most: u64,
        flushing: Flushing,
    ) -> Result<Deferred, Trouble> {
        Ok(Deferred {
            driver: Driver::new(alloc, setting)?,
            width: setting.width,
            flushing,
            put_off: 0,
            most,
        })
    }
}

impl Work for Deferred {
    fn once(&mut self) -> Result<(), Trouble> {
        let mapped = self.driver.map(UNALIGNED_FRAME, 1, 0)?;
        check(mapped == first_address(self.width) + PAGE_BYTES * self.put_off)?;
        let released = self.driver.unmap(mapped, 1)?;
        check(released == 0)?;
        if self.put_off + 1 < self.most.min(MOST_RECORDS) {
            self.put_off += 1;
            return Ok(());
        }
        let put_off = self.put_off + 1;
        self.put_off = 0;
        let released = match self.flushing {
            Flushing::AtOnce => self.driver.flush()?,
            Flushing::InTwoHalves => self.driver.flush_in_two_halves()?,
        };
        check(released == put_off)
    }
}

/// Maps one page into a lazy domain and unmaps it. No call flushes: the domain does by itself, at an unmap for which it has no
/// record left.
#[derive(Drop)]
pub(crate) struct SelfFlushing {
    driver: Driver,
    put_off: u64,
    ghost few: { put_off ≤ MOST_RECORDS },
}

impl SelfFlushing {
    pub(crate) fn new(alloc: Global) -> Result<SelfFlushing, Trouble> {
        Ok(SelfFlushing {
            driver: Driver::new(alloc, LAZY)?,
            put_off: 0,
        })
    }
}

impl Work for SelfFlushing {
    fn once(&mut self) -> Result<(), Trouble> {
        let mapped = self.driver.map(UNALIGNED_FRAME, 1, 0)?;
        let released = self.driver.unmap(mapped, 1)?;
        if self.put_off < MOST_RECORDS {
            self.put_off += 1;
            return check(released == 0);
        }
        self.put_off = 1;
        check(released == MOST_RECORDS)
    }
}
