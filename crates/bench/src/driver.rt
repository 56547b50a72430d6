//! A device driver's side of the manager.

ghost use Rattle.std.specs.Prelude.{◌<◌, OnOk};

use crate::trouble::{Trouble, check};
use arrayvec::ArrayVec;
use dmatypes::{
    Access, CALLS_END, Fault, LEAST_TABLE_FRAMES, MOST_SEGMENTS, Mode, Progress, Segment, Whim,
    Width,
};
use engine::State;
use std::alloc::Global;

/// So few table frames that one which isn't given back is soon missed.
pub(crate) const TABLE_FRAMES: u64 = LEAST_TABLE_FRAMES;

const DEVICE: u64 = 3;

/// A host frame after the table frames that is no multiple of a span's pages: what is mapped from it on has leaves of 4 KiB.
pub(crate) const UNALIGNED_FRAME: u64 = 0x1001;

/// The rights to read and to write.
pub(crate) const BOTH_RIGHTS: u64 = 3;

/// What a driver's domain and unit are like.
#[derive(Clone, Copy)]
pub(crate) struct Setting {
    pub(crate) mode: Mode,
    pub(crate) width: Width,
    /// Whether the unit has Caching Mode.
    pub(crate) caching: bool,
}

pub(crate) const STRICT: Setting = Setting {
    mode: Mode::Strict,
    width: Width::W39,
    caching: false,
};

pub(crate) const STRICT_WIDE: Setting = Setting {
    mode: Mode::Strict,
    width: Width::W48,
    caching: false,
};

pub(crate) const STRICT_CACHING: Setting = Setting {
    mode: Mode::Strict,
    width: Width::W39,
    caching: true,
};

pub(crate) const LAZY: Setting = Setting {
    mode: Mode::Lazy,
    width: Width::W39,
    caching: false,
};

pub(crate) const LAZY_WIDE: Setting = Setting {
    mode: Mode::Lazy,
    width: Width::W48,
    caching: false,
};

pub(crate) const LAZY_CACHING: Setting = Setting {
    mode: Mode::Lazy,
    width: Width::W39,
    caching: true,
};

/// A driver of a device that is attached to a domain of its own, in a state of its own.
#[derive(Drop)]
pub(crate) struct Driver {
    state: State,
    domain: u64,
}

impl Driver {
    pub(crate) fn new(alloc: Global, setting: Setting) -> Result<Driver, Trouble> {
        let mut state = State::with_caching(alloc, TABLE_FRAMES, setting.caching)?;
        let domain = state.domain(setting.mode, setting.width)?;
        state.attach(DEVICE, domain)?;
        Ok(Driver { state, domain })
    }

    /// Maps `pages` pages from a host frame on, at a multiple of 2^`order` pages, and answers the byte address
    /// of the first.
    pub(crate) fn map(&mut self, frame: u64, pages: u64, order: u64) -> Result<u64, Trouble> {
        ready(&self.state)?;
        Ok(
            self.state
                .map(self.domain, frame, pages, order, BOTH_RIGHTS)?,
        )
    }

    /// Maps the pages of all segments, one segment after the other, at a multiple of 2^`order` pages, and answers the
    /// byte address of the first.
    pub(crate) fn map_list(
        &mut self,
        segments: &ArrayVec<Segment, MOST_SEGMENTS>,
        order: u64,
    ) -> Result<u64, Trouble> {
        ready(&self.state)?;
        Ok(
            self.state
                .map_list(self.domain, order, BOTH_RIGHTS, segments)?,
        )
    }

    /// Flushes the domain, and answers how many retired records there were.
    pub(crate) fn flush(&mut self) -> Result<u64, Trouble> {
        ready(&self.state)?;
        Ok(self.state.flush(self.domain)?)
    }

    /// Begins a flush of the domain, lets the unit do its two descriptors, and reaps it: how many retired records there were.
    pub(crate) fn flush_in_two_halves(&mut self) -> Result<u64, Trouble> {
        ready(&self.state)?;
        let number = self.state.begin(self.domain)?;
        ready(&self.state)?;
        check(self.state.unit_step() == Progress::Did)?;
        ready(&self.state)?;
        check(self.state.unit_step() == Progress::Did)?;
        ready(&self.state)?;
        match self.state.reap(self.domain, number)? {
            Some(released) => Ok(released),
            None => Err(Trouble::Wrong),
        }
    }

    /// Unmaps `pages` pages from a byte address on, and answers how many retired records went for it.
    pub(crate) fn unmap(&mut self, address: u64, pages: u64) -> Result<u64, Trouble> {
        ready(&self.state)?;
        Ok(self.state.unmap(self.domain, address, pages)?.released())
    }

    /// The device reads at a byte address: the host byte address, or the fault.
    pub(crate) fn read(&mut self, address: u64, whim: Whim) -> Result<Result<u64, Fault>, Trouble> {
        ready(&self.state)?;
        let answer = self.state.dma(DEVICE, address, Access::Read, whim)?;
        Ok(answer.map(|hit| hit.host))
    }
}

/// Whether the state takes one more call.
pub(crate) fn ready(state: &State) -> Result<(), Trouble>
    ensures { OnOk result (state.now.calls < CALLS_END) }
{
    if state.calls() >= CALLS_END {
        return Err(Trouble::TooManyCalls);
    }
    Ok(())
}
