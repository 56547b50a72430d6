//! The calls of devices and their drivers, each chosen by what the earlier ones were answered.

use crate::profile::Profile;
use crate::random::Random;
use arrayvec::ArrayVec;
use dmatypes::{Access, Call, MOST_SEGMENTS, PAGE_BYTES, Segment, Whim};
use std::alloc::{AllocError, Global};
use std::collections::VecDeque;

// The rights to read and to write.
const BOTH: u64 = 3;

// The oldest ranges of a domain, among which one is unmapped out of turn.
const OLDEST: u64 = 32;

// Host frames for what is mapped begin here.
const FIRST_FRAME: u64 = 8192;

// How many host frames a map's first one is chosen from.
const FRAMES: u64 = 1 << 23;

/// What a call was answered, as far as the next calls depend on it.
#[derive(Clone, Copy, Debug, PartialEq, Eq)]
pub(crate) enum Answered {
    /// A range was mapped at this address.
    Mapped(u64),
    /// It was refused.
    Refused,
    /// Anything else.
    Done,
}

// A live range.
#[derive(Clone, Copy, Debug)]
struct Range {
    domain: u64,
    address: u64,
    pages: u64,
}

// What is to be remembered of a call until it is answered.
#[derive(Clone, Copy, Debug)]
enum Asked {
    Map { domain: u64, pages: u64 },
    Unmap { whole: Range, left: Option<Range> },
    Other,
}

/// The calls of a profile's devices and drivers.
#[derive(Drop)]
pub(crate) struct Traffic {
    profile: Profile,
    random: Random,
    // Calls that made domains and attached devices.
    begun: u64,
    // The domain whose turn it is, counted from 0, and how far its turn is.
    turn: u64,
    step: u64,
    // Ranges of a burst that were asked for.
    burst: u64,
    // Ranges that no request has reached yet, and how often the first of them was.
    fresh: VecDeque<Range>,
    reached: u64,
    live: [VecDeque<Range>; 4],
    asked: VecDeque<Asked>,
}

impl Traffic {
    /// The traffic of a seed.
    pub(crate) fn new(alloc: Global, profile: Profile, random: Random) -> Traffic {
        Traffic {
            profile,
            random,
            begun: 0,
            turn: 0,
            step: 0,
            burst: 0,
            fresh: VecDeque::new(alloc),
            reached: 0,
            live: [
                VecDeque::new(alloc),
                VecDeque::new(alloc),
                VecDeque::new(alloc),
                VecDeque::new(alloc),
            ],
            asked: VecDeque::new(alloc),
        }
    }

    /// The next call.
    pub(crate) fn next(&mut self) -> Result<Call, AllocError> {
        let domains = self.profile.domains();
        if self.begun < domains.saturating_mul(2) {
            let number = self.begun;
            self.begun = number.saturating_add(1);
            return self.begin(number);
        }
        if self.profile == Profile::Bursts {
            return self.burst_call();
        }
        if 0 < self.step && self.step <= self.profile.requests() {
            self.step = self.step.saturating_add(1);
            if let Some(call) = self.request()? {
                return Ok(call);
            }
        }
        // Until fewer are live than are to be: what is left of a range that was unmapped in part is one again.
        if self.step > 0 && self.is_full() {
            if let Some(range) = self.leaving() {
                return self.unmap(range);
            }
        }
        self.turn = self.turn.wrapping_add(1).checked_rem(domains).unwrap_or(0);
        self.step = 1;
        self.map()
    }

    /// Takes the answer to the oldest call that isn't answered.
    pub(crate) fn answer(&mut self, answered: Answered) -> Result<(), AllocError> {
        match (self.asked.pop_front(), answered) {
            (Some(Asked::Map { domain, pages }), Answered::Mapped(address)) => {
                let range = Range {
                    domain,
                    address,
                    pages,
                };
                match self.profile {
                    Profile::Guest | Profile::Bursts => self.keep(range),
                    _ => {
                        self.fresh.push_back(range)?;
                        Ok(())
                    }
                }
            }
            (Some(Asked::Unmap { whole, .. }), Answered::Refused) => self.keep(whole),
            (Some(Asked::Unmap { left, .. }), _) => match left {
                Some(range) => self.keep(range),
                None => Ok(()),
            },
            _ => Ok(()),
        }
    }

    // The calls that make the domains and attach their devices.
    fn begin(&mut self, number: u64) -> Result<Call, AllocError> {
        self.asked.push_back(Asked::Other)?;
        let domains = self.profile.domains();
        if number < domains {
            return Ok(Call::Domain {
                mode: self.profile.mode(),
                width: self.profile.width(number.saturating_add(1)),
            });
        }
        let device = number.saturating_sub(domains);
        Ok(Call::Attach {
            device,
            domain: device.wrapping_add(1),
        })
    }

    // The next call of bursts: maps, then unmaps in their order, in one domain and then in the next.
    fn burst_call(&mut self) -> Result<Call, AllocError> {
        if self.burst < self.profile.live() as u64 {
            self.burst += 1;
            return self.map();
        }
        let turn = self.turn;
        if let Some(range) = self.live_of(turn).pop_front() {
            return self.unmap(range);
        }
        self.burst = 1;
        self.turn = u64::from(turn == 0);
        self.map()
    }

    // A map in the domain whose turn it is, at a host frame by chance.
    fn map(&mut self) -> Result<Call, AllocError> {
        let domain = self.turn.wrapping_add(1);
        let frame = self.random.below(FRAMES).saturating_add(FIRST_FRAME);
        if self.profile == Profile::Disks {
            return self.map_list(domain, frame);
        }
        let shape = self.profile.shape(&mut self.random);
        self.asked.push_back(Asked::Map {
            domain,
            pages: shape.pages,
        })?;
        Ok(Call::Map {
            domain,
            // So aligned that leaves of 2 MiB are made where the order allows them.
            frame: frame >> shape.order.min(9) << shape.order.min(9),
            pages: shape.pages,
            order: shape.order,
            rights: BOTH,
        })
    }

    fn map_list(&mut self, domain: u64, frame: u64) -> Result<Call, AllocError> {
        let count = self.random.below(MOST_SEGMENTS as u64).saturating_add(1);
        let mut segments = ArrayVec::new();
        let mut all = 0u64;
        for index in 0..count {
            let pages = self.random.below(8).saturating_add(1);
            let frame = frame.wrapping_add(index.wrapping_mul(1024));
            let _ = segments.try_push(Segment { frame, pages });
            all = all.wrapping_add(pages);
        }
        self.asked.push_back(Asked::Map { domain, pages: all })?;
        Ok(Call::MapList {
            domain,
            order: 0,
            rights: BOTH,
            segments,
        })
    }

    // A device's request to a range that was mapped, where there is one.
    fn request(&mut self) -> Result<Option<Call>, AllocError> {
        let range = match self.profile {
            Profile::Guest => self.by_chance(),
            _ => self.first_fresh()?,
        };
        let Some(range) = range else {
            return Ok(None);
        };
        self.asked.push_back(Asked::Other)?;
        let page = self.random.below(range.pages);
        let offset = self.random.below(PAGE_BYTES / 8).wrapping_mul(8);
        let access = match self.random.below(2) {
            0 => Access::Read,
            _ => Access::Write,
        };
        Ok(Some(Call::Dma {
            device: range.domain.wrapping_sub(1),
            address: range
                .address
                .wrapping_add(page.wrapping_mul(PAGE_BYTES))
                .wrapping_add(offset),
            access,
            whim: Whim {
                look: true,
                fill: true,
            },
        }))
    }

    // The oldest range that wasn't reached as often as each is; it is kept once it was.
    fn first_fresh(&mut self) -> Result<Option<Range>, AllocError> {
        let Some(range) = self.fresh.front().copied() else {
            return Ok(None);
        };
        self.reached = self.reached.wrapping_add(1);
        if self.reached >= self.profile.requests() {
            self.reached = 0;
            let _ = self.fresh.pop_front();
            self.keep(range)?;
        }
        Ok(Some(range))
    }

    // Any live range of the domain whose turn it is.
    fn by_chance(&mut self) -> Option<Range> {
        let count = self.live_of(self.turn).len() as u64;
        let place = self.random.below(count) as usize;
        self.live_of(self.turn).get(place).copied()
    }

    // Whether as many ranges are live as are to be.
    fn is_full(&mut self) -> bool {
        self.live_of(self.turn).len() >= self.profile.live()
    }

    // The range that leaves next; it is live no more.
    fn leaving(&mut self) -> Option<Range> {
        let count = self.live_of(self.turn).len() as u64;
        let place = match self.profile {
            Profile::Guest | Profile::Holes => self.random.below(count),
            _ => match self.random.below(10) {
                0..=2 => self.random.below(OLDEST.min(count)),
                _ => 0,
            },
        };
        let live = self.live_of(self.turn);
        let last = live.front().copied()?;
        let chosen = live.get_mut(place as usize)?;
        let range = *chosen;
        *chosen = last;
        let _ = live.pop_front();
        Some(range)
    }

    // The unmap of a range, in a guest often of a part of it.
    fn unmap(&mut self, whole: Range) -> Result<Call, AllocError> {
        let (part, left) = match self.profile {
            Profile::Guest => self.parted(whole),
            _ => (whole, None),
        };
        self.asked.push_back(Asked::Unmap { whole, left })?;
        Ok(Call::Unmap {
            domain: part.domain,
            address: part.address,
            pages: part.pages,
        })
    }

    // A range, or a part of it at either end, and what is left.
    fn parted(&mut self, whole: Range) -> (Range, Option<Range>) {
        let rest = match self.random.below(2) {
            0 => self.random.below(whole.pages),
            _ => 0,
        };
        let pages = whole.pages.wrapping_sub(rest);
        if rest == 0 {
            return (whole, None);
        }
        let behind = self.random.below(2) == 0;
        let front = if behind { pages } else { rest };
        let first = Range {
            pages: front,
            ..whole
        };
        let second = Range {
            address: whole.address.wrapping_add(front.wrapping_mul(PAGE_BYTES)),
            pages: whole.pages.wrapping_sub(front),
            ..whole
        };
        if behind {
            (first, Some(second))
        } else {
            (second, Some(first))
        }
    }

    fn keep(&mut self, range: Range) -> Result<(), AllocError> {
        self.live_of(range.domain.wrapping_sub(1)).push_back(range)?;
        Ok(())
    }

    // The live ranges of a domain, counted from 0.
    fn live_of(&mut self, domain: u64) -> &mut VecDeque<Range> {
        &mut self.live[(domain % 4) as usize]
    }
}
