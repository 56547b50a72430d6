//! What kinds of traffic there are.

use crate::random::Random;
use dmatypes::{Mode, Width};

/// What the devices and their drivers do.
#[derive(Clone, Copy, Debug, PartialEq, Eq)]
pub(crate) enum Profile {
    /// Packets of a network: small buffers, each mapped, reached once and unmapped nearly in the order of the maps.
    Packets(Mode),
    /// Disks: lists of segments, each reached three times, in lazy domains.
    Disks,
    /// A guest under a monitor: large maps beside small ones in 48-bit domains of a unit with Caching Mode, unmapped in parts.
    Guest,
    /// Ranges of mixed lengths and alignments, unmapped at random, so that holes lie between them.
    Holes,
    /// 255 pages mapped, and then unmapped, again and again.
    Bursts,
}

/// A range to map.
#[derive(Clone, Copy, Debug)]
pub(crate) struct Shape {
    pub(crate) pages: u64,
    pub(crate) order: u64,
}

impl Profile {
    /// The mode of the domains.
    pub(crate) fn mode(self) -> Mode {
        match self {
            Profile::Packets(mode) => mode,
            Profile::Disks => Mode::Lazy,
            Profile::Guest | Profile::Holes | Profile::Bursts => Mode::Strict,
        }
    }

    /// The width of a domain.
    pub(crate) fn width(self, domain: u64) -> Width {
        match self {
            Profile::Guest => Width::W48,
            Profile::Holes | Profile::Bursts if domain % 2 == 0 => Width::W48,
            _ => Width::W39,
        }
    }

    /// Whether the unit has Caching Mode.
    pub(crate) fn is_caching(self) -> bool {
        self == Profile::Guest
    }

    /// How many table frames the manager has.
    pub(crate) fn frames(self) -> u64 {
        match self {
            Profile::Packets(_) | Profile::Disks => 1024,
            Profile::Guest | Profile::Holes | Profile::Bursts => 4096,
        }
    }

    /// How many domains there are, with a device each.
    pub(crate) fn domains(self) -> u64 {
        match self {
            Profile::Packets(_) => 4,
            Profile::Disks | Profile::Guest | Profile::Holes | Profile::Bursts => 2,
        }
    }

    /// How many ranges of a domain are live.
    pub(crate) fn live(self) -> usize {
        match self {
            Profile::Packets(_) => 256,
            Profile::Disks => 64,
            Profile::Guest => 40,
            Profile::Holes => 320,
            Profile::Bursts => 255,
        }
    }

    /// How many requests of devices come with a map.
    pub(crate) fn requests(self) -> u64 {
        match self {
            Profile::Packets(_) | Profile::Holes => 1,
            Profile::Disks => 3,
            Profile::Guest => 4,
            Profile::Bursts => 0,
        }
    }

    /// The next range to map.
    pub(crate) fn shape(self, random: &mut Random) -> Shape {
        match self {
            Profile::Packets(_) => match random.below(10) {
                0 => aligned(1),
                1 => aligned(2),
                2 => aligned(4),
                _ => aligned(0),
            },
            Profile::Guest => match random.below(8) {
                0 => Shape {
                    pages: 4096,
                    order: 9,
                },
                1 | 2 => aligned(9),
                _ => Shape {
                    pages: random.below(16).saturating_add(1),
                    order: 0,
                },
            },
            Profile::Holes => {
                let most = random.below(10);
                Shape {
                    pages: random.below(1 << most.min(9)).saturating_add(1),
                    order: random.below(10),
                }
            }
            Profile::Disks | Profile::Bursts => aligned(0),
        }
    }
}

// 2^`order` pages at a multiple of so many.
fn aligned(order: u64) -> Shape {
    Shape {
        pages: 1 << order.min(9),
        order,
    }
}
