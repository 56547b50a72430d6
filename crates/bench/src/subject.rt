//! What is measured.

use crate::contending::{Managers, time_threads};
use crate::crowding::Crowded;
use crate::driver::{
    LAZY, LAZY_CACHING, LAZY_WIDE, STRICT, STRICT_CACHING, STRICT_WIDE, Setting, UNALIGNED_FRAME,
};
use crate::hitting::{Hits, time_hits};
use crate::loading::time_loads;
use crate::managing::{Locks, time_manager};
use crate::mapping::{Deferred, Flushing, Listing, Mapping, SelfFlushing, Shape, Splitting};
use crate::request::Request;
use crate::reusing::{Askew, Bursts, Choice, Holes, Reusing, Sizes};
use crate::scripting::{Lines, time_script};
use crate::storming::time_storm;
use crate::taking::Taking;
use crate::timing::{Tenths, time};
use crate::trouble::Trouble;
use crate::walking::Walking;
use dmatypes::{DEVICES, Width};
use std::alloc::Global;
use std::num::NonZeroU32;
use std::sync::Wait;
use std::thread::Threads;
use std::time::Clock;

/// One thing that is measured, with its name in the table.
#[derive(Clone, Copy)]
pub(crate) struct Subject {
    pub(crate) name: &'static str,
    kind: Kind,
}

#[derive(Clone, Copy)]
enum Kind {
    Map(Shape),
    MapList,
    MapCrowded,
    Split,
    // With a flush after this number of rounds.
    MapLazily(Setting, u64, Flushing),
    MapSelfFlushing,
    // Behind this number of live pieces.
    Take(u32),
    // While this number of ranges are live.
    Reuse(u32, Choice, Sizes),
    TakeBehindHoles,
    TakeBehindAskew,
    TakeBursts,
    // Of a tree of this width.
    Walk(Width),
    // Whether the unit may look in its caches.
    Request(bool),
    // Whether a device is attached to the domain.
    Manage(Locks, bool),
    // On this number of threads.
    Contend(u32, Managers),
    // On this number of threads.
    Load(u32),
    Hit(Hits),
    Script(Lines),
    // Of this number of drivers, and as many devices.
    Storm(u64),
}

// A device whose port doesn't hit.
const LAST_DEVICE: u64 = DEVICES - 1;

/// All that is measured, in the table's order. The maps begin at frames behind the table frames; leaves of 2 MiB
/// come where the frame is a multiple of a span's pages.
pub(crate) const SUBJECTS: [Subject; 68] = [
    Subject {
        name: "map and unmap 1 page",
        kind: Kind::Map(Shape {
            setting: STRICT,
            frame: UNALIGNED_FRAME,
            pages: 1,
            order: 0,
            address: 0x1000,
        }),
    },
    Subject {
        name: "map and unmap 1 page, 48 bits",
        kind: Kind::Map(Shape {
            setting: STRICT_WIDE,
            frame: UNALIGNED_FRAME,
            pages: 1,
            order: 0,
            address: 0x80_0000_0000,
        }),
    },
    Subject {
        name: "map and unmap 1 page, Caching Mode",
        kind: Kind::Map(Shape {
            setting: STRICT_CACHING,
            frame: UNALIGNED_FRAME,
            pages: 1,
            order: 0,
            address: 0x1000,
        }),
    },
    Subject {
        name: "map and unmap 16 pages",
        kind: Kind::Map(Shape {
            setting: STRICT,
            frame: UNALIGNED_FRAME,
            pages: 16,
            order: 4,
            address: 0x1_0000,
        }),
    },
    Subject {
        name: "map and unmap 512 pages, leaves of 4 KiB",
        kind: Kind::Map(Shape {
            setting: STRICT,
            frame: UNALIGNED_FRAME,
            pages: 512,
            order: 9,
            address: 0x20_0000,
        }),
    },
    Subject {
        name: "map and unmap 512 pages, a leaf of 2 MiB",
        kind: Kind::Map(Shape {
            setting: STRICT,
            frame: 0x1000,
            pages: 512,
            order: 9,
            address: 0x20_0000,
        }),
    },
    Subject {
        name: "map and unmap 4096 pages, leaves of 4 KiB",
        kind: Kind::Map(Shape {
            setting: STRICT,
            frame: UNALIGNED_FRAME,
            pages: 4096,
            order: 9,
            address: 0x20_0000,
        }),
    },
    Subject {
        name: "map and unmap 16 segments of 1 page",
        kind: Kind::MapList,
    },
    Subject {
        name: "map and unmap 1 page, full caches",
        kind: Kind::MapCrowded,
    },
    Subject {
        name: "split a leaf of 2 MiB, map the page again",
        kind: Kind::Split,
    },
    Subject {
        name: "map and unmap lazily, 256 a flush",
        kind: Kind::MapLazily(LAZY, 256, Flushing::AtOnce),
    },
    Subject {
        name: "map and unmap lazily, 256 a flush, 48 bits",
        kind: Kind::MapLazily(LAZY_WIDE, 256, Flushing::AtOnce),
    },
    Subject {
        name: "map and unmap lazily, 256, Caching Mode",
        kind: Kind::MapLazily(LAZY_CACHING, 256, Flushing::AtOnce),
    },
    Subject {
        name: "map and unmap lazily, 256 a flush in two halves",
        kind: Kind::MapLazily(LAZY, 256, Flushing::InTwoHalves),
    },
    Subject {
        name: "map and unmap lazily, 16 a flush",
        kind: Kind::MapLazily(LAZY, 16, Flushing::AtOnce),
    },
    Subject {
        name: "map and unmap lazily, flushed by itself",
        kind: Kind::MapSelfFlushing,
    },
    Subject {
        name: "take and release behind 16 live pieces",
        kind: Kind::Take(16),
    },
    Subject {
        name: "take and release behind 256 live pieces",
        kind: Kind::Take(256),
    },
    Subject {
        name: "take and release behind 1000 live pieces",
        kind: Kind::Take(1000),
    },
    Subject {
        name: "take, the oldest of 1 freed",
        kind: Kind::Reuse(1, Choice::Oldest, Sizes::One),
    },
    Subject {
        name: "take, the oldest of 16 freed",
        kind: Kind::Reuse(16, Choice::Oldest, Sizes::One),
    },
    Subject {
        name: "take, the oldest of 256 freed",
        kind: Kind::Reuse(256, Choice::Oldest, Sizes::One),
    },
    Subject {
        name: "take, the oldest of 1000 freed",
        kind: Kind::Reuse(1000, Choice::Oldest, Sizes::One),
    },
    Subject {
        name: "take, a random one of 1000 freed",
        kind: Kind::Reuse(1000, Choice::Random, Sizes::One),
    },
    Subject {
        name: "take 1 to 64 pages, the oldest of 256 freed",
        kind: Kind::Reuse(256, Choice::Oldest, Sizes::Mixed),
    },
    Subject {
        name: "take and release 2 pages behind 500 holes",
        kind: Kind::TakeBehindHoles,
    },
    Subject {
        name: "take 4 pages behind 500 askew, 1 before",
        kind: Kind::TakeBehindAskew,
    },
    Subject {
        name: "255 takes, then their 255 releases",
        kind: Kind::TakeBursts,
    },
    Subject {
        name: "walk of a tree, 3 levels",
        kind: Kind::Walk(Width::W39),
    },
    Subject {
        name: "walk of a tree, 4 levels",
        kind: Kind::Walk(Width::W48),
    },
    Subject {
        name: "dma answered by the caches",
        kind: Kind::Request(true),
    },
    Subject {
        name: "dma answered by a walk",
        kind: Kind::Request(false),
    },
    Subject {
        name: "map and unmap 1 page, under one guard",
        kind: Kind::Manage(Locks::Once, false),
    },
    Subject {
        name: "map and unmap 1 page, a lock each call",
        kind: Kind::Manage(Locks::EachCall, false),
    },
    Subject {
        name: "map and unmap for a device, under one guard",
        kind: Kind::Manage(Locks::Once, true),
    },
    Subject {
        name: "map and unmap for a device, a lock each call",
        kind: Kind::Manage(Locks::EachCall, true),
    },
    Subject {
        name: "map and unmap, 1 thread, one manager",
        kind: Kind::Contend(1, Managers::Shared),
    },
    Subject {
        name: "map and unmap, 2 threads, one manager",
        kind: Kind::Contend(2, Managers::Shared),
    },
    Subject {
        name: "map and unmap, 4 threads, one manager",
        kind: Kind::Contend(4, Managers::Shared),
    },
    Subject {
        name: "map and unmap, 1 thread, a manager each",
        kind: Kind::Contend(1, Managers::Own),
    },
    Subject {
        name: "map and unmap, 2 threads, a manager each",
        kind: Kind::Contend(2, Managers::Own),
    },
    Subject {
        name: "map and unmap, 4 threads, a manager each",
        kind: Kind::Contend(4, Managers::Own),
    },
    Subject {
        name: "two loads and a comparison, 1 thread",
        kind: Kind::Load(1),
    },
    Subject {
        name: "two loads and a comparison, 2 threads",
        kind: Kind::Load(2),
    },
    Subject {
        name: "two loads and a comparison, 4 threads",
        kind: Kind::Load(4),
    },
    Subject {
        name: "hit answered, 1 thread",
        kind: Kind::Hit(Hits::Own {
            threads: 1,
            stated: true,
            beside: None,
        }),
    },
    Subject {
        name: "hit answered, 2 threads",
        kind: Kind::Hit(Hits::Own {
            threads: 2,
            stated: true,
            beside: None,
        }),
    },
    Subject {
        name: "hit answered, 4 threads",
        kind: Kind::Hit(Hits::Own {
            threads: 4,
            stated: true,
            beside: None,
        }),
    },
    Subject {
        name: "hit unanswered, 1 thread",
        kind: Kind::Hit(Hits::Own {
            threads: 1,
            stated: false,
            beside: None,
        }),
    },
    Subject {
        name: "hit unanswered, 2 threads",
        kind: Kind::Hit(Hits::Own {
            threads: 2,
            stated: false,
            beside: None,
        }),
    },
    Subject {
        name: "hit unanswered, 4 threads",
        kind: Kind::Hit(Hits::Own {
            threads: 4,
            stated: false,
            beside: None,
        }),
    },
    Subject {
        name: "hit answered, 1 thread beside calls",
        kind: Kind::Hit(Hits::Own {
            threads: 1,
            stated: true,
            beside: Some(LAST_DEVICE),
        }),
    },
    Subject {
        name: "hit answered, 2 threads beside calls",
        kind: Kind::Hit(Hits::Own {
            threads: 2,
            stated: true,
            beside: Some(LAST_DEVICE),
        }),
    },
    Subject {
        name: "hit answered, 4 threads beside calls",
        kind: Kind::Hit(Hits::Own {
            threads: 4,
            stated: true,
            beside: Some(LAST_DEVICE),
        }),
    },
    Subject {
        name: "hit unanswered, 1 thread beside calls",
        kind: Kind::Hit(Hits::Own {
            threads: 1,
            stated: false,
            beside: Some(LAST_DEVICE),
        }),
    },
    Subject {
        name: "hit unanswered, 2 threads beside calls",
        kind: Kind::Hit(Hits::Own {
            threads: 2,
            stated: false,
            beside: Some(LAST_DEVICE),
        }),
    },
    Subject {
        name: "hit unanswered, 4 threads beside calls",
        kind: Kind::Hit(Hits::Own {
            threads: 4,
            stated: false,
            beside: Some(LAST_DEVICE),
        }),
    },
    Subject {
        name: "hit answered, 1 thread beside its own fills",
        kind: Kind::Hit(Hits::Own {
            threads: 1,
            stated: true,
            beside: Some(0),
        }),
    },
    Subject {
        name: "hit behind a lock, 1 thread",
        kind: Kind::Hit(Hits::Locked { threads: 1 }),
    },
    Subject {
        name: "hit behind a lock, 2 threads",
        kind: Kind::Hit(Hits::Locked { threads: 2 }),
    },
    Subject {
        name: "hit behind a lock, 4 threads",
        kind: Kind::Hit(Hits::Locked { threads: 4 }),
    },
    Subject {
        name: "a script's line: dma by the caches",
        kind: Kind::Script(Lines::Requests),
    },
    Subject {
        name: "a script's line: strict map, unmap",
        kind: Kind::Script(Lines::StrictPairs),
    },
    Subject {
        name: "a script's line: lazy, 4 pairs a flush",
        kind: Kind::Script(Lines::LazyPairs),
    },
    Subject {
        name: "a storm's call: 1 driver, 1 device",
        kind: Kind::Storm(1),
    },
    Subject {
        name: "a storm's call: 2 drivers, 2 devices",
        kind: Kind::Storm(2),
    },
    Subject {
        name: "a storm's call: 4 drivers, 4 devices",
        kind: Kind::Storm(4),
    },
    Subject {
        name: "a storm's call: 8 drivers, 8 devices",
        kind: Kind::Storm(8),
    },
];

impl Subject {
    /// For a storm whose calls take so much each: how many calls a second they are, and how many hits its devices make in it.
    pub(crate) fn in_a_second(&self, call: Tenths) -> Option<(u128, u128)> {
        let Kind::Storm(drivers) = self.kind else {
            return None;
        };
        let calls = call.in_a_second()?;
        let devices = drivers as u128;
        Some((calls, calls * devices / (2 * devices + 1)))
    }

    /// What each round takes by the clock. What is measured is made anew for them.
    pub(crate) fn measure<C: Clock + Wait + Threads + Sync>(
        &self,
        clock: &C,
        alloc: Global,
        rounds: NonZeroU32,
    ) -> Result<Tenths, Trouble> {
        match self.kind {
            Kind::Map(shape) => time(clock, rounds, &mut Mapping::new(alloc, shape)?),
            Kind::MapList => time(clock, rounds, &mut Listing::new(alloc)?),
            Kind::MapCrowded => time(clock, rounds, &mut Crowded::new(alloc)?),
            Kind::Split => time(clock, rounds, &mut Splitting::new(alloc)?),
            Kind::MapLazily(setting, most, flushing) => {
                let mut deferred = Deferred::new(alloc, setting, most, flushing)?;
                time(clock, rounds, &mut deferred)
            }
            Kind::MapSelfFlushing => time(clock, rounds, &mut SelfFlushing::new(alloc)?),
            Kind::Take(live) => time(clock, rounds, &mut Taking::new(alloc, live)?),
            Kind::Reuse(live, choice, sizes) => {
                let mut reusing = Reusing::new(alloc, live, choice, sizes)?;
                time(clock, rounds, &mut reusing)
            }
            Kind::TakeBehindHoles => time(clock, rounds, &mut Holes::new(alloc)?),
            Kind::TakeBehindAskew => time(clock, rounds, &mut Askew::new(alloc)?),
            Kind::TakeBursts => time(clock, rounds, &mut Bursts::new(alloc)?),
            Kind::Walk(width) => time(clock, rounds, &mut Walking::new(alloc, width)?),
            Kind::Request(look) => time(clock, rounds, &mut Request::new(alloc, look)?),
            Kind::Manage(locks, attached) => time_manager(clock, alloc, rounds, locks, attached),
            Kind::Contend(threads, managers) => time_threads(
                clock, alloc, rounds, threads, managers,
            ),
            Kind::Load(threads) => time_loads(clock, alloc, rounds, threads),
            Kind::Hit(hits) => time_hits(clock, alloc, rounds, hits),
            Kind::Script(lines) => time_script(clock, alloc, rounds, lines),
            Kind::Storm(drivers) => time_storm(clock, alloc, rounds, drivers),
        }
    }
}
