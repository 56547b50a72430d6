//! Retired records.

ghost use Rattle.std.specs.Prelude.{◌≡◌, ◌+◌};

use crate::reaching::{host_by, reaches_by};
use crate::taken::Taken;
use dmatypes::{Access, PAGE_BYTES, PageRange, Reply};

/// Pages that were unmapped and may still be used: what was mapped there, and how many flushes were begun when they were unmapped.
#[derive(Drop)]
pub(crate) struct Record {
    pub(crate) range: PageRange,
    // The page behind the range, which each map asks of each record.
    end: u64,
    pub(crate) mark: u64,
    targets: Taken,
    ghost ends: { end ≡ range.first + range.pages },
}

impl Record {
    ghost use Rattle.std.specs.Prelude.{◌≡◌, MatchOption, IsTrue, [], ◌∷◌};
    ghost use Rattle.dmatypes.specs.declared.reply.Reply.TheVariants.{Host};
    ghost use Rattle.dmatypes.specs.Page.{IsWithin};
    ghost use Rattle.dmatypes.specs.World as world;
    ghost use Rattle.checker.specs.Reaching.{hosts_in, reaches};
    ghost use Rattle.checker.specs.World.{do_meet, retired_of};

    /// The record of a range that was unmapped.
    pub(crate) fn new(range: PageRange, mark: u64, targets: Taken) -> Record
        ensures range { result.range ≡ range }
        ensures mark { result.mark ≡ mark }
        ensures targets { result.targets ≡ targets }
    {
        Record {
            range,
            end: range.first() + range.pages(),
            mark,
            targets,
        }
    }

    /// Whether it has a page in common with a range.
    pub(crate) fn meets(&self, range: PageRange) -> bool
        ensures { result ≡ do_meet self.now.range range }
    {
        self.range.first() < range.first() + range.pages() && range.first() < self.end
    }

    /// Whether it was there before the flush of this number was begun.
    pub(crate) fn is_before(&self, number: u64) -> bool
        ensures { result ≡ world.is_before number (retired_of self.now) }
    {
        self.mark < number
    }

    /// Whether a reply is the host address that a request comes to by what was mapped at its page, where that is permitted.
    pub(crate) fn reaches(&self, address: u64, access: Access, reply: Reply) -> bool
        ensures { result ≡ reaches address access reply self.now }
    {
        self.holds(address / PAGE_BYTES)
            && reaches_by(
                self.targets.get(address / PAGE_BYTES),
                address,
                access,
                reply,
            )
    }

    /// The host address that a request comes to by what was mapped at its page, where that is permitted.
    pub(crate) fn host(&self, address: u64, access: Access) -> Option<u64>
        ensures { MatchOption result (hosts_in address access self.now ≡ []) (λ host. hosts_in address access self.now ≡ Host host ∷ []) }
    {
        if !self.holds(address / PAGE_BYTES) {
            return None;
        }
        host_by(self.targets.get(address / PAGE_BYTES), address, access)
    }

    /// The last page that it has in common with a range.
    pub(crate) fn last_shared(&self, range: PageRange) -> u64
        requires { IsTrue (do_meet self.now.range range) }
        ensures here { IsWithin self.now.range result }
        ensures there { IsWithin range result }
    {
        let here = self.end - 1;
        let there = range.first() + (range.pages() - 1);
        here.min(there)
    }

    /// Whether a page is in its range.
    pub(crate) fn holds(&self, page: u64) -> bool
        ensures { result ≡ world.is_within self.now.range page }
    {
        self.range.first() <= page && page < self.end
    }
}
