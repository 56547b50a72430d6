//! Which addresses a map may be given.

ghost use Rattle.std.specs.Prelude.{◌≡◌, ℕ, MatchOption};
ghost use Rattle.dmatypes.specs.Conditions.{total_pages};
ghost use Rattle.dmatypes.specs.Page.{IsPageRange, byte_address};
ghost use Rattle.checker.specs.Pages.{range};

use crate::asking::pages_of;
use crate::checker::Checker;
use crate::searching::power;
use dmatypes::{PAGE_BYTES, PageRange, Reply, Segment};
use std::alloc::AllocError;

impl Checker {
    ghost use Rattle.std.specs.Prelude.{◌≡◌, ◌↔◌, ◌+◌, ◌%◌, ◌^◌, ◌<◌, ◌≤◌, IsTrue, IfOk, IsSomeAnd, MatchOption};
    ghost use Rattle.dmatypes.specs.declared.limits.TheConstants.{MOST_ORDER};
    ghost use Rattle.dmatypes.specs.declared.reply.Reply.TheVariants.{Mapped};
    ghost use Rattle.dmatypes.specs.Conditions.{NoneStands, StandsAtMap, total_pages};
    ghost use Rattle.dmatypes.specs.World.{AreFreePages};
    ghost use Rattle.checker.specs.Judging.{JudgesMap, MayMap, MayMapAt};
    ghost use Rattle.checker.specs.Refusing.{plain_conditions};
    ghost use Rattle.checker.specs.World.{world_of};

    /// Judges what a map was answered, where that isn't a refusal.
    pub(crate) fn judge_map(
        &mut self,
        domain: u64,
        segments: &[Segment],
        order: u64,
        rights: u64,
        reply: Reply,
    ) -> Result<bool, AllocError>
        ensures { IfOk result (λ legal. JudgesMap (world_of self.old) domain segments.now order rights reply legal (world_of self.new)) }
    {
        let Some(first) = self.mapped_at(domain, segments, order, rights, reply) else {
            return Ok(false);
        };
        self.map(domain, first, segments, rights)?;
        Ok(true)
    }

    // The first page that a map was given, where it may be.
    fn mapped_at(
        &self,
        domain: u64,
        segments: &[Segment],
        order: u64,
        rights: u64,
        reply: Reply,
    ) -> Option<u64>
        ensures { MatchOption result
            (MayMap (world_of self.now) domain segments.now order rights reply → ⊥)
            (MayMapAt (world_of self.now) domain segments.now order rights reply) }
    {
        if self
            .plain_map_refusal(domain, segments, order, rights)
            .is_some()
        {
            return None;
        }
        match reply {
            Reply::Mapped(address) => self.free_at(domain, segments, order, rights, address),
            _ => None,
        }
    }

    // The first page at an address that a map was given, where it may be, if no condition stands that needs no search.
    fn free_at(
        &self,
        domain: u64,
        segments: &[Segment],
        order: u64,
        rights: u64,
        address: u64,
    ) -> Option<u64>
        requires { NoneStands (StandsAtMap (world_of self.now) domain segments.now order rights) plain_conditions }
        ensures { MatchOption result
            (MayMap (world_of self.now) domain segments.now order rights (Mapped address) → ⊥)
            (MayMapAt (world_of self.now) domain segments.now order rights (Mapped address)) }
    {
        match range_of(address, segments) {
            None => None,
            Some(range) => {
                if self.is_free_at(domain, range, order) {
                    Some(range.first())
                } else {
                    None
                }
            }
        }
    }

    // Whether a range of a domain begins at a multiple of 2^`order` and is free.
    fn is_free_at(&self, domain: u64, range: PageRange, order: u64) -> bool
        requires { order ≤ MOST_ORDER }
        ensures { IsTrue result ↔ (range.first % 2 ^ order ≡ 0)
            × IsSomeAnd ((world_of self.now).domains domain) (λ v. AreFreePages v range) }
    {
        if range.first() % power(order) != 0 {
            return false;
        }
        match self.domain(domain) {
            Some(domain) => domain.are_free(range),
            None => false,
        }
    }
}

// The range of the segments from an address on, where it is one.
fn range_of(address: u64, segments: &[Segment]) -> Option<PageRange>
    ensures { MatchOption result
        ((s : ℕ) → address ≡ byte_address s 0 → IsPageRange (range s (total_pages segments.now)) → ⊥)
        (λ r. (address ≡ byte_address r.first 0) × (r ≡ range r.first (total_pages segments.now)) × IsPageRange r) }
{
    let pages = pages_of(segments)?;
    if address % PAGE_BYTES != 0 {
        return None;
    }
    PageRange::new(address / PAGE_BYTES, pages)
}
