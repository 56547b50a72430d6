//! What stands against an event that is no step.

ghost use Rattle.std.specs.Prelude.{◌≡◌, IfOk, IfSome, IsSome, IsSomeAnd, IsTrue, Some};
ghost use Rattle.checker.specs.Allowed.{IsObstacle};
ghost use Rattle.checker.specs.World.{world_of};
ghost use Rattle.dmatypes.specs.Page.{IsPageOf, IsWithin, page_of, range_at};
ghost use Rattle.traces.specs.Findings.{AreAnswers, AreTold, IsNotLive, Names, WasSo, listed};

use checker::{Checker, PageState, pages_of};
use dmatypes::{Access, Call, Event, PAGE_BYTES, PageRange, Refusal, Reply};
use std::alloc::{AllocError, Global};

/// What stands against an event that is no step.
#[derive(Drop)]
pub struct Finding {
    /// The number of its line, from 1.
    pub number: u64,
    /// The event.
    pub event: Event,
    /// The refusal that is due, where one is.
    pub due: Option<Refusal>,
    /// Replies that would have been allowed. That is the refusal that is due, where one is. Else they are all answers to a device's
    /// request, and one to any other call, but none to a begin of a flush whose number has no 64 bits.
    pub allowed: Vec<Reply>,
    /// The page that it rests on, where it rests on one. It is of a request the page of its address, of a map's answer a page that
    /// isn't free, of an unmap a page that isn't live.
    pub page: Option<PageBefore>,
}

/// What a page of a domain was before the event.
#[derive(Clone, Copy, Debug, PartialEq, Eq)]
pub struct PageBefore {
    /// The domain's id.
    pub domain: u64,
    /// The page's number.
    pub page: u64,
    /// What it was.
    pub state: PageState,
}

impl Finding {
    ghost use Rattle.std.specs.Prelude.{IfOk};
    ghost use Rattle.checker.specs.World.{world_of};
    ghost use Rattle.traces.specs.Findings.{IsFinding};

    /// What stands against the event of a line, in the world before it.
    pub(crate) fn of(
        checker: &Checker,
        alloc: Global,
        number: u64,
        event: Event,
    ) -> Result<Finding, AllocError>
        ensures { IfOk result (IsFinding (world_of checker.now) number event) }
    {
        let due = checker.refusal_of(&event.call);
        let allowed = allowed_to(checker, alloc, &event.call)?;
        let page = page_before(checker, &event, due);
        Ok(Finding {
            number,
            event,
            due,
            allowed,
            page,
        })
    }
}

// Replies that are allowed to a call.
fn allowed_to(checker: &Checker, alloc: Global, call: &Call) -> Result<Vec<Reply>, AllocError>
    ensures { IfOk result (λ replies. AreTold (world_of checker.now) call.now replies.items) }
{
    match call {
        Call::Dma {
            device,
            address,
            access,
            ..
        } => answers_to(checker, alloc, call, *device, *address, *access),
        _ => list_of(alloc, checker.expected(call)),
    }
}

// Answers to a request, or the refusal.
fn answers_to(
    checker: &Checker,
    alloc: Global,
    call: &Call,
    device: u64,
    address: u64,
    access: Access,
) -> Result<Vec<Reply>, AllocError>
    ensures { IfOk result (λ replies. AreAnswers (world_of checker.now) call.now device address access replies.items) }
{
    match checker.refusal_of(call) {
        Some(refusal) => list_of(alloc, Some(Reply::Refused(refusal))),
        None => checker.allowed(alloc, device, address, access),
    }
}

// A list of one reply, or of none.
fn list_of(alloc: Global, reply: Option<Reply>) -> Result<Vec<Reply>, AllocError>
    ensures { IfOk result (λ replies. replies.items ≡ listed reply) }
{
    let mut replies = Vec::new(alloc);
    if let Some(reply) = reply {
        replies.push(reply)?;
    }
    Ok(replies)
}

// What the page was that an event rests on. A refusal rests on none but that a page isn't live.
fn page_before(checker: &Checker, event: &Event, due: Option<Refusal>) -> Option<PageBefore>
    ensures { IfSome result
        (λ page. Names (world_of checker.now) event.now.call event.now.reply page × WasSo (world_of checker.now) page) }
{
    if !matches!(due, None | Some(Refusal::NotLive)) {
        return None;
    }
    match (&event.call, event.reply) {
        (
            Call::Dma {
                device,
                address,
                ..
            },
            _,
        ) => state_before(
            checker,
            checker.domain_of_device(*device)?,
            *address / PAGE_BYTES,
        ),
        (Call::Map { domain, pages, .. }, Reply::Mapped(address)) => {
            taken(checker, *domain, address, *pages)
        }
        (
            Call::MapList {
                domain,
                segments,
                ..
            },
            Reply::Mapped(address),
        ) => taken(checker, *domain, address, pages_of(segments.as_slice())?),
        (
            Call::Unmap {
                domain,
                address,
                pages,
            },
            _,
        ) => absent(checker, *domain, *address, *pages),
        _ => None,
    }
}

// What a page was; none of a number that isn't one of a page.
fn state_before(checker: &Checker, domain: u64, page: u64) -> Option<PageBefore>
    ensures named { IfSome result (λ before. (before.domain ≡ domain) × (before.page ≡ page)) }
    ensures so { IfSome result (WasSo (world_of checker.now)) }
{
    let state = checker.page_state(domain, page)?;
    if state == PageState::Free && !is_free_page(checker, domain, page) {
        return None;
    }
    Some(PageBefore {
        domain,
        page,
        state,
    })
}

// Whether a number is that of a free page of a domain.
fn is_free_page(checker: &Checker, domain: u64, page: u64) -> bool
    ensures { IsTrue result → IsSome ((world_of checker.now).domains domain)
        → IsSomeAnd ((world_of checker.now).domains domain) (λ v. IsPageOf v.width page) }
{
    match PageRange::new(page, 1) {
        Some(range) => checker.obstacle(domain, range).is_none(),
        None => false,
    }
}

// A page of a map that isn't free.
fn taken(checker: &Checker, domain: u64, address: u64, pages: u64) -> Option<PageBefore>
    ensures page { IfSome result (λ before. (before.domain ≡ domain)
        × IsObstacle ((world_of checker.now).domains domain) (record { first = page_of address; pages = pages }) (Some before.page)) }
    ensures so { IfSome result (WasSo (world_of checker.now)) }
{
    let range = PageRange::new(address / PAGE_BYTES, pages)?;
    state_before(checker, domain, checker.obstacle(domain, range)?)
}

// The first page of an unmap that isn't live.
fn absent(checker: &Checker, domain: u64, address: u64, pages: u64) -> Option<PageBefore>
    ensures page { IfSome result (λ before. (before.domain ≡ domain) × IsWithin (range_at address pages) before.page
        × IsNotLive before.state) }
    ensures so { IfSome result (WasSo (world_of checker.now)) }
{
    let range = PageRange::new(address / PAGE_BYTES, pages)?;
    for page in range.first()..range.first() + range.pages() {
        let before = state_before(checker, domain, page)?;
        if !matches!(before.state, PageState::Live { .. }) {
            return Some(before);
        }
    }
    None
}
