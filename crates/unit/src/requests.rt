//! What serves a request: a context, and a translation.

ghost use Rattle.std.specs.Prelude.{◌≡◌, ◌^◌, ◌<◌, ◌≤◌, ◌==◌, ◌&&◌, IfSome, IfNone, IsTrue, find, length, slice_get};
ghost use Rattle.tables.specs.Pool.{memory};
ghost use Rattle.unit.specs.Walking.{hold, stated_by};
ghost use Rattle.vtdbits.specs.declared.context.ContextEntry.TheVariants.{Absent, Present};
ghost use Rattle.dmatypes.specs.World.{IsIn};
ghost use Rattle.unit.specs.Lists.{Gains};
ghost use Rattle.unit.specs.Answers.{HasNoContext, IsContextOf, IsLowest, IsRead, IsRememberedIn, IsStart, entries};

use crate::contexts::Contexts;
use crate::entries::{CachedContext, CachedFault, CachedNonLeaf};
use crate::leaves::MarkedLeaves;
use crate::lists::remember;
use crate::lookups::{first_context, is_absent, lowest_table};
use crate::recent::LEAVES;
use crate::walking::{NON_LEAVES, WalkRequest, walk};
use arrayvec::ArrayVec;
use dmatypes::{
    DEVICES, Frame, MOST_CACHED_CONTEXTS, MOST_CACHED_FAULTS, MOST_LEVELS, PAGES_END, Whim,
};
use tables::Pool;
use vtdbits::{ContextEntry, DeviceNumber, Translation};

/// The places for contexts.
pub(crate) const CONTEXTS: usize = MOST_CACHED_CONTEXTS;

/// The places for absent pages.
pub(crate) const FAULTS: usize = MOST_CACHED_FAULTS;

/// The context of a device: with a look the first cached one, else the row's, which is remembered with a fill.
pub(crate) fn context_of(
    cached: &mut ArrayVec<CachedContext, CONTEXTS>,
    contexts: &Contexts,
    device: u64,
    whim: Whim,
) -> Option<CachedContext>
    requires { device < DEVICES }
    ensures some { IfSome result (IsContextOf contexts.now cached.old.items whim.look device) }
    ensures none { IfNone result (HasNoContext contexts.now cached.old.items whim.look device) }
    ensures gains { IfSome result (λ c. Gains whim.fill (λ y. y ≡ c) cached.old.items cached.new.items) }
    ensures remembered { IsTrue whim.fill → IfSome result (λ c. IsIn c cached.new.items) }
    ensures unchanged { IfNone result (cached.new.items ≡ cached.old.items) }
    ensures few { length cached.old.items ≤ CONTEXTS → length cached.new.items ≤ CONTEXTS }
    ensures first { IsTrue whim.look → IfSome (find (λ c. c.device == device) cached.old.items) (λ c. result ≡ Some c) }
    ensures kept { IsTrue whim.look → IfSome (find (λ c. c.device == device) cached.old.items) (λ _. cached.new.items ≡ cached.old.items) }
{
    if whim.look {
        if let Some(context) = first_context(cached, device) {
            // Part by part: a copy of it whole takes what lies between the parts along.
            return Some(CachedContext {
                device: context.device,
                domain: context.domain,
                root: context.root,
                width: context.width,
            });
        }
    }
    let context = row_context(contexts, device)?;
    remember(cached, context, whim.fill, whim.look);
    Some(context)
}

// The row's context of a device.
fn row_context(contexts: &Contexts, device: u64) -> Option<CachedContext>
    requires { device < DEVICES }
    ensures some { IfSome result (λ c. (c.device ≡ device) × (slice_get contexts.now device ≡ Some (Present c.root c.width c.domain))) }
    ensures none { IfNone result (slice_get contexts.now device ≡ Some Absent) }
{
    let number = DeviceNumber::new(device).unwrap();
    match contexts.get(device) {
        ContextEntry::Absent => None,
        ContextEntry::Present {
            root,
            width,
            domain,
        } => Some(CachedContext {
            device: number,
            domain,
            root,
            width,
        }),
    }
}

/// What a translation is looked up for: a page of a context's domain, the whim of the request, and whether an absent page
/// may be remembered (Caching Mode).
#[derive(Clone, Copy)]
pub(crate) struct Lookup {
    pub(crate) context: CachedContext,
    pub(crate) page: u64,
    pub(crate) whim: Whim,
    pub(crate) caching: bool,
}

/// What a page of a context's domain is mapped to: with a look by the first cached leaf, else nothing where it is
/// remembered as absent, else by a walk. The leaf that the walk met and the tables that it passed are remembered with a
/// fill, and in Caching Mode that it found the page absent.
pub(crate) fn translation_of(
    pool: &Pool,
    leaves: &mut MarkedLeaves,
    tables: &mut ArrayVec<CachedNonLeaf, NON_LEAVES>,
    faults: &mut ArrayVec<CachedFault, FAULTS>,
    lookup: Lookup,
) -> Option<Translation>
    requires { lookup.page < PAGES_END }
    ensures read { IsRead (memory pool.now.words) lookup.context lookup.whim.look lookup.whim.fill lookup.caching lookup.page
        (entries leaves.old tables.old.items faults.old.items) (entries leaves.new tables.new.items faults.new.items) result }
    ensures remembered { IsTrue lookup.whim.fill → IfSome result (IsRememberedIn leaves.new lookup.context.domain lookup.page) }
    ensures few_leaves { length leaves.old ≤ LEAVES → length leaves.new ≤ LEAVES }
    ensures few_tables { length tables.old.items ≤ NON_LEAVES → length tables.new.items ≤ NON_LEAVES }
    ensures few_faults { length faults.old.items ≤ FAULTS → length faults.new.items ≤ FAULTS }
    ensures first { IsTrue lookup.whim.look
        → IfSome (find (λ l. (l.domain == lookup.context.domain) && hold l.first l.pages lookup.page) leaves.old)
        (λ l. result ≡ Some (stated_by lookup.page l)) }
{
    let Lookup {
        context,
        page,
        whim,
        caching,
    } = lookup;
    let domain = context.domain;
    if whim.look {
        if let Some(leaf) = leaves.first(domain, page) {
            return Some(leaf.translation(page));
        }
        if is_absent(faults, domain, page) {
            return None;
        }
    }
    let (level, table) = start_of(tables, context, page, whim.look);
    let asked = WalkRequest {
        domain,
        page,
        fill: whim.fill,
        is_lowest: whim.look,
    };
    let Some(leaf) = walk(pool, tables, asked, level, table) else {
        let fault = CachedFault { domain, page };
        remember(faults, fault, whim.fill && caching, whim.look);
        return None;
    };
    leaves.remember(leaf, whim.fill, whim.look);
    Some(leaf.translation(page))
}

// Where a walk for a page begins: with a look at the first cached table of the lowest level below the root's, else at the root.
fn start_of(cached: &[CachedNonLeaf], context: CachedContext, page: u64, look: bool) -> (u64, Frame)
    ensures start { IsStart cached.now look context page result.0 result.1 }
    ensures lowest { IsTrue look → IsLowest cached.now context.domain page result.0 }
    ensures low { 1 ≤ result.0 }
    ensures high { result.0 ≤ MOST_LEVELS }
{
    if look {
        if let Some(table) = lowest_table(cached, context.domain, page, context.width.levels()) {
            return (u64::from(table.level), table.frame);
        }
    }
    (context.width.levels(), context.root)
}
