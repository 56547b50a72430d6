//! The law of quiet: what a unit that isn't ours may still have cached once a call is done, of what it cached before the call and while
//! the words of the call reached memory. No list of the simulated unit is asked. Each function does nothing: its contract is the law, and
//! its proof is from the public contracts of `engine` and the crates below it.
#![tactic(auto)]

ghost use Rattle.quiet.specs.Laws.{CachedDuringIsOldOrNew, CachesStay, CallsAreOldOrNew, CallsReadSpelledWords, DetachesForget};
ghost use Rattle.quiet.specs.Laws.{DropsAreOldOrAbsent, DropsForget, FlushesForget, FullListsForget, LazyUnmapsRetireTables};
ghost use Rattle.quiet.specs.Laws.{MapsForgetFaults, MapCallsInPlaceAreOldOrNew, MapsOfOneForgetFaults, ReapsForget};
ghost use Rattle.quiet.specs.Laws.{RetiredTablesInPlaceStateNothing, RetiredTablesStateNothing, StrictUnmapsForgetPages};
ghost use Rattle.quiet.specs.Laws.{StrictUnmapsForgetSinglePages, StrictUnmapsForgetTables, UnmapCallsInPlaceAreOldOrNew};
ghost use Rattle.quiet.specs.Laws.{WalksFromTablesAreFromRoot, WalksFromTablesInPlaceAreFromRoot};

/// Whatever words of a call have reached memory, a walk finds each page of a domain as before the call or as after it. Of the domain that
/// a drop ends, as before or not at all.
pub fn calls_are_old_or_new()
    ensures calls { CallsAreOldOrNew }
    ensures dropped { DropsAreOldOrAbsent }
    ensures spelled { CallsReadSpelledWords }
{}

/// What is cached while a call is written is of the tree before it or after it.
pub fn cached_during_is_old_or_new()
    ensures { CachedDuringIsOldOrNew }
{}

/// What is cached of a domain's tree stays of it, but for an unmap in the domain.
pub fn caches_stay()
    ensures { CachesStay }
{}

/// A walk that begins at a cached table in its place goes on as one from the root.
pub fn walks_from_tables_are_from_root()
    ensures meanwhile { WalksFromTablesAreFromRoot }
    ensures in_place { WalksFromTablesInPlaceAreFromRoot }
{}

/// Where the tables lie in place, a walk that reads their words while a map writes them finds each page of a domain as before it or as
/// after it.
pub fn map_calls_in_place_are_old_or_new()
    ensures { MapCallsInPlaceAreOldOrNew }
{}

/// One that reads them while an unmap writes them, strict or lazy, finds each page so if it reads each level no sooner than the level
/// above.
pub fn unmap_calls_in_place_are_old_or_new()
    ensures { UnmapCallsInPlaceAreOldOrNew }
{}

/// Once a strict unmap's descriptor is done, no cached leaf holds an unmapped page: of those of the tree before it or after it, and of
/// those of a single page.
pub fn strict_unmaps_forget_pages()
    ensures leaves { StrictUnmapsForgetPages }
    ensures single { StrictUnmapsForgetSinglePages }
{}

/// Nor is a cached table one that was cut.
pub fn strict_unmaps_forget_tables()
    ensures { StrictUnmapsForgetTables }
{}

/// A cached table stays in its place at a lazy unmap, or is cut and waits in a record.
pub fn lazy_unmaps_retire_tables()
    ensures { LazyUnmapsRetireTables }
{}

/// While it waits there, a walk that begins at it finds nothing.
pub fn retired_tables_state_nothing()
    ensures meanwhile { RetiredTablesStateNothing }
    ensures in_place { RetiredTablesInPlaceStateNothing }
{}

/// Once a flush's descriptor is done, nothing cached holds a page or a table of a record.
pub fn flushes_forget()
    ensures { FlushesForget }
{}

/// The same of an unmap that finds the list of records full.
pub fn full_lists_forget()
    ensures { FullListsForget }
{}

/// Once a begun flush's descriptor is done, nothing cached until the reap holds a page or a table of a record that the reap releases.
pub fn reaps_forget()
    ensures { ReapsForget }
{}

/// Once a drop's descriptor is done, nothing cached is of the domain.
pub fn drops_forget()
    ensures { DropsForget }
{}

/// Once a detach's descriptor is done, no cached context is the device's.
pub fn detaches_forget()
    ensures { DetachesForget }
{}

/// Once a map's descriptor is done, in Caching Mode, none of its pages is cached as absent.
pub fn maps_forget_faults()
    ensures list { MapsForgetFaults }
    ensures one { MapsOfOneForgetFaults }
{}
