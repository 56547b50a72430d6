//! The law of moments: what a walk finds while the words of one call reach the memory that it reads. A unit may walk a tree of tables at
//! any moment of a call, and it reads each level at a moment of its own. Each function does nothing: its contract is the law, and its
//! proof is from the public contracts of `tables` alone.
#![tactic(auto)]

ghost use Rattle.moments.specs.Laws.{DestroysAreOldOrAbsent, LeavesInPlaceAreOldOrNewOrSingle, MapsAreOldOrNew, MapsInPlaceAreOldOrNew};
ghost use Rattle.moments.specs.Laws.{OneOrderMatters, OneOrderSuffices};
ghost use Rattle.moments.specs.Laws.{OthersAreSteady, UnmapsAreOldOrNew, UnmapsInPlaceAreOldOrNew, WordsReadAreSpelled};

/// Whatever words of a map have reached memory, each page is found as before it or as after it.
pub fn maps_are_old_or_new()
    ensures { MapsAreOldOrNew }
{}

/// Whatever words of an unmap have reached memory, each page is found as before it or as after it. It asks only that a table that
/// takes the place of a leaf of 2 MiB is written before the word that names it.
pub fn unmaps_are_old_or_new()
    ensures { UnmapsAreOldOrNew }
{}

/// A walk that reads the words where they lie while a map writes them, each level at any moment, finds each page as before it or as
/// after it.
pub fn maps_in_place_are_old_or_new()
    ensures { MapsInPlaceAreOldOrNew }
{}

/// A walk that reads the words where they lie while an unmap writes them, each level no sooner than the level above, finds each page as
/// before it or as after it.
pub fn unmaps_in_place_are_old_or_new()
    ensures found { UnmapsInPlaceAreOldOrNew }
    ensures leaves { LeavesInPlaceAreOldOrNewOrSingle }
{}

/// Each word that a walk reads meanwhile spells what it sees there.
pub fn words_read_are_spelled()
    ensures { WordsReadAreSpelled }
{}

/// Words that are written one after the other, such a table before the word that names it, are read so.
pub fn one_order_suffices()
    ensures { OneOrderSuffices }
{}

/// Without that order a page is found neither as before nor as after.
pub fn one_order_matters()
    ensures { OneOrderMatters }
{}

/// Whatever words of a tree's end have reached memory, each page is found as before it or not at all.
pub fn destroys_are_old_or_absent()
    ensures { DestroysAreOldOrAbsent }
{}

/// Meanwhile the pages of other trees are found as ever.
pub fn others_are_steady()
    ensures { OthersAreSteady }
{}
