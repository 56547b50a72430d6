//! What the definitions of the contracts say in other words, each as the contract of a function that does
//! nothing.

ghost use Rattle.std.specs.Prelude.{◌≡◌, ◌↔◌, ℕ, ◌-◌, ◌*◌, ◌/◌, ◌<◌, ◌≤◌, Bool, List, Some, None};
ghost use Rattle.vtdbits.specs.Translation.{target};
ghost use Rattle.vtdbits.specs.declared.entry.SsEntry.TheVariants.{Table};
ghost use Rattle.tables.specs.Tree.{Memory, span, states};
ghost use Rattle.tables.specs.Pool.{word, memory};
ghost use Rattle.tables.specs.Walks.{Walks};
ghost use Rattle.tables.specs.Lacks.{tables_lacking};
ghost use Rattle.tables.specs.ByEntries.{entry_lacks};

/// A tree states a frame and rights of a page exactly where the walk along its words relates them.
pub fn walks_are_stated()
    ensures { (words : List ℕ) (level table page frame rights : ℕ) →
        Walks (word words) level table page frame rights ↔ (states (memory words) level table page ≡ Some (target frame rights)) }
{}

/// The spans without a table that a map counts, level by level, are as many as the tables that the entries
/// on the pages' ways lack, counted down from the root. The pages are absent, in one span of the tree.
pub fn lacks_counts_entries()
    ensures { (m : Memory) (level root : ℕ) (large : ℕ → Bool) (from to : ℕ) → from < to → from / span level ≡ (to - 1) / span level
        → ((p : ℕ) → from ≤ p → p < to → states m level root p ≡ None)
        → tables_lacking m level root large from to ≡ entry_lacks m level (Table root) large from to (from / span level * span level) }
{}
