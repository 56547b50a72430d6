//! What the tests by which entries are dropped say of the pages themselves, as the contract of a function
//! that does nothing.

ghost use Rattle.std.specs.Prelude.{◌≡◌, ◌↔◌, ◌<◌, ℕ, true};
ghost use Rattle.dmatypes.specs.Block.{Block, Holds};
ghost use Rattle.unit.specs.Filters.{lie_in, meet, Meets};

/// Pages lie wholly in a block exactly where the block holds each of them, and meet it exactly where it holds
/// one of them.
pub fn blocks_are_sets_of_pages()
    ensures inside { (block : Block) (first pages : ℕ) → 0 < pages
        → (lie_in block first pages ≡ true) ↔ Holds block (record { first = first; pages = pages }) }
    ensures meeting { (block : Block) (first pages : ℕ) → 0 < pages
        → (meet block first pages ≡ true) ↔ Meets block (record { first = first; pages = pages }) }
{}
