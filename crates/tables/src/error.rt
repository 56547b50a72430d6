//! What a call on a tree is refused for.

ghost use Rattle.std.specs.Prelude.{◌≡◌};
ghost use Rattle.dmatypes.specs.declared.refusal.Refusal.TheVariants as refusals;

use dmatypes::Refusal;
use thiserror::Error;

/// More frames are wanted than are free.
#[derive(Clone, Copy, Debug, PartialEq, Eq, Error)]
#[error("no free table frames")]
pub struct NoFrames;

// What a call is refused for where a tree refuses.
impl From<NoFrames> for Refusal {
    ghost from_gives = { λ _ refusal. refusal ≡ refusals.NoFrames };

    fn from(_: NoFrames) -> Refusal {
        Refusal::NoFrames
    }
}
