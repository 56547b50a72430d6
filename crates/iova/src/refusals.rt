//! What a call is refused for where a space refuses.

ghost use Rattle.std.specs.Prelude.{◌≡◌};
ghost use Rattle.iova.specs.Refusals.{refusal_of_retire, refusal_of_take};

use crate::space::{RetireError, TakeError};
use dmatypes::Refusal;

impl From<TakeError> for Refusal {
    ghost from_gives = { λ error refusal. refusal ≡ refusal_of_take error };

    fn from(error: TakeError) -> Refusal {
        match error {
            TakeError::NoRange => Refusal::NoRange,
            TakeError::TooManyPieces => Refusal::TooManyPieces,
        }
    }
}

impl From<RetireError> for Refusal {
    ghost from_gives = { λ error refusal. refusal ≡ refusal_of_retire error };

    fn from(error: RetireError) -> Refusal {
        match error {
            RetireError::NotLive => Refusal::NotLive,
            RetireError::TooManyPieces => Refusal::TooManyPieces,
        }
    }
}
