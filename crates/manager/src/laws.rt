//! A law of the definitions that the contracts cite. The function does nothing: its contract is the law.

ghost use Rattle.std.specs.Prelude.{◌≡◌, List, flat_map};
ghost use Rattle.dmatypes.specs.declared.reply.Event.{Event};
ghost use Rattle.manager.specs.Kept.{AreFrom, Epoch, events_of};

/// Epochs that follow one another from the beginning of a history to its end are, joined, this history.
pub fn epochs_are_whole()
    ensures { (history : List Event) (epochs : List Epoch) → AreFrom 0 history epochs → flat_map events_of epochs ≡ history }
{}
