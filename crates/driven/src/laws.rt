//! What a call changes of the words that a unit reads, what it submits to the queue, what a walk finds meanwhile, and what a detach with a
//! flush leaves in caches. Each function does nothing: its contract is the law, and its proof is from the public contracts of `engine` and
//! the crates below it.

ghost use Rattle.driven.specs.Laws.{CallsChangeTheseWords, CallsSubmitAtMostOne, ContextsAreOldOrNew, DetachesAllForget};
ghost use Rattle.driven.specs.Laws.{EachStageIsOldOrNew, EffectsAreOldOrNew, EffectsFillFirst, EffectsDoneAreReadInOrder, EffectsLeadThere};

/// Which words of table frames a call changes.
pub fn calls_change_these_words()
    ensures { CallsChangeTheseWords }
{}

/// A call submits nothing, or one descriptor and its wait, and what was submitted before stands behind them in the ring.
pub fn calls_submit_at_most_one()
    ensures { CallsSubmitAtMostOne }
{}

/// Whatever of a call's effects has reached memory when a walk reads it, each page is found as before the call or as after it. It asks
/// only that what is brought after a barrier reaches memory after what is brought before it.
pub fn effects_are_old_or_new()
    ensures found { EffectsAreOldOrNew }
    ensures filled { EffectsFillFirst }
{}

/// Whoever does a call's effects in their order keeps the barriers: each page is found as before the call or as after it by a walk that
/// reads each level no sooner than the level above, however many of the effects are done then, the last of them maybe in part.
pub fn each_stage_is_old_or_new()
    ensures order { EffectsDoneAreReadInOrder }
    ensures found { EachStageIsOldOrNew }
{}

/// Whatever halves of a context entry have reached memory, a unit reads it as before the call or as after it. It asks only that the half
/// that is told to go first does.
pub fn contexts_are_old_or_new()
    ensures { ContextsAreOldOrNew }
{}

/// Where all that is brought has reached memory, each word is read as after the call.
pub fn effects_lead_there()
    ensures { EffectsLeadThere }
{}

/// Once both descriptors of a detach with its flush are done, nothing cached is of the domain that the device had, be its pages live or
/// retired, and no cached context is the device's.
pub fn detaches_all_forget()
    ensures { DetachesAllForget }
{}
