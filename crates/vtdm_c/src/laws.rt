//! Laws of the statuses that C is answered by, and of a base of the table frames. Each function does nothing: its contract is the law.

ghost use Rattle.std.specs.Prelude.{◌≡◌, ◌+◌, ◌<◌};
ghost use Rattle.dmatypes.specs.Numbers.{fault_number, refusal_number};
ghost use Rattle.dmatypes.specs.declared.refusal.Fault.{Fault};
ghost use Rattle.dmatypes.specs.declared.refusal.Refusal.{Refusal};
ghost use Rattle.dmatypes.specs.declared.refusal.Refusal.TheVariants as refusals;
ghost use Rattle.vtdm_c.specs.Hosts.{ContextsNameHostFrames, FramesAreJudgedAlike, FramesAreReached, LeavesStayAligned, NothingMovesAt0};
ghost use Rattle.vtdm_c.specs.Hosts.{PagesAreFoundInHostFrames, TablesBeginThere, WalksFindHostFrames, WordsNameHostFrames};
ghost use Rattle.vtdm_c.specs.Sound.{CallsKeepSessionsSound, CreationsAreSound, SessionsAreFoundOldOrNew};
ghost use Rattle.vtdm_c.specs.Units.{UnitsFindHostFrames};
ghost use Rattle.vtdm_c.specs.declared.answer.TheConstants.Answer.{ABSENT, BAD_ADDRESS, BAD_BASE, BAD_CACHE, BAD_FRAMES, FAULTS};
ghost use Rattle.vtdm_c.specs.declared.answer.TheConstants.Answer.{FEW_PLACES, MANY_SEGMENTS, NOT_ATTACHED, NOT_DRIVEN, NO_DESCRIPTOR};
ghost use Rattle.vtdm_c.specs.declared.answer.TheConstants.Answer.{NO_DEVICE, NO_DOMAIN, NO_MEMORY, NO_WAIT, NO_WORD, OK, PENDING, PRESENT};
ghost use Rattle.vtdm_c.specs.declared.answer.TheConstants.Answer.{SPENT};

/// A status names one thing: no two refusals have the same, and no two faults. Those of refusals lie behind that of a call
/// that was done and before those of faults, and these before those of the interface itself, which ascend too. What a reader
/// doesn't find has the status of the refusal for it.
pub fn statuses()
    ensures refusals { (r : Refusal) → (OK < refusal_number r) × (refusal_number r < FAULTS) }
    ensures refusals_apart { (r q : Refusal) → refusal_number r ≡ refusal_number q → r ≡ q }
    ensures faults { (f : Fault) → (FAULTS < FAULTS + fault_number f) × (FAULTS + fault_number f < ABSENT) }
    ensures faults_apart { (f g : Fault) → FAULTS + fault_number f ≡ FAULTS + fault_number g → f ≡ g }
    ensures own { (ABSENT < SPENT) × (SPENT < PRESENT) × (PRESENT < BAD_FRAMES) × (BAD_FRAMES < NO_MEMORY)
        × (NO_MEMORY < MANY_SEGMENTS) × (MANY_SEGMENTS < PENDING) × (PENDING < NO_WORD) × (NO_WORD < BAD_CACHE)
        × (BAD_CACHE < NO_DESCRIPTOR) × (NO_DESCRIPTOR < NOT_DRIVEN) × (NOT_DRIVEN < FEW_PLACES) × (FEW_PLACES < BAD_ADDRESS)
        × (BAD_ADDRESS < NO_WAIT) × (NO_WAIT < BAD_BASE) }
    ensures domain { NO_DOMAIN ≡ refusal_number refusals.NoDomain }
    ensures device { NO_DEVICE ≡ refusal_number refusals.NoDevice }
    ensures attached { NOT_ATTACHED ≡ refusal_number refusals.NotAttached }
{}

/// By its numbers the manager refuses exactly the host frames that it has to, for the same reason, and an address that it tells leads back
/// to them. A leaf of 2 MiB is one for both, and table frames follow one another from the base on. Where they begin at host frame 0 the
/// numbers are the host frames.
pub fn frames_by_numbers()
    ensures judged { FramesAreJudgedAlike }
    ensures reached { FramesAreReached }
    ensures aligned { LeavesStayAligned }
    ensures tables { TablesBeginThere }
    ensures same { NothingMovesAt0 }
{}

/// The words that are told name host frames, those of tables and those of contexts alike.
pub fn words_name_host_frames()
    ensures entries { WordsNameHostFrames }
    ensures contexts { ContextsNameHostFrames }
{}

/// A unit that walks such words, each read at its own moment, finds the tables, leaves and pages that a walk through the manager's own
/// words finds, by their host frames.
pub fn walks_find_host_frames()
    ensures walks { WalksFindHostFrames }
    ensures pages { PagesAreFoundInHostFrames }
{}

/// Whatever of a call's effects has reached host memory when a unit reads it there, the unit finds each page as before the call or as after
/// it, by its host frame. So it does each leaf and each table on its way, which it may cache. It asks only that host memory has the words
/// as C brings them, and that what is brought after a barrier reaches it after what is brought before it.
pub fn units_find_host_frames()
    ensures { UnitsFindHostFrames }
{}

/// A manager that C makes is one of which the laws speak, and stays so whatever calls are made. So while C brings what a call of it asks,
/// a unit finds each page as before the call or as after it. Beside what the call promises that asks only what C owes: that it keeps
/// barriers, and that host memory has the words.
pub fn managers_stay_sound()
    ensures made { CreationsAreSound }
    ensures called { CallsKeepSessionsSound }
    ensures found { SessionsAreFoundOldOrNew }
{}
