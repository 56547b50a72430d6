//! Laws of the definitions that the contracts cite. Each function does nothing: its contract is the law.

ghost use Rattle.checker.specs.Traces.{EventTextIsSaid, SaidIsEventText};
ghost use Rattle.checker.specs.Verdicts.{OneVerdict};

/// A history has no two verdicts.
pub fn one_verdict()
    ensures { OneVerdict }
{}

/// A text that says a call, ` => ` and what is written for a reply say the event of both.
pub fn event_text_is_said()
    ensures { EventTextIsSaid }
{}

/// A line of a trace says no other event.
pub fn said_is_event_text()
    ensures { SaidIsEventText }
{}
