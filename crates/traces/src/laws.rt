//! Laws of the definitions that the contracts cite. Each function does nothing: its contract is the law.

ghost use Rattle.traces.specs.Checked.{TracedIsLegal};

/// The trace of a legal history is found legal: no check of it answers that a line is bad or that an event is no step, and it counts the
/// history's events.
pub fn traced_is_legal()
    ensures { TracedIsLegal }
{}
