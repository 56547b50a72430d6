//! Laws of the definitions that the contracts cite. Each function does nothing: its contract is the law.

ghost use Rattle.script.specs.Traced.{TraceIsFoundLegal};

/// What `trace` writes for a script, `traces::check` finds legal, where it is written whole and read to its end, by as many table
/// frames. No event of it is no step, and no line of it is bad.
pub fn trace_is_found_legal()
    ensures { TraceIsFoundLegal }
{}
