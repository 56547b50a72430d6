//! Lines of traces.

ghost use Rattle.std.specs.Prelude.{◌≡◌, ◌==◌, ◌<◌, length, nat_eq, codes, IfSome, MatchOption, None};
ghost use Rattle.std.specs.Cmp.Lexicographic.{pointwise};
ghost use Rattle.std.specs.List.{position_from};
ghost use Rattle.checker.specs.Traces.{both, event_at, event_said, is_entered};

use dmatypes::{Event, Refusal, Reply, parse_line, parse_reply};

/// The most bytes of a line of a trace, its newline left out (own). The longest lines of a script and of a reply are shorter together.
pub const LONGEST_TRACE_LINE: usize = 600;

/// The event that a line of a trace says, its newline left out. It is a line of a script, the four bytes ` => `, and the line that
/// is written for a reply. `None` exactly where it says none, as a line that is too long. A reply that the history is full makes no
/// event.
#[tactic(auto, unfolding(crate::specs::Traces::event_said))]
pub fn parse_event(line: &[u8]) -> Option<Event>
    ensures { result ≡ event_said line.now }
{
    if line.len() > LONGEST_TRACE_LINE {
        return None;
    }
    let place = first_equals(line)?;
    let (front, back) = parts_at(line, place)?;
    // Here and nowhere below, so that the call is moved once: it has room for all segments.
    let call = parse_line(front)?;
    let reply = parse_reply(back)?;
    if !is_entered(reply) {
        return None;
    }
    Some(Event { call, reply })
}

fn first_equals(line: &[u8]) -> Option<usize>
    ensures value { result ≡ position_from (λ b. b == 61) 0 line.now }
    ensures within { IfSome result (λ i. i < length line.now) }
{
    line.iter().position(|b| *b == b'=')
}

// What stands before the arrow whose `=` is at a place, and behind it.
#[inline(always)]
fn parts_at(line: &[u8], place: usize) -> Option<(&[u8], &[u8])>
    requires { place < length line.now }
    ensures { MatchOption result (event_at line.now place ≡ None) (λ r. event_at line.now place ≡ both r.0.now r.1.now) }
{
    if place == 0 || line.len() - (place - 1) < 4 {
        return None;
    }
    let (front, rest) = line.split_at(place - 1);
    let (arrow, back) = rest.split_at(4);
    if !is_arrow(arrow) {
        return None;
    }
    Some((front, back))
}

fn is_arrow(text: &[u8]) -> bool
    ensures { result ≡ pointwise nat_eq text.now (codes " => ") }
{
    text == b" => ".as_slice()
}

fn is_entered(reply: Reply) -> bool
    ensures { result ≡ is_entered reply }
{
    !matches!(reply, Reply::Refused(Refusal::HistoryFull))
}
