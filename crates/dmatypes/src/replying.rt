//! The lines of replies, read back.

ghost use Rattle.std.specs.Prelude.{◌≡◌, nat_eq, codes};
ghost use Rattle.std.specs.Cmp.Lexicographic.{pointwise};
ghost use Rattle.dmatypes.specs.Grammar.{ended};
ghost use Rattle.dmatypes.specs.Numbers.{numbered_fault, numbered_refusal};
ghost use Rattle.dmatypes.specs.Replying.{alone, faulted_of, refused_of, reply_of, says_reply, stepped_of, ticket_of};
ghost use Rattle.dmatypes.specs.Text.{words_of};

use crate::fields::{Fields, is_word};
use crate::refusal::{Fault, Refusal};
use crate::reply::{Progress, Reply};
use crate::reply_text::reply_line;
use arrayvec::ArrayString;

/// The reply that a line says, its newline left out: the one that this very line is written for; `None` exactly where it
/// is written for none.
#[tactic(auto, unfolding(crate::specs::Replying::says_reply))]
pub fn parse_reply(line: &[u8]) -> Option<Reply>
    ensures { result ≡ says_reply line.now }
{
    let reply = reply_in(Fields::new(line))?;
    if is_written(reply, line) {
        Some(reply)
    } else {
        None
    }
}

// Whether a line is the one that is written for a reply, its newline left out.
#[tactic(auto, unfolding(crate::specs::Text::line_of))]
fn is_written(reply: Reply, line: &[u8]) -> bool
    ensures { result ≡ pointwise nat_eq line.now (words_of reply) }
{
    let mut text = ArrayString::new();
    reply_line(reply, &mut text);
    match text.as_str().as_bytes().split_last() {
        Some((_, words)) => line == words,
        None => false,
    }
}

#[tactic(auto, unfolding(crate::specs::Replying::reply_of))]
fn reply_in(mut fields: Fields) -> Option<Reply>
    ensures { result ≡ reply_of fields.entry }
{
    let word = fields.next()?;
    if is_word(word, b"domain") {
        Some(Reply::Made(alone_in(fields)?))
    } else if is_word(word, b"ok") {
        no_more(Reply::Done, fields)
    } else if is_word(word, b"map") {
        Some(Reply::Mapped(alone_in(fields)?))
    } else if is_word(word, b"unmapped") {
        Some(Reply::Unmapped(alone_in(fields)?))
    } else if is_word(word, b"flushed") {
        Some(Reply::Flushed(alone_in(fields)?))
    } else if is_word(word, b"ticket") {
        ticket_in(fields)
    } else if is_word(word, b"unit") {
        stepped_in(fields)
    } else if is_word(word, b"reaped") {
        Some(Reply::Reaped(alone_in(fields)?))
    } else if is_word(word, b"pending") {
        no_more(Reply::Pending, fields)
    } else if is_word(word, b"host") {
        Some(Reply::Host(alone_in(fields)?))
    } else if is_word(word, b"fault") {
        faulted_in(fields)
    } else if is_word(word, b"refused") {
        refused_in(fields)
    } else {
        None
    }
}

fn no_more(reply: Reply, fields: Fields) -> Option<Reply>
    ensures { result ≡ ended reply fields.entry }
{
    if !fields.is_empty() {
        return None;
    }
    Some(reply)
}

#[tactic(auto, unfolding(crate::specs::Replying::alone))]
fn alone_in(mut fields: Fields) -> Option<u64>
    ensures { result ≡ alone fields.entry }
{
    let number = fields.number()?;
    if !fields.is_empty() {
        return None;
    }
    Some(number)
}

#[tactic(auto, unfolding(crate::specs::Replying::ticket_of))]
fn ticket_in(mut fields: Fields) -> Option<Reply>
    ensures { result ≡ ticket_of fields.entry }
{
    let domain = fields.number()?;
    let number = fields.number()?;
    if !fields.is_empty() {
        return None;
    }
    Some(Reply::Ticket { domain, number })
}

#[tactic(auto, unfolding(crate::specs::Replying::stepped_of))]
fn stepped_in(mut fields: Fields) -> Option<Reply>
    ensures { result ≡ stepped_of fields.entry }
{
    let word = fields.next()?;
    if is_word(word, b"did") {
        no_more(Reply::Stepped(Progress::Did), fields)
    } else if is_word(word, b"idle") {
        no_more(Reply::Stepped(Progress::Idle), fields)
    } else {
        None
    }
}

fn faulted_in(fields: Fields) -> Option<Reply>
    ensures { result ≡ faulted_of fields.entry }
{
    let number = alone_in(fields)?;
    Some(Reply::Faulted(fault_numbered(number)?))
}

fn refused_in(fields: Fields) -> Option<Reply>
    ensures { result ≡ refused_of fields.entry }
{
    let number = alone_in(fields)?;
    Some(Reply::Refused(refusal_numbered(number)?))
}

// The fault of a number.
fn fault_numbered(number: u64) -> Option<Fault>
    ensures { result ≡ numbered_fault number }
{
    match number {
        2 => Some(Fault::NotAttached),
        4 => Some(Fault::BeyondWidth),
        5 => Some(Fault::Write),
        6 => Some(Fault::Read),
        _ => None,
    }
}

// The refusal of a number.
fn refusal_numbered(number: u64) -> Option<Refusal>
    ensures { result ≡ numbered_refusal number }
{
    match number {
        1 => Some(Refusal::NoDomain),
        2 => Some(Refusal::NoDevice),
        3 => Some(Refusal::Busy),
        4 => Some(Refusal::NotAttached),
        5 => Some(Refusal::BadRange),
        6 => Some(Refusal::FrameOwned),
        7 => Some(Refusal::NoRange),
        8 => Some(Refusal::NoFrames),
        9 => Some(Refusal::TooManyPieces),
        10 => Some(Refusal::NotLive),
        11 => Some(Refusal::Window),
        12 => Some(Refusal::TooManyDomains),
        13 => Some(Refusal::BadTicket),
        14 => Some(Refusal::TooManyTickets),
        15 => Some(Refusal::HistoryFull),
        _ => None,
    }
}
