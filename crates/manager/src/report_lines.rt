//! The lines of a report.

ghost use Rattle.std.specs.Prelude.{◌≡◌, ◌≤◌, ◌+◌, ◌++◌, decimal, length};
ghost use Rattle.arrayvec.specs.ArrayString.{array_string_len};
ghost use Rattle.manager.specs.Report.{device_line, domain_line, events_line, frames_line, mode_word, ring_line, tickets_line};

use arrayvec::ArrayString;
use dmatypes::{Mode, push_decimal};
use engine::{DomainTotals, Totals};

/// The most bytes of a line of a report, its newline among them.
pub(crate) const LINE_BYTES: usize = 128;

/// One line, with its newline.
pub(crate) type Line = ArrayString<LINE_BYTES>;

/// How many calls are in the history.
pub(crate) fn events_line(events: u64) -> Line
    ensures { result.bytes ≡ events_line events }
{
    let mut line = Line::new();
    line.push_str("events ");
    push_decimal(&mut line, events);
    line.push_str("\n");
    line
}

/// How the table frames are shared out.
pub(crate) fn frames_line(totals: Totals) -> Line
    ensures { result.bytes ≡ frames_line totals }
{
    let mut line = Line::new();
    line.push_str("frames ");
    push_decimal(&mut line, totals.free);
    line.push_str(" free ");
    push_decimal(&mut line, totals.used);
    line.push_str(" used ");
    push_decimal(&mut line, totals.held);
    line.push_str(" retired\n");
    line
}

/// How many tickets are open.
pub(crate) fn tickets_line(tickets: u64) -> Line
    ensures { result.bytes ≡ tickets_line tickets }
{
    let mut line = Line::new();
    line.push_str("tickets ");
    push_decimal(&mut line, tickets);
    line.push_str(" open\n");
    line
}

/// How many descriptors wait.
pub(crate) fn ring_line(pending: u64) -> Line
    ensures { result.bytes ≡ ring_line pending }
{
    let mut line = Line::new();
    line.push_str("ring ");
    push_decimal(&mut line, pending);
    line.push_str(" pending\n");
    line
}

/// What a domain has.
pub(crate) fn domain_line(id: u64, totals: DomainTotals) -> Line
    ensures { result.bytes ≡ domain_line id totals }
{
    let mut line = Line::new();
    line.push_str("domain ");
    push_decimal(&mut line, id);
    line.push_str(" ");
    line.push_str(mode_word(totals.mode));
    line.push_str(" live ");
    push_decimal(&mut line, totals.live);
    line.push_str(" retired ");
    push_decimal(&mut line, totals.retired);
    line.push_str(" pieces ");
    push_decimal(&mut line, totals.pieces);
    line.push_str("\n");
    line
}

/// Which domain a device is attached to.
pub(crate) fn device_line(device: u64, domain: u64) -> Line
    ensures bytes { result.bytes ≡ device_line device domain }
    ensures short { array_string_len result ≤ 64 }
{
    let mut line = Line::new();
    line.push_str("device ");
    push_decimal(&mut line, device);
    line.push_str(" domain ");
    push_decimal(&mut line, domain);
    line.push_str("\n");
    line
}

fn mode_word(mode: Mode) -> &'static str
    ensures word { result.now ≡ mode_word mode }
    ensures short { length result.now ≤ 6 }
{
    match mode {
        Mode::Strict => "strict",
        Mode::Lazy => "lazy",
    }
}
