//! Draws a manager's address spaces: which runs of their pages are live, retired and free, and the retired records.

ghost use Rattle.std.specs.Prelude.{◌≡◌, ◌↔◌, ◌⊎◌, ℕ, List, [], Err, true, false, is_err, IsErrOf, OnOk};
ghost use Rattle.streams.specs.Bytes.{PutsSome};
ghost use Rattle.script.specs.Reported.{Concludes};

use crate::error::RunError;
use arrayvec::ArrayString;
use dmatypes::{MOST_DOMAINS, MOST_RECORDS, Mode, PAGE_BYTES};
use engine::{RetiredRecord, State};
use iova::{Iter, PageState, Piece};
use std::fmt;
use std::fmt::Write as _;
use streams::{Failed, Sink, Stream};

// The most bytes of a line: 100 columns, and the newline.
const LINE_BYTES: usize = 101;

type Line = ArrayString<LINE_BYTES>;

/// Draws the address spaces at the end of a report. Nothing follows a write that failed.
pub(crate) fn send_drawing<W: Sink>(
    writer: &mut Stream<W>,
    state: &State,
    end: Result<(), RunError>,
) -> Result<(), RunError>
    requires { (W.has_failed writer.old.wrapped ≡ true) ↔ IsErrOf end RunError.Write }
    ensures writer { (W.has_failed writer.new.wrapped ≡ true) ↔ IsErrOf result RunError.Write }
    ensures same { (result ≡ Err RunError.Write) ⊎ ((result ≡ end) × (writer.new.block ≡ [])) }
    ensures sent { (drawing : List ℕ) × Concludes (W.contents writer.old.wrapped) (W.contents writer.new.wrapped)
        writer.old.block writer.new.block drawing end result }
{
    if let Err(RunError::Write) = end {
        return end;
    }
    match draw(writer, state) {
        Ok(()) => end,
        Err(Failed) => Err(RunError::Write),
    }
}

// The drawing is written, to its last byte.
#[tactic(auto, using(streams::proofs::Known::puts_nothing, streams::proofs::Known::puts_more))]
fn draw<W: Sink>(writer: &mut Stream<W>, state: &State) -> Result<(), Failed>
    requires { W.has_failed writer.old.wrapped ≡ false }
    ensures put { PutsSome (W.contents writer.old.wrapped) (W.contents writer.new.wrapped) writer.old.block writer.new.block }
    ensures empty { OnOk result (writer.new.block ≡ []) }
    ensures failed { W.has_failed writer.new.wrapped ≡ is_err result }
{
    put_domains(writer, state)?;
    writer.flush()
}

#[tactic(auto, using(streams::proofs::Known::puts_nothing, streams::proofs::Known::puts_more))]
fn put_domains<W: Sink>(writer: &mut Stream<W>, state: &State) -> Result<(), Failed>
    requires { W.has_failed writer.old.wrapped ≡ false }
    ensures put { PutsSome (W.contents writer.old.wrapped) (W.contents writer.new.wrapped) writer.old.block writer.new.block }
    ensures failed { W.has_failed writer.new.wrapped ≡ is_err result }
{
    for index in 0..MOST_DOMAINS {
        put_domain(writer, state, index + 1)?;
    }
    Ok(())
}

// The runs of a domain, and its retired records. None, where there is no such domain.
#[tactic(auto, using(streams::proofs::Known::puts_nothing, streams::proofs::Known::puts_more))]
fn put_domain<W: Sink>(writer: &mut Stream<W>, state: &State, id: u64) -> Result<(), Failed>
    requires { W.has_failed writer.old.wrapped ≡ false }
    ensures put { PutsSome (W.contents writer.old.wrapped) (W.contents writer.new.wrapped) writer.old.block writer.new.block }
    ensures failed { W.has_failed writer.new.wrapped ≡ is_err result }
{
    let Some(totals) = state.domain_totals(id) else {
        return Ok(());
    };
    let Some(pieces) = state.pieces_of(id) else {
        return Ok(());
    };
    put_line(writer, &domain_line(id, totals.mode))?;
    put_runs(writer, pieces)?;
    put_records(writer, state, id)
}

#[tactic(auto, using(streams::proofs::Known::puts_nothing, streams::proofs::Known::puts_more))]
fn put_runs<W: Sink>(writer: &mut Stream<W>, pieces: Iter<'_>) -> Result<(), Failed>
    requires { W.has_failed writer.old.wrapped ≡ false }
    ensures put { PutsSome (W.contents writer.old.wrapped) (W.contents writer.new.wrapped) writer.old.block writer.new.block }
    ensures failed { W.has_failed writer.new.wrapped ≡ is_err result }
{
    for piece in pieces {
        put_line(writer, &run_line(piece))?;
    }
    Ok(())
}

#[tactic(auto, using(streams::proofs::Known::puts_nothing, streams::proofs::Known::puts_more))]
fn put_records<W: Sink>(writer: &mut Stream<W>, state: &State, id: u64) -> Result<(), Failed>
    requires { W.has_failed writer.old.wrapped ≡ false }
    ensures put { PutsSome (W.contents writer.old.wrapped) (W.contents writer.new.wrapped) writer.old.block writer.new.block }
    ensures failed { W.has_failed writer.new.wrapped ≡ is_err result }
{
    for index in 0..MOST_RECORDS {
        let Some(record) = state.retired_record(id, index as usize) else {
            return Ok(());
        };
        put_line(writer, &record_line(record))?;
    }
    Ok(())
}

fn put_line<W: Sink>(writer: &mut Stream<W>, line: &Line) -> Result<(), Failed>
    requires { W.has_failed writer.old.wrapped ≡ false }
    ensures put { PutsSome (W.contents writer.old.wrapped) (W.contents writer.new.wrapped) writer.old.block writer.new.block }
    ensures failed { W.has_failed writer.new.wrapped ≡ is_err result }
{
    writer.put(line.as_str().as_bytes())
}

fn domain_line(id: u64, mode: Mode) -> Line {
    let word = match mode {
        Mode::Strict => "strict",
        Mode::Lazy => "lazy",
    };
    let mut line = Line::new();
    let _ = writeln!(line, "iova of domain {id} {word}");
    line
}

fn run_line(piece: Piece) -> Line {
    let (word, mark) = match piece.state {
        PageState::Free => ("free", "."),
        PageState::Live => ("live", "#"),
        PageState::Retired => ("retired", "~"),
    };
    let pages = piece.last.saturating_sub(piece.first).saturating_add(1);
    let mut line = Line::new();
    let _ = write_addresses(&mut line, piece.first, pages);
    let _ = write!(line, " {word:<8}{pages:>10} ");
    let _ = write_bar(&mut line, mark, pages);
    line
}

fn record_line(record: RetiredRecord) -> Line {
    let (first, pages, mark) = (record.range.first(), record.range.pages(), record.mark);
    let mut line = Line::new();
    let _ = write_addresses(&mut line, first, pages);
    let _ = writeln!(line, " record  {pages:>10} mark {mark}");
    line
}

// The byte addresses of pages, the first and the last.
fn write_addresses(line: &mut Line, page: u64, pages: u64) -> fmt::Result {
    let first = page.saturating_mul(PAGE_BYTES);
    let last = first
        .saturating_add(pages.saturating_mul(PAGE_BYTES))
        .saturating_sub(1);
    write!(line, "  {first:#012x}-{last:#012x}")
}

// A mark for each binary digit of how many pages there are.
fn write_bar(line: &mut Line, mark: &str, pages: u64) -> fmt::Result {
    for _ in pages.leading_zeros()..u64::BITS {
        line.write_str(mark)?;
    }
    line.write_str("\n")
}
