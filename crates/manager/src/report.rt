//! What a manager holds at one moment, as text.

ghost use Rattle.std.specs.Prelude.{◌≡◌, ◌≤◌, ◌+◌, ◌*◌, ◌++◌, [], length, IfOk};
ghost use Rattle.arrayvec.specs.ArrayString.{array_string_len};
ghost use Rattle.manager.specs.Kept.{Book, IsKept};
ghost use Rattle.manager.specs.Report.{device_lines, domain_lines, head_lines, report_text};

use crate::manager::Manager;
use crate::owner::Owner;
use crate::report_lines::{
    LINE_BYTES, Line, device_line, domain_line, events_line, frames_line, ring_line, tickets_line,
};
use dmatypes::{DEVICES, MOST_DOMAINS};
use engine::{State, Totals};
use std::alloc::{AllocError, Global};
use std::marker::Model;
use std::sync::Wait;

// The lines that every report has.
const HEAD_LINES: usize = 4;

// The most bytes of these and of one line for each domain.
const DOMAINS_END: usize = (HEAD_LINES + MOST_DOMAINS as usize) * LINE_BYTES;

// Room for the longest report: these lines, and one for each device.
const REPORT_BYTES: usize = 4096;

/// The text of a report. It takes the memory for the longest one when it is made.
#[derive(Drop)]
pub struct Report {
    text: String,
}

impl Model for Report {
    ghost use Rattle.std.specs.Prelude.{◌≤◌, List, ℕ, length, string_bytes, string_capacity};
    ghost use Rattle.manager.specs.declared.report.TheConstants.{REPORT_BYTES};

    ghost Value = { List ℕ };

    ghost view = { λ r. string_bytes r.text };

    ghost invariant = { λ r. (length (string_bytes r.text) ≤ REPORT_BYTES) × (REPORT_BYTES ≤ string_capacity r.text) };
}

impl Report {
    /// A report with no text.
    pub fn new(alloc: Global) -> Result<Report, AllocError>
        ensures { IfOk result (λ r. r ≡ []) }
    {
        Ok(Report {
            text: String::with_capacity(alloc, REPORT_BYTES)?,
        })
    }

    /// Its text.
    pub fn text(&self) -> &str
        ensures text { result.now ≡ self.now }
        ensures few { length result.now ≤ REPORT_BYTES }
    {
        self.text.as_str()
    }

    /// Replaces the text by the report of a history of `events` events and of the state after it.
    #[tactic(auto, unfolding(crate::specs::Report::report_text))]
    pub(crate) fn tell(&mut self, events: u64, state: &State)
        ensures { self.new ≡ report_text events state.now }
    {
        self.text.clear();
        self.push_head(events, state.totals());
        self.push_domains(state);
        self.push_devices(state);
    }

    fn push_head(&mut self, events: u64, totals: Totals)
        requires { self.old ≡ [] }
        ensures head { self.new ≡ head_lines events totals }
        ensures few { length self.new ≤ HEAD_LINES * LINE_BYTES }
    {
        self.push(&events_line(events));
        self.push(&frames_line(totals));
        self.push(&tickets_line(totals.tickets));
        self.push(&ring_line(totals.pending));
    }

    fn push_domains(&mut self, state: &State)
        requires { length self.old ≤ HEAD_LINES * LINE_BYTES }
        ensures domains { self.new ≡ self.old ++ domain_lines state.now MOST_DOMAINS }
        ensures few { length self.new ≤ DOMAINS_END }
    {
        for index in 0..MOST_DOMAINS {
            let id = index + 1;
            if let Some(totals) = state.domain_totals(id) {
                self.push(&domain_line(id, totals));
            }
        }
    }

    fn push_devices(&mut self, state: &State)
        requires { length self.old ≤ DOMAINS_END }
        ensures { self.new ≡ self.old ++ device_lines state.now DEVICES }
    {
        for device in 0..DEVICES {
            if let Some(domain) = state.domain_of(device) {
                self.push(&device_line(device, domain));
            }
        }
    }

    fn push(&mut self, line: &Line)
        requires { length self.old + array_string_len line.now ≤ REPORT_BYTES }
        ensures bytes { self.new ≡ self.old ++ line.now.bytes }
        ensures len { length self.new ≡ length self.old + array_string_len line.now }
        ensures few { length self.new ≤ length self.old + LINE_BYTES }
    {
        self.text.push_str(line.as_str()).unwrap();
    }
}

impl<B: Owner> Manager<B> {
    /// What the manager holds at one moment: the number of events of the history, and the state after it. The
    /// memory is taken before the lock.
    pub fn snapshot<R: Wait>(&self, rt: &R, alloc: Global) -> Result<Report, AllocError>
        ensures { IfOk result
            (λ r. (book : Book) × IsKept B.frames B.room B.mode B.most book × (r ≡ report_text (length book.history) book.state)) }
    {
        let mut report = Report::new(alloc)?;
        self.lock(rt).write_report(&mut report);
        Ok(report)
    }
}
