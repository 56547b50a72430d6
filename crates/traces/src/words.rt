//! What is told of a finding, in a line of text.

use crate::finding::{Finding, PageBefore};
use arrayvec::ArrayString;
use checker::PageState;
use dmatypes::{PAGE_BYTES, Reply, reply_line};
use std::fmt;

/// `line K: REPLY is not allowed`, why, and the replies that are allowed.
impl fmt::Display for Finding {
    fn fmt<W: fmt::Write>(&self, f: &mut fmt::Formatter<W>) -> fmt::Result {
        write!(
            f,
            "line {}: {} is not allowed",
            self.number,
            Words(self.event.reply)
        )?;
        if let Some(refusal) = self.due {
            write!(f, ": {refusal}")?;
        } else if let (Reply::Mapped(address), None) = (self.event.reply, &self.page) {
            write!(f, ": no such range begins at {address:#x}")?;
        }
        if let Some(page) = &self.page {
            write!(f, ": {page}")?;
        }
        f.write_str("; allowed:")?;
        for (place, reply) in self.allowed.iter().enumerate() {
            f.write_str(if place == 0 { " " } else { ", " })?;
            write!(f, "{}", Words(*reply))?;
        }
        Ok(())
    }
}

/// `page A of domain D is ..`, with byte addresses and the numbers of host frames.
impl fmt::Display for PageBefore {
    fn fmt<W: fmt::Write>(&self, f: &mut fmt::Formatter<W>) -> fmt::Result {
        let address = self.page.saturating_mul(PAGE_BYTES);
        write!(f, "page {address:#x} of domain {} is ", self.domain)?;
        match self.state {
            PageState::Free => f.write_str("free"),
            PageState::Live { frame, rights } => {
                write!(
                    f,
                    "live, to host frame {frame:#x} ({})",
                    rights_text(rights)
                )
            }
            PageState::Retired { first, pages, mark } => {
                let first = first.saturating_mul(PAGE_BYTES);
                write!(
                    f,
                    "retired, by an unmap of {first:#x} {pages} after {mark} begun flushes"
                )
            }
        }
    }
}

// The line of a reply without its newline.
#[derive(Clone, Copy)]
struct Words(Reply);

impl fmt::Display for Words {
    fn fmt<W: fmt::Write>(&self, f: &mut fmt::Formatter<W>) -> fmt::Result {
        let mut line = ArrayString::new();
        reply_line(self.0, &mut line);
        f.write_str(line.as_str().trim_end())
    }
}

fn rights_text(rights: u64) -> &'static str {
    match rights {
        1 => "r",
        2 => "w",
        _ => "rw",
    }
}
