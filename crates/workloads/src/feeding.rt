//! A script that goes on as its answers come.

ghost use Rattle.std.specs.Io.{ReadsAtMost};

use crate::digest::Digest;
use crate::line::Line;
use crate::traffic::{Answered, Traffic};
use std::cell::RefCell;
use std::io;
use std::io::{Read, Write};

// The most lines that are given before their answers are read.
const AHEAD: u64 = 64;

// The longest line of a list of segments, and room to spare.
const LONGEST: usize = 512;

/// Who asks by a script, and reads its answers.
#[derive(Drop)]
pub(crate) struct Feeder {
    traffic: Traffic,
    // How many calls are still to be made.
    left: u64,
    digest: Digest,
    told: Told,
}

// What is known of the answer that is being read.
#[derive(Clone, Copy, Debug, Default)]
struct Told {
    // The first byte of the word before the last one, and of the last one.
    before: u8,
    first: u8,
    // The last word as a hexadecimal number.
    number: u64,
}

impl Feeder {
    /// Feeds so many calls of a traffic.
    pub(crate) fn new(traffic: Traffic, calls: u64, digest: Digest) -> Feeder {
        Feeder {
            traffic,
            left: calls,
            digest,
            told: Told::default(),
        }
    }

    /// What all answers come to.
    pub(crate) fn digest(&self) -> Digest {
        self.digest
    }

    // Gives the next lines; how many bytes they have.
    fn give(&mut self, bytes: &mut [u8]) -> io::Result<usize>
        ensures { ReadsAtMost result bytes.new }
    {
        let mut filled = 0usize;
        for _ in 0..AHEAD.min(self.left) {
            let room = bytes.get_mut(filled..).unwrap_or(&mut []);
            if room.len() < LONGEST {
                break;
            }
            let call = self.traffic.next()?;
            let line = Line::of(&call);
            let text = line.as_slice();
            let Some(place) = room.get_mut(..text.len()) else {
                break;
            };
            if place.len() != text.len() {
                break;
            }
            place.copy_from_slice(text);
            filled = filled.saturating_add(text.len());
            self.left = self.left.saturating_sub(1);
        }
        Ok(filled.min(bytes.len()))
    }

    // Reads a byte of the answers.
    fn take(&mut self, byte: u8) -> io::Result<()> {
        self.digest.add(u64::from(byte));
        match byte {
            b' ' => {
                self.told = Told {
                    before: self.told.first,
                    ..Told::default()
                };
            }
            b'\n' => {
                let answered = match self.told.before {
                    b'm' => Answered::Mapped(self.told.number),
                    b'r' => Answered::Refused,
                    _ => Answered::Done,
                };
                self.told = Told::default();
                self.traffic.answer(answered)?;
            }
            _ => self.told.take(byte),
        }
        Ok(())
    }
}

impl Told {
    // Reads a byte of a word.
    fn take(&mut self, byte: u8) {
        if self.first == 0 {
            self.first = byte;
        }
        let digit = match byte {
            b'0'..=b'9' => byte - b'0',
            b'a'..=b'f' => byte - b'a' + 10,
            _ => {
                self.number = 0;
                return;
            }
        };
        self.number = self.number.wrapping_mul(16).wrapping_add(u64::from(digit));
    }
}

/// The script's end of a feeder.
#[derive(Drop)]
pub(crate) struct Script<'a>(pub(crate) &'a RefCell<Feeder>);

impl<'a> Read for Script<'a> {
    fn read(&mut self, bytes: &mut [u8]) -> io::Result<usize> {
        match self.0.try_borrow_mut() {
            Ok(mut feeder) => feeder.give(bytes),
            Err(_) => Ok(0),
        }
    }
}

/// The answers' end of a feeder, which can keep what it reads.
#[derive(Drop)]
pub(crate) struct Answers<'a> {
    pub(crate) feeder: &'a RefCell<Feeder>,
    pub(crate) kept: Option<&'a mut Vec<u8>>,
}

impl<'a> Write for Answers<'a> {
    fn write(&mut self, bytes: &[u8]) -> io::Result<usize> {
        if let Some(kept) = &mut self.kept {
            kept.extend_from_slice(bytes)?;
        }
        let Ok(mut feeder) = self.feeder.try_borrow_mut() else {
            return Ok(0);
        };
        let feeder = &mut *feeder;
        for byte in bytes {
            feeder.take(*byte)?;
        }
        Ok(bytes.len())
    }

    fn flush(&mut self) -> io::Result<()> {
        Ok(())
    }
}
