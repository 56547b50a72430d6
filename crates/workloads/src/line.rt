//! The lines of calls.

use arrayvec::ArrayVec;
use dmatypes::{Access, Call, LONGEST_LINE, Mode, Segment, Width};
use itoa::Buffer;

/// A line of a script, its newline included. What doesn't fit is left out.
#[derive(Drop)]
pub(crate) struct Line {
    bytes: ArrayVec<u8, LONGEST_LINE>,
}

impl Line {
    /// The line of a call; of a kind that traffic doesn't make, an empty line.
    pub(crate) fn of(call: &Call) -> Line {
        let mut line = Line {
            bytes: ArrayVec::new(),
        };
        line.put_call(call);
        line.put(b"\n");
        line
    }

    /// Its bytes.
    pub(crate) fn as_slice(&self) -> &[u8] {
        self.bytes.as_slice()
    }

    fn put_call(&mut self, call: &Call) {
        match call {
            Call::Domain { mode, width } => self.put_domain(*mode, *width),
            Call::Attach { device, domain } => self.put_numbers(b"attach", &[*device, *domain]),
            Call::Map {
                domain,
                frame,
                pages,
                order,
                ..
            } => {
                self.put_numbers(b"map", &[*domain, *frame, *pages, *order]);
                self.put(b" rw");
            }
            Call::MapList {
                domain,
                order,
                segments,
                ..
            } => {
                self.put_numbers(b"maplist", &[*domain, *order]);
                self.put(b" rw");
                self.put_segments(segments.as_slice());
            }
            _ => self.put_addressed(call),
        }
    }

    // A call at an address.
    fn put_addressed(&mut self, call: &Call) {
        match call {
            Call::Unmap {
                domain,
                address,
                pages,
            } => {
                self.put_numbers(b"unmap", &[*domain]);
                self.put_address(*address);
                self.put_numbers(b"", &[*pages]);
            }
            Call::Dma {
                device,
                address,
                access,
                ..
            } => {
                self.put_numbers(b"dma", &[*device]);
                self.put_address(*address);
                self.put(match access {
                    Access::Read => b" r look fill",
                    Access::Write => b" w look fill",
                });
            }
            _ => {}
        }
    }

    fn put_domain(&mut self, mode: Mode, width: Width) {
        self.put(match mode {
            Mode::Strict => b"domain strict",
            Mode::Lazy => b"domain lazy",
        });
        self.put(match width {
            Width::W39 => b" 39",
            Width::W48 => b" 48",
        });
    }

    // A word, and numbers behind it.
    fn put_numbers(&mut self, word: &[u8], numbers: &[u64]) {
        self.put(word);
        for number in numbers {
            self.put(b" ");
            self.put_decimal(*number);
        }
    }

    fn put_segments(&mut self, segments: &[Segment]) {
        for segment in segments {
            self.put(b" ");
            self.put_decimal(segment.frame);
            self.put(b":");
            self.put_decimal(segment.pages);
        }
    }

    fn put_decimal(&mut self, number: u64) {
        let mut buffer = Buffer::new();
        self.put(buffer.format(number).as_bytes());
    }

    // A space and an address, in hexadecimal digits.
    fn put_address(&mut self, address: u64) {
        self.put(b" 0x");
        let digits = (64 - address.leading_zeros()).div_ceil(4).max(1);
        for place in 0..digits {
            let digit = (address >> (4 * (digits - 1 - place))) % 16;
            self.put(&[DIGITS[digit as usize]]);
        }
    }

    fn put(&mut self, bytes: &[u8]) {
        let _ = self.bytes.try_extend_from_slice(bytes);
    }
}

const DIGITS: [u8; 16] = *b"0123456789abcdef";
