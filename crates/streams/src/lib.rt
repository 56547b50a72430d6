//! Streams of bytes in blocks, and lines out of them. A stream remembers whether a read or a write of it has failed, so that no
//! error is lost and none is made up.
//!
//! ```rust
//! use streams::{Counted, LineEnd, NoSink, Stream, next_line};
//!
//! let bytes: &[u8] = b"unit\n";
//! let mut reader = Counted::new(bytes);
//! let mut line = ArrayVec::<u8, 8>::new();
//! let end = next_line(&mut reader, &mut Stream::over(NoSink), &mut line);
//! assert_eq!(rt; end, Ok(LineEnd::Newline));
//! assert_eq!(rt; line.as_slice(), b"unit");
//! ```
#![tactic(auto)]

mod block;
mod ends;
mod error;
mod line;
mod memory;
mod stream;
mod wrapped;

pub use block::BLOCK_BYTES;
pub use ends::{Failed, Sink, Source};
pub use error::StreamError;
pub use line::{LineEnd, next_line};
pub use memory::NoSink;
pub use stream::{Counted, Stream};
pub use wrapped::Wrapped;
