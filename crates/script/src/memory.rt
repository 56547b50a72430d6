//! A run over memory, which never fails to read or to write.

ghost use Rattle.std.specs.Prelude.{◌≡◌, List, ℕ, [], Some, true, false, IsErrOf};
ghost use Rattle.script.specs.Run.{Ran};
ghost use Rattle.script.specs.declared.answering.Replies.TheVariants.{Written};

use crate::error::RunError;
use crate::running::{Output, work};
use manager::Config;
use std::alloc::Global;
use std::sync::Wait;
use std::{io, mem};
use streams::{Sink, Stream};

/// Bytes in memory, to which more are put, and whether there was no memory for some.
#[derive(Drop)]
struct Growing {
    bytes: Vec<u8>,
    refused: bool,
}

impl Sink for Growing {
    ghost contents = { λ g. Some g.bytes.items };

    ghost has_failed = { λ g. g.refused };

    fn write(&mut self, bytes: &[u8]) -> io::Result<usize> {
        if let Err(error) = self.bytes.extend_from_slice(bytes) {
            self.refused = true;
            return Err(io::Error::from(error));
        }
        Ok(bytes.len())
    }
}

/// Runs a script that lies in memory as `run` does, and puts the answers after the bytes that are there.
///
/// It never answers that a read or a write failed. Where there is no memory for answers, a beginning of them is put there.
pub fn run_in_memory<T: Wait>(
    rt: &T,
    alloc: Global,
    script: &[u8],
    answers: &mut Vec<u8>,
    config: Config,
) -> Result<(), RunError>
    requires one { config.shares ≡ 1 }
    ensures written { (left : List ℕ) × Ran Written (record { frames = config.frames; room = config.most; caching = config.caching })
        script.now left answers.old.items [] answers.new.items result }
    ensures read { IsErrOf result RunError.Read → ⊥ }
    ensures write { IsErrOf result RunError.Write → ⊥ }
{
    let mut reader = Stream::over(script);
    let mut writer = Stream::over(Growing {
        bytes: mem::replace(answers, Vec::new(alloc)),
        refused: false,
    });
    let end = work(rt, alloc, &mut reader, &mut writer, config, Output::Answers);
    *answers = writer.into_wrapped().bytes;
    match end {
        Err(RunError::Write) => Err(RunError::NoMemory),
        end => end,
    }
}
