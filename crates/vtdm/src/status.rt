//! How the program ends, and with which status.

ghost use Rattle.std.specs.Prelude.{◌≡◌};
ghost use Rattle.vtdm.specs.Statuses.{end_of, status_of};

use script::RunError;
use storm::StormError;
use traces::CheckError;

// The exit statuses.
const DONE: u8 = 0;

const FAILED: u8 = 1;

const BAD: u8 = 2;

const WANTING: u8 = 3;

const ILLEGAL: u8 = 4;

/// How the program ends.
#[derive(Clone, Copy)]
pub(crate) enum End {
    /// The task is done, or the help that was asked for is written.
    Done,
    /// The command line asks for no task.
    BadCommandLine,
    /// The task stopped before its end.
    Stopped(RunError),
    /// There was no memory for a storm, or no thread.
    NoStorm(StormError),
    /// An event of a trace is no step.
    Illegal,
    /// A trace was not read to its end.
    Unchecked(CheckError),
}

impl End {
    /// The exit status: 0 done, 1 input or output failed, 2 a bad line or a bad command line, 3 no memory or no
    /// thread, 4 an event that is no step.
    pub(crate) fn status(self) -> u8
        ensures { result ≡ status_of self }
    {
        match self {
            End::Done => DONE,
            End::Stopped(RunError::Read | RunError::Write) | End::Unchecked(CheckError::Read) =>
                FAILED,
            End::Stopped(RunError::BadLine(_)) | End::Unchecked(CheckError::BadLine(_)) => BAD,
            End::BadCommandLine => BAD,
            End::Stopped(RunError::NoMemory) | End::Unchecked(CheckError::NoMemory) => WANTING,
            End::NoStorm(_) => WANTING,
            End::Illegal => ILLEGAL,
        }
    }
}

/// How the program ends after its task.
pub(crate) fn end_of(task: Result<(), RunError>) -> End
    ensures { result ≡ end_of task }
{
    match task {
        Ok(()) => End::Done,
        Err(error) => End::Stopped(error),
    }
}
