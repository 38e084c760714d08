//! Exit statuses, and why a run ends early.
ghost use Rattle.std.specs.Prelude.{◌≡◌};
ghost use Rattle.log_io.specs.Exit.{worse};
ghost use Rattle.log_io.specs.Run.{ExitsBy, IsSameCause};

use crate::front::{CaptureFault, FirstBytes};
use crate::output::{LineError, WriteError};
use packets::{CaptureError, VisitError};
use std::alloc::AllocError;
use std::fmt::{self, Display, Formatter};
use std::io::{self, ErrorKind};
use std::rt::Runtime;

/// The name of standard output in messages.
pub const STANDARD_OUTPUT: &str = "standard output";

/// How a run ends, by which its exit status is chosen.
#[derive(Clone, Copy)]
pub enum Exit {
    /// Everything was read and printed.
    Clean,
    /// The reader of the output closed it.
    Closed,
    /// An input is no capture, or is truncated.
    Broken,
    /// Memory ran out, or a file couldn't be opened, read or written.
    Failed,
}

impl From<Exit> for u8 {
    ghost use Rattle.log_io.specs.Exit.{status_of};

    ghost from_gives = { λ exit n. n ≡ status_of exit };

    fn from(exit: Exit) -> u8 {
        match exit {
            Exit::Clean | Exit::Closed => 0,
            Exit::Broken => 1,
            Exit::Failed => 3,
        }
    }
}

impl Exit {
    /// Returns the worse of two, which is how a run over both inputs ends.
    pub fn and(self, other: Exit) -> Exit
        ensures { result ≡ worse self other }
    {
        match (self, other) {
            (Exit::Failed, _) | (_, Exit::Failed) => Exit::Failed,
            (Exit::Closed, _) | (_, Exit::Closed) => Exit::Closed,
            (Exit::Broken, _) | (_, Exit::Broken) => Exit::Broken,
            (Exit::Clean, Exit::Clean) => Exit::Clean,
        }
    }
}

/// Why a run ends before the end of its capture.
#[derive(Clone, Copy)]
pub enum Failure {
    /// The source is no capture, or is truncated.
    Capture(CaptureFault),
    /// Memory ran out.
    OutOfMemory,
    /// The file couldn't be opened.
    Opening(io::Error),
    /// A read failed.
    Reading(io::Error),
    /// The source never ends.
    Endless,
    /// The reader of the output closed it.
    Closed,
    /// A write failed.
    Writing(WriteError),
}

impl Failure {
    /// Returns the failure, explained by the first bytes of its source if that is no capture.
    pub fn of_source(self, front: FirstBytes) -> Failure
        ensures { IsSameCause self result }
    {
        match self {
            Failure::Capture(fault) => Failure::Capture(front.explain(fault)),
            failure => failure,
        }
    }
}

/// Displays a system error, by words that users know if it has no message.
#[derive(Drop)]
pub struct ErrorText<'a>(pub &'a io::Error);

impl Display for ErrorText<'_> {
    fn fmt<W: fmt::Write>(&self, f: &mut Formatter<W>) -> fmt::Result {
        match self.0.kind() {
            ErrorKind::NotFound => f.write_str("no such file"),
            ErrorKind::StorageFull => f.write_str("no space left on the device"),
            ErrorKind::Uncategorized => Display::fmt(self.0, f),
            kind => Display::fmt(&kind, f),
        }
    }
}

impl Display for Failure {
    fn fmt<W: fmt::Write>(&self, f: &mut Formatter<W>) -> fmt::Result {
        match self {
            Failure::Capture(fault) => Display::fmt(fault, f),
            Failure::OutOfMemory => f.write_str("out of memory"),
            Failure::Opening(e) => write!(f, "cannot open: {}", ErrorText(e)),
            Failure::Reading(e) => write!(f, "cannot read: {}", ErrorText(e)),
            Failure::Endless => f.write_str("cannot read: the input never ends"),
            Failure::Closed => f.write_str("cannot write: the reader closed the output"),
            Failure::Writing(e) => write!(f, "cannot write: {}", ErrorText(&e.error())),
        }
    }
}

impl From<AllocError> for Failure {
    ghost use Rattle.log_io.specs.declared.failure.Failure.TheVariants.{OutOfMemory};

    ghost from_gives = { λ _ f. f ≡ OutOfMemory };

    fn from(_e: AllocError) -> Failure {
        Failure::OutOfMemory
    }
}

impl From<LineError> for Failure {
    ghost use Rattle.log_io.specs.Run.{failure_of_line};

    ghost from_gives = { λ e f. f ≡ failure_of_line e };

    fn from(e: LineError) -> Failure {
        match e {
            LineError::OutOfMemory => Failure::OutOfMemory,
            LineError::Closed => Failure::Closed,
            LineError::Writing(e) => Failure::Writing(e),
        }
    }
}

impl From<VisitError<LineError>> for Failure {
    ghost use Rattle.log_io.specs.Run.{IsFailureOf};

    ghost from_gives = { IsFailureOf };

    fn from(e: VisitError<LineError>) -> Failure {
        match e {
            VisitError::Capture(CaptureError::NoCapture) => Failure::Capture(
                CaptureFault::NoCapture,
            ),
            VisitError::Capture(CaptureError::Broken) => Failure::Capture(CaptureFault::Broken),
            VisitError::Capture(CaptureError::OutOfMemory) => Failure::OutOfMemory,
            VisitError::BrokenOff => Failure::Capture(CaptureFault::BrokenOff),
            VisitError::Reading(e) => Failure::Reading(e),
            VisitError::Endless => Failure::Endless,
            VisitError::Visitor(e) => Failure::from(e),
        }
    }
}

/// Prints why a run ended early, after this many packets, and returns how it exits. Prints nothing
/// if the output was closed.
pub fn report<R: Runtime>(rt: &R, name: &str, failure: Failure, packets: u64) -> Exit
    ensures { ExitsBy failure result }
{
    let (exit, name) = match failure {
        Failure::Closed => return Exit::Closed,
        Failure::Capture(_) => (Exit::Broken, name),
        Failure::Writing(_) => (Exit::Failed, STANDARD_OUTPUT),
        Failure::OutOfMemory | Failure::Opening(_) | Failure::Reading(_) | Failure::Endless => {
            (Exit::Failed, name)
        }
    };
    let written = match packets {
        0 => eprintln!(rt; "{name}: {failure}"),
        _ => eprintln!(rt; "{name}: {failure}, after {packets} packets"),
    };
    match written {
        Ok(()) => exit,
        Err(_) => Exit::Failed,
    }
}
