//! What ends a run before its last line.
ghost use Rattle.std.specs.Prelude.{◌≡◌, IfOk, OnErr, Some};
ghost use Rattle.layouts.specs.Answers.{IsNotOutOfMemory, IsRefusal, refusal_of};
ghost use Rattle.tlsview.specs.Fault.{kind_name as name_of_kind, Refused, fault_status, fault_text, view_fault};
ghost use Rattle.tlsview.specs.Exit.{status_of};

use crate::exit::ViewExit;
use layouts::{Err, Error, ErrorKind, Needed};
use std::alloc::AllocError;
use std::fmt;

/// What ends a run before its last line.
#[derive(Clone, Copy, Debug, PartialEq, Eq)]
pub enum ViewFault {
    /// A record lacks this many bytes.
    Incomplete(usize),
    /// A record breaks a rule.
    Error(ErrorKind),
    /// A line is malformed.
    BadLine,
}

fn kind_name(kind: ErrorKind) -> &'static str
    ensures { result.now ≡ name_of_kind kind }
{
    match kind {
        ErrorKind::TooLarge => "TooLarge",
        ErrorKind::LengthValue => "LengthValue",
        ErrorKind::Verify => "Verify",
        ErrorKind::Switch => "Switch",
        ErrorKind::Tag => "Tag",
        ErrorKind::Complete => "Complete",
    }
}

impl ViewFault {
    /// The fault of a refusal, unless there was no memory.
    pub fn of_refusal(refusal: Err<Error<&[u8]>>) -> Result<Self, AllocError>
        requires { IsNotOutOfMemory refusal → IsRefusal refusal }
        ensures ok { IfOk result
            (λ fault. IsNotOutOfMemory refusal.entry
            × (view_fault fault ≡ Refused (refusal_of refusal.entry))) }
        ensures err { OnErr result (refusal.entry ≡ Err.OutOfMemory) }
    {
        match refusal {
            Err::Incomplete(Needed::Size(missing)) => Ok(ViewFault::Incomplete(missing)),
            Err::Error(error) => Ok(ViewFault::Error(error.code)),
            Err::OutOfMemory => Err(AllocError),
            Err::Incomplete(Needed::Unknown) | Err::Failure(_) => unreachable!(),
        }
    }

    /// How a run with this fault ends.
    pub fn exit(self) -> ViewExit
        ensures { status_of result ≡ fault_status (view_fault self) }
    {
        match self {
            ViewFault::Incomplete(_) | ViewFault::Error(_) => ViewExit::Fault,
            ViewFault::BadLine => ViewExit::BadLine,
        }
    }
}

impl fmt::Display for ViewFault {
    ghost output = { λ fault. Some (fault_text (view_fault fault)) };

    fn fmt<W: fmt::Write>(&self, f: &mut fmt::Formatter<W>) -> fmt::Result {
        match self {
            ViewFault::Incomplete(missing) => write!(f, "incomplete {missing}"),
            ViewFault::Error(kind) => {
                let name = kind_name(*kind);
                write!(f, "error {name}")
            }
            ViewFault::BadLine => write!(f, "bad line"),
        }
    }
}
