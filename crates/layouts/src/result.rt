//! Results of parse calls.

ghost use Rattle.std.specs.Prelude.{◌≡◌, MatchResult};

use std::alloc::{AllocError, AllocFailed};
use std::fmt;

/// The kind of rule that the bytes break.
#[derive(Clone, Copy, Debug, PartialEq, Eq)]
pub enum ErrorKind {
    /// A length is above the maximum of its record.
    TooLarge,
    /// A length doesn't fit what it counts.
    LengthValue,
    /// A value breaks its rule.
    Verify,
    /// The parser knows no structure for this type.
    Switch,
    /// A fixed tag differs.
    Tag,
    /// Bytes are missing, and no further bytes could supply them.
    Complete,
}

/// How many bytes are missing.
#[derive(Clone, Copy, Debug, PartialEq, Eq)]
pub enum Needed {
    /// Unknown. No parse call returns it by itself.
    Unknown,
    /// The number of missing bytes, at least 1.
    Size(usize),
}

/// A refusal of bytes.
#[derive(Clone, Debug, PartialEq, Eq, Drop)]
pub struct Error<I> {
    /// A slice of the input.
    pub input: I,
    pub code: ErrorKind,
}

/// Why a parse call returns no value.
#[derive(Clone, Debug, PartialEq, Drop)]
pub enum Err<E> {
    /// The bytes end before the structure does.
    Incomplete(Needed),
    /// The bytes are refused. A caller may try another structure instead.
    Error(E),
    /// The bytes are refused for good. No parse call returns it by itself.
    Failure(E),
    /// A list or a text couldn't grow.
    OutOfMemory,
}

/// The rest of the input and the value, or why there is none.
pub type IResult<I, O> = Result<(I, O), Err<Error<I>>>;

/// A list or a text couldn't grow, in a call that doesn't parse.
#[derive(Debug, PartialEq, Drop)]
pub struct OutOfMemory;

/// Returns `Error` of this kind, with the input that is refused.
#[inline(always)]
pub fn refused<I, O>(input: I, code: ErrorKind) -> IResult<I, O>
    ensures { MatchResult result (λ _. ⊥)
        (λ e. e ≡ Err.Error (record { input = input; code = code })) }
{
    Err(Err::Error(Error { input, code }))
}

impl<E> From<AllocError> for Err<E> {
    ghost use Rattle.std.specs.Prelude.{◌≡◌};
    ghost use Rattle.layouts.specs.declared.result.Err.TheVariants.{OutOfMemory};

    ghost from_gives = { λ _ e. e ≡ OutOfMemory };

    fn from(_e: AllocError) -> Err<E> {
        Err::OutOfMemory
    }
}

impl<T: Drop, E> From<AllocFailed<T>> for Err<E> {
    ghost use Rattle.std.specs.Prelude.{◌≡◌};
    ghost use Rattle.layouts.specs.declared.result.Err.TheVariants.{OutOfMemory};

    ghost from_gives = { λ _ e. e ≡ OutOfMemory };

    fn from(_e: AllocFailed<T>) -> Err<E> {
        Err::OutOfMemory
    }
}

impl From<AllocError> for OutOfMemory {
    fn from(_e: AllocError) -> OutOfMemory {
        OutOfMemory
    }
}

impl<T: Drop> From<AllocFailed<T>> for OutOfMemory {
    fn from(_e: AllocFailed<T>) -> OutOfMemory {
        OutOfMemory
    }
}

impl From<OutOfMemory> for AllocError {
    fn from(_e: OutOfMemory) -> AllocError {
        AllocError
    }
}

impl fmt::Display for ErrorKind {
    fn fmt<W: fmt::Write>(&self, f: &mut fmt::Formatter<W>) -> fmt::Result {
        f.write_str(match self {
            ErrorKind::TooLarge => "a length is too large",
            ErrorKind::LengthValue => "a length doesn't fit what it counts",
            ErrorKind::Verify => "a value breaks its rule",
            ErrorKind::Switch => "a type that isn't read",
            ErrorKind::Tag => "a fixed tag differs",
            ErrorKind::Complete => "bytes are missing where no further bytes could help",
        })
    }
}

impl fmt::Display for Needed {
    fn fmt<W: fmt::Write>(&self, f: &mut fmt::Formatter<W>) -> fmt::Result {
        match self {
            Needed::Unknown => f.write_str("more bytes are needed"),
            Needed::Size(1) => f.write_str("1 more byte is needed"),
            Needed::Size(n) => write!(f, "{n} more bytes are needed"),
        }
    }
}

impl<I> fmt::Display for Error<I> {
    fn fmt<W: fmt::Write>(&self, f: &mut fmt::Formatter<W>) -> fmt::Result {
        write!(f, "{}", self.code)
    }
}

impl<E: fmt::Display> fmt::Display for Err<E> {
    fn fmt<W: fmt::Write>(&self, f: &mut fmt::Formatter<W>) -> fmt::Result {
        match self {
            Err::Incomplete(needed) => write!(f, "{needed}"),
            Err::Error(e) => write!(f, "{e}"),
            Err::Failure(e) => write!(f, "{e}"),
            Err::OutOfMemory => f.write_str("out of memory"),
        }
    }
}

impl fmt::Display for OutOfMemory {
    fn fmt<W: fmt::Write>(&self, f: &mut fmt::Formatter<W>) -> fmt::Result {
        f.write_str("out of memory")
    }
}

impl std::error::Error for ErrorKind {}

impl std::error::Error for Needed {}

impl<I: fmt::Debug + Drop> std::error::Error for Error<I> {}

impl<E: fmt::Debug + fmt::Display + Drop> std::error::Error for Err<E> {}

impl std::error::Error for OutOfMemory {}
