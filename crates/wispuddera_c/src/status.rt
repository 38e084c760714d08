//! The status numbers that calls return.
ghost use Rattle.std.specs.Prelude.{◌≡◌};
ghost use Rattle.layouts.specs.Answers.{IsRefusal as StandsForRefusal, refusal_of};
ghost use Rattle.wispuddera_c.specs.Status.{IsRefused, kind_status};

use layouts::{Err, Error, ErrorKind, Needed};

/// A value was read.
pub const READ: u32 = 0;
/// Bytes are missing; `missing` has the count.
pub const INCOMPLETE: u32 = 1;
/// A length is above its record's limit.
pub const TOO_LARGE: u32 = 2;
/// There is none.
pub const NONE: u32 = 8;
/// The offset is past the end of the bytes.
pub const OUTSIDE: u32 = 9;
/// The buffer is too short for the result.
pub const NO_ROOM: u32 = 10;

/// Why no value was parsed: a status, and how many bytes are missing, 0 if no more bytes could
/// help.
#[derive(Clone, Copy)]
pub struct Refusal {
    /// The status.
    pub status: u32,
    /// How many bytes are missing, if the status is `INCOMPLETE`; else 0.
    pub missing: usize,
}

/// The status of a refusal of that kind.
#[inline(always)]
pub fn status_of(kind: ErrorKind) -> u32
    ensures { result ≡ kind_status kind }
{
    match kind {
        ErrorKind::TooLarge => TOO_LARGE,
        ErrorKind::LengthValue => 3,
        ErrorKind::Verify => 4,
        ErrorKind::Switch => 5,
        ErrorKind::Tag => 6,
        ErrorKind::Complete => 7,
    }
}

impl Refusal {
    /// The status and the count of a refusal.
    #[inline(always)]
    pub fn of(e: Err<Error<&[u8]>>) -> Refusal
        requires { StandsForRefusal e }
        ensures { IsRefused (refusal_of e.entry) result.status result.missing }
    {
        match e {
            Err::Incomplete(Needed::Size(missing)) => Refusal {
                status: INCOMPLETE,
                missing,
            },
            Err::Error(e) => Refusal {
                status: status_of(e.code),
                missing: 0,
            },
            _ => Refusal {
                status: status_of(ErrorKind::Complete),
                missing: 0,
            },
        }
    }
}
