//! What all writers share: errors, the loop over a `Write`, and appends to a vector.
ghost use Rattle.std.specs.Prelude.{◌≡◌, ℕ, IfErr, OnOk, take};
ghost use Rattle.std.specs.Io.KnownBytes.{Appends};

use std::alloc::{AllocError, AllocFailed};
use std::fmt;
use std::io::Write;

pub mod builder;

/// Why a value isn't written.
#[derive(Clone, Debug, PartialEq, Drop)]
pub enum GenError {
    /// The writer doesn't know this kind of message or extension. Nothing was written.
    NotYetImplemented,
    /// A length doesn't fit its field. Nothing was written.
    BadLength,
    /// The `Write` failed, or took no bytes. How many bytes it took before is unknown.
    Io,
    /// The encoding couldn't be allocated. Nothing was written.
    OutOfMemory,
}

impl From<AllocError> for GenError {
    ghost use Rattle.layouts.specs.declared.writer.GenError.TheVariants.{OutOfMemory};

    ghost from_gives = { λ _ e. e ≡ OutOfMemory };

    fn from(_e: AllocError) -> GenError {
        GenError::OutOfMemory
    }
}

impl<T: Drop> From<AllocFailed<T>> for GenError {
    ghost use Rattle.layouts.specs.declared.writer.GenError.TheVariants.{OutOfMemory};

    ghost from_gives = { λ _ e. e ≡ OutOfMemory };

    fn from(_e: AllocFailed<T>) -> GenError {
        GenError::OutOfMemory
    }
}

impl fmt::Display for GenError {
    fn fmt<W: fmt::Write>(&self, f: &mut fmt::Formatter<W>) -> fmt::Result {
        f.write_str(match self {
            GenError::NotYetImplemented => "the writer does not know this kind",
            GenError::BadLength => "a length does not fit its field",
            GenError::Io => "the writer failed",
            GenError::OutOfMemory => "out of memory",
        })
    }
}

impl std::error::Error for GenError {}

/// Writes all of `bytes`, in as many calls of `write` as it takes.
///
/// `Io` if a write fails (also if it was interrupted) or takes no bytes. Doesn't flush.
#[tactic(auto, using(crate::proofs::WriterLemmas::longer_front))]
pub fn write_whole<W: Write>(w: &mut W, bytes: &[u8]) -> Result<(), GenError>
    ensures ok { OnOk result (Appends (W.contents w.old) (W.contents w.new) bytes.now) }
    ensures err { IfErr result (λ e. e ≡ GenError.Io) }
{
    let mut at = 0;
    'writes: while at < bytes.len() {
        match w.write(&bytes[at..]) {
            Ok(n) if n > 0 => at += n,
            _ => return Err(GenError::Io),
        }
    }
    Ok(())
}
