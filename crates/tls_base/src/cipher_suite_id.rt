//! Numbers of cipher suites.
ghost use Rattle.std.specs.Prelude.{◌≡◌, Some, IfOk, string_bytes};
ghost use Rattle.layouts.specs.Layout.{number};
ghost use Rattle.layouts.specs.Answers.{Gives};
ghost use Rattle.tls_base.specs.Names.{hexadecimal};
ghost use Rattle.std.specs.Fmt.{decimal};

use layouts::{IResult, Number, OutOfMemory, number2, parsed};
use std::alloc::Global;
use std::fmt;
use std::ops::Deref;

/// The number of a cipher suite: the CipherSuite of RFC 5246, section 7.4.1.2, 2 bytes, big-endian.
#[derive(Clone, Copy, Debug, Default, PartialEq, Eq)]
pub struct TlsCipherSuiteID(pub u16);

impl TlsCipherSuiteID {
    /// Returns the number in lower-case hexadecimal, without prefix and leading zeros.
    ///
    /// Fails only if memory runs out.
    pub fn lower_hex(&self, alloc: Global) -> Result<String, OutOfMemory>
        ensures { IfOk result (λ s. string_bytes s ≡ hexadecimal self.now.0) }
    {
        let n = self.0;
        Ok(format!(in alloc; "{n:x}")?)
    }

    /// Returns the number.
    pub fn as_ref(&self) -> &u16
        ensures { result.now ≡ self.now.0 }
    {
        &self.0
    }

    /// Reads 2 bytes, big-endian. `Incomplete` with the number of missing bytes, 2 or 1.
    pub fn parse(i: &[u8]) -> IResult<&[u8], Self>
        ensures { Gives (λ v. v.0) (number 2) i.now result }
    {
        let (i, n) = parsed!(number2(i));
        Ok((i, TlsCipherSuiteID(n)))
    }
}

impl AsRef<u16> for TlsCipherSuiteID {
    fn as_ref(&self) -> &u16
        ensures { result.now ≡ self.now.0 }
    {
        &self.0
    }
}

impl Deref for TlsCipherSuiteID {
    type Target = u16;

    ghost deref_gives = { λ v n. n ≡ v.0 };

    fn deref(&self) -> &u16 {
        &self.0
    }
}

impl Number for TlsCipherSuiteID {
    ghost WIDTH = { 2 };

    const WIDTH: usize = 2;

    ghost value = { λ v. v.0 };

    #[inline(always)]
    fn read_present(i: &[u8]) -> (&[u8], Self) {
        let (i, n) = u16::read_present(i);
        (i, TlsCipherSuiteID(n))
    }
}

impl From<TlsCipherSuiteID> for u16 {
    ghost from_gives = { λ v n. n ≡ v.0 };

    fn from(v: TlsCipherSuiteID) -> u16 {
        v.0
    }
}

/// Writes the number in decimal.
impl fmt::Display for TlsCipherSuiteID {
    ghost output = { λ v. Some (decimal v.0) };

    fn fmt<W: fmt::Write>(&self, f: &mut fmt::Formatter<W>) -> fmt::Result {
        let n = self.0;
        write!(f, "{n}")
    }
}
