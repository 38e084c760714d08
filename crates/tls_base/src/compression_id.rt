//! Numbers of compression methods.
ghost use Rattle.std.specs.Prelude.{Some, codes, ◌≡◌};
ghost use Rattle.layouts.specs.Layout.{number};
ghost use Rattle.layouts.specs.Answers.{Gives};
ghost use Rattle.tls_base.specs.Names.{name};
ghost use Rattle.tls_base.specs.Constants.{compression_methods};

use crate::name::{names, write_name};
use layouts::{IResult, Number, number1, parsed};
use std::fmt;
use std::ops::Deref;

/// The number of a compression method: the CompressionMethod of RFC 5246, section 7.4.1.2.
#[derive(Clone, Copy, Debug, Default, PartialEq, Eq)]
pub struct TlsCompressionID(pub u8);

impl TlsCompressionID {
    /// `null` (RFC 5246, section 6.1): no compression.
    pub const Null: TlsCompressionID = TlsCompressionID(0);

    /// `DEFLATE` (RFC 3749, section 2).
    pub const Deflate: TlsCompressionID = TlsCompressionID(1);

    /// Returns the number.
    pub fn as_ref(&self) -> &u8
        ensures { result.now ≡ self.now.0 }
    {
        &self.0
    }

    /// Reads 1 byte. `Incomplete(1)` if there is none.
    pub fn parse(i: &[u8]) -> IResult<&[u8], Self>
        ensures { Gives (λ v. v.0) (number 1) i.now result }
    {
        let (i, n) = parsed!(number1(i));
        Ok((i, TlsCompressionID(n)))
    }
}

impl AsRef<u8> for TlsCompressionID {
    fn as_ref(&self) -> &u8
        ensures { result.now ≡ self.now.0 }
    {
        &self.0
    }
}

impl Deref for TlsCompressionID {
    type Target = u8;

    ghost deref_gives = { λ v n. n ≡ v.0 };

    fn deref(&self) -> &u8 {
        &self.0
    }
}

impl Number for TlsCompressionID {
    ghost WIDTH = { 1 };

    const WIDTH: usize = 1;

    ghost value = { λ v. v.0 };

    #[inline(always)]
    fn read_present(i: &[u8]) -> (&[u8], Self) {
        let (i, n) = u8::read_present(i);
        (i, TlsCompressionID(n))
    }
}

/// The constants, each as its number and its name.
static NAMES: &[(u16, &str)] = names!(TlsCompressionID: Null, Deflate);

impl fmt::Display for TlsCompressionID {
    ghost output = { λ v. Some (name (codes "TlsCompressionID") compression_methods v.0) };

    fn fmt<W: fmt::Write>(&self, f: &mut fmt::Formatter<W>) -> fmt::Result {
        write_name(f, "TlsCompressionID", NAMES, self.0 as u16)
    }
}

impl From<TlsCompressionID> for u8 {
    ghost from_gives = { λ v n. n ≡ v.0 };

    fn from(v: TlsCompressionID) -> u8 {
        v.0
    }
}
