//! Hash algorithms of signatures.
ghost use Rattle.std.specs.Prelude.{Some, codes};
ghost use Rattle.layouts.specs.Layout.{number};
ghost use Rattle.layouts.specs.Answers.{Gives};
ghost use Rattle.tls_base.specs.Names.{name};
ghost use Rattle.tls_base.specs.Constants.{hash_algorithms};

use crate::name::{names, write_name};
use layouts::{IResult, number1, parsed};
use std::fmt;

/// A hash algorithm: the HashAlgorithm of RFC 5246, section 7.4.1.4.1.
#[derive(Clone, Debug, PartialEq, Eq, Drop)]
pub struct HashAlgorithm(pub u8);

impl HashAlgorithm {
    /// `none` (RFC 5246, section 7.4.1.4.1).
    pub const None: HashAlgorithm = HashAlgorithm(0);

    /// `md5` (RFC 5246, section 7.4.1.4.1).
    pub const Md5: HashAlgorithm = HashAlgorithm(1);

    /// `sha1` (RFC 5246, section 7.4.1.4.1).
    pub const Sha1: HashAlgorithm = HashAlgorithm(2);

    /// `sha224` (RFC 5246, section 7.4.1.4.1).
    pub const Sha224: HashAlgorithm = HashAlgorithm(3);

    /// `sha256` (RFC 5246, section 7.4.1.4.1).
    pub const Sha256: HashAlgorithm = HashAlgorithm(4);

    /// `sha384` (RFC 5246, section 7.4.1.4.1).
    pub const Sha384: HashAlgorithm = HashAlgorithm(5);

    /// `sha512` (RFC 5246, section 7.4.1.4.1).
    pub const Sha512: HashAlgorithm = HashAlgorithm(6);

    /// The hash is part of the signature algorithm (RFC 8422, section 5.1.3).
    pub const Intrinsic: HashAlgorithm = HashAlgorithm(8);

    /// Reads 1 byte. `Incomplete(1)` if there is none.
    pub fn parse(i: &[u8]) -> IResult<&[u8], Self>
        ensures { Gives (λ v. v.0) (number 1) i.now result }
    {
        let (i, n) = parsed!(number1(i));
        Ok((i, HashAlgorithm(n)))
    }
}

/// The constants, each as its number and its name.
static NAMES: &[(u16, &str)] = names!(
    HashAlgorithm: None, Md5, Sha1, Sha224, Sha256, Sha384, Sha512, Intrinsic
);

impl fmt::Display for HashAlgorithm {
    ghost output = { λ v. Some (name (codes "HashAlgorithm") hash_algorithms v.0) };

    fn fmt<W: fmt::Write>(&self, f: &mut fmt::Formatter<W>) -> fmt::Result {
        write_name(f, "HashAlgorithm", NAMES, self.0 as u16)
    }
}
