//! Signature algorithms.
ghost use Rattle.std.specs.Prelude.{Some, codes};
ghost use Rattle.layouts.specs.Layout.{number};
ghost use Rattle.layouts.specs.Answers.{Gives};
ghost use Rattle.tls_base.specs.Names.{name};
ghost use Rattle.tls_base.specs.Constants.{signature_algorithms};

use crate::name::{names, write_name};
use layouts::{IResult, number1, parsed};
use std::fmt;

/// A signature algorithm: the SignatureAlgorithm of RFC 5246, section 7.4.1.4.1, with those of RFC
/// 8422, section 5.1.3.
#[derive(Clone, Debug, PartialEq, Eq, Drop)]
pub struct SignAlgorithm(pub u8);

impl SignAlgorithm {
    /// `anonymous` (RFC 5246, section 7.4.1.4.1): no signature.
    pub const Anonymous: SignAlgorithm = SignAlgorithm(0);

    /// `rsa` (RFC 5246, section 7.4.1.4.1).
    pub const Rsa: SignAlgorithm = SignAlgorithm(1);

    /// `dsa` (RFC 5246, section 7.4.1.4.1).
    pub const Dsa: SignAlgorithm = SignAlgorithm(2);

    /// `ecdsa` (RFC 5246, section 7.4.1.4.1).
    pub const Ecdsa: SignAlgorithm = SignAlgorithm(3);

    /// `ed25519` (RFC 8422, section 5.1.3).
    pub const Ed25519: SignAlgorithm = SignAlgorithm(7);

    /// `ed448` (RFC 8422, section 5.1.3).
    pub const Ed448: SignAlgorithm = SignAlgorithm(8);

    /// Reads 1 byte. `Incomplete(1)` if there is none.
    pub fn parse(i: &[u8]) -> IResult<&[u8], Self>
        ensures { Gives (λ v. v.0) (number 1) i.now result }
    {
        let (i, n) = parsed!(number1(i));
        Ok((i, SignAlgorithm(n)))
    }
}

/// The constants, each as its number and its name.
static NAMES: &[(u16, &str)] = names!(SignAlgorithm: Anonymous, Rsa, Dsa, Ecdsa, Ed25519, Ed448);

impl fmt::Display for SignAlgorithm {
    ghost output = { λ v. Some (name (codes "SignAlgorithm") signature_algorithms v.0) };

    fn fmt<W: fmt::Write>(&self, f: &mut fmt::Formatter<W>) -> fmt::Result {
        write_name(f, "SignAlgorithm", NAMES, self.0 as u16)
    }
}
