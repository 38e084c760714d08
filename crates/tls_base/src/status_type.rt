//! Types of certificate statuses.
ghost use Rattle.std.specs.Prelude.{Some, codes};
ghost use Rattle.layouts.specs.Layout.{number};
ghost use Rattle.layouts.specs.Answers.{Gives};
ghost use Rattle.tls_base.specs.Names.{name};
ghost use Rattle.tls_base.specs.Constants.{certificate_status_types};

use crate::name::{names, write_name};
use layouts::{IResult, number1, parsed};
use std::fmt;

/// The type of a certificate status: the CertificateStatusType of RFC 6066, section 8.
#[derive(Clone, Copy, Debug, PartialEq, Eq)]
pub struct CertificateStatusType(pub u8);

impl CertificateStatusType {
    /// `ocsp` (RFC 6066, section 8).
    pub const OCSP: CertificateStatusType = CertificateStatusType(1);

    /// Reads 1 byte. `Incomplete(1)` if there is none.
    pub fn parse(i: &[u8]) -> IResult<&[u8], Self>
        ensures { Gives (λ v. v.0) (number 1) i.now result }
    {
        let (i, n) = parsed!(number1(i));
        Ok((i, CertificateStatusType(n)))
    }
}

/// The constants, each as its number and its name.
static NAMES: &[(u16, &str)] = names!(CertificateStatusType: OCSP);

impl fmt::Display for CertificateStatusType {
    ghost output = { λ v. Some
        (name (codes "CertificateStatusType") certificate_status_types v.0) };

    fn fmt<W: fmt::Write>(&self, f: &mut fmt::Formatter<W>) -> fmt::Result {
        write_name(f, "CertificateStatusType", NAMES, self.0 as u16)
    }
}
