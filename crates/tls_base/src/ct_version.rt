//! Versions of signed certificate timestamps.
ghost use Rattle.std.specs.Prelude.{Some, codes};
ghost use Rattle.layouts.specs.Layout.{number};
ghost use Rattle.layouts.specs.Answers.{Gives};
ghost use Rattle.tls_base.specs.Names.{name};
ghost use Rattle.tls_base.specs.Constants.{ct_versions};

use crate::name::{names, write_name};
use layouts::{IResult, number1, parsed};
use std::fmt;

/// The version of a signed certificate timestamp: the Version of RFC 6962, section 3.2.
#[derive(Clone, Copy, Debug, PartialEq, Eq)]
pub struct CtVersion(pub u8);

impl CtVersion {
    /// `v1` (RFC 6962, section 3.2).
    pub const V1: CtVersion = CtVersion(0);

    /// Reads 1 byte. `Incomplete(1)` if there is none.
    pub fn parse(i: &[u8]) -> IResult<&[u8], Self>
        ensures { Gives (λ v. v.0) (number 1) i.now result }
    {
        let (i, n) = parsed!(number1(i));
        Ok((i, CtVersion(n)))
    }
}

/// The constants, each as its number and its name.
static NAMES: &[(u16, &str)] = names!(CtVersion: V1);

impl fmt::Display for CtVersion {
    ghost output = { λ v. Some (name (codes "CtVersion") ct_versions v.0) };

    fn fmt<W: fmt::Write>(&self, f: &mut fmt::Formatter<W>) -> fmt::Result {
        write_name(f, "CtVersion", NAMES, self.0 as u16)
    }
}
