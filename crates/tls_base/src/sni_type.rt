//! Types of server names.
ghost use Rattle.std.specs.Prelude.{Some, codes};
ghost use Rattle.layouts.specs.Layout.{number};
ghost use Rattle.layouts.specs.Answers.{Gives};
ghost use Rattle.tls_base.specs.Names.{name};
ghost use Rattle.tls_base.specs.Constants.{name_types};

use crate::name::{names, write_name};
use layouts::{IResult, number1, parsed};
use std::fmt;

/// The type of a server name: the NameType of RFC 6066, section 3.
#[derive(Clone, Copy, Debug, PartialEq, Eq)]
pub struct SNIType(pub u8);

impl SNIType {
    /// `host_name` (RFC 6066, section 3).
    pub const HostName: SNIType = SNIType(0);

    /// Reads 1 byte. `Incomplete(1)` if there is none.
    pub fn parse(i: &[u8]) -> IResult<&[u8], Self>
        ensures { Gives (λ v. v.0) (number 1) i.now result }
    {
        let (i, n) = parsed!(number1(i));
        Ok((i, SNIType(n)))
    }
}

/// The constants, each as its number and its name.
static NAMES: &[(u16, &str)] = names!(SNIType: HostName);

impl fmt::Display for SNIType {
    ghost output = { λ v. Some (name (codes "SNIType") name_types v.0) };

    fn fmt<W: fmt::Write>(&self, f: &mut fmt::Formatter<W>) -> fmt::Result {
        write_name(f, "SNIType", NAMES, self.0 as u16)
    }
}
