//! Types of curves in a key exchange.
ghost use Rattle.std.specs.Prelude.{Some, codes};
ghost use Rattle.layouts.specs.Layout.{number};
ghost use Rattle.layouts.specs.Answers.{Gives};
ghost use Rattle.tls_base.specs.Names.{name};
ghost use Rattle.tls_base.specs.Constants.{curve_types};

use crate::name::{names, write_name};
use layouts::{IResult, number1, parsed};
use std::fmt;

/// How a key exchange gives its curve: the ECCurveType of RFC 4492, section 5.4.
#[derive(Clone, Copy, PartialEq, Eq)]
pub struct ECCurveType(pub u8);

impl ECCurveType {
    /// The parameters of a curve over a prime field. RFC 8422, section 5.4, deprecates it.
    pub const ExplicitPrime: ECCurveType = ECCurveType(1);

    /// The parameters of a curve over a field of characteristic 2. RFC 8422, section 5.4,
    /// deprecates it.
    pub const ExplicitChar2: ECCurveType = ECCurveType(2);

    /// The number of the curve (RFC 8422, section 5.4).
    pub const NamedGroup: ECCurveType = ECCurveType(3);

    /// Reads 1 byte. `Incomplete(1)` if there is none.
    pub fn parse(i: &[u8]) -> IResult<&[u8], Self>
        ensures { Gives (λ v. v.0) (number 1) i.now result }
    {
        let (i, n) = parsed!(number1(i));
        Ok((i, ECCurveType(n)))
    }
}

/// The constants, each as its number and its name.
static NAMES: &[(u16, &str)] = names!(ECCurveType: ExplicitPrime, ExplicitChar2, NamedGroup);

impl fmt::Display for ECCurveType {
    ghost output = { λ v. Some (name (codes "ECCurveType") curve_types v.0) };

    fn fmt<W: fmt::Write>(&self, f: &mut fmt::Formatter<W>) -> fmt::Result {
        write_name(f, "ECCurveType", NAMES, self.0 as u16)
    }
}
