//! Severities of alerts.
ghost use Rattle.std.specs.Prelude.{Some, codes};
ghost use Rattle.layouts.specs.Layout.{number};
ghost use Rattle.layouts.specs.Answers.{Gives};
ghost use Rattle.tls_base.specs.Names.{name};
ghost use Rattle.tls_base.specs.Constants.{alert_levels};

use crate::name::{names, write_name};
use layouts::{IResult, number1, parsed};
use std::fmt;

/// The severity of an alert: the AlertLevel of RFC 5246, section 7.2.
#[derive(Clone, Copy, Debug, PartialEq, Eq)]
pub struct TlsAlertSeverity(pub u8);

impl TlsAlertSeverity {
    /// `warning` (RFC 5246, section 7.2): the sender may continue.
    pub const Warning: TlsAlertSeverity = TlsAlertSeverity(1);

    /// `fatal` (RFC 5246, section 7.2): the connection ends.
    pub const Fatal: TlsAlertSeverity = TlsAlertSeverity(2);

    /// Reads 1 byte. `Incomplete(1)` if there is none.
    pub fn parse(i: &[u8]) -> IResult<&[u8], Self>
        ensures { Gives (λ v. v.0) (number 1) i.now result }
    {
        let (i, n) = parsed!(number1(i));
        Ok((i, TlsAlertSeverity(n)))
    }
}

/// The constants, each as its number and its name.
static NAMES: &[(u16, &str)] = names!(TlsAlertSeverity: Warning, Fatal);

impl fmt::Display for TlsAlertSeverity {
    ghost output = { λ v. Some (name (codes "TlsAlertSeverity") alert_levels v.0) };

    fn fmt<W: fmt::Write>(&self, f: &mut fmt::Formatter<W>) -> fmt::Result {
        write_name(f, "TlsAlertSeverity", NAMES, self.0 as u16)
    }
}
