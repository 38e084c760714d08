//! Alerts (RFC 5246, section 7.2).
ghost use Rattle.layouts.specs.Answers.{Gives};
ghost use Rattle.tls_base.specs.Alert.{view_alert, alert};

use crate::alert_description::TlsAlertDescription;
use crate::alert_severity::TlsAlertSeverity;
use layouts::{IResult, parsed};

/// An alert (RFC 5246, section 7.2).
#[derive(Clone, Debug, PartialEq, Drop)]
pub struct TlsMessageAlert {
    /// The severity: warning or fatal.
    pub severity: TlsAlertSeverity,
    /// The reason for the alert.
    pub code: TlsAlertDescription,
}

impl TlsMessageAlert {
    /// Reads 1 byte, the severity, and 1 byte, the description.
    ///
    /// `Incomplete(1)` if either is missing.
    #[tactic(auto, using(layouts::proofs::OneAnswerLemmas::read_allowed), unfolding(crate::specs::Alert::alert))]
    pub fn parse(i: &[u8]) -> IResult<&[u8], Self>
        ensures { Gives view_alert alert i.now result }
    {
        let (i, severity) = parsed!(TlsAlertSeverity::parse(i));
        let (i, code) = parsed!(TlsAlertDescription::parse(i));
        Ok((i, TlsMessageAlert { severity, code }))
    }
}
