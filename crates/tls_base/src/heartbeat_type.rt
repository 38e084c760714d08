//! Types of heartbeat messages.
ghost use Rattle.std.specs.Prelude.{Some, codes, ◌≡◌};
ghost use Rattle.layouts.specs.Layout.{number};
ghost use Rattle.layouts.specs.Answers.{Gives};
ghost use Rattle.tls_base.specs.Names.{name};
ghost use Rattle.tls_base.specs.Constants.{heartbeat_message_types};

use crate::name::{names, write_name};
use layouts::{IResult, number1, parsed};
use std::fmt;

/// The type of a heartbeat message, request or response: the HeartbeatMessageType of RFC 6520,
/// section 3.
#[derive(Clone, Copy, Debug, PartialEq, Eq)]
pub struct TlsHeartbeatMessageType(pub u8);

impl TlsHeartbeatMessageType {
    /// `heartbeat_request` (RFC 6520, section 3).
    pub const HeartBeatRequest: TlsHeartbeatMessageType = TlsHeartbeatMessageType(1);

    /// `heartbeat_response` (RFC 6520, section 3).
    pub const HeartBeatResponse: TlsHeartbeatMessageType = TlsHeartbeatMessageType(2);

    /// Reads 1 byte. `Incomplete(1)` if there is none.
    pub fn parse(i: &[u8]) -> IResult<&[u8], Self>
        ensures { Gives (λ v. v.0) (number 1) i.now result }
    {
        let (i, n) = parsed!(number1(i));
        Ok((i, TlsHeartbeatMessageType(n)))
    }
}

/// The constants, each as its number and its name.
static NAMES: &[(u16, &str)] = names!(
    TlsHeartbeatMessageType: HeartBeatRequest, HeartBeatResponse
);

impl fmt::Display for TlsHeartbeatMessageType {
    ghost output = { λ v. Some
        (name (codes "TlsHeartbeatMessageType") heartbeat_message_types v.0) };

    fn fmt<W: fmt::Write>(&self, f: &mut fmt::Formatter<W>) -> fmt::Result {
        write_name(f, "TlsHeartbeatMessageType", NAMES, self.0 as u16)
    }
}

impl From<TlsHeartbeatMessageType> for u8 {
    ghost from_gives = { λ v n. n ≡ v.0 };

    fn from(v: TlsHeartbeatMessageType) -> u8 {
        v.0
    }
}
