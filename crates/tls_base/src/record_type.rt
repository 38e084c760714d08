//! Types of records.
ghost use Rattle.std.specs.Prelude.{Some, codes, ◌≡◌};
ghost use Rattle.layouts.specs.Layout.{number};
ghost use Rattle.layouts.specs.Answers.{Gives};
ghost use Rattle.std.specs.Option.{option_map};
ghost use Rattle.tls_base.specs.Names.{look_up, name};
ghost use Rattle.tls_base.specs.Registered.{registered_content_types};
ghost use Rattle.tls_base.specs.Constants.{content_types};

use crate::name::{find_name, names, registered, write_name};
use layouts::{IResult, number1, parsed};
use std::fmt;

/// The type of a record: the ContentType of RFC 5246, section 6.2.1, and heartbeat (RFC 6520,
/// section 6).
#[derive(Clone, Copy, Debug, PartialEq, Eq)]
pub struct TlsRecordType(pub u8);

impl TlsRecordType {
    /// `change_cipher_spec` (RFC 5246, section 7.1).
    pub const ChangeCipherSpec: TlsRecordType = TlsRecordType(20);

    /// `alert` (RFC 5246, section 7.2).
    pub const Alert: TlsRecordType = TlsRecordType(21);

    /// `handshake` (RFC 5246, section 7.4).
    pub const Handshake: TlsRecordType = TlsRecordType(22);

    /// `application_data` (RFC 5246, section 10).
    pub const ApplicationData: TlsRecordType = TlsRecordType(23);

    /// `heartbeat` (RFC 6520, section 3).
    pub const Heartbeat: TlsRecordType = TlsRecordType(24);

    /// Returns the number's name in IANA's registry of content types; `None` if it has none.
    pub fn registered_name(self) -> Option<&'static str>
        ensures { option_map (λ t. t.now) result ≡ look_up registered_content_types self.0 }
    {
        find_name(REGISTERED, self.0 as u16)
    }

    /// Reads 1 byte. `Incomplete(1)` if there is none.
    pub fn parse(i: &[u8]) -> IResult<&[u8], Self>
        ensures { Gives (λ v. v.0) (number 1) i.now result }
    {
        let (i, n) = parsed!(number1(i));
        Ok((i, TlsRecordType(n)))
    }
}

/// The registry of content types, in increasing order: a row for each number with a constant or a
/// registered name.
macro_rules! rows {
    ($column:ident) => {
        $column! {
            TlsRecordType:
            ChangeCipherSpec = "change_cipher_spec";
            Alert = "alert";
            Handshake = "handshake";
            ApplicationData = "application_data";
            Heartbeat = "heartbeat";
            25 = "tls12_cid"; // RFC 9146, section 4
            26 = "ACK"; // RFC 9147, section 7
        }
    };
}

/// The constants, each as its number and its name.
static NAMES: &[(u16, &str)] = rows!(names);

/// The registry's names, each after its number.
static REGISTERED: &[(u16, &str)] = rows!(registered);

impl fmt::Display for TlsRecordType {
    ghost output = { λ v. Some (name (codes "TlsRecordType") content_types v.0) };

    fn fmt<W: fmt::Write>(&self, f: &mut fmt::Formatter<W>) -> fmt::Result {
        write_name(f, "TlsRecordType", NAMES, self.0 as u16)
    }
}

impl From<TlsRecordType> for u8 {
    ghost from_gives = { λ v n. n ≡ v.0 };

    fn from(v: TlsRecordType) -> u8 {
        v.0
    }
}
