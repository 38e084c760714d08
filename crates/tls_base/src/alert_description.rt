//! Descriptions of alerts.
ghost use Rattle.std.specs.Prelude.{Some, codes, ◌≡◌};
ghost use Rattle.layouts.specs.Layout.{number};
ghost use Rattle.layouts.specs.Answers.{Gives};
ghost use Rattle.std.specs.Option.{option_map};
ghost use Rattle.tls_base.specs.Names.{look_up, name};
ghost use Rattle.tls_base.specs.Registered.{registered_alerts};
ghost use Rattle.tls_base.specs.Constants.{alert_descriptions};

use crate::name::{find_name, names, registered, write_name};
use layouts::{IResult, number1, parsed};
use std::fmt;

/// The description of an alert: the AlertDescription of RFC 8446, section 6, with the alerts of
/// earlier versions.
#[derive(Clone, Copy, Debug, PartialEq, Eq)]
pub struct TlsAlertDescription(pub u8);

impl TlsAlertDescription {
    /// `close_notify` (RFC 8446, section 6.1).
    pub const CloseNotify: TlsAlertDescription = TlsAlertDescription(0);

    /// `unexpected_message` (RFC 8446, section 6.2).
    pub const UnexpectedMessage: TlsAlertDescription = TlsAlertDescription(10);

    /// `bad_record_mac` (RFC 8446, section 6.2).
    pub const BadRecordMac: TlsAlertDescription = TlsAlertDescription(20);

    /// `decryption_failed` of some versions before TLS 1.2 (RFC 2246, section 7.2.2).
    pub const DecryptionFailed: TlsAlertDescription = TlsAlertDescription(21);

    /// `record_overflow` (RFC 8446, section 6.2).
    pub const RecordOverflow: TlsAlertDescription = TlsAlertDescription(22);

    /// `decompression_failure` of the versions before TLS 1.3 (RFC 5246, section 7.2.2).
    pub const DecompressionFailure: TlsAlertDescription = TlsAlertDescription(30);

    /// `handshake_failure` (RFC 8446, section 6.2).
    pub const HandshakeFailure: TlsAlertDescription = TlsAlertDescription(40);

    /// `no_certificate` of SSL 3.0 alone (RFC 6101, section 5.4.2).
    pub const NoCertificate: TlsAlertDescription = TlsAlertDescription(41);

    /// `bad_certificate` (RFC 8446, section 6.2).
    pub const BadCertificate: TlsAlertDescription = TlsAlertDescription(42);

    /// `unsupported_certificate` (RFC 8446, section 6.2).
    pub const UnsupportedCertificate: TlsAlertDescription = TlsAlertDescription(43);

    /// `certificate_revoked` (RFC 8446, section 6.2).
    pub const CertificateRevoked: TlsAlertDescription = TlsAlertDescription(44);

    /// `certificate_expired` (RFC 8446, section 6.2).
    pub const CertificateExpired: TlsAlertDescription = TlsAlertDescription(45);

    /// `certificate_unknown` (RFC 8446, section 6.2).
    pub const CertificateUnknown: TlsAlertDescription = TlsAlertDescription(46);

    /// `illegal_parameter` (RFC 8446, section 6.2).
    pub const IllegalParameter: TlsAlertDescription = TlsAlertDescription(47);

    /// `unknown_ca` (RFC 8446, section 6.2).
    pub const UnknownCa: TlsAlertDescription = TlsAlertDescription(48);

    /// `access_denied` (RFC 8446, section 6.2).
    pub const AccessDenied: TlsAlertDescription = TlsAlertDescription(49);

    /// `decode_error` (RFC 8446, section 6.2).
    pub const DecodeError: TlsAlertDescription = TlsAlertDescription(50);

    /// `decrypt_error` (RFC 8446, section 6.2).
    pub const DecryptError: TlsAlertDescription = TlsAlertDescription(51);

    /// `export_restriction` of some versions before TLS 1.2 (RFC 2246, section 7.2.2).
    pub const ExportRestriction: TlsAlertDescription = TlsAlertDescription(60);

    /// `protocol_version` (RFC 8446, section 6.2).
    pub const ProtocolVersion: TlsAlertDescription = TlsAlertDescription(70);

    /// `insufficient_security` (RFC 8446, section 6.2).
    pub const InsufficientSecurity: TlsAlertDescription = TlsAlertDescription(71);

    /// `internal_error` (RFC 8446, section 6.2).
    pub const InternalError: TlsAlertDescription = TlsAlertDescription(80);

    /// `inappropriate_fallback` (RFC 7507): the client retried with a lower version than the server
    /// supports.
    pub const InappropriateFallback: TlsAlertDescription = TlsAlertDescription(86);

    /// `user_canceled` (RFC 8446, section 6.1).
    pub const UserCancelled: TlsAlertDescription = TlsAlertDescription(90);

    /// `no_renegotiation` of the versions before TLS 1.3 (RFC 5246, section 7.2.2).
    pub const NoRenegotiation: TlsAlertDescription = TlsAlertDescription(100);

    /// `missing_extension` (RFC 8446, section 6.2).
    pub const MissingExtension: TlsAlertDescription = TlsAlertDescription(109);

    /// `unsupported_extension` (RFC 8446, section 6.2).
    pub const UnsupportedExtension: TlsAlertDescription = TlsAlertDescription(110);

    /// `certificate_unobtainable` (RFC 6066, section 9): the certificate could not be fetched.
    pub const CertUnobtainable: TlsAlertDescription = TlsAlertDescription(111);

    /// `unrecognized_name` (RFC 6066, section 9).
    pub const UnrecognizedName: TlsAlertDescription = TlsAlertDescription(112);

    /// `bad_certificate_status_response` (RFC 6066, section 9).
    pub const BadCertStatusResponse: TlsAlertDescription = TlsAlertDescription(113);

    /// `bad_certificate_hash_value` (RFC 6066, section 9): the fetched certificate has another
    /// hash.
    pub const BadCertHashValue: TlsAlertDescription = TlsAlertDescription(114);

    /// `unknown_psk_identity` (RFC 4279).
    pub const UnknownPskIdentity: TlsAlertDescription = TlsAlertDescription(115);

    /// `certificate_required` (RFC 8446, section 6.2).
    pub const CertificateRequired: TlsAlertDescription = TlsAlertDescription(116);

    /// `no_application_protocol` (RFC 7301, section 3.2).
    pub const NoApplicationProtocol: TlsAlertDescription = TlsAlertDescription(120);

    /// Returns the number's name in IANA's registry of alerts, without the remark that it is
    /// reserved; `None` if it has none.
    pub fn registered_name(self) -> Option<&'static str>
        ensures { option_map (λ t. t.now) result ≡ look_up registered_alerts self.0 }
    {
        find_name(REGISTERED, self.0 as u16)
    }

    /// Reads 1 byte. `Incomplete(1)` if there is none.
    pub fn parse(i: &[u8]) -> IResult<&[u8], Self>
        ensures { Gives (λ v. v.0) (number 1) i.now result }
    {
        let (i, n) = parsed!(number1(i));
        Ok((i, TlsAlertDescription(n)))
    }
}

/// The registry of alerts, in increasing order: a row for each number with a constant or a
/// registered name.
macro_rules! rows {
    ($column:ident) => {
        $column! {
            TlsAlertDescription:
            CloseNotify = "close_notify";
            UnexpectedMessage = "unexpected_message";
            BadRecordMac = "bad_record_mac";
            DecryptionFailed = "decryption_failed";
            RecordOverflow = "record_overflow";
            DecompressionFailure = "decompression_failure";
            HandshakeFailure = "handshake_failure";
            NoCertificate = "no_certificate";
            BadCertificate = "bad_certificate";
            UnsupportedCertificate = "unsupported_certificate";
            CertificateRevoked = "certificate_revoked";
            CertificateExpired = "certificate_expired";
            CertificateUnknown = "certificate_unknown";
            IllegalParameter = "illegal_parameter";
            UnknownCa = "unknown_ca";
            AccessDenied = "access_denied";
            DecodeError = "decode_error";
            DecryptError = "decrypt_error";
            52 = "too_many_cids_requested"; // RFC 9147, section 9
            ExportRestriction = "export_restriction";
            ProtocolVersion = "protocol_version";
            InsufficientSecurity = "insufficient_security";
            InternalError = "internal_error";
            InappropriateFallback = "inappropriate_fallback";
            UserCancelled = "user_canceled";
            NoRenegotiation = "no_renegotiation";
            MissingExtension = "missing_extension";
            UnsupportedExtension = "unsupported_extension";
            CertUnobtainable = "certificate_unobtainable";
            UnrecognizedName = "unrecognized_name";
            BadCertStatusResponse = "bad_certificate_status_response";
            BadCertHashValue = "bad_certificate_hash_value";
            UnknownPskIdentity = "unknown_psk_identity";
            CertificateRequired = "certificate_required";
            NoApplicationProtocol = "no_application_protocol";
            121 = "ech_required"; // draft-ietf-tls-esni
        }
    };
}

/// The constants, each as its number and its name.
static NAMES: &[(u16, &str)] = rows!(names);

/// The registry's names, each after its number.
static REGISTERED: &[(u16, &str)] = rows!(registered);

impl fmt::Display for TlsAlertDescription {
    ghost output = { λ v. Some (name (codes "TlsAlertDescription") alert_descriptions v.0) };

    fn fmt<W: fmt::Write>(&self, f: &mut fmt::Formatter<W>) -> fmt::Result {
        write_name(f, "TlsAlertDescription", NAMES, self.0 as u16)
    }
}
