//! Numbers of extensions.
ghost use Rattle.std.specs.Prelude.{◌≡◌, Some, codes};
ghost use Rattle.layouts.specs.Layout.{number};
ghost use Rattle.layouts.specs.Answers.{Gives};
ghost use Rattle.std.specs.Option.{option_map};
ghost use Rattle.tls_base.specs.Names.{look_up, name};
ghost use Rattle.tls_base.specs.Registered.{registered_extension_types};
ghost use Rattle.tls_base.specs.ExtensionNumbers.{extension_types};

use crate::name::{find_name, numbers, registered, texts, write_rising};
use layouts::{IResult, number2, parsed};
use std::fmt;

/// The type of an extension: the ExtensionType of RFC 8446, section 4.2, 2 bytes, big-endian. Types
/// of earlier versions and of drafts are included.
#[derive(Clone, Copy, Debug, PartialEq, Eq)]
pub struct TlsExtensionType(pub u16);

impl TlsExtensionType {
    /// `server_name` (RFC 6066, section 3).
    pub const ServerName: TlsExtensionType = TlsExtensionType(0);

    /// `max_fragment_length` (RFC 6066, section 4).
    pub const MaxFragmentLength: TlsExtensionType = TlsExtensionType(1);

    /// `client_certificate_url` (RFC 6066, section 5).
    pub const ClientCertificate: TlsExtensionType = TlsExtensionType(2);

    /// `trusted_ca_keys` (RFC 6066, section 6).
    pub const TrustedCaKeys: TlsExtensionType = TlsExtensionType(3);

    /// `truncated_hmac` (RFC 6066, section 7).
    pub const TruncatedHMac: TlsExtensionType = TlsExtensionType(4);

    /// `status_request` (RFC 6066, section 8).
    pub const StatusRequest: TlsExtensionType = TlsExtensionType(5);

    /// `user_mapping` (RFC 4681).
    pub const UserMapping: TlsExtensionType = TlsExtensionType(6);

    /// `client_authz` (RFC 5878).
    pub const ClientAuthz: TlsExtensionType = TlsExtensionType(7);

    /// `server_authz` (RFC 5878).
    pub const ServerAuthz: TlsExtensionType = TlsExtensionType(8);

    /// `cert_type` (RFC 6091).
    pub const CertType: TlsExtensionType = TlsExtensionType(9);

    /// `supported_groups` (RFC 8446, section 4.2.7); `elliptic_curves` (RFC 4492).
    pub const SupportedGroups: TlsExtensionType = TlsExtensionType(10);

    /// `ec_point_formats` (RFC 8422, section 5.1.2).
    pub const EcPointFormats: TlsExtensionType = TlsExtensionType(11);

    /// `srp` (RFC 5054).
    pub const Srp: TlsExtensionType = TlsExtensionType(12);

    /// `signature_algorithms` (RFC 8446, section 4.2.3).
    pub const SignatureAlgorithms: TlsExtensionType = TlsExtensionType(13);

    /// `use_srtp` (RFC 5764, section 4.1).
    pub const UseSrtp: TlsExtensionType = TlsExtensionType(14);

    /// `heartbeat` (RFC 6520, section 2).
    pub const Heartbeat: TlsExtensionType = TlsExtensionType(15);

    /// `application_layer_protocol_negotiation` (RFC 7301, section 3.1).
    pub const ApplicationLayerProtocolNegotiation: TlsExtensionType = TlsExtensionType(16);

    /// `status_request_v2` (RFC 6961).
    pub const StatusRequestv2: TlsExtensionType = TlsExtensionType(17);

    /// `signed_certificate_timestamp` (RFC 6962, section 3.3.1).
    pub const SignedCertificateTimestamp: TlsExtensionType = TlsExtensionType(18);

    /// `client_certificate_type` (RFC 7250).
    pub const ClientCertificateType: TlsExtensionType = TlsExtensionType(19);

    /// `server_certificate_type` (RFC 7250).
    pub const ServerCertificateType: TlsExtensionType = TlsExtensionType(20);

    /// `padding` (RFC 7685, section 3).
    pub const Padding: TlsExtensionType = TlsExtensionType(21);

    /// `encrypt_then_mac` (RFC 7366, section 2).
    pub const EncryptThenMac: TlsExtensionType = TlsExtensionType(22);

    /// `extended_master_secret` (RFC 7627, section 5.1).
    pub const ExtendedMasterSecret: TlsExtensionType = TlsExtensionType(23);

    /// `token_binding` (RFC 8472).
    pub const TokenBinding: TlsExtensionType = TlsExtensionType(24);

    /// `cached_info` (RFC 7924).
    pub const CachedInfo: TlsExtensionType = TlsExtensionType(25);

    /// `record_size_limit` (RFC 8449, section 4).
    pub const RecordSizeLimit: TlsExtensionType = TlsExtensionType(28);

    /// `SessionTicket TLS` (RFC 5077, section 3.2).
    pub const SessionTicketTLS: TlsExtensionType = TlsExtensionType(35);

    /// `key_share` of the drafts of TLS 1.3 up to draft 22.
    pub const KeyShareOld: TlsExtensionType = TlsExtensionType(40);

    /// `pre_shared_key` (RFC 8446, section 4.2.11).
    pub const PreSharedKey: TlsExtensionType = TlsExtensionType(41);

    /// `early_data` (RFC 8446, section 4.2.10).
    pub const EarlyData: TlsExtensionType = TlsExtensionType(42);

    /// `supported_versions` (RFC 8446, section 4.2.1).
    pub const SupportedVersions: TlsExtensionType = TlsExtensionType(43);

    /// `cookie` (RFC 8446, section 4.2.2).
    pub const Cookie: TlsExtensionType = TlsExtensionType(44);

    /// `psk_key_exchange_modes` (RFC 8446, section 4.2.9).
    pub const PskExchangeModes: TlsExtensionType = TlsExtensionType(45);

    /// `ticket_early_data_info` of drafts of TLS 1.3 alone.
    pub const TicketEarlyDataInfo: TlsExtensionType = TlsExtensionType(46);

    /// `certificate_authorities` (RFC 8446, section 4.2.4).
    pub const CertificateAuthorities: TlsExtensionType = TlsExtensionType(47);

    /// `oid_filters` (RFC 8446, section 4.2.5).
    pub const OidFilters: TlsExtensionType = TlsExtensionType(48);

    /// `post_handshake_auth` (RFC 8446, section 4.2.6).
    pub const PostHandshakeAuth: TlsExtensionType = TlsExtensionType(49);

    /// `signature_algorithms_cert` (RFC 8446, section 4.2.3).
    pub const SigAlgorithmsCert: TlsExtensionType = TlsExtensionType(50);

    /// `key_share` (RFC 8446, section 4.2.8).
    pub const KeyShare: TlsExtensionType = TlsExtensionType(51);

    /// `next_protocol_negotiation` (draft-agl-tls-nextprotoneg).
    pub const NextProtocolNegotiation: TlsExtensionType = TlsExtensionType(13172);

    /// One of the sixteen GREASE values of RFC 8701, section 2. The others have no constant.
    pub const Grease: TlsExtensionType = TlsExtensionType(0xfafa);

    /// `renegotiation_info` (RFC 5746, section 3.2).
    pub const RenegotiationInfo: TlsExtensionType = TlsExtensionType(0xff01);

    /// `encrypted_server_name` of early drafts of Encrypted Client Hello (draft-ietf-tls-esni).
    pub const EncryptedServerName: TlsExtensionType = TlsExtensionType(0xffce);

    /// Returns the type with this number.
    pub fn from_u16(t: u16) -> TlsExtensionType
        ensures { result.0 ≡ t }
    {
        TlsExtensionType(t)
    }

    /// Returns the number's name in IANA's registry of extension types, without the remark that it
    /// is reserved; `None` if it has none.
    pub fn registered_name(self) -> Option<&'static str>
        ensures { option_map (λ t. t.now) result ≡ look_up registered_extension_types self.0 }
    {
        find_name(REGISTERED, self.0)
    }

    /// Reads 2 bytes, big-endian. `Incomplete` with the number of missing bytes, 2 or 1.
    pub fn parse(i: &[u8]) -> IResult<&[u8], Self>
        ensures { Gives (λ v. v.0) (number 2) i.now result }
    {
        let (i, n) = parsed!(number2(i));
        Ok((i, TlsExtensionType(n)))
    }
}

impl From<TlsExtensionType> for u16 {
    ghost from_gives = { λ v n. n ≡ v.0 };

    fn from(v: TlsExtensionType) -> u16 {
        v.0
    }
}

/// The registry of extension types, in increasing order: a row for each number with a constant or a
/// registered name.
macro_rules! rows {
    ($column:ident) => {
        $column! {
            TlsExtensionType:
            ServerName = "server_name";
            MaxFragmentLength = "max_fragment_length";
            ClientCertificate = "client_certificate_url";
            TrustedCaKeys = "trusted_ca_keys";
            TruncatedHMac = "truncated_hmac";
            StatusRequest = "status_request";
            UserMapping = "user_mapping";
            ClientAuthz = "client_authz";
            ServerAuthz = "server_authz";
            CertType = "cert_type";
            SupportedGroups = "supported_groups";
            EcPointFormats = "ec_point_formats";
            Srp = "srp";
            SignatureAlgorithms = "signature_algorithms";
            UseSrtp = "use_srtp";
            Heartbeat = "heartbeat";
            ApplicationLayerProtocolNegotiation = "application_layer_protocol_negotiation";
            StatusRequestv2 = "status_request_v2";
            SignedCertificateTimestamp = "signed_certificate_timestamp";
            ClientCertificateType = "client_certificate_type";
            ServerCertificateType = "server_certificate_type";
            Padding = "padding";
            EncryptThenMac = "encrypt_then_mac";
            ExtendedMasterSecret = "extended_master_secret";
            TokenBinding = "token_binding";
            CachedInfo = "cached_info";
            26 = "tls_lts"; // draft-gutmann-tls-lts
            27 = "compress_certificate"; // RFC 8879, section 3
            RecordSizeLimit = "record_size_limit";
            29 = "pwd_protect"; // RFC 8492
            30 = "pwd_clear"; // RFC 8492
            31 = "password_salt"; // RFC 8492
            32 = "ticket_pinning"; // RFC 8672
            33 = "tls_cert_with_extern_psk"; // RFC 8773
            34 = "delegated_credential"; // RFC 9345
            SessionTicketTLS = "session_ticket";
            36 = "TLMSP"; // ETSI TS 103 523-2
            37 = "TLMSP_proxying"; // ETSI TS 103 523-2
            38 = "TLMSP_delegate"; // ETSI TS 103 523-2
            39 = "supported_ekt_ciphers"; // RFC 8870
            [KeyShareOld];
            PreSharedKey = "pre_shared_key";
            EarlyData = "early_data";
            SupportedVersions = "supported_versions";
            Cookie = "cookie";
            PskExchangeModes = "psk_key_exchange_modes";
            [TicketEarlyDataInfo];
            CertificateAuthorities = "certificate_authorities";
            OidFilters = "oid_filters";
            PostHandshakeAuth = "post_handshake_auth";
            SigAlgorithmsCert = "signature_algorithms_cert";
            KeyShare = "key_share";
            52 = "transparency_info"; // RFC 9162
            54 = "connection_id"; // RFC 9146
            55 = "external_id_hash"; // RFC 8844
            56 = "external_session_id"; // RFC 8844
            57 = "quic_transport_parameters"; // RFC 9001
            58 = "ticket_request"; // RFC 9149
            59 = "dnssec_chain"; // RFC 9102
            60 = "sequence_number_encryption_algorithms";
                // draft-pismenny-tls-dtls-plaintext-sequence-number
            61 = "rrc"; // draft-ietf-tls-dtls-rrc
            62 = "tls_flags"; // draft-ietf-tls-tlsflags
            NextProtocolNegotiation = "next_protocol_negotiation";
            17513 = "application_settings"; // draft-vvv-tls-alps
            17613 = "application_settings"; // draft-vvv-tls-alps, from its second version on
            51764 = "trust_anchors"; // draft-ietf-tls-trust-anchor-ids
            [Grease];
            0xfd00 = "ech_outer_extensions"; // draft-ietf-tls-esni
            0xfe0d = "encrypted_client_hello"; // draft-ietf-tls-esni
            RenegotiationInfo = "renegotiation_info";
            [EncryptedServerName];
        }
    };
}

/// The numbers of the constants, in increasing order.
static NUMBERS: &[u16] = rows!(numbers);

/// The names of the constants, in the same order.
static NAMES: &[&str] = rows!(texts);

/// The registry's names, each after its number.
static REGISTERED: &[(u16, &str)] = rows!(registered);

impl fmt::Display for TlsExtensionType {
    ghost output = { λ v. Some (name (codes "TlsExtensionType") extension_types v.0) };

    fn fmt<W: fmt::Write>(&self, f: &mut fmt::Formatter<W>) -> fmt::Result {
        write_rising(f, "TlsExtensionType", NUMBERS, NAMES, self.0)
    }
}
