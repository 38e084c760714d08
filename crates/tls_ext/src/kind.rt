//! The table of extensions: each type's kind, the call that reads it, and the sides that do.
ghost use Rattle.std.specs.Prelude.{◌≡◌};
ghost use Rattle.tls_ext.specs.Dispatch.{all_sides, not_server, general_only};

/// The sender of the extensions, if the caller states it.
#[derive(Clone, Copy)]
pub(crate) enum Side {
    /// Unknown.
    General,
    /// A client, in its ClientHello.
    Client,
    /// A server, in its ServerHello.
    Server,
}

impl Side {
    /// Returns true: a type that each side reads.
    pub(crate) fn all_sides(self) -> bool
        ensures { result ≡ all_sides self }
    {
        true
    }

    /// Returns whether a type is read here that isn't read in a ServerHello.
    pub(crate) fn not_server(self) -> bool
        ensures { result ≡ not_server self }
    {
        !matches!(self, Side::Server)
    }

    /// Returns whether a type is read here that is read only if the sender is unknown.
    pub(crate) fn general_only(self) -> bool
        ensures { result ≡ general_only self }
    {
        matches!(self, Side::General)
    }
}

/// The table. It passes its rows to the macro `$then`, after the words in brackets; `$part` picks
/// the rows.
///
/// A row has an extension type (the name of its constant, or its number if it has none), the form
/// and the name of the variant of `TlsExtension`, the call that reads the content, and the sides
/// that read it. Contents that are lists have a separate part: calls read these, and all others are
/// read in place. In each part the rows are in the order of the types' numbers.
macro_rules! rows {
    ($part:ident $then:ident $($words:tt)*) => {
        $part! {
            $then [$($words)*]
            {
                MaxFragmentLength =>
                    value(MaxFragmentLength, parse_tls_extension_max_fragment_length_content),
                        all_sides;
                StatusRequest => value(StatusRequest, status_request_content), all_sides;
                EcPointFormats =>
                    value(EcPointFormats, parse_tls_extension_ec_point_formats_content), all_sides;
                Heartbeat => value(Heartbeat, parse_tls_extension_heartbeat_content), all_sides;
                SignedCertificateTimestamp =>
                    value(SignedCertificateTimestamp,
                        parse_tls_extension_signed_certificate_timestamp_content), all_sides;
                Padding => value(Padding, padding_content), not_server;
                EncryptThenMac => empty(EncryptThenMac, encrypt_then_mac_content), all_sides;
                ExtendedMasterSecret => empty(ExtendedMasterSecret, extended_master_secret_content),
                    all_sides;
                RecordSizeLimit => value(RecordSizeLimit, record_size_limit_content), all_sides;
                SessionTicketTLS => value(SessionTicket, session_ticket_content), all_sides;
                KeyShareOld => value(KeyShareOld, key_share_old_content), general_only;
                PreSharedKey => value(PreSharedKey, pre_shared_key_content), all_sides;
                EarlyData => value(EarlyData, early_data_content), all_sides;
                Cookie => value(Cookie, cookie_content), all_sides;
                PostHandshakeAuth => empty(PostHandshakeAuth, post_handshake_auth_content),
                    not_server;
                KeyShare => value(KeyShare, key_share_content), all_sides;
                NextProtocolNegotiation =>
                    empty(NextProtocolNegotiation, next_protocol_negotiation_content), all_sides;
                RenegotiationInfo =>
                    value(RenegotiationInfo, parse_tls_extension_renegotiation_info_content),
                        all_sides;
                EncryptedServerName =>
                    fields(EncryptedServerName, parse_tls_extension_encrypted_server_name),
                        not_server;
            }
            {
                ServerName => list(SNI, parse_tls_extension_sni_content), all_sides;
                SupportedGroups =>
                    list(EllipticCurves, parse_tls_extension_elliptic_curves_content), not_server;
                SignatureAlgorithms =>
                    list(SignatureAlgorithms, parse_tls_extension_signature_algorithms_content),
                        all_sides;
                ApplicationLayerProtocolNegotiation => list(ALPN, parse_tls_extension_alpn_content),
                    all_sides;
                SupportedVersions => list(SupportedVersions, supported_versions_content), all_sides;
                PskExchangeModes =>
                    list(PskExchangeModes, parse_tls_extension_psk_key_exchange_modes_content),
                        not_server;
                OidFilters => list(OidFilters, oid_filters_content), not_server;
            }
        }
    };
}

/// Picks all rows.
macro_rules! every_row {
    ($then:ident $words:tt { $($other:tt)* } { $($list:tt)* }) => {
        $then! { $words $($other)* $($list)* }
    };
}

/// Picks the rows whose content isn't a list.
macro_rules! other_rows {
    ($then:ident $words:tt { $($other:tt)* } $lists:tt) => {
        $then! { $words $($other)* }
    };
}

/// Picks the rows whose content is a list.
macro_rules! list_rows {
    ($then:ident $words:tt $others:tt { $($list:tt)* }) => {
        $then! { $words $($list)* }
    };
}

/// Expands to the extension type of a row, as a value or a pattern.
macro_rules! row_type {
    ($number:literal) => {
        TlsExtensionType($number)
    };
    ($name:ident) => {
        TlsExtensionType::$name
    };
}

pub(crate) use every_row;
pub(crate) use list_rows;
pub(crate) use other_rows;
pub(crate) use row_type;
pub(crate) use rows;
