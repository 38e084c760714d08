//! Re-exports the public names of the Rust crate tls-parser from the crates that have them, with
//! their definitions. It defines nothing itself, and the promises are those of these crates.
//!
//! Records of TLS and DTLS and the writer are in `tls_records`, the handshake's state machine in
//! `tls_states`. A program that needs only one of them can depend on that crate.
#![tactic(auto)]

// Records, and their writer.
pub use tls_records::{
    DTLSBodyView, DTLSClientHello, DTLSClientHelloView, DTLSHandshakeView, DTLSHelloVerifyRequest,
    DTLSMessage, DTLSMessageHandshake, DTLSMessageHandshakeBody, DTLSMessages, DTLSPlaintext,
    DTLSPlaintextView, DTLSRawHandshake, DTLSRawMessage, DTLSRawRecord, DTLSRecordHeader,
    MAX_RECORD_LEN, PlaintextView, Serialize, TlsEncrypted, TlsEncryptedContent, TlsPlaintext,
    TlsRawRecord, TlsRecordHeader, first_body, gen_tls_changecipherspec, gen_tls_message,
    gen_tls_plaintext, laws, parse_dtls_message_alert, parse_dtls_message_changecipherspec,
    parse_dtls_message_handshake, parse_dtls_plaintext_record,
    parse_dtls_plaintext_record_in_place, parse_dtls_plaintext_records, parse_dtls_record_header,
    parse_dtls_record_with_header, parse_dtls_record_with_header_in_place, parse_tls_encrypted,
    parse_tls_plaintext, parse_tls_plaintext_in_place, parse_tls_raw_record,
    parse_tls_record_header, parse_tls_record_with_header, parse_tls_record_with_header_in_place,
    server_name_of_record, tls_parser, tls_parser_many,
};

// Why a value isn't written.
pub use layouts::GenError;

// Numbers with names, key exchange, signatures, timestamps, cipher suites.
pub use tls_base::{
    CertificateStatusType, CipherSuiteNotFound, CipherTable, CipherTableError, CipherTableFault,
    CtVersion, ECCurveType, ECPoint, Err, Error, ErrorKind, HashAlgorithm, IResult, NamedGroup,
    Needed, OutOfMemory, PskKeyExchangeMode, SNIType, SignAlgorithm, SignatureScheme,
    TlsAlertDescription, TlsAlertSeverity, TlsCipherAu, TlsCipherEnc, TlsCipherEncMode,
    TlsCipherKx, TlsCipherMac, TlsCipherSuite, TlsCipherSuiteID, TlsCompressionID,
    TlsExtensionType, TlsHandshakeType, TlsHeartbeatMessageType, TlsMessageAlert, TlsPRF,
    TlsRecordType, TlsVersion, UnknownNumber,
};
pub use tls_key_exchange::{
    CtExtensions, CtLogID, DigitallySigned, ECCurve, ECParameters, ECParametersContent,
    ExplicitPrimeContent, ServerDHParams, ServerECDHParams, SignatureAndHashAlgorithm,
    SignedCertificateTimestamp, parse_content_and_signature, parse_ct_signed_certificate_timestamp,
    parse_ct_signed_certificate_timestamp_list, parse_dh_params, parse_digitally_signed,
    parse_digitally_signed_old, parse_ec_parameters, parse_ecdh_params, parse_named_groups,
};

// Extensions.
pub use tls_ext::{
    KeyShareEntry, OidFilter, TlsExtension, gen_tls_extension, gen_tls_extensions,
    parse_tls_client_hello_extension, parse_tls_client_hello_extensions, parse_tls_extension,
    parse_tls_extension_alpn_content, parse_tls_extension_cookie, parse_tls_extension_early_data,
    parse_tls_extension_ec_point_formats, parse_tls_extension_ec_point_formats_content,
    parse_tls_extension_elliptic_curves, parse_tls_extension_elliptic_curves_content,
    parse_tls_extension_encrypt_then_mac, parse_tls_extension_encrypted_server_name,
    parse_tls_extension_extended_master_secret, parse_tls_extension_heartbeat,
    parse_tls_extension_heartbeat_content, parse_tls_extension_key_share,
    parse_tls_extension_max_fragment_length, parse_tls_extension_max_fragment_length_content,
    parse_tls_extension_pre_shared_key, parse_tls_extension_psk_key_exchange_modes,
    parse_tls_extension_psk_key_exchange_modes_content,
    parse_tls_extension_renegotiation_info_content, parse_tls_extension_session_ticket,
    parse_tls_extension_signature_algorithms, parse_tls_extension_signature_algorithms_content,
    parse_tls_extension_signed_certificate_timestamp_content, parse_tls_extension_sni,
    parse_tls_extension_sni_content, parse_tls_extension_sni_hostname,
    parse_tls_extension_status_request, parse_tls_extension_supported_versions,
    parse_tls_extension_unknown, parse_tls_extensions, parse_tls_server_hello_extension,
    parse_tls_server_hello_extensions,
};

// Handshake messages.
pub use tls_hs::{
    ClientHello, KeyUpdateRequest, RawCertificate, TlsCertificateContents,
    TlsCertificateRequestContents, TlsCertificateStatusContents, TlsClientHelloContents,
    TlsClientKeyExchangeContents, TlsHelloRetryRequestContents, TlsMessage,
    TlsMessageApplicationData, TlsMessageHandshake, TlsMessageHeartbeat,
    TlsNewSessionTicketContent, TlsNextProtocolContent, TlsServerHelloContents,
    TlsServerHelloV13Draft18Contents, TlsServerKeyExchangeContents,
    parse_tls_handshake_certificaterequest, parse_tls_handshake_certificatestatus,
    parse_tls_handshake_client_hello, parse_tls_handshake_msg_certificate,
    parse_tls_handshake_msg_certificaterequest, parse_tls_handshake_msg_certificatestatus,
    parse_tls_handshake_msg_certificateverify, parse_tls_handshake_msg_client_hello,
    parse_tls_handshake_msg_clientkeyexchange, parse_tls_handshake_msg_finished,
    parse_tls_handshake_msg_hello_request, parse_tls_handshake_msg_hello_retry_request,
    parse_tls_handshake_msg_key_update, parse_tls_handshake_msg_newsessionticket,
    parse_tls_handshake_msg_next_protocol, parse_tls_handshake_msg_server_hello,
    parse_tls_handshake_msg_server_hello_of_draft, parse_tls_handshake_msg_serverdone,
    parse_tls_handshake_msg_serverkeyexchange, parse_tls_handshake_next_protocol,
    parse_tls_handshake_server_hello, parse_tls_message_alert, parse_tls_message_applicationdata,
    parse_tls_message_changecipherspec, parse_tls_message_handshake, parse_tls_message_heartbeat,
};
pub use tls_hs_writer::{
    gen_tls_clienthello, gen_tls_clientkeyexchange, gen_tls_finished, gen_tls_hellorequest,
    gen_tls_serverhello, gen_tls_serverhellodraft18,
};

// The handshake's state machine.
pub use tls_states::{ParseContext, StateChangeError, TlsState, tls_state_transition};

// Parsing in place.
pub use layouts::{Counted1, Counted2, InPlace, Items, Place};
pub use tls_ext::{
    ExtensionType, RawExtension, ServerName, application_protocols, best_version, ec_point_formats,
    extension_types, extensions, first_content, key_shares, oid_filters, protocol_names,
    psk_key_exchange_modes, server_name, server_names, signature_algorithms, supported_groups,
    supported_versions,
};
pub use tls_hs::{
    Alert, CertificateRequestView, ChangeCipherSpec, ClientHelloPlaces, ClientHelloView,
    HandshakeView, Messages, RawHandshake, RawMessage, certificates, heartbeat,
};
pub use tls_key_exchange::certificate_timestamps;
