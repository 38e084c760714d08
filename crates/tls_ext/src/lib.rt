//! Parses and writes extensions of TLS messages (RFC 8446, section 4.2).
//!
//! The promise: each parse call returns the one answer of its layout. That is the value and the
//! exact rest, or the refusal of the leftmost part that can't be read. Slices in a value are parts
//! of the input. What is written reads back ([`laws`]).
//!
//! - `specs/Content.antt` defines the content of each kind, `Dispatch` the kind of each type for
//!   each side, `Tagged` an extension of one given type.
//! - `specs/Extension.antt` defines the values, `InPlace` extensions that are parsed while they are
//!   walked, and what [`server_name`], [`application_protocols`] and [`best_version`] return.
//!   `Offered` defines what [`offered`] returns.
//! - `specs/ExtensionText.antt` defines the encoding, which kinds are written, and what their
//!   writers promise.
#![tactic(auto, using(layouts::proofs::OneAnswerLemmas::read_allowed))]

mod content;
mod content_view;
mod dispatch;
mod extension;
mod extension_view;
mod hello_extensions;
mod kind;
pub mod laws;
pub mod offered;
mod tagged;
mod writer;

pub use content::{
    ServerName, parse_tls_extension_alpn_content, parse_tls_extension_ec_point_formats_content,
    parse_tls_extension_elliptic_curves_content, parse_tls_extension_encrypted_server_name,
    parse_tls_extension_heartbeat_content, parse_tls_extension_max_fragment_length_content,
    parse_tls_extension_psk_key_exchange_modes_content,
    parse_tls_extension_renegotiation_info_content,
    parse_tls_extension_signature_algorithms_content,
    parse_tls_extension_signed_certificate_timestamp_content, parse_tls_extension_sni_content,
    parse_tls_extension_sni_hostname,
};
pub use content_view::{
    ec_point_formats, key_shares, oid_filters, protocol_names, psk_key_exchange_modes,
    server_names, signature_algorithms, supported_groups, supported_versions,
};
pub use dispatch::{
    parse_tls_client_hello_extension, parse_tls_client_hello_extensions, parse_tls_extension,
    parse_tls_extensions, parse_tls_server_hello_extension, parse_tls_server_hello_extensions,
};
pub use extension::{KeyShareEntry, OidFilter, TlsExtension};
pub use extension_view::{ExtensionType, RawExtension, extension_types, extensions, first_content};
pub use hello_extensions::{application_protocols, best_version, server_name};
pub use tagged::{
    parse_tls_extension_cookie, parse_tls_extension_early_data,
    parse_tls_extension_ec_point_formats, parse_tls_extension_elliptic_curves,
    parse_tls_extension_encrypt_then_mac, parse_tls_extension_extended_master_secret,
    parse_tls_extension_heartbeat, parse_tls_extension_key_share,
    parse_tls_extension_max_fragment_length, parse_tls_extension_pre_shared_key,
    parse_tls_extension_psk_key_exchange_modes, parse_tls_extension_session_ticket,
    parse_tls_extension_signature_algorithms, parse_tls_extension_sni,
    parse_tls_extension_status_request, parse_tls_extension_supported_versions,
    parse_tls_extension_unknown,
};
pub use writer::{gen_tls_extension, gen_tls_extensions};
