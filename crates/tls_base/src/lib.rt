//! What several TLS structures share: numbers with names, alerts, points of elliptic curves, and
//! tables of cipher suites.
//!
//! The promises: each parse call returns the one answer of its layout, and a name is the one that a
//! table has for the number. A type such as [`TlsVersion`] keeps any number that it reads, with or
//! without a name.
//!
//! - `Alert` and `Point` in `specs/` define the layouts.
//! - `Names` defines how a number is looked up (`look_up`) and shown (`name`).
//! - `Constants` and `ExtensionNumbers` have the names of constants, `Registered` and
//!   `RegisteredSuites` those of IANA's registries.
//! - `Cipher` and `CipherTable` define the parameters of suites and how a table finds one,
//!   `SuiteExchange` the key exchange of each registered suite.
#![tactic(auto, using(layouts::proofs::OneAnswerLemmas::read_allowed))]

mod alert;
mod alert_description;
mod alert_severity;
mod cipher;
mod cipher_suite;
mod cipher_suite_id;
mod cipher_table;
mod compression_id;
mod ct_version;
mod curve_type;
mod ec_point;
mod extension_type;
mod handshake_type;
mod hash_algorithm;
mod heartbeat_type;
mod name;
mod named_group;
mod psk_mode;
mod record_type;
mod registered_suites;
mod sign_algorithm;
mod signature_scheme;
mod sni_type;
mod status_type;
mod suite_exchange;
mod version;

pub use alert::TlsMessageAlert;
pub use alert_description::TlsAlertDescription;
pub use alert_severity::TlsAlertSeverity;
pub use cipher::{
    TlsCipherAu, TlsCipherEnc, TlsCipherEncMode, TlsCipherKx, TlsCipherMac, TlsPRF, UnknownNumber,
};
pub use cipher_suite::TlsCipherSuite;
pub use cipher_suite_id::TlsCipherSuiteID;
pub use cipher_table::{CipherSuiteNotFound, CipherTable, CipherTableError, CipherTableFault};
pub use compression_id::TlsCompressionID;
pub use ct_version::CtVersion;
pub use curve_type::ECCurveType;
pub use ec_point::ECPoint;
pub use extension_type::TlsExtensionType;
pub use handshake_type::TlsHandshakeType;
pub use hash_algorithm::HashAlgorithm;
pub use heartbeat_type::TlsHeartbeatMessageType;
pub use layouts::{Err, Error, ErrorKind, IResult, Needed, OutOfMemory};
pub use named_group::NamedGroup;
pub use psk_mode::PskKeyExchangeMode;
pub use record_type::TlsRecordType;
pub use sign_algorithm::SignAlgorithm;
pub use signature_scheme::SignatureScheme;
pub use sni_type::SNIType;
pub use status_type::CertificateStatusType;
pub use suite_exchange::{KeyExchange, Public};
pub use version::TlsVersion;
