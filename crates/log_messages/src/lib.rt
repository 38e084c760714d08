//! The unencrypted messages and certificates of a connection, kept until they are logged:
//! [`MessageCollector`] has messages, [`CertificateCollector`] certificates for lines of their own,
//! [`CertificateLists`] those for the connection's line.
#![tactic(auto)]

mod certificate_collector;
mod certificate_lists;
mod message_collector;

pub use certificate_collector::{CertificateCollector, SentCertificate};
pub use certificate_lists::CertificateLists;
pub use message_collector::{MessageCollector, MessageJson, NamedMessage, SentMessage};
pub use tls_json::SuiteText;
