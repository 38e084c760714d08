//! The fields of a certificate, and how each is computed.
//!
//! [`certificate_of`] parses a certificate, and [`certificate_cell`] computes a
//! [`CertificateField`] of it. [`has_expired`] and [`is_not_yet_valid`] compare its times with
//! another. [`stapled_status`] is what an OCSP response says about it. [`logs_cell`] and
//! [`times_cell`] are of any list of signed certificate timestamps.
//!
//! Clauses give the values of most fields by the definitions of `x509` and `x509_text`
//! (`specs/Values.antt`, `specs/Read.antt`). The others are only tested.
#![tactic(auto)]

mod certificates;
mod extensions;
mod faults;
mod field;
mod read;
mod responses;
mod times;
mod timestamps;

pub use certificates::certificate_cell;
pub use faults::error_name;
pub use field::CertificateField;
pub use read::{ReadCertificate, certificate_of};
pub use responses::{
    StapledStatus, next_update_cell, revoked_at_cell, stapled_count_cell, stapled_logs_cell,
    stapled_status, stapled_status_cell, stapled_times_cell, this_update_cell,
};
pub use times::{has_expired, is_not_yet_valid};
pub use timestamps::{logs_cell, times_cell};
