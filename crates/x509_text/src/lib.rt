//! Prints certificates as text the way OpenSSL does: names, object identifiers, serial numbers,
//! keys and general names. It also decides whether a certificate is for a host.
//!
//! It works on the views that `x509` parses. A call that returns text takes an allocator, and
//! returns `AllocError` if there is no memory for the text; the others don't allocate. Bytes that a
//! peer sent are escaped, so a text is printable ASCII. Nothing is verified: no signature, no time
//! and no chain of certificates.
//!
//! Every text is proved equal to its definition in specs/: `specs/Name.antt` for names,
//! `specs/Host.antt` for hosts, and so on.
#![tactic(auto)]

mod certificate;
mod exponent;
mod fault;
mod general_name;
mod hexadecimal;
mod host;
mod key;
mod name;
mod number;
mod object;
mod parameters;
mod signature;
mod strict;
mod tables;
mod time;
mod usage;
mod validity;
mod value;

pub use certificate::{
    is_chain_in_order, is_self_issued, signature_algorithms_agree, version_number,
};
pub use exponent::{key_exponent, natural_fault, natural_number, natural_text};
pub use fault::{ListFault, extensions_fault, general_names_fault, name_fault, purposes_fault};
pub use general_name::{decoded_name_text, general_name_text};
pub use host::matches_host;
pub use key::{is_weak_key, key_curve, key_length, key_type};
pub use name::name_text;
pub use number::serial_number_text;
pub use object::{object_name, object_short_name, object_text};
pub use signature::is_weak_signature;
pub use strict::{ca_fault, critical_fault};
pub use time::time_text;
pub use usage::{key_usage_bits, purpose_id};
pub use validity::{has_expired, is_not_yet_valid, validity_days};
