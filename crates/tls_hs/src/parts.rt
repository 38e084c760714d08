//! Readers of single parts of handshake bodies that DTLS has too (RFC 6347, section 4.2).

pub use crate::certificate::certificate;
pub use crate::client_hello_places::client_hello_places_in;
pub use crate::client_hello_view::client_hello_fields;
pub use crate::hello_fields::{
    cipher_suites, cipher_suites_in_place, compressions, compressions_in_place, extension_block,
    held_bytes, listed, random_bytes, random_time, session_id, suites,
};
pub use crate::server_hello::server_hello_any;
