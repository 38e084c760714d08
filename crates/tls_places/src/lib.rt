//! Parses records, messages and extensions with the offsets and lengths of their parts.
//!
//! An item whose last part is bytes is a [`ContentItem`]: a record and its fragment, a message and
//! its body, an extension and its content, a name, a certificate, a key share. [`frame_at`] parses
//! one and returns the [`layouts::Place`] of these bytes; [`Placed`] iterates over many.
//! [`place_within`] turns a place in a part into one in the whole. Nothing here allocates, and
//! every refusal is that of the parser without places.
//!
//! Each place is proved to lie within the bytes and to hold the part's bytes; `specs/Place.antt`
//! and `specs/Hello.antt` state it.
#![tactic(auto)]

mod dtls_hello;
mod find;
mod frame;
mod frames;
mod host_name;
mod place;
mod record;
mod server_hello;

pub use dtls_hello::{DtlsClientHelloPlaces, dtls_client_hello_with_places};
pub use find::{content_place, host_name_place, protocol_names_place};
pub use frame::{ContentItem, Placed, frame_at};
pub use host_name::{body_place, host_name_place_of_hello, host_name_place_of_record};
pub use place::{bytes_at, place_before, place_within};
pub use record::{DtlsRecord, Record};
pub use server_hello::{
    ServerHelloPlaces, dtls_server_hello_with_places, server_hello_with_places,
};
