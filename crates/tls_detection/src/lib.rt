//! Decides whether bytes are TLS or DTLS by how they begin, whatever the ports.
//!
//! The record parsers refuse no content type and no version, so for text that isn't TLS they may
//! return `Incomplete`. To read traffic of unknown protocols, ask [`looks_like_tls`] first.
//!
//! [`place_behind`] finds TLS after other bytes. Its promise is in [`laws`]: how the stream is cut
//! doesn't matter. `specs/Front.antt` and `specs/Place.antt` define both.
#![tactic(auto)]

mod front;
pub mod laws;
mod place;

pub use front::{
    HEADER_LEN, begins_tls, first_message, front_epoch, held_datagram, is_datagram_version,
    looks_like_tls,
};
pub use place::{HELLO_FRONT_LEN, place_behind};
