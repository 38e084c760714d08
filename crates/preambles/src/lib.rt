//! Follows the protocol in front of TLS, such as SMTP before STARTTLS, and finds where TLS begins.
//!
//! A [`Preamble`] takes the bytes of both sides, in pieces of any size. [`Preamble::outcome`]
//! returns whether the dialogue goes on, TLS begins with the next bytes, or it never does. Values
//! inside the dialogue, such as passwords, don't matter. A preamble has a fixed size and allocates
//! nothing.
//!
//! `specs/Rows.antt` is the grammar: which side each phase reads, how far, and what follows. The
//! first 64 bytes of a line or packet decide what follows; the others are passed over.
//!
//! Where bytes of a side are missing, [`Preamble::again`] and [`Preamble::passed`] are the two places
//! from which the dialogue may go on.
//!
//! Behind the dialogue of SQL Server, TLS is the payload of packets: a [`TdsReader`] takes it out.
//!
//! Not followed:
//!
//! - literals of IMAP (RFC 9051, section 4.3): a command that waits for one ends the dialogue, and
//!   the bytes of one that is sent at once (`{5+}`) are taken for lines;
//! - mail that is sent before STARTTLS.
#![tactic(auto)]

mod front;
mod gaps;
pub mod laws;
mod ldap;
mod lines;
mod packets;
mod phase;
mod preamble;
mod rows;
mod tds;
mod tds_payload;
mod tunnels;
mod words;
mod xmpp;

pub use phase::{Outcome, Protocol, Side};
pub use preamble::Preamble;
pub use tds_payload::TdsReader;
