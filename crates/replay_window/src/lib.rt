//! Which records of a DTLS peer are new, by their epochs and sequence numbers.
//!
//! A datagram may be repeated, by the network or by an attacker who changed its bytes. A receiver
//! takes only the first record of a number: a [`ReplayWindow`] remembers the last 64 numbers, and
//! what is older counts as repeated (RFC 6347, section 4.1.2.6; RFC 9147, section 4.5.1).
//!
//! The promise: the window's answer is that of the list of all records that came.
//! `specs/Replay.antt` defines it.
#![tactic(auto)]

mod window;

pub use window::ReplayWindow;
