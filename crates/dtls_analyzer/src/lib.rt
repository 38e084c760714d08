//! Analyzes a DTLS connection: follows both sides, summarizes what they send in the clear, and
//! decides how the handshake ended.
//!
//! [`DatagramAnalyzer`] reads the datagrams of both sides in capture order, and has a history: a
//! letter for each event. [`DatagramRecordCounter`] counts records, including encrypted ones. A
//! [`tls_observer::Observer`] receives each event that counts, once; summary, history, outcome and
//! messages come from these events.
//!
//! The promise: the result is a function of the datagrams, which [`analyzer_of`] states.
//! `specs/Datagrams.antt` defines it.
#![tactic(auto)]

mod account;
mod another;
mod datagram_analyzer;
mod datagram_records;
mod datagram_side;
mod sender;

pub use datagram_analyzer::{DatagramAnalyzer, analyzer_of};
pub use datagram_records::DatagramRecordCounter;
pub use sender::hello_direction;
