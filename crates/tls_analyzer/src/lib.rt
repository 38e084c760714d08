//! Analyzes a TLS connection: follows both sides, summarizes what they send in the clear, and
//! decides how the handshake ended.
//!
//! [`Analyzer`] reads the two streams of a TLS connection in capture order. The first bytes of a
//! side decide whether it is TLS. Once the handshake has ended and a side is encrypted, that side
//! is skipped, so nothing after the handshake is buffered.
//!
//! It has a history: a letter for each event. [`RecordCounter`] counts the records of a stream,
//! including encrypted ones, without buffering them. A [`tls_observer::Observer`] receives each
//! event that counts, once; summary, history, outcome and messages come from these events.
//!
//! The promise is that the result depends on the bytes, not on how these are cut: [`analyze_all`]
//! states it. `specs/Analyzers.antt` defines the results.
#![tactic(auto)]

mod analyzer;
mod conversation_state;
pub mod laws;
mod records;

pub use analyzer::{Analyzer, analyze_all};
pub use records::RecordCounter;
