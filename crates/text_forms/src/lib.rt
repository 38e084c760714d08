//! Text forms of a log's values: numbers in hexadecimal, escaped bytes, comma-separated values
//! (RFC 4180), and the tab-separated values of Zeek's logs. Clauses say which text each has.
#![tactic(auto)]

pub mod comma;
pub mod escaped;
pub mod hexadecimal;
pub mod laws;
pub mod tab;
