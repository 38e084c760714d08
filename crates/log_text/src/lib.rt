//! Writes connections as readable text: [`header`] is the line of column names, and [`line`] that
//! of a connection, in aligned columns.
//!
//! This crate has no clauses, only tests.
#![tactic(auto)]

mod aligned;

pub use aligned::{header, line};
