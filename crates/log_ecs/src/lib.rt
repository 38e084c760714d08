//! Writes connections as events of the Elastic Common Schema: [`line`].
//!
//! This crate has no clauses, only tests.
#![tactic(auto)]

mod event;
mod nested;

pub use event::line;
