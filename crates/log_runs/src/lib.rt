//! Whole runs of a log: the packets of a capture, and its end.
//!
//! [`run`] gives a [`log_connections::Log`] each packet, and then ends it. Its contract composes
//! those of [`log_connections::Log::packet`] and [`log_connections::Log::finish`]. [`laws`] has
//! what holds of all that a sink receives then.
//!
//! Promise: `Runs` in `specs/` defines what a run is (`IsRun`) and which connections come out of it
//! (`log_of`), and `Dropped` which arrivals their receivers don't take.
#![tactic(auto)]

pub mod laws;
mod runs;

pub use runs::run;
