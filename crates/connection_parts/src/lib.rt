//! Divides the connections of a capture into parts, for several processes that share it: [`Part`].
//!
//! A connection's part follows from its protocol and both ends, by an unkeyed hash. So it is the
//! same for both directions, on each machine and in each run. No call allocates memory.
//!
//! Promise: `Part.falls_to` in `specs/` defines the part of a connection.
#![tactic(auto)]

pub mod laws;
mod part;

pub use part::Part;
