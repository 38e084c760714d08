//! Logs captures: packets in, lines out.
//!
//! [`log_file`], [`log_standard_input`] and [`log_joined`] log captures by their [`RunOptions`]. A
//! [`LinePrinter`] writes the lines of the connections that they find.
#![tactic(auto)]

mod inputs;
mod line_counts;
mod logger;
mod options;
mod printer;

pub use inputs::{log_file, log_input, log_joined, log_standard_input};
pub use options::{RunOptions, Separation};
pub use printer::LinePrinter;
