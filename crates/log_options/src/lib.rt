//! Parses the command line of `tlslog`, and prints its help and errors.
//!
//! [`matches`] parses the words. [`part_of`], [`memory_of`], [`suites_of`] and [`formulas_of`]
//! return the values of options, or an [`OptionError`]. [`report_error`] prints help and errors.
#![tactic(auto)]

mod arguments;
mod error;
mod help;
mod memory;
mod usage;
mod values;

pub use arguments::{Choices, matches};
pub use error::OptionError;
pub use memory::memory_of;
pub use usage::report_error;
pub use values::{formulas_of, part_of, suites_of};
