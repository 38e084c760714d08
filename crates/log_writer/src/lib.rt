//! Writes a log in the style that the options choose.
//!
//! [`style_of`] reads the style from the options, or returns a [`ConfigurationError`].
//! [`write_header`], [`print_row`], [`print_message`], [`print_certificate`] and [`write_footer`]
//! write its lines to an `Output` of `log_io`.
#![tactic(auto)]

mod configuration_error;
mod format;
mod lines;
mod style;

pub use configuration_error::ConfigurationError;
pub use lines::{print_certificate, print_message, print_row, write_footer, write_header};
pub use style::style_of;
