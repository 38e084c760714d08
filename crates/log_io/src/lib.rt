//! Reads captures and writes lines for a program that logs: progress, failures, and exit statuses.
//!
//! - [`ProgressReader`] reads an input, shows how far it is, and keeps the first bytes
//!   ([`FirstBytes`]), which explain why it is no capture. [`Files`] opens the captures that the
//!   command line names.
//! - [`Output`] writes lines, and knows whether a write failed.
//! - [`Failure`] is why a run ends early. [`report`] prints it and returns the [`Exit`].
#![tactic(auto)]

mod captures;
mod failure;
mod front;
mod output;
mod progress;

pub use captures::{DASH, Files, Opener, STANDARD_INPUT_NAME};
pub use failure::{ErrorText, Exit, Failure, STANDARD_OUTPUT, report};
pub use front::{CaptureFault, FirstBytes};
pub use output::{LineError, Output, WriteError};
pub use progress::{CaptureInput, ProgressReader, STANDARD_INPUT};
