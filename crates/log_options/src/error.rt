//! Why the value of an option is refused.
ghost use Rattle.std.specs.Prelude.{◌≡◌};
ghost use Rattle.log_options.specs.Status.{status_of};

use log_io::ErrorText;
use std::alloc::AllocError;
use std::fmt::{self, Display, Formatter};
use std::io;

/// Why the value of an option is refused.
#[derive(Drop)]
pub enum OptionError<'a> {
    /// The file with this path isn't a list of cipher suites.
    NoList(&'a str),
    /// The text names no part.
    NoPart(&'a str),
    /// The text is no size, or one that is too small.
    NoSize(&'a str),
    /// The file with this path can't be read.
    Reading(&'a str, io::Error),
    /// Memory ran out.
    OutOfMemory,
}

impl From<AllocError> for OptionError<'_> {
    fn from(_e: AllocError) -> Self {
        OptionError::OutOfMemory
    }
}

impl Display for OptionError<'_> {
    fn fmt<W: fmt::Write>(&self, f: &mut Formatter<W>) -> fmt::Result {
        match self {
            OptionError::NoList(path) => write!(f, "{path}: not a list of cipher suites"),
            OptionError::NoPart(text) => write!(
                f,
                "--part {text}: expected K/N, like 1/4, with K from 1 to N"
            ),
            OptionError::NoSize(text) => write!(
                f,
                "--memory {text}: expected at least 64M, like 512M or 2G, or none"
            ),
            OptionError::Reading(path, e) => write!(f, "{path}: cannot read: {}", ErrorText(e)),
            OptionError::OutOfMemory => f.write_str("out of memory"),
        }
    }
}

impl OptionError<'_> {
    /// Returns the exit status: 2 if the arguments are wrong, else 3.
    pub fn status(&self) -> u8
        ensures { result ≡ status_of self.now }
    {
        match self {
            OptionError::NoList(_) | OptionError::NoPart(_) | OptionError::NoSize(_) => 2,
            OptionError::Reading(_, _) | OptionError::OutOfMemory => 3,
        }
    }
}
