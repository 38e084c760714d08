//! Why the options are refused.
ghost use Rattle.std.specs.Prelude.{◌≡◌};
ghost use Rattle.log_writer.specs.Status.{status_of};

use log_lines::StyleError;
use log_options::OptionError;
use std::fmt::{self, Display, Formatter};

/// Why the options are refused.
#[derive(Drop)]
pub enum ConfigurationError<'a> {
    /// The value of an option is wrong.
    Option(OptionError<'a>),
    /// Options can't be combined, or a field is unknown.
    Style(StyleError<'a>),
}

impl<'a> From<OptionError<'a>> for ConfigurationError<'a> {
    ghost use Rattle.log_writer.specs.declared.configuration_error.ConfigurationError.TheVariants.{Option};

    ghost from_gives = { λ e f. f ≡ Option e };

    fn from(e: OptionError<'a>) -> ConfigurationError<'a> {
        ConfigurationError::Option(e)
    }
}

impl<'a> From<StyleError<'a>> for ConfigurationError<'a> {
    ghost use Rattle.log_writer.specs.declared.configuration_error.ConfigurationError.TheVariants.{Style};

    ghost from_gives = { λ e f. f ≡ Style e };

    fn from(e: StyleError<'a>) -> ConfigurationError<'a> {
        ConfigurationError::Style(e)
    }
}

impl Display for ConfigurationError<'_> {
    fn fmt<W: fmt::Write>(&self, f: &mut Formatter<W>) -> fmt::Result {
        match self {
            ConfigurationError::Option(e) => Display::fmt(e, f),
            ConfigurationError::Style(e) => Display::fmt(e, f),
        }
    }
}

impl ConfigurationError<'_> {
    /// Returns the exit status: 2 if the arguments are wrong, else 3.
    pub fn status(&self) -> u8
        ensures { result ≡ status_of self.now }
    {
        match self {
            ConfigurationError::Option(e) => e.status(),
            ConfigurationError::Style(StyleError::OutOfMemory) => 3,
            ConfigurationError::Style(_) => 2,
        }
    }
}
