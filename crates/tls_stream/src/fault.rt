//! Why a direction ends.
use layouts::ErrorKind;
use std::error::Error;
use std::fmt;

/// What ends a direction. Nothing after it is read.
#[derive(Clone, Copy, Debug, PartialEq, Eq)]
pub enum Fault {
    /// A record is refused: its length is too large (`TooLarge`), its content type is unknown
    /// (`Switch`), or it is a ChangeCipherSpec other than the one byte 1 (`Verify`).
    Refused(ErrorKind),
    /// The length of a handshake message is above the limit.
    TooLarge,
    /// A record of another type comes between two fragments of a message.
    Interrupted,
}

impl fmt::Display for Fault {
    fn fmt<W: fmt::Write>(&self, f: &mut fmt::Formatter<W>) -> fmt::Result {
        match self {
            Fault::Refused(_) => write!(f, "a record is refused"),
            Fault::TooLarge => write!(f, "the length of a handshake message is above the limit"),
            Fault::Interrupted => write!(f, "another record interrupts the message"),
        }
    }
}

impl Error for Fault {}
