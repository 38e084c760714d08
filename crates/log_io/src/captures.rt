//! The captures that the command line names.
use crate::progress::{CaptureInput, ProgressReader, STANDARD_INPUT};
use std::fs;
use std::io::{self, ErrorKind, Read};
use std::rt::Runtime;

/// The name of standard input in messages.
pub const STANDARD_INPUT_NAME: &str = "standard input";

/// The argument that names standard input.
pub const DASH: &str = "-";

/// Opens captures by their numbers.
pub trait Opener {
    /// What a capture is read from.
    type Opened: Read + CaptureInput + Drop;

    /// The name of the capture with that number, counted from 0; `None` after the last.
    fn name(&self, number: usize) -> Option<&str>;

    /// Opens the capture with that number.
    fn open(&self, number: usize) -> io::Result<Self::Opened>;
}

/// Opens files. Their progress is shown on a terminal.
#[derive(Drop)]
pub struct Files<'a, R> {
    /// What opens them.
    pub rt: &'a R,
    /// Their paths; [`DASH`] is standard input.
    pub paths: &'a [&'a str],
}

impl<'a, R: Runtime> Opener for Files<'a, R> {
    type Opened = ProgressReader<'a, R, R::File>;

    fn name(&self, number: usize) -> Option<&str> {
        match self.paths.get(number) {
            Some(&DASH) => Some(STANDARD_INPUT_NAME),
            Some(path) => Some(path),
            None => None,
        }
    }

    fn open(&self, number: usize) -> io::Result<ProgressReader<'a, R, R::File>> {
        let Some(path) = self.paths.get(number) else {
            return Err(io::Error::from(ErrorKind::NotFound));
        };
        let opened = if *path == DASH { STANDARD_INPUT } else { path };
        let file = fs::open(self.rt, opened)?;
        Ok(ProgressReader::new(self.rt, path, opened, file))
    }
}
