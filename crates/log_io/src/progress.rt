//! Inputs that show their progress and keep their first bytes.
use crate::front::FirstBytes;
use std::fs;
use std::io::{self, Read};
use std::os::unix::fs::FileTypeExt;
use std::rt::Runtime;
use std::time::Instant;

/// The path of standard input.
pub const STANDARD_INPUT: &str = "/dev/stdin";

/// The path of standard error.
const STANDARD_ERROR: &str = "/dev/stderr";

/// The smallest file whose progress is shown, in bytes.
const LONG: u64 = 100_000_000;

/// The bytes of a megabyte.
const MEGABYTE: u64 = 1_000_000;

/// How many bytes are read between two looks at the clock.
const STEP: u64 = 16 * MEGABYTE;

/// The shortest time between two lines of progress, in milliseconds.
const PAUSE: u64 = 2_000;

/// An input that a capture is read from.
pub trait CaptureInput {
    /// Returns its first bytes, and how many were read.
    fn front(&self) -> FirstBytes;
}

/// Whether standard error is a terminal, or another character device.
fn is_looked_at<R: Runtime>(rt: &R) -> bool {
    match fs::metadata(rt, STANDARD_ERROR) {
        Ok(metadata) => metadata.file_type().is_char_device(),
        Err(_) => false,
    }
}

/// Returns the length of a file in bytes; `None` if it is short, or no regular file.
fn length_of<R: Runtime>(rt: &R, path: &str) -> Option<u64> {
    let Ok(metadata) = fs::metadata(rt, path) else {
        return None;
    };
    let length = metadata.len();
    if !metadata.is_file() || length < LONG {
        return None;
    }
    Some(length)
}

/// How far a file was read.
#[derive(Drop)]
struct Progress {
    // The length of the file in bytes.
    length: u64,
    begin: Instant,
    // How many bytes were read at the last look at the clock.
    looked: u64,
    // The milliseconds from the beginning to the last line.
    shown: u64,
}

impl Progress {
    /// Begins to follow a file; `None` if it is short, or standard error is no terminal.
    fn begin<R: Runtime>(rt: &R, path: &str) -> Option<Progress> {
        if !is_looked_at(rt) {
            return None;
        }
        let length = length_of(rt, path)?;
        match Instant::now(rt) {
            Ok(begin) => Some(Progress {
                length,
                begin,
                looked: 0,
                shown: 0,
            }),
            Err(_) => None,
        }
    }

    /// Returns the milliseconds since the beginning if a line is due after so many bytes.
    fn due<R: Runtime>(&mut self, rt: &R, read: u64) -> Option<u64> {
        if read.saturating_sub(self.looked) < STEP {
            return None;
        }
        self.looked = read;
        let Ok(since) = self.begin.elapsed(rt) else {
            return None;
        };
        let milliseconds = u64::try_from(since.as_millis()).unwrap_or(u64::MAX);
        if milliseconds.saturating_sub(self.shown) < PAUSE {
            return None;
        }
        self.shown = milliseconds;
        Some(milliseconds)
    }
}

/// Returns the bytes per second.
fn rate_of(read: u64, milliseconds: u64) -> u64 {
    match read.saturating_mul(1_000).checked_div(milliseconds) {
        Some(rate) => rate,
        None => 0,
    }
}

/// An input that shows its progress on standard error and keeps its first bytes.
#[derive(Drop)]
pub struct ProgressReader<'a, R, I> {
    rt: &'a R,
    name: &'a str,
    source: I,
    progress: Option<Progress>,
    front: FirstBytes,
}

impl<'a, R: Runtime, I: Read> ProgressReader<'a, R, I> {
    /// Wraps an input with its name in messages and its path.
    pub fn new(rt: &'a R, name: &'a str, path: &str, source: I) -> ProgressReader<'a, R, I> {
        ProgressReader {
            rt,
            name,
            source,
            progress: Progress::begin(rt, path),
            front: FirstBytes::new(),
        }
    }

    /// Prints a line of progress if one is due.
    fn show(&mut self) -> io::Result<()> {
        let read = self.front.read();
        let Some(progress) = &mut self.progress else {
            return Ok(());
        };
        let Some(milliseconds) = progress.due(self.rt, read) else {
            return Ok(());
        };
        let rate = rate_of(read, milliseconds);
        let left = progress.length.saturating_sub(read).checked_div(rate);
        let (done, whole, rate) = (read / MEGABYTE, progress.length / MEGABYTE, rate / MEGABYTE);
        match left {
            Some(left) => eprintln!(self.rt;
                "{}: {done} of {whole} MB, {rate} MB/s, {left} s left",
                self.name
            ),
            None => eprintln!(self.rt; "{}: {done} of {whole} MB", self.name),
        }
    }
}

impl<'a, R: Runtime, I: Read> Read for ProgressReader<'a, R, I> {
    fn read(&mut self, buf: &mut [u8]) -> io::Result<usize> {
        let n = self.source.read(buf)?;
        self.front.add(&buf[..n]);
        self.show()?;
        Ok(n)
    }
}

impl<'a, R, I> CaptureInput for ProgressReader<'a, R, I> {
    fn front(&self) -> FirstBytes {
        self.front
    }
}
