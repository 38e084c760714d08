//! Writes lines.
ghost use Rattle.std.specs.Prelude.{◌≡◌, ◌↔◌, ◌++◌, [], ◌∷◌, Some, false, IfNone, IfSome, OnOk};
ghost use Rattle.std.specs.IoError.{error_kind, raw_os_error};
ghost use Rattle.std.specs.declared.io.ErrorKind.TheVariants.{BrokenPipe};
ghost use Rattle.std.specs.Io.KnownBytes.{Appends};
ghost use Rattle.log_io.specs.Output.{AppendsFormatted, AppendsLine, IsOfWriting, TracksFailure};
ghost use Rattle.log_io.specs.declared.output.LineError.TheVariants.{Closed};

use std::alloc::{AllocError, Global};
use std::io::{self, ErrorKind, Write};
use std::mem;

/// The largest line, in bytes, whose memory is kept for the next one.
const LONGEST_KEPT: usize = 16_384;

/// Why the system refused a write. It is smaller than an `io::Error`, since logging a packet
/// returns it.
#[derive(Clone, Copy)]
pub struct WriteError {
    kind: ErrorKind,
    code: Option<i32>,
}

impl WriteError {
    /// Keeps an error, without its message if that isn't the system's.
    fn of(e: &io::Error) -> WriteError
        ensures kind { result.kind ≡ error_kind e.now }
        ensures code { result.code ≡ raw_os_error e.now }
    {
        WriteError {
            kind: e.kind(),
            code: e.raw_os_error(),
        }
    }

    /// Returns the error.
    pub fn error(&self) -> io::Error
        ensures code { IfSome self.now.code (λ code. raw_os_error result ≡ Some code) }
        ensures kind { IfNone self.now.code (error_kind result ≡ self.now.kind) }
    {
        match self.code {
            Some(code) => io::Error::from_raw_os_error(code),
            None => io::Error::from(self.kind),
        }
    }
}

/// Why a line wasn't written.
#[derive(Clone, Copy)]
pub enum LineError {
    /// Memory ran out.
    OutOfMemory,
    /// The reader closed the pipe.
    Closed,
    /// A write failed, or accepted nothing.
    Writing(WriteError),
}

impl From<AllocError> for LineError {
    ghost use Rattle.log_io.specs.declared.output.LineError.TheVariants.{OutOfMemory};

    ghost from_gives = { λ _ e. e ≡ OutOfMemory };

    fn from(_e: AllocError) -> LineError {
        LineError::OutOfMemory
    }
}

/// Returns why a write failed, by its error.
fn line_error(e: &io::Error) -> LineError
    ensures writing { IsOfWriting result }
    ensures closed { (result ≡ Closed) ↔ (error_kind e.now ≡ BrokenPipe) }
{
    match e.kind() {
        ErrorKind::BrokenPipe => LineError::Closed,
        _ => LineError::Writing(WriteError::of(e)),
    }
}

/// A writer of lines. It knows whether a write failed.
#[derive(Drop)]
pub struct Output<W> {
    alloc: Global,
    writer: W,
    has_failed: bool,
    // The memory of the last line, for the next one.
    buffer: Vec<u8>,
}

impl<W: Write> Output<W> {
    /// Wraps a writer. Allocates nothing.
    pub fn new(alloc: Global, writer: W) -> Output<W>
        ensures writer { result.writer ≡ writer }
        ensures sound { result.has_failed ≡ false }
    {
        Output {
            alloc,
            writer,
            has_failed: false,
            buffer: Vec::new(alloc),
        }
    }

    /// Whether a write failed.
    pub fn has_failed(&self) -> bool
        ensures { result ≡ self.now.has_failed }
    {
        self.has_failed
    }

    /// Takes the memory of the last line, which is empty; none if that line was long.
    pub fn take_buffer(&mut self) -> Vec<u8>
        ensures same { self.new ≡ record self.old { buffer = self.new.buffer } }
    {
        mem::replace(&mut self.buffer, Vec::new(self.alloc))
    }

    /// Keeps the memory of a line unless it is long.
    fn keep_buffer(&mut self, line: Vec<u8>)
        ensures same { self.new ≡ record self.old { buffer = self.new.buffer } }
    {
        if line.capacity() <= LONGEST_KEPT {
            let mut line = line;
            line.clear();
            self.buffer = line;
        }
    }

    /// Writes a line with a line break, by one write if that accepts all.
    pub fn write_line(&mut self, line: Vec<u8>) -> Result<(), LineError>
        ensures written { OnOk result
            (Appends (W.contents self.old.writer) (W.contents self.new.writer)
            (line.items ++ 10 ∷ [])) }
        ensures failure { TracksFailure self.old.has_failed self.new.has_failed result }
    {
        let mut line = line;
        if line.push(b'\n').is_err() {
            return Err(LineError::OutOfMemory);
        }
        match self.writer.write_all(line.as_slice()) {
            Ok(()) => {
                self.keep_buffer(line);
                Ok(())
            }
            Err(e) => {
                self.has_failed = true;
                Err(line_error(&e))
            }
        }
    }

    /// Writes a line with a line break, unless memory ran out for the line.
    #[tactic(auto, using(crate::proofs::WriteLemmas::one_line))]
    pub fn write_formatted(&mut self, line: Result<Vec<u8>, AllocError>) -> Result<(), LineError>
        ensures written { OnOk result
            (AppendsFormatted (W.contents self.old.writer) (W.contents self.new.writer) line) }
        ensures one { OnOk result
            (AppendsLine (W.contents self.old.writer) (W.contents self.new.writer)) }
        ensures failure { TracksFailure self.old.has_failed self.new.has_failed result }
    {
        match line {
            Ok(line) => self.write_line(line),
            Err(_) => Err(LineError::OutOfMemory),
        }
    }
}
