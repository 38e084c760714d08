//! A writer that isn't called again after a fault.
ghost use Rattle.std.specs.Prelude.{◌≡◌, ◌<◌, ◌≤◌, ◌↔◌, [], false, true, take, length, IfNone, IfSome, IsNone};
ghost use Rattle.std.specs.Io.KnownBytes.{Appends};

use std::io::Write;

/// A writer, and whether it has failed.
#[derive(Drop)]
pub struct CheckedWriter<'a, W> {
    writer: &'a mut W,
    has_failed: bool,
}

impl<'a, W: Write> CheckedWriter<'a, W> {
    /// A writer that hasn't been called yet.
    pub fn new(writer: &'a mut W) -> CheckedWriter<'a, W>
        ensures same { result.writer.ghost_name ≡ writer.entry.ghost_name }
        ensures value { result.writer.now ≡ writer.old }
        ensures sound { result.has_failed ≡ false }
    {
        CheckedWriter {
            writer,
            has_failed: false,
        }
    }

    /// Makes one write, and returns how many bytes it wrote. `None` for its fault, or if it wrote
    /// none; then it must not be called again.
    pub fn write(&mut self, buf: &[u8]) -> Option<usize>
        requires sound { self.old.has_failed ≡ false }
        ensures same { self.new.writer.ghost_name ≡ self.old.writer.ghost_name }
        ensures fault { (self.new.has_failed ≡ true) ↔ IsNone result }
        ensures within { IfSome result (λ n. (0 < n) × (n ≤ length buf.now)) }
        ensures bytes { IfSome result (λ n.
            Appends (W.contents self.old.writer.now) (W.contents self.new.writer.now)
            (take n buf.now)) }
        ensures none { IfNone result
            (Appends (W.contents self.old.writer.now) (W.contents self.new.writer.now) []) }
    {
        match self.writer.write(buf) {
            Ok(n) if n > 0 => Some(n),
            _ => {
                self.has_failed = true;
                None
            }
        }
    }
}
