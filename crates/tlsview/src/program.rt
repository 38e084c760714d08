//! The whole run, over any reader and writer.
ghost use Rattle.std.specs.Prelude.{◌≡◌, ◌≢◌, ◌≤◌, ◌⊎◌, false, true, IfErr, IfOk};
ghost use Rattle.tlsview.specs.Exit.{status_of};
ghost use Rattle.tlsview.specs.Run.{WritesFront, WritesOut};
ghost use Rattle.tlsview.specs.Transfer.{most_reads};

use crate::checked_writer::CheckedWriter;
use crate::exit::ViewExit;
use crate::report::report_of;
use crate::tally::Tally;
use crate::transfer::{TransferFailure, read_whole, write_whole};
use std::alloc::Global;
use std::io::{Read, Write};

/// Runs [`view`] with a reader and a writer that record their faults, and returns why it failed:
///
/// - there was no memory, and nothing was written;
/// - a read failed, or the reader didn't reach its end within the allowed calls, and nothing was
///   written;
/// - all input was read, and a write failed or wrote no bytes.
pub fn run<R: Read, W: Write>(
    alloc: Global,
    r: &mut Tally<'_, R>,
    w: &mut CheckedWriter<'_, W>,
) -> Result<ViewExit, TransferFailure>
    requires fresh_reader { (r.old.calls ≡ 0) × (r.old.has_failed ≡ false) }
    requires fresh_writer { w.old.has_failed ≡ false }
    ensures same_reader { r.new.reader.ghost_name ≡ r.old.reader.ghost_name }
    ensures same_writer { w.new.writer.ghost_name ≡ w.old.writer.ghost_name }
    ensures shown { IfOk result (λ exit.
        WritesOut R.remaining W.contents r.old.reader.now r.new.reader.now w.old.writer.now
        w.new.writer.now (status_of exit)) }
    ensures exit { IfOk result (λ exit. exit ≢ ViewExit.Failed) }

    // It fails if there is no memory, if the reader fails or uses all its calls, or if the writer
    // fails.
    ensures cause { IfErr result (λ e. (e ≡ TransferFailure.Memory)
        ⊎ (((e ≡ TransferFailure.Reading)
        × ((r.new.has_failed ≡ true) ⊎ (r.new.calls ≡ most_reads)))
        ⊎ ((e ≡ TransferFailure.Writing) × (w.new.has_failed ≡ true)))) }
    ensures unwritten { IfErr result
        (λ e. e ≢ TransferFailure.Writing → w.new.writer.now ≡ w.old.writer.now) }
    ensures partly_written { IfErr result (λ e. e ≡ TransferFailure.Writing
        → WritesFront R.remaining W.contents r.old.reader.now r.new.reader.now w.old.writer.now
        w.new.writer.now) }
{
    let input = read_whole(alloc, r)?;
    let report = report_of(alloc, input.as_slice())?;
    write_whole(w, report.text.as_bytes())?;
    Ok(report.exit)
}

/// Reads all input, prints its messages, and returns the exit status: 0, 1 if a record is refused,
/// 2 if a line is malformed, 3 if there is no memory or reading or writing fails.
///
/// Reading fails at the first fault of a read, or if [`crate::tally::MAX_READS`] calls don't reach
/// the end. Writing fails at the first fault of a write, or if a write writes no bytes. After its
/// fault neither is called again.
///
/// The contract covers any reader and writer, so it can only refer to what was read and written.
/// The contract of [`run`] gives the fault of a failed run.
pub fn view<R: Read, W: Write>(alloc: Global, r: &mut R, w: &mut W) -> u8
    // A run that doesn't fail has read all, and has written and returned what `out` gives.
    ensures shown { result ≢ status_of ViewExit.Failed
        → WritesOut R.remaining W.contents r.old r.new w.old w.new result }
    ensures status { result ≤ status_of ViewExit.Failed }
    // A run that fails hasn't written; or it has read all, and written a proper prefix of what
    // `out` gives.
    ensures failed { result ≡ status_of ViewExit.Failed
        → (w.new ≡ w.old) ⊎ WritesFront R.remaining W.contents r.old r.new w.old w.new }
{
    let mut reader = Tally::new(r);
    let mut writer = CheckedWriter::new(w);
    let exit = match run(alloc, &mut reader, &mut writer) {
        Ok(exit) => exit,
        Err(_) => ViewExit::Failed,
    };
    u8::from(exit)
}
