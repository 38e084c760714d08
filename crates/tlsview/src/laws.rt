//! Laws about the definitions of the output.
ghost use Rattle.std.specs.Prelude.{◌≡◌, ◌≢◌, ℕ, ◌↔◌, List, IsSome};
ghost use Rattle.layouts.specs.Reading.{reading};
ghost use Rattle.tls_records.specs.Record.{raw_record};
ghost use Rattle.tlsview.specs.Out.{Half, half_part, out, record_part};
ghost use Rattle.tlsview.specs.Plain.{PlaintextIsPrinted, PlaintextIsRefused};
ghost use Rattle.tlsview.specs.Exit.{status_of};
ghost use Rattle.tlsview.specs.Statement.{IsStatement, line_of};
ghost use Rattle.tlsview.specs.declared.direction.LineDirection.{LineDirection};

use crate::exit::ViewExit;
use crate::program::view;
use std::alloc::Global;

/// A line is well-formed exactly if it is a sign, a space and an even number of digits.
pub fn statement_form()
    ensures { (line : List ℕ) → IsSome (line_of line) ↔ IsStatement line }
{}

/// The next record is taken off what a direction has left, and then the rest is read likewise.
pub fn record_by_record()
    ensures { (direction : LineDirection) (h : Half)
        → half_part direction h ≡ record_part direction h (reading raw_record h.left)
        (half_part direction) }
{}

/// A record that isn't encrypted is parsed as `parse_tls_plaintext` does: its messages are printed,
/// and its refusal is the fault.
pub fn plain_records_are_plaintext()
    ensures read { (direction : LineDirection) (h : Half) → PlaintextIsPrinted direction h }
    ensures refused { (direction : LineDirection) (h : Half) → PlaintextIsRefused direction h }
{}

/// For a slice and a vector the run is `out`.
pub fn view_bytes(alloc: Global, input: &[u8]) -> (Vec<u8>, u8)
    ensures { result.1 ≢ status_of ViewExit.Failed → (result.0.items, result.1) ≡ out input.now }
{
    let mut reader = input;
    let mut writer = Vec::new(alloc);
    let status = view(alloc, &mut reader, &mut writer);
    (writer, status)
}
