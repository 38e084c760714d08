//! Parses a line.
ghost use Rattle.std.specs.Prelude.{◌≡◌, Option, None, Some, IfOk, MatchOption};
ghost use Rattle.tlsview.specs.Statement.{line_of};

use crate::direction::LineDirection;
use std::alloc::AllocError;

/// Parses a line: a sign, a space, and an even number of hexadecimal digits, whose bytes it leaves
/// in `bytes`. `None` if the line is malformed.
pub fn parse_line(line: &[u8], bytes: &mut Vec<u8>) -> Result<Option<LineDirection>, AllocError>
    ensures { IfOk result (λ found. MatchOption found (line_of line.now ≡ None)
        (λ direction. line_of line.now ≡ Some (direction, bytes.new.items))) }
{
    let [sign, b' ', digits @ ..] = line else {
        return Ok(None);
    };
    let Some(direction) = LineDirection::from_sign(*sign) else {
        return Ok(None);
    };
    bytes.resize(digits.len() / 2, 0)?;
    match hex::decode_to_slice(digits, bytes.as_mut_slice()) {
        Ok(()) => Ok(Some(direction)),
        Err(_) => Ok(None),
    }
}
