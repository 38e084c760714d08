//! The lines of an input.
ghost use Rattle.std.specs.Prelude.{◌≡◌, ◌<◌, ◌∷◌, [], length, Option, IfSome, MatchOption};
ghost use Rattle.std.specs.Io.BufRead.{strip_last};
ghost use Rattle.tlsview.specs.Lines.{lines_of};

use memchr::memchr;

/// The first line without its line break, and the input after it.
pub fn first_line(input: &[u8]) -> Option<(&[u8], &[u8])>
    ensures lines { MatchOption result (lines_of input.now ≡ [])
        (λ found. lines_of input.now ≡ found.0.now ∷ lines_of found.1.now) }
    ensures shorter { IfSome result (λ found. length found.1.now < length input.now) }
{
    match memchr(b'\n', input) {
        Some(end) => Some((&input[..end], &input[end + 1..])),
        None if input.is_empty() => None,
        None => Some((input, &input[input.len()..])),
    }
}

/// The line without one carriage return at its end.
pub fn without_return(line: &[u8]) -> &[u8]
    ensures { result.now ≡ strip_last 13 line.now }
{
    match line.len().checked_sub(1) {
        Some(last) if line[last] == b'\r' => &line[..last],
        _ => line,
    }
}
