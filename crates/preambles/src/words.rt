//! The words of a line. A line is in upper case, without its LF.
ghost use Rattle.std.specs.Prelude.{◌≡◌};
ghost use Rattle.preambles.specs.Words.{behind_word, code_of as code, command_of as command, ends_word as is_end, first_word, is_digit as digit, is_last as last, is_login as login, number_after as after_digit, number_in as number, begins as begins_with, word_of as word};

use crate::phase::{Command, Word};

/// Whether a line begins with these bytes.
pub(crate) fn begins(line: &[u8], front: &[u8]) -> bool
    ensures { result ≡ begins_with front.now line.now }
{
    line.starts_with(front)
}

/// Whether a byte ends a word: a space or CR.
fn ends_word(byte: u8) -> bool
    ensures { result ≡ is_end byte }
{
    byte == b' ' || byte == b'\r'
}

/// Splits a line into its first word and what follows the byte behind it.
pub(crate) fn split_word(line: &[u8]) -> (&[u8], &[u8])
    ensures word { result.0.now ≡ first_word line.now }
    ensures rest { result.1.now ≡ behind_word line.now }
{
    let mut end = 0;
    while end < line.len() {
        if ends_word(line[end]) {
            return (&line[..end], &line[end + 1..]);
        }
        end += 1;
    }
    (line, &[])
}

/// Which word this is.
#[tactic(auto, unfolding(crate::specs::Words::word_of))]
pub(crate) fn word_of(bytes: &[u8]) -> Word
    ensures { result ≡ word bytes.now }
{
    if bytes == b"STARTTLS".as_slice() {
        Word::Starttls
    } else if bytes == b"STLS".as_slice() {
        Word::Stls
    } else if bytes == b"AUTH".as_slice() {
        Word::Auth
    } else if bytes == b"TLS".as_slice() || bytes == b"SSL".as_slice() {
        Word::Tls
    } else if bytes == b"LHLO".as_slice() {
        Word::Lhlo
    } else if bytes == b"CAPA".as_slice() {
        Word::Capa
    } else if is_login(bytes) {
        Word::Login
    } else if bytes == b"AUTHENTICATE".as_slice() {
        Word::Authenticate
    } else {
        Word::Other
    }
}

/// Whether a command of this name logs in.
#[tactic(auto, unfolding(crate::specs::Words::is_login))]
fn is_login(bytes: &[u8]) -> bool
    ensures { result ≡ login bytes.now }
{
    bytes == b"PASS".as_slice() || bytes == b"APOP".as_slice() || bytes == b"LOGIN".as_slice()
}

/// The first two words of a line.
#[tactic(auto, unfolding(crate::specs::Words::command_of))]
pub(crate) fn command_of(line: &[u8]) -> Command
    ensures { result ≡ command line.now }
{
    let (first, rest) = split_word(line);
    let (second, _) = split_word(rest);
    Command {
        first: word_of(first),
        second: word_of(second),
    }
}

/// Whether a byte is an ASCII digit.
fn is_digit(byte: u8) -> bool
    ensures { result ≡ digit byte }
{
    byte >= b'0' && byte <= b'9'
}

/// The code of three digits that a reply begins with; 0 if it begins otherwise.
#[tactic(auto, unfolding(crate::specs::Words::code_of))]
pub(crate) fn code_of(line: &[u8]) -> u16
    ensures { result ≡ code line.now }
{
    match line {
        [a, b, c, ..] if is_digit(*a) && is_digit(*b) && is_digit(*c) => {
            u16::from(*a - b'0') * 100 + u16::from(*b - b'0') * 10 + u16::from(*c - b'0')
        }
        _ => 0,
    }
}

/// Whether a reply's line is its last: no hyphen follows the code.
#[tactic(auto, unfolding(crate::specs::Words::is_last))]
pub(crate) fn is_last(line: &[u8]) -> bool
    ensures { result ≡ last line.now }
{
    match line {
        [_, _, _, b'-', ..] => false,
        _ => true,
    }
}

/// A number with a digit behind it; one of more than 8 digits stays as it is.
#[tactic(auto, unfolding(crate::specs::Words::number_after))]
fn number_with(number: u32, byte: u8) -> u32
    ensures { result ≡ after_digit number byte }
{
    if is_digit(byte) && number < 10_000_000 {
        number * 10 + u32::from(byte - b'0')
    } else {
        number
    }
}

/// The number that the digits of a line are.
pub(crate) fn number_in(line: &[u8]) -> u32
    ensures { result ≡ number line.now }
{
    let mut number = 0;
    for byte in line {
        number = number_with(number, *byte);
    }
    number
}
