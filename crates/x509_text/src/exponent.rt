//! The public exponent of RSA keys (RFC 8017, section A.1.1).
#![tactic(auto, using(layouts::proofs::OneAnswerLemmas::read_allowed))]

ghost use Rattle.std.specs.Prelude.{◌≡◌, ◌++◌, IfOk};
ghost use Rattle.std.specs.Option.{option_map};
ghost use Rattle.std.specs.String.{string_bytes};
ghost use Rattle.layouts.specs.Answers.{Gives};
ghost use Rattle.layouts.specs.Bytes.{Bytes, number_of};
ghost use Rattle.x509.specs.Certificate.{view_key_info};
ghost use Rattle.x509_text.specs.Exponent.{exponent_content, exponent_of, natural, natural_fault as natural_fault_of, natural_value, natural_text as natural_text_of, rsa_exponent as rsa_exponent_layout, small};

use crate::number::{is_negative, without_padding};
use der::{Integer, tag, tagged};
use itoa::Buffer;
use layouts::{ErrorKind, IResult, InPlace, number1, parsed, refused};
use std::alloc::{AllocError, Global};
use x509::{SubjectPublicKeyInfo, oid};

/// An INTEGER that isn't negative.
struct Natural;

impl<'a> InPlace<'a> for Natural {
    type Read = &'a [u8];

    ghost Value = { Bytes };

    ghost view = { λ v. v.now };

    ghost layout = { natural };

    #[tactic(auto, using(layouts::proofs::OneAnswerLemmas::read_allowed), unfolding(crate::specs::Exponent::natural))]
    fn read(i: &'a [u8]) -> IResult<&'a [u8], &'a [u8]> {
        let (_, _) = parsed!(Integer::read(i));
        let (_, first) = parsed!(number1(i));
        if first >= 128 {
            return refused(i, ErrorKind::Verify);
        }
        Integer::read(i)
    }
}

/// The content of an RSAPublicKey. Reading it returns the exponent.
struct ExponentContent;

impl<'a> InPlace<'a> for ExponentContent {
    type Read = &'a [u8];

    ghost Value = { Bytes };

    ghost view = { λ v. v.now };

    ghost layout = { exponent_content };

    #[tactic(auto, using(layouts::proofs::OneAnswerLemmas::read_allowed), unfolding(crate::specs::Exponent::exponent_content))]
    fn read(i: &'a [u8]) -> IResult<&'a [u8], &'a [u8]> {
        let (i, _) = parsed!(tagged::<Integer>(i, tag::INTEGER));
        tagged::<Natural>(i, tag::INTEGER)
    }
}

/// Parses an RSAPublicKey and returns its exponent.
#[tactic(auto, using(layouts::proofs::OneAnswerLemmas::read_allowed), unfolding(crate::specs::Exponent::rsa_exponent))]
fn rsa_exponent(i: &[u8]) -> IResult<&[u8], &[u8]>
    ensures { Gives (λ v. v.now) rsa_exponent_layout i.now result }
{
    tagged::<ExponentContent>(i, tag::SEQUENCE)
}

/// The public exponent of an RSA key, for any padding or for PSS only: the bytes of its INTEGER.
///
/// `None` for other keys, and if modulus and exponent aren't two INTEGERs, or the exponent is
/// negative.
pub fn key_exponent<'a>(info: SubjectPublicKeyInfo<'a>) -> Option<&'a [u8]>
    ensures { option_map (λ e. e.now) result ≡ exponent_of (view_key_info info.entry) }
{
    let algorithm = info.algorithm.algorithm.content;
    if algorithm == oid::RSA_ENCRYPTION.content || algorithm == oid::RSASSA_PSS.content {
        match rsa_exponent(info.subject_public_key.bytes) {
            Ok((_, exponent)) => Some(exponent),
            Err(_) => None,
        }
    } else {
        None
    }
}

/// The number in these big-endian bytes, if it is below 2^64.
fn small_number(bytes: &[u8]) -> Option<u64>
    ensures { result ≡ small (number_of bytes.now) }
{
    let mut number: u64 = 0;
    for byte in bytes {
        let shifted = number.checked_mul(256)?;
        number = shifted.checked_add(u64::from(*byte))?;
    }
    Some(number)
}

/// The number of an INTEGER, such as a pathLenConstraint (RFC 5280, section 4.2.1.9).
///
/// `None` if it is negative, or 2^64 or above.
pub fn natural_number(number: &[u8]) -> Option<u64>
    ensures { result ≡ natural_value number.now }
{
    if is_negative(number) {
        return None;
    }
    small_number(number)
}

/// Why [`natural_number`] returns none: `Verify` if the number is negative, `TooLarge` if it is 2^64
/// or above.
pub fn natural_fault(number: &[u8]) -> Option<ErrorKind>
    ensures { result ≡ natural_fault_of number.now }
{
    match natural_number(number) {
        Some(_) => None,
        None if is_negative(number) => Some(ErrorKind::Verify),
        None => Some(ErrorKind::TooLarge),
    }
}

/// A non-negative number as text, from the bytes of its INTEGER: in decimal if it is below 2^64,
/// else in lower-case hexadecimal after `0x`.
///
/// `AllocError` if there is no memory for the text.
pub fn natural_text(alloc: Global, number: &[u8]) -> Result<String, AllocError>
    ensures { IfOk result (λ text. string_bytes text ≡ natural_text_of number.now) }
{
    let mut text = String::new(alloc);
    match small_number(number) {
        Some(small) => {
            let mut buffer = Buffer::new();
            text.push_str(buffer.format(small))?;
        }
        None => {
            text.push_str("0x")?;
            let digits = hex::encode(alloc, without_padding(number))?;
            text.push_str(digits.as_str())?;
        }
    }
    Ok(text)
}
