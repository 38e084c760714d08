//! Values of attributes as texts (RFC 4514, sections 2.4 and 3).
#![tactic(auto, using(layouts::proofs::OneAnswerLemmas::read_allowed))]

ghost use Rattle.std.specs.Prelude.{◌≡◌, ◌++◌, ℕ, true, encode_utf8, IfOk, OnOk};
ghost use Rattle.std.specs.List.{flat_map};
ghost use Rattle.std.specs.String.{string_bytes};
ghost use Rattle.std.specs.Option.{option_map};
ghost use Rattle.der.specs.Element.{view_element};
ghost use Rattle.layouts.specs.Answers.{Gives};
ghost use Rattle.x509_text.specs.Value.{bmp_character, byte_text, converted_of, escaped, is_special as is_special_byte, placed_text, universal_character, utf8_of, value_text};

use crate::hexadecimal::{add_dump, hex_digit};
use der::{Element, tag};
use layouts::{ErrorKind, IResult, InPlace, Items, number2, number4, parsed, refused};
use std::alloc::{AllocError, Global};

/// The tag of a NumericString (X.680, section 8.4).
const NUMERIC_STRING: u8 = 0x12;

/// The tag of a VisibleString.
const VISIBLE_STRING: u8 = 0x1a;

/// Whether a byte is escaped at any place.
fn is_special(byte: u8) -> bool
    ensures { result ≡ is_special_byte byte }
{
    byte == b'"'
        || byte == b'+'
        || byte == b','
        || byte == b';'
        || byte == b'<'
        || byte == b'>'
        || byte == b'\\'
}

/// Appends a byte from within a value.
fn add_byte(text: &mut String, byte: u8) -> Result<(), AllocError>
    ensures { OnOk result (string_bytes text.new ≡ string_bytes text.old ++ byte_text byte) }
{
    if is_special(byte) {
        text.push('\\')?;
        return text.push(char::from(byte));
    }
    if 0x20 <= byte && byte < 0x7f {
        return text.push(char::from(byte));
    }
    text.push('\\')?;
    text.push(hex_digit(byte / 16))?;
    text.push(hex_digit(byte % 16))
}

/// Appends a byte, given whether it is the first and whether it is the last.
fn add_placed(text: &mut String, byte: u8, first: bool, last: bool) -> Result<(), AllocError>
    ensures { OnOk result
        (string_bytes text.new ≡ string_bytes text.old ++ placed_text first last byte) }
{
    if byte == b' ' && (first || last) || byte == b'#' && first && !last {
        text.push('\\')?;
        return text.push(char::from(byte));
    }
    add_byte(text, byte)
}

/// Appends a string in UTF-8, escaped.
fn add_escaped(text: &mut String, string: &[u8]) -> Result<(), AllocError>
    ensures { OnOk result
        (string_bytes text.new ≡ string_bytes text.old ++ escaped true string.now) }
{
    let mut first = true;
    let mut rest = string;
    while let [byte, behind @ ..] = rest {
        add_placed(text, *byte, first, behind.is_empty())?;
        first = false;
        rest = behind;
    }
    Ok(())
}

/// A character of a BMPString.
struct BmpCharacter;

impl<'a> InPlace<'a> for BmpCharacter {
    type Read = char;

    ghost Value = { ℕ };

    ghost view = { λ c. c };

    ghost layout = { bmp_character };

    #[tactic(auto, using(layouts::proofs::OneAnswerLemmas::read_allowed), unfolding(crate::specs::Value::bmp_character))]
    fn read(i: &'a [u8]) -> IResult<&'a [u8], char> {
        let (i, n) = parsed!(number2(i));
        match char::from_u32(n as u32) {
            Some(c) => Ok((i, c)),
            None => refused(i, ErrorKind::Verify),
        }
    }
}

/// A character of a UniversalString.
struct UniversalCharacter;

impl<'a> InPlace<'a> for UniversalCharacter {
    type Read = char;

    ghost Value = { ℕ };

    ghost view = { λ c. c };

    ghost layout = { universal_character };

    #[tactic(auto, using(layouts::proofs::OneAnswerLemmas::read_allowed), unfolding(crate::specs::Value::universal_character))]
    fn read(i: &'a [u8]) -> IResult<&'a [u8], char> {
        let (i, n) = parsed!(number4(i));
        match char::from_u32(n) {
            Some(c) => Ok((i, c)),
            None => refused(i, ErrorKind::Verify),
        }
    }
}

/// The string of a BMPString in UTF-8; `None` if its bytes aren't characters.
fn bmp_string(alloc: Global, content: &[u8]) -> Result<Option<String>, AllocError>
    ensures { IfOk result (λ o. option_map string_bytes o ≡ utf8_of bmp_character content.now) }
{
    let characters = Items::<BmpCharacter>::new(content);
    if !characters.rest().is_empty() {
        return Ok(None);
    }
    let mut text = String::new(alloc);
    for c in characters {
        text.push(c)?;
    }
    Ok(Some(text))
}

/// The string of a UniversalString in UTF-8; `None` if its bytes aren't characters.
fn universal_string(alloc: Global, content: &[u8]) -> Result<Option<String>, AllocError>
    ensures { IfOk result
        (λ o. option_map string_bytes o ≡ utf8_of universal_character content.now) }
{
    let characters = Items::<UniversalCharacter>::new(content);
    if !characters.rest().is_empty() {
        return Ok(None);
    }
    let mut text = String::new(alloc);
    for c in characters {
        text.push(c)?;
    }
    Ok(Some(text))
}

/// The string of bytes that are each the number of a character.
fn latin1_string(alloc: Global, content: &[u8]) -> Result<String, AllocError>
    ensures { IfOk result (λ text. string_bytes text ≡ flat_map encode_utf8 content.now) }
{
    let mut text = String::new(alloc);
    for byte in content {
        text.push(char::from(*byte))?;
    }
    Ok(text)
}

/// The string of a value, by its tag; `None` for a UTF8String, whose content is the string already,
/// and if it isn't a string.
fn converted(alloc: Global, value: Element) -> Result<Option<String>, AllocError>
    ensures { IfOk result
        (λ o. option_map string_bytes o ≡ converted_of (view_element value.entry)) }
{
    match value.tag {
        NUMERIC_STRING
        | tag::PRINTABLE_STRING
        | tag::TELETEX_STRING
        | tag::IA5_STRING
        | VISIBLE_STRING => Ok(Some(latin1_string(alloc, value.content)?)),
        tag::UNIVERSAL_STRING => universal_string(alloc, value.content),
        tag::BMP_STRING => bmp_string(alloc, value.content),
        _ => Ok(None),
    }
}

/// Appends a value: its string, escaped, or `#` and its element in hexadecimal if it isn't a
/// string.
pub(crate) fn add_value(alloc: Global, text: &mut String, value: Element) -> Result<(), AllocError>
    ensures { OnOk result
        (string_bytes text.new ≡ string_bytes text.old ++ value_text (view_element value.entry)) }
{
    if value.tag == tag::UTF8_STRING {
        return add_escaped(text, value.content);
    }
    match converted(alloc, value)? {
        Some(string) => add_escaped(text, string.as_bytes()),
        None => add_dump(alloc, text, value),
    }
}
