//! Names in extensions as texts (RFC 5280, section 4.2.1.6).
ghost use Rattle.std.specs.Prelude.{◌≡◌, ◌++◌, ◌∷◌, [], IfOk, OnOk};
ghost use Rattle.std.specs.Option.{option_map};
ghost use Rattle.std.specs.String.{string_bytes};
ghost use Rattle.der.specs.Element.{view_element};
ghost use Rattle.std.specs.Net.Addr.{segments_of};
ghost use Rattle.std.specs.Net.Text.{ipv4_text, ipv6_text};
ghost use Rattle.x509.specs.GeneralName.{view_general_name};
ghost use Rattle.x509_text.specs.GeneralName.{address_text, ascii_byte, ascii_text, decoded_name, directory_name, principal_name, principal_text as principal_text_of, general_name_text as general_name_text_of, kind_of};

use crate::hexadecimal::{add_hex, lower_hex_digit};
use crate::name::name_text;
use der::{Element, tag};
use std::alloc::{AllocError, Global};
use std::net::{Ipv4Addr, Ipv6Addr};
use x509::{GeneralName, oid, parse_name, parse_other_name};

/// Appends a byte: printable ASCII except `\` as it is, others escaped with `\`.
fn add_ascii_byte(text: &mut String, byte: u8) -> Result<(), AllocError>
    ensures { OnOk result (string_bytes text.new ≡ string_bytes text.old ++ ascii_byte byte) }
{
    if byte == b'\\' {
        return text.push_str("\\\\");
    }
    if 0x20 <= byte && byte < 0x7f {
        return text.push(char::from(byte));
    }
    text.push_str("\\x")?;
    text.push(lower_hex_digit(byte / 16))?;
    text.push(lower_hex_digit(byte % 16))
}

/// Appends bytes that should be ASCII.
fn add_ascii(text: &mut String, bytes: &[u8]) -> Result<(), AllocError>
    ensures { OnOk result (string_bytes text.new ≡ string_bytes text.old ++ ascii_text bytes.now) }
{
    for byte in bytes {
        add_ascii_byte(text, *byte)?;
    }
    Ok(())
}

/// Appends an IPv4 address.
fn add_four(alloc: Global, text: &mut String, a: u8, b: u8, c: u8, d: u8) -> Result<(), AllocError>
    ensures { OnOk result
        (string_bytes text.new ≡ string_bytes text.old ++ ipv4_text (a ∷ b ∷ c ∷ d ∷ [])) }
{
    let shown = format!(in alloc; "{}", Ipv4Addr::new(a, b, c, d))?;
    text.push_str(shown.as_str())
}

/// Appends an IPv6 address.
fn add_sixteen(alloc: Global, text: &mut String, octets: [u8; 16]) -> Result<(), AllocError>
    ensures { OnOk result
        (string_bytes text.new ≡ string_bytes text.old ++ ipv6_text (segments_of octets)) }
{
    let shown = format!(in alloc; "{}", Ipv6Addr::from(octets))?;
    text.push_str(shown.as_str())
}

/// Appends an IP address.
fn add_address(alloc: Global, text: &mut String, address: &[u8]) -> Result<(), AllocError>
    ensures { OnOk result
        (string_bytes text.new ≡ string_bytes text.old ++ address_text address.now) }
{
    match address {
        [a, b, c, d] => add_four(alloc, text, *a, *b, *c, *d),
        [a, b, c, d, e, f, g, h, i, j, k, l, m, n, o, p] => {
            let octets = [
                *a, *b, *c, *d, *e, *f, *g, *h, *i, *j, *k, *l, *m, *n, *o, *p,
            ];
            add_sixteen(alloc, text, octets)
        }
        _ => {
            text.push_str("iPAddress:")?;
            add_hex(alloc, text, address)
        }
    }
}

/// The name that RFC 5280 gives a kind of general name, by its tag.
fn kind(tag: u8) -> &'static str
    ensures { result.now ≡ kind_of tag }
{
    match tag {
        0xa0 => "otherName",
        0xa3 => "x400Address",
        0xa4 => "directoryName",
        0xa5 => "ediPartyName",
        0x88 => "registeredID",
        _ => "unknown",
    }
}

/// A name of a subject or an issuer as text.
///
/// An rfc822Name, a dNSName and a uniformResourceIdentifier print their bytes, with `\xff` for one
/// that isn't printable ASCII, and `\\` for `\`. An iPAddress of 4 bytes prints as 192.0.2.1, one
/// of 16 bytes as 2001:db8::1 (RFC 5952), and any other as `iPAddress:` and its bytes in
/// hexadecimal. Other names print their kind, such as `otherName`, then `:` and the bytes of their
/// content in hexadecimal. `AllocError` if there is no memory for the text.
pub fn general_name_text(alloc: Global, name: GeneralName) -> Result<String, AllocError>
    ensures { IfOk result
        (λ text. string_bytes text ≡ general_name_text_of (view_general_name name.entry)) }
{
    let mut text = String::new(alloc);
    match name {
        GeneralName::Rfc822Name(bytes) => add_ascii(&mut text, bytes)?,
        GeneralName::DnsName(bytes) => add_ascii(&mut text, bytes)?,
        GeneralName::UniformResourceIdentifier(bytes) => add_ascii(&mut text, bytes)?,
        GeneralName::IpAddress(bytes) => add_address(alloc, &mut text, bytes)?,
        GeneralName::Other(element) => {
            text.push_str(kind(element.tag))?;
            text.push(':')?;
            add_hex(alloc, &mut text, element.content)?
        }
    }
    Ok(text)
}

/// The user of a userPrincipalName that is a UTF8String.
fn principal_text(alloc: Global, value: Element) -> Result<Option<String>, AllocError>
    ensures { IfOk result
        (λ text. option_map string_bytes text ≡ principal_text_of (view_element value.entry)) }
{
    if value.tag != tag::UTF8_STRING {
        return Ok(None);
    }
    let mut text = String::new(alloc);
    add_ascii(&mut text, value.content)?;
    Ok(Some(text))
}

/// The user in the content of an otherName, if it is a userPrincipalName.
fn other_name_text(alloc: Global, content: &[u8]) -> Result<Option<String>, AllocError>
    ensures { IfOk result (λ text. option_map string_bytes text ≡ principal_name content.now) }
{
    match parse_other_name(content) {
        Ok((_, name)) if name.type_id.content == oid::USER_PRINCIPAL_NAME.content => {
            principal_text(alloc, name.value)
        }
        _ => Ok(None),
    }
}

/// The name in the content of a directoryName.
fn directory_name_text(alloc: Global, content: &[u8]) -> Result<Option<String>, AllocError>
    ensures { IfOk result (λ text. option_map string_bytes text ≡ directory_name content.now) }
{
    match parse_name(content) {
        Ok((_, name)) => Ok(Some(name_text(alloc, name)?)),
        Err(_) => Ok(None),
    }
}

/// The name within a [`GeneralName::Other`] that has a readable form: a directoryName as
/// [`name_text`](crate::name_text) prints it, and the user of a Microsoft userPrincipalName, such
/// as `user@example.test`, with `\xff` for a byte that isn't printable ASCII.
///
/// `None` for other names, and if it can't be read. `AllocError` if there is no memory for the
/// text.
pub fn decoded_name_text(alloc: Global, name: GeneralName) -> Result<Option<String>, AllocError>
    ensures { IfOk result
        (λ text. option_map string_bytes text ≡ decoded_name (view_general_name name.entry)) }
{
    match name {
        GeneralName::Other(Element { tag: 0xa0, content }) => other_name_text(alloc, content),
        GeneralName::Other(Element { tag: 0xa4, content }) => directory_name_text(alloc, content),
        _ => Ok(None),
    }
}
