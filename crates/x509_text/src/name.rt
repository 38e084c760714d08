//! Names as texts (RFC 4514, section 2).
ghost use Rattle.std.specs.Prelude.{◌≡◌, ◌++◌, map, IfOk, OnOk};
ghost use Rattle.std.specs.String.{string_bytes};
ghost use Rattle.std.specs.Option.{option_map};
ghost use Rattle.layouts.specs.Items.{items_in};
ghost use Rattle.x509.specs.Name.{attribute as attribute_layout, relative_distinguished_name, view_attribute};
ghost use Rattle.x509_text.specs.Name.{attribute_by, attribute_text, is_some_set, name_text as name_text_of, set_text, with_attributes};

use crate::hexadecimal::add_dump;
use crate::object::{add_dotted, object_short_name};
use crate::value::add_value;
use std::alloc::{AllocError, Global};
use x509::{AttributeTypeAndValue, Name, RelativeDistinguishedName};

/// Appends an attribute, given the short name of its type.
fn add_by_name(
    alloc: Global,
    text: &mut String,
    name: Option<&'static str>,
    attribute: AttributeTypeAndValue,
) -> Result<(), AllocError>
    ensures { OnOk result (string_bytes text.new
        ≡ string_bytes text.old ++ attribute_by (option_map (λ s. s.now) name.entry)
        (view_attribute attribute.entry)) }
{
    match name {
        Some(name) => {
            text.push_str(name)?;
            text.push('=')?;
            add_value(alloc, text, attribute.value)
        }
        None => {
            add_dotted(alloc, text, attribute.attribute_type)?;
            text.push('=')?;
            add_dump(alloc, text, attribute.value)
        }
    }
}

/// Appends an attribute: its type, `=` and its value.
#[tactic(auto, unfolding(crate::specs::Name::attribute_text))]
fn add_attribute(
    alloc: Global,
    text: &mut String,
    attribute: AttributeTypeAndValue,
) -> Result<(), AllocError>
    ensures { OnOk result
        (string_bytes text.new ≡ string_bytes text.old ++ attribute_text
        (view_attribute attribute.entry)) }
{
    let name = object_short_name(attribute.attribute_type);
    add_by_name(alloc, text, name, attribute)
}

/// The attributes of a set, in order.
fn attributes_of<'a>(
    alloc: Global,
    set: RelativeDistinguishedName<'a>,
) -> Result<Vec<AttributeTypeAndValue<'a>>, AllocError>
    ensures { IfOk result
        (λ v. map view_attribute v.items ≡ items_in attribute_layout set.entry.bytes.now) }
{
    let mut attributes = Vec::new(alloc);
    for attribute in set {
        attributes.push(attribute)?;
    }
    Ok(attributes)
}

/// Appends the attributes of a set from the last to the first, separated by `+`.
fn add_set(
    alloc: Global,
    text: &mut String,
    set: RelativeDistinguishedName,
) -> Result<(), AllocError>
    ensures { OnOk result
        (string_bytes text.new ≡ string_bytes text.old ++ set_text
        (items_in attribute_layout set.entry.bytes.now)) }
{
    let mut attributes = attributes_of(alloc, set)?;
    let Some(last) = attributes.pop() else {
        return Ok(());
    };
    add_attribute(alloc, text, last)?;
    while let Some(attribute) = attributes.pop() {
        text.push('+')?;
        add_attribute(alloc, text, attribute)?;
    }
    Ok(())
}

/// Whether a set has an attribute.
fn has_attributes(set: RelativeDistinguishedName) -> bool
    ensures { result ≡ is_some_set (items_in attribute_layout set.entry.bytes.now) }
{
    let mut attributes = set;
    attributes.next().is_some()
}

/// The sets of a name that have attributes, in order.
fn sets_of<'a>(
    alloc: Global,
    name: Name<'a>,
) -> Result<Vec<RelativeDistinguishedName<'a>>, AllocError>
    ensures { IfOk result
        (λ v. map (λ s. items_in attribute_layout s.bytes.now) v.items ≡ with_attributes
        (items_in relative_distinguished_name name.entry.bytes.now)) }
{
    let mut sets = Vec::new(alloc);
    for set in name {
        if has_attributes(set) {
            sets.push(set)?;
        }
    }
    Ok(sets)
}

/// A name as text, by RFC 4514, as OpenSSL prints it with `-nameopt RFC2253`: its sets from the
/// last to the first, separated by `,`, and each set's attributes from the last to the first,
/// separated by `+`. An example is `CN=host.example,O=Company\, Limited,C=DE`.
///
/// - The type of an attribute is its short name ([`object_short_name`](crate::object_short_name)),
///   or its numbers, such as 1.2.3.4, if it has no name.
/// - A string is its value in UTF-8. `"`, `+`, `,`, `;`, `<`, `>`, `\`, a space at either end and a
///   leading `#` are escaped with `\`; bytes that aren't printable ASCII are two hexadecimal digits
///   after `\`.
/// - A value is `#` and its element in hexadecimal if it isn't a string, if a BMPString or
///   UniversalString doesn't consist of characters, or if its type has no name.
///
/// OpenSSL differs where it can't parse a value: it refuses the certificate. It also cuts a type
/// without a name to 79 characters. What follows a set or an attribute that doesn't parse is left
/// out, since the iterator ends there. `AllocError` if there is no memory for the text.
pub fn name_text(alloc: Global, name: Name) -> Result<String, AllocError>
    ensures { IfOk result
        (λ text. string_bytes text ≡ name_text_of
        (items_in relative_distinguished_name name.entry.bytes.now)) }
{
    let mut text = String::new(alloc);
    let mut sets = sets_of(alloc, name)?;
    let Some(last) = sets.pop() else {
        return Ok(text);
    };
    add_set(alloc, &mut text, last)?;
    while let Some(set) = sets.pop() {
        text.push(',')?;
        add_set(alloc, &mut text, set)?;
    }
    Ok(text)
}
