//! Object identifiers as texts.
ghost use Rattle.std.specs.Prelude.{◌≡◌, ◌++◌, map, IfOk, OnOk};
ghost use Rattle.std.specs.String.{string_bytes};
ghost use Rattle.std.specs.Option.{option_map};
ghost use Rattle.x509_text.specs.Object.{view_object};
ghost use Rattle.x509_text.specs.Algorithms.{algorithms};
ghost use Rattle.x509_text.specs.NistAlgorithms.{nist_algorithms};
ghost use Rattle.x509_text.specs.NationalAlgorithms.{national_algorithms};
ghost use Rattle.x509_text.specs.Curves.{curves};
ghost use Rattle.x509_text.specs.FurtherCurves.{further_curves};
ghost use Rattle.x509_text.specs.OlderCurves.{older_curves};
ghost use Rattle.x509_text.specs.DirectoryAttributes.{directory_attributes};
ghost use Rattle.x509_text.specs.FurtherDirectoryAttributes.{further_directory_attributes};
ghost use Rattle.x509_text.specs.Extensions.{extensions};
ghost use Rattle.x509_text.specs.OtherAttributes.{other_attributes};
ghost use Rattle.x509_text.specs.Purposes.{purposes};
ghost use Rattle.x509_text.specs.ObjectText.{arc_text as arc_text_of, all_fit as all_fit_in, dotted_text, found_in, long_name_of, numbers_text, object_of, object_text as object_text_of, short_name_of};
ghost use Rattle.der.specs.ObjectIdentifier.{arcs_of, view_arc};

use crate::hexadecimal::add_dump;
use crate::tables::{
    ALGORITHMS, CURVES, DIRECTORY_ATTRIBUTES, EXTENSIONS, FURTHER_CURVES,
    FURTHER_DIRECTORY_ATTRIBUTES, NATIONAL_ALGORITHMS, NIST_ALGORITHMS, OLDER_CURVES,
    OTHER_ATTRIBUTES, Object, PURPOSES,
};
use der::{ArcNumber, Element, ObjectIdentifier, tag};
use itoa::Buffer;
use std::alloc::{AllocError, Global};

/// The first row of a table that has this content.
fn find_object(table: &'static [Object], content: &[u8]) -> Option<Object>
    ensures { option_map view_object result ≡ found_in (map view_object table.now) content.now }
{
    for object in table {
        if object.content == content {
            return Some(*object);
        }
    }
    None
}

#[tactic(auto, unfolding(crate::specs::DirectoryAttributes::directory_attributes))]
fn directory_attribute(content: &[u8]) -> Option<Object>
    ensures { option_map view_object result ≡ found_in directory_attributes content.now }
{
    find_object(DIRECTORY_ATTRIBUTES, content)
}

#[tactic(auto, unfolding(crate::specs::FurtherDirectoryAttributes::further_directory_attributes))]
fn further_directory_attribute(content: &[u8]) -> Option<Object>
    ensures { option_map view_object result ≡ found_in further_directory_attributes content.now }
{
    find_object(FURTHER_DIRECTORY_ATTRIBUTES, content)
}

#[tactic(auto, unfolding(crate::specs::OtherAttributes::other_attributes))]
fn other_attribute(content: &[u8]) -> Option<Object>
    ensures { option_map view_object result ≡ found_in other_attributes content.now }
{
    find_object(OTHER_ATTRIBUTES, content)
}

#[tactic(auto, unfolding(crate::specs::Algorithms::algorithms))]
fn algorithm(content: &[u8]) -> Option<Object>
    ensures { option_map view_object result ≡ found_in algorithms content.now }
{
    find_object(ALGORITHMS, content)
}

#[tactic(auto, unfolding(crate::specs::NistAlgorithms::nist_algorithms))]
fn nist_algorithm(content: &[u8]) -> Option<Object>
    ensures { option_map view_object result ≡ found_in nist_algorithms content.now }
{
    find_object(NIST_ALGORITHMS, content)
}

#[tactic(auto, unfolding(crate::specs::NationalAlgorithms::national_algorithms))]
fn national_algorithm(content: &[u8]) -> Option<Object>
    ensures { option_map view_object result ≡ found_in national_algorithms content.now }
{
    find_object(NATIONAL_ALGORITHMS, content)
}

#[tactic(auto, unfolding(crate::specs::Curves::curves))]
fn curve(content: &[u8]) -> Option<Object>
    ensures { option_map view_object result ≡ found_in curves content.now }
{
    find_object(CURVES, content)
}

#[tactic(auto, unfolding(crate::specs::FurtherCurves::further_curves))]
fn further_curve(content: &[u8]) -> Option<Object>
    ensures { option_map view_object result ≡ found_in further_curves content.now }
{
    find_object(FURTHER_CURVES, content)
}

#[tactic(auto, unfolding(crate::specs::OlderCurves::older_curves))]
fn older_curve(content: &[u8]) -> Option<Object>
    ensures { option_map view_object result ≡ found_in older_curves content.now }
{
    find_object(OLDER_CURVES, content)
}

#[tactic(auto, unfolding(crate::specs::Purposes::purposes))]
fn purpose(content: &[u8]) -> Option<Object>
    ensures { option_map view_object result ≡ found_in purposes content.now }
{
    find_object(PURPOSES, content)
}

#[tactic(auto, unfolding(crate::specs::Extensions::extensions))]
fn extension(content: &[u8]) -> Option<Object>
    ensures { option_map view_object result ≡ found_in extensions content.now }
{
    find_object(EXTENSIONS, content)
}

/// The row with this content, from the first table that has it.
#[tactic(auto, unfolding(crate::specs::ObjectText::object_of))]
fn known(content: &[u8]) -> Option<Object>
    ensures { option_map view_object result ≡ object_of content.now }
{
    if let Some(object) = directory_attribute(content) {
        return Some(object);
    }
    if let Some(object) = further_directory_attribute(content) {
        return Some(object);
    }
    if let Some(object) = other_attribute(content) {
        return Some(object);
    }
    if let Some(object) = algorithm(content) {
        return Some(object);
    }
    if let Some(object) = nist_algorithm(content) {
        return Some(object);
    }
    if let Some(object) = national_algorithm(content) {
        return Some(object);
    }
    if let Some(object) = curve(content) {
        return Some(object);
    }
    if let Some(object) = further_curve(content) {
        return Some(object);
    }
    if let Some(object) = older_curve(content) {
        return Some(object);
    }
    if let Some(object) = purpose(content) {
        return Some(object);
    }
    extension(content)
}

/// OpenSSL's long name for an object identifier, such as `commonName`, `sha256WithRSAEncryption` or
/// `TLS Web Server Authentication`.
///
/// `None` if it is in no table: there are tables of name attributes, key and signature algorithms,
/// curves, purposes and extensions.
pub fn object_name(oid: ObjectIdentifier) -> Option<&'static str>
    ensures { option_map (λ s. s.now) result ≡ long_name_of oid.entry.content.now }
{
    match known(oid.content) {
        Some(object) => Some(object.long_name),
        None => None,
    }
}

/// OpenSSL's short name for an object identifier, such as `CN`, `RSA-SHA256` or `serverAuth`; often
/// equal to the long one.
///
/// `None` if [`object_name`] has none.
pub fn object_short_name(oid: ObjectIdentifier) -> Option<&'static str>
    ensures { option_map (λ s. s.now) result ≡ short_name_of oid.entry.content.now }
{
    match known(oid.content) {
        Some(object) => Some(object.short_name),
        None => None,
    }
}

/// Appends a number in decimal; nothing if it is too large.
fn add_arc(text: &mut String, arc: ArcNumber) -> Result<(), AllocError>
    ensures { OnOk result
        (string_bytes text.new ≡ string_bytes text.old ++ arc_text_of (view_arc arc)) }
{
    match arc {
        ArcNumber::Fits(n) => {
            let mut buffer = Buffer::new();
            text.push_str(buffer.format(n))
        }
        ArcNumber::TooLarge => Ok(()),
    }
}

/// Whether no arc is too large.
fn all_fit(oid: ObjectIdentifier) -> bool
    ensures { result ≡ all_fit_in (arcs_of oid.entry.content.now) }
{
    for arc in oid.arcs() {
        if arc == ArcNumber::TooLarge {
            return false;
        }
    }
    true
}

/// Appends the numbers of the arcs, separated by `.`.
#[tactic(auto, using(crate::proofs::JoinLemmas::join_begun, crate::proofs::JoinLemmas::join_more))]
fn add_arcs(text: &mut String, oid: ObjectIdentifier) -> Result<(), AllocError>
    ensures { OnOk result
        (string_bytes text.new ≡ string_bytes text.old ++ numbers_text
        (arcs_of oid.entry.content.now)) }
{
    let mut arcs = oid.arcs();
    let Some(first) = arcs.next() else {
        return Ok(());
    };
    add_arc(text, first)?;
    for arc in arcs {
        text.push('.')?;
        add_arc(text, arc)?;
    }
    Ok(())
}

/// Appends an object identifier as its numbers, or as `#` and its element in hexadecimal if one is
/// too large.
pub(crate) fn add_dotted(
    alloc: Global,
    text: &mut String,
    oid: ObjectIdentifier,
) -> Result<(), AllocError>
    ensures { OnOk result
        (string_bytes text.new ≡ string_bytes text.old ++ dotted_text oid.entry.content.now) }
{
    if all_fit(oid) {
        return add_arcs(text, oid);
    }
    let element = Element {
        tag: tag::OBJECT_IDENTIFIER,
        content: oid.content,
    };
    add_dump(alloc, text, element)
}

/// An object identifier as text: the long name of [`object_name`], else its numbers separated by
/// `.`, such as `1.2.840`.
///
/// If `der` reports a number as too large, which is 2^128 or above (from 2^128 - 80 for a second
/// arc), the text is `#` and the bytes of its element in hexadecimal. `AllocError` if there is no
/// memory for the text.
pub fn object_text(alloc: Global, oid: ObjectIdentifier) -> Result<String, AllocError>
    ensures { IfOk result (λ text. string_bytes text ≡ object_text_of oid.entry.content.now) }
{
    let mut text = String::new(alloc);
    match object_name(oid) {
        Some(name) => text.push_str(name)?,
        None => add_dotted(alloc, &mut text, oid)?,
    }
    Ok(text)
}
