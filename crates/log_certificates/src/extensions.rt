//! The fields of a certificate's extensions (RFC 5280, section 4.2). Those that are missing or
//! malformed have none.
ghost use Rattle.std.specs.Prelude.{◌≡◌, [], map, IfOk};
ghost use Rattle.std.specs.Option.{option_map};
ghost use Rattle.std.specs.String.{string_bytes};
ghost use Rattle.layouts.specs.Items.{items_in};
ghost use Rattle.x509.specs.Certificate.{extension};
ghost use Rattle.x509.specs.Extensions.{first_of, view_basic_constraints};
ghost use Rattle.x509.specs.GeneralName.{general_name, view_general_name};
ghost use Rattle.x509_text.specs.Host.{alt_names};
ghost use Rattle.log_formats.specs.Data.{count_data, value_of as data_of};
ghost use Rattle.log_certificates.specs.Read.{view_read};
ghost use Rattle.log_certificates.specs.Values.{constraints_in, is_ca as is_ca_by, is_ca_value};
ghost use Rattle.log_certificates.specs.Values.{may_be_ca_value, names_value, path_length_in as path_length_of};
ghost use Rattle.log_certificates.specs.Values.{tag_of as tag_by, texts_of_kind};

use crate::read::ReadCertificate;
use der::{Element, ObjectIdentifier};
use layouts::Items;
use log_formats::cell::Cell;
use log_formats::lists::{Texts, some_texts};
use log_formats::text::add_text;
use std::alloc::{AllocError, Global};
use x509::{
    AccessDescriptions, BasicConstraints, Extensions, GeneralName, GeneralNames, KeyUsage,
    Policies, first_extension, oid, parse_authority_info_access, parse_basic_constraints,
    parse_certificate_policies, parse_extended_key_usage, parse_general_names, parse_key_usage,
};
use x509_text::{
    decoded_name_text, general_name_text, key_usage_bits, natural_number, object_short_name,
    object_text, purpose_id, purposes_fault,
};

/// The tags of the kinds of names (section 4.2.1.6).
pub(crate) const MAIL: u8 = 1;

pub(crate) const DNS_NAME: u8 = 2;

pub(crate) const URI: u8 = 6;

pub(crate) const ADDRESS: u8 = 7;

/// In the place of the tag of any other kind.
pub(crate) const OTHER: u8 = 0;

/// Returns the value of the first extension of this type.
pub(crate) fn value_of<'a>(
    extensions: Items<'a, Extensions>,
    id: ObjectIdentifier<'_>,
) -> Option<&'a [u8]>
    ensures { option_map (λ v. v.now) result ≡ option_map (λ e. e.extn_value)
        (first_of id.entry.content.now (items_in extension extensions.entry.bytes.now)) }
{
    let found = first_extension(extensions, id)?;
    Some(found.extn_value)
}

/// Returns no names.
fn no_names<'a>() -> Items<'a, GeneralNames>
    ensures { items_in general_name result.bytes.now ≡ [] }
{
    Items::new(&[])
}

/// Returns the names in the subjectAltName (section 4.2.1.6).
fn alternative_names<'a>(extensions: Items<'a, Extensions>) -> Items<'a, GeneralNames>
    ensures { items_in general_name result.bytes.now
        ≡ alt_names (items_in extension extensions.entry.bytes.now) }
{
    let Some(found) = first_extension(extensions, oid::SUBJECT_ALT_NAME) else {
        return no_names();
    };
    match parse_general_names(found.extn_value) {
        Ok((_, names)) => names,
        Err(_) => no_names(),
    }
}

/// Returns the tag of a name's kind.
fn tag_of(name: &GeneralName<'_>) -> u8
    ensures { result ≡ tag_by (view_general_name name.now) }
{
    match name {
        GeneralName::Rfc822Name(_) => MAIL,
        GeneralName::DnsName(_) => DNS_NAME,
        GeneralName::UniformResourceIdentifier(_) => URI,
        GeneralName::IpAddress(_) => ADDRESS,
        GeneralName::Other(_) => OTHER,
    }
}

/// Returns the names of the kind with this tag, as texts.
fn texts_of(
    alloc: Global,
    names: Items<'_, GeneralNames>,
    tag: u8,
) -> Result<Vec<String>, AllocError>
    ensures { IfOk result (λ all. map string_bytes all.items
        ≡ texts_of_kind tag (items_in general_name names.entry.bytes.now)) }
{
    let mut all = Vec::new(alloc);
    for name in names {
        if tag_of(&name) == tag {
            all.push(general_name_text(alloc, name)?)?;
        }
    }
    Ok(all)
}

/// Returns the names in the subjectAltName of the kind with this tag.
pub(crate) fn names_cell<'c>(
    alloc: Global,
    read: &ReadCertificate<'_>,
    tag: u8,
) -> Result<Option<Cell<'c>>, AllocError>
    ensures { IfOk result (λ cell. data_of cell ≡ names_value tag (view_read read.now).extensions) }
{
    let Some(extensions) = read.extensions() else {
        return Ok(None);
    };
    let texts = texts_of(alloc, alternative_names(extensions), tag)?;
    Ok(some_texts(Texts::Owned(texts)))
}

/// The tag of a directoryName; that of an otherName is 0xa0.
const DIRECTORY_NAME: u8 = 0xa4;

/// Returns the decoded names in the subjectAltName: directoryNames, or else userPrincipalNames.
pub(crate) fn decoded_names_cell<'c>(
    alloc: Global,
    read: &ReadCertificate<'_>,
    are_directories: bool,
) -> Result<Option<Cell<'c>>, AllocError> {
    let Some(extensions) = read.extensions() else {
        return Ok(None);
    };
    let mut all = Vec::new(alloc);
    for name in alternative_names(extensions) {
        let GeneralName::Other(Element { tag, .. }) = name else {
            continue;
        };
        if (tag == DIRECTORY_NAME) != are_directories {
            continue;
        }
        if let Some(text) = decoded_name_text(alloc, name)? {
            all.push(text)?;
        }
    }
    Ok(some_texts(Texts::Owned(all)))
}

/// Returns where to find information on the issuer (section 4.2.2.1).
fn accesses<'a>(extensions: Items<'a, Extensions>) -> Items<'a, AccessDescriptions> {
    let Some(value) = value_of(extensions, oid::AUTHORITY_INFO_ACCESS) else {
        return Items::new(&[]);
    };
    match parse_authority_info_access(value) {
        Ok((_, list)) => list,
        Err(_) => Items::new(&[]),
    }
}

/// Returns where to find information of one kind on the issuer.
pub(crate) fn access_cell<'c>(
    alloc: Global,
    read: &ReadCertificate<'_>,
    method: ObjectIdentifier<'_>,
) -> Result<Option<Cell<'c>>, AllocError> {
    let Some(extensions) = read.extensions() else {
        return Ok(None);
    };
    let mut all = Vec::new(alloc);
    for access in accesses(extensions) {
        if access.access_method.content == method.content {
            add_text(&mut all, general_name_text(alloc, access.access_location))?;
        }
    }
    Ok(some_texts(Texts::Owned(all)))
}

/// Returns the policies that it was issued under (section 4.2.1.4).
fn policies<'a>(extensions: Items<'a, Extensions>) -> Items<'a, Policies> {
    let Some(value) = value_of(extensions, oid::CERTIFICATE_POLICIES) else {
        return Items::new(&[]);
    };
    match parse_certificate_policies(value) {
        Ok((_, list)) => list,
        Err(_) => Items::new(&[]),
    }
}

/// Returns the policies that it was issued under, as dotted numbers.
pub(crate) fn policies_cell<'c>(
    alloc: Global,
    read: &ReadCertificate<'_>,
) -> Result<Option<Cell<'c>>, AllocError> {
    let Some(extensions) = read.extensions() else {
        return Ok(None);
    };
    let mut all = Vec::new(alloc);
    for policy in policies(extensions) {
        add_text(&mut all, object_text(alloc, policy))?;
    }
    Ok(some_texts(Texts::Owned(all)))
}

/// Returns the basicConstraints (section 4.2.1.9).
pub(crate) fn constraints<'a>(extensions: Items<'a, Extensions>) -> Option<BasicConstraints<'a>>
    ensures { option_map view_basic_constraints result
        ≡ constraints_in (items_in extension extensions.entry.bytes.now) }
{
    let found = first_extension(extensions, oid::BASIC_CONSTRAINTS)?;
    match parse_basic_constraints(found.extn_value) {
        Ok((_, constraints)) => Some(constraints),
        Err(_) => None,
    }
}

/// Returns how many certificates may come between this one and the last; `None` if there is no
/// limit, or one that is negative, or 2^64 or above, which [`unread_fields`](crate::faults) notes.
fn path_length(read: &ReadCertificate<'_>) -> Option<u64>
    ensures { result ≡ path_length_of (view_read read.now).extensions }
{
    let constraints = constraints(read.extensions()?)?;
    natural_number(constraints.path_len_constraint?)
}

/// Returns [`path_length`] as a value.
pub(crate) fn path_length_cell<'c>(read: &ReadCertificate<'_>) -> Option<Cell<'c>>
    ensures { data_of result
        ≡ option_map count_data (path_length_of (view_read read.now).extensions) }
{
    Some(Cell::Number(path_length(read)?))
}

/// Returns whether it may sign others; `None` without basicConstraints.
pub(crate) fn may_be_ca_cell<'c>(read: &ReadCertificate<'_>) -> Option<Cell<'c>>
    ensures { data_of result ≡ may_be_ca_value (view_read read.now).extensions }
{
    let constraints = constraints(read.extensions()?)?;
    Some(Cell::Mark(constraints.ca))
}

/// Returns whether it may sign others; false without basicConstraints.
fn is_ca(extensions: Items<'_, Extensions>) -> bool
    ensures { result ≡ is_ca_by (items_in extension extensions.entry.bytes.now) }
{
    match constraints(extensions) {
        Some(constraints) => constraints.ca,
        None => false,
    }
}

/// Returns [`is_ca`] as a value.
pub(crate) fn is_ca_cell<'c>(read: &ReadCertificate<'_>) -> Option<Cell<'c>>
    ensures { data_of result ≡ is_ca_value (view_read read.now).extensions }
{
    Some(Cell::Mark(is_ca(read.extensions()?)))
}

/// Returns the names of a KeyUsage's set bits; an empty list if none is set.
fn usage_cell<'c>(alloc: Global, usage: KeyUsage) -> Result<Option<Cell<'c>>, AllocError> {
    let mut all = Vec::new(alloc);
    for (usage, is_set) in key_usage_bits(usage) {
        if is_set {
            add_text(&mut all, String::from_str(alloc, usage))?;
        }
    }
    Ok(Some(Cell::Texts(Texts::Owned(all))))
}

/// Returns the names of its key's uses (section 4.2.1.3).
pub(crate) fn key_usage<'c>(
    alloc: Global,
    read: &ReadCertificate<'_>,
) -> Result<Option<Cell<'c>>, AllocError> {
    let Some(extensions) = read.extensions() else {
        return Ok(None);
    };
    let Some(value) = value_of(extensions, oid::KEY_USAGE) else {
        return Ok(None);
    };
    match parse_key_usage(value) {
        Ok((_, usage)) => usage_cell(alloc, usage),
        Err(_) => Ok(None),
    }
}

/// Returns the name of a purpose, or its dotted numbers.
fn purpose_text(alloc: Global, id: ObjectIdentifier<'_>) -> Result<String, AllocError> {
    match object_short_name(id) {
        Some(name) => String::from_str(alloc, name),
        None => object_text(alloc, id),
    }
}

/// Returns the purposes of its key (section 4.2.1.12), as names or dotted numbers; `None` if it has
/// no such extension, or none of its purposes can be read.
pub(crate) fn purposes<'c>(
    alloc: Global,
    read: &ReadCertificate<'_>,
) -> Result<Option<Cell<'c>>, AllocError> {
    let Some(extensions) = read.extensions() else {
        return Ok(None);
    };
    let Some(value) = value_of(extensions, oid::EXTENDED_KEY_USAGE) else {
        return Ok(None);
    };
    let Ok((_, list)) = parse_extended_key_usage(value) else {
        return Ok(None);
    };
    let mut all = Vec::new(alloc);
    for purpose in list {
        add_text(&mut all, purpose_text(alloc, purpose_id(purpose)))?;
    }
    if all.is_empty() && purposes_fault(list).is_some() {
        return Ok(None);
    }
    Ok(Some(Cell::Texts(Texts::Owned(all))))
}
