//! The fields of a certificate that can't be read, or not to their end.
ghost use Rattle.std.specs.Prelude.{◌≡◌, ◌++◌, map, IfOk, OnOk};
ghost use Rattle.std.specs.String.{string_bytes};
ghost use Rattle.layouts.specs.Items.{items_in};
ghost use Rattle.x509.specs.Certificate.{extension};
ghost use Rattle.log_formats.specs.Data.{value_of as data_of};
ghost use Rattle.log_certificates.specs.Names.{error_text};
ghost use Rattle.log_certificates.specs.Noted.{EndsInTexts, ca_fault_of, fault_texts, noted};
ghost use Rattle.log_certificates.specs.Noted.{fault_text as fault_text_of, place_text as place_text_of};
ghost use Rattle.log_certificates.specs.Noted.{path_length_fault_of, place_texts};

use crate::extensions::{constraints, value_of};
use crate::read::{ReadCertificate, kind_of};
use layouts::{Err, Error, ErrorKind, InPlace, Items};
use log_formats::cell::Cell;
use log_formats::lists::{Texts, some_texts};
use ocsp::oid::CERTIFICATE_TIMESTAMPS;
use ocsp::parse_timestamp_list;
use std::alloc::{AllocError, Global};
use tls_key_exchange::certificate_timestamps;
use x509::{
    Extensions, oid, parse_authority_info_access, parse_basic_constraints,
    parse_certificate_policies, parse_extended_key_usage, parse_general_names, parse_key_usage,
};
use x509_text::{
    ListFault, ca_fault, critical_fault, extensions_fault, general_names_fault, name_fault,
    natural_fault, purposes_fault,
};

/// Returns the name of a broken rule.
pub fn error_name(kind: ErrorKind) -> &'static str
    ensures { result.now ≡ error_text kind }
{
    match kind {
        ErrorKind::TooLarge => "too_large",
        ErrorKind::LengthValue => "length_value",
        ErrorKind::Verify => "verify",
        ErrorKind::Switch => "switch",
        ErrorKind::Tag => "tag",
        ErrorKind::Complete => "complete",
    }
}

/// Returns a field with the rule that it breaks, such as `notBefore:tag`.
fn fault_text(alloc: Global, name: &str, kind: ErrorKind) -> Result<String, AllocError>
    ensures { IfOk result (λ text. string_bytes text ≡ fault_text_of name.now kind) }
{
    let mut text = String::new(alloc);
    text.push_str(name)?;
    text.push(':')?;
    text.push_str(error_name(kind))?;
    Ok(text)
}

/// Appends a field that breaks a rule, such as `notBefore:tag`.
fn add_unread(
    alloc: Global,
    all: &mut Vec<String>,
    name: &'static str,
    why: Option<ErrorKind>,
) -> Result<(), AllocError>
    ensures { OnOk result (map string_bytes all.new.items
        ≡ map string_bytes all.old.items ++ fault_texts name.now why) }
{
    if let Some(kind) = why {
        all.push(fault_text(alloc, name, kind)?)?;
    }
    Ok(())
}

/// Returns a list with the count of bytes in front of the item that breaks a rule, such as
/// `subject@12:tag`.
fn place_text(alloc: Global, name: &str, fault: ListFault) -> Result<String, AllocError>
    ensures { IfOk result (λ text. string_bytes text ≡ place_text_of name.now fault) }
{
    let mut text = String::new(alloc);
    text.push_str(name)?;
    text.push('@')?;
    text.push_str(itoa::Buffer::new().format(fault.at as u64))?;
    text.push(':')?;
    text.push_str(error_name(fault.kind))?;
    Ok(text)
}

/// Appends a list with an item that breaks a rule, such as `subject@12:tag`.
fn add_list(
    alloc: Global,
    all: &mut Vec<String>,
    name: &'static str,
    fault: Option<ListFault>,
) -> Result<(), AllocError>
    ensures { OnOk result (map string_bytes all.new.items
        ≡ map string_bytes all.old.items ++ place_texts name.now fault) }
{
    if let Some(fault) = fault {
        all.push(place_text(alloc, name, fault)?)?;
    }
    Ok(())
}

/// Returns where a list ends before its bytes do.
fn list_fault<'a, T: InPlace<'a>>(items: Items<'a, T>) -> Option<ListFault> {
    let refusal = items.refusal()?;
    Some(ListFault {
        at: items.bytes().len().saturating_sub(items.rest().len()),
        kind: kind_of(refusal),
    })
}

/// Appends the fields in front of the extensions that can't be read, by RFC 5280's names.
fn add_fields(
    alloc: Global,
    all: &mut Vec<String>,
    read: &ReadCertificate<'_>,
) -> Result<(), AllocError> {
    let (unread, tbs) = (&read.unread, &read.certificate.tbs_certificate);
    add_unread(alloc, all, "version", unread.version)?;
    add_unread(alloc, all, "serialNumber", unread.serial_number)?;
    add_unread(alloc, all, "signature", unread.inner_signature)?;
    add_unread(alloc, all, "issuer", unread.issuer)?;
    add_list(alloc, all, "issuer", name_fault(tbs.issuer))?;
    add_unread(alloc, all, "notBefore", unread.not_before)?;
    add_unread(alloc, all, "notAfter", unread.not_after)?;
    add_unread(alloc, all, "subject", unread.subject)?;
    add_list(alloc, all, "subject", name_fault(tbs.subject))?;
    add_unread(alloc, all, "subjectPublicKeyInfo", unread.key)?;
    add_unread(alloc, all, "extensions", unread.extensions)?;
    add_list(alloc, all, "extensions", extensions_fault(tbs.extensions))
}

/// Where the value of an extension can't be read.
enum ValueFault {
    /// It isn't of its type.
    Whole(ErrorKind),
    /// It is a list with such an item.
    Item(ListFault),
}

/// Returns the fault of a value that is no list.
fn whole_fault(refusal: Err<Error<&[u8]>>) -> Option<ValueFault> {
    Some(ValueFault::Whole(kind_of(refusal)))
}

/// Returns the fault of a list.
fn item_fault(fault: Option<ListFault>) -> Option<ValueFault> {
    Some(ValueFault::Item(fault?))
}

/// Returns where the value of subjectAltName can't be read; `None` without one.
fn names_fault(value: Option<&[u8]>) -> Option<ValueFault> {
    match parse_general_names(value?) {
        Ok((_, names)) => item_fault(general_names_fault(names)),
        Err(refusal) => whole_fault(refusal),
    }
}

/// Returns where the value of basicConstraints can't be read.
fn constraints_fault(value: Option<&[u8]>) -> Option<ValueFault> {
    match parse_basic_constraints(value?) {
        Ok(_) => None,
        Err(refusal) => whole_fault(refusal),
    }
}

/// Returns where the value of keyUsage can't be read.
fn usage_fault(value: Option<&[u8]>) -> Option<ValueFault> {
    match parse_key_usage(value?) {
        Ok(_) => None,
        Err(refusal) => whole_fault(refusal),
    }
}

/// Returns where the value of extKeyUsage can't be read.
fn purpose_fault(value: Option<&[u8]>) -> Option<ValueFault> {
    match parse_extended_key_usage(value?) {
        Ok((_, list)) => item_fault(purposes_fault(list)),
        Err(refusal) => whole_fault(refusal),
    }
}

/// Returns where the value of authorityInfoAccess can't be read.
fn access_fault(value: Option<&[u8]>) -> Option<ValueFault> {
    match parse_authority_info_access(value?) {
        Ok((_, list)) => item_fault(list_fault(list)),
        Err(refusal) => whole_fault(refusal),
    }
}

/// Returns where the value of certificatePolicies can't be read.
fn policy_fault(value: Option<&[u8]>) -> Option<ValueFault> {
    match parse_certificate_policies(value?) {
        Ok((_, list)) => item_fault(list_fault(list)),
        Err(refusal) => whole_fault(refusal),
    }
}

/// Returns where the value of a list of timestamps can't be read (RFC 6962, section 3.3).
fn timestamp_fault(value: Option<&[u8]>) -> Option<ValueFault> {
    let list = match parse_timestamp_list(value?) {
        Ok((_, list)) => list,
        Err(refusal) => return whole_fault(refusal),
    };
    match certificate_timestamps(list) {
        Ok((_, timestamps)) => item_fault(list_fault(timestamps)),
        Err(refusal) => whole_fault(refusal),
    }
}

/// Appends the extension of this type, if it can't be read.
fn add_value(
    alloc: Global,
    all: &mut Vec<String>,
    name: &'static str,
    fault: Option<ValueFault>,
) -> Result<(), AllocError> {
    match fault {
        Some(ValueFault::Whole(kind)) => add_unread(alloc, all, name, Some(kind)),
        Some(ValueFault::Item(fault)) => add_list(alloc, all, name, Some(fault)),
        None => Ok(()),
    }
}

/// Appends the extensions that are fields, and can't be read.
fn add_extensions(
    alloc: Global,
    all: &mut Vec<String>,
    extensions: Items<'_, Extensions>,
) -> Result<(), AllocError> {
    let names = names_fault(value_of(extensions, oid::SUBJECT_ALT_NAME));
    add_value(alloc, all, "subjectAltName", names)?;
    let constraints = constraints_fault(value_of(extensions, oid::BASIC_CONSTRAINTS));
    add_value(alloc, all, "basicConstraints", constraints)?;
    let usage = usage_fault(value_of(extensions, oid::KEY_USAGE));
    add_value(alloc, all, "keyUsage", usage)?;
    let purposes = purpose_fault(value_of(extensions, oid::EXTENDED_KEY_USAGE));
    add_value(alloc, all, "extKeyUsage", purposes)?;
    let accesses = access_fault(value_of(extensions, oid::AUTHORITY_INFO_ACCESS));
    add_value(alloc, all, "authorityInfoAccess", accesses)?;
    let policies = policy_fault(value_of(extensions, oid::CERTIFICATE_POLICIES));
    add_value(alloc, all, "certificatePolicies", policies)?;
    let timestamps = timestamp_fault(value_of(extensions, CERTIFICATE_TIMESTAMPS));
    add_value(alloc, all, "SignedCertificateTimestampList", timestamps)
}

/// Returns the broken rule if cA is BER's TRUE.
fn ca_fault_in(extensions: Items<'_, Extensions>) -> Option<ErrorKind>
    ensures { result ≡ ca_fault_of (items_in extension extensions.entry.bytes.now) }
{
    ca_fault(value_of(extensions, oid::BASIC_CONSTRAINTS)?)
}

/// Returns why a pathLenConstraint isn't logged.
fn path_length_fault(extensions: Items<'_, Extensions>) -> Option<ErrorKind>
    ensures { result ≡ path_length_fault_of (items_in extension extensions.entry.bytes.now) }
{
    natural_fault(constraints(extensions)?.path_len_constraint?)
}

/// Appends what is noted of extensions that can be read: BER's TRUE, and a pathLenConstraint that
/// isn't logged.
fn add_noted(
    alloc: Global,
    all: &mut Vec<String>,
    extensions: Items<'_, Extensions>,
) -> Result<(), AllocError>
    ensures { OnOk result (map string_bytes all.new.items
        ≡ map string_bytes all.old.items ++ noted extensions.entry.bytes.now) }
{
    add_list(alloc, all, "critical", critical_fault(extensions))?;
    add_unread(alloc, all, "cA", ca_fault_in(extensions))?;
    add_unread(
        alloc,
        all,
        "pathLenConstraint",
        path_length_fault(extensions),
    )
}

/// Returns the fields that can't be read, or not to their end.
fn unread(alloc: Global, read: &ReadCertificate<'_>) -> Result<Vec<String>, AllocError> {
    let mut all = Vec::new(alloc);
    add_fields(alloc, &mut all, read)?;
    let extensions = read.certificate.tbs_certificate.extensions;
    add_extensions(alloc, &mut all, extensions)?;
    let outer = read.unread.signature_algorithm;
    add_unread(alloc, &mut all, "signatureAlgorithm", outer)?;
    Ok(all)
}

/// Returns the fields that can't be read, or not to their end, and behind them what is noted of
/// those that can; `None` if there is nothing.
pub(crate) fn unread_fields<'c>(
    alloc: Global,
    read: &ReadCertificate<'_>,
) -> Result<Option<Cell<'c>>, AllocError>
    ensures { IfOk result (λ cell. EndsInTexts
        (noted read.now.certificate.tbs_certificate.extensions.bytes.now) (data_of cell)) }
{
    let mut all = unread(alloc, read)?;
    add_noted(alloc, &mut all, read.certificate.tbs_certificate.extensions)?;
    Ok(some_texts(Texts::Owned(all)))
}
