//! Certificates by the names of RFC 5280. Nothing is verified.
ghost use Rattle.std.specs.Prelude.{IfOk};
ghost use Rattle.tls_json.specs.Outline.{HasNames};
ghost use Rattle.tls_json.specs.Certificates.{certificate_names, extension_names, validity_names};

use crate::json::{ParsedValue, Value};
use crate::table::{Table, Values};
use crate::text::blob;
use der::ObjectIdentifier;
use layouts::Items;
use std::alloc::{AllocError, Global};
use x509::{
    Certificate, Extension, Extensions, SubjectPublicKeyInfo, Validity, oid,
    parse_basic_constraints, parse_certificate, parse_extended_key_usage, parse_general_names,
    parse_key_usage,
};
use x509_text::{
    general_name_text, key_curve, key_length, key_usage_bits, name_text, object_short_name,
    object_text, purpose_id, serial_number_text, time_text, version_number,
};

fn text(made: Result<String, AllocError>) -> Result<Value, AllocError> {
    Ok(Value::Text(made?))
}

fn object(alloc: Global, id: ObjectIdentifier<'_>) -> Result<Value, AllocError> {
    text(object_text(alloc, id))
}

/// Returns RFC 5280's name of an extension or purpose, or else its dotted numbers.
fn named(alloc: Global, id: ObjectIdentifier<'_>) -> Result<Value, AllocError> {
    match object_short_name(id) {
        Some(name) => Ok(Value::Name(name)),
        None => object(alloc, id),
    }
}

/// Writes a time, as 2026-11-25T12:00:00Z, or as seconds since 1970 if the calendar doesn't have
/// it.
fn time(alloc: Global, seconds: i64) -> Result<Value, AllocError> {
    match time_text(alloc, seconds)? {
        Some(time) => Ok(Value::Text(time)),
        None => text(format!(in alloc; "{seconds}")),
    }
}

/// Writes a Validity (section 4.1.2.5).
fn validity(alloc: Global, validity: Validity) -> Result<Value, AllocError>
    ensures { IfOk result (HasNames validity_names) }
{
    Table::new(alloc)
        .add("notBefore", time(alloc, validity.not_before))
        .add("notAfter", time(alloc, validity.not_after))
        .finish()
}

/// Writes a SubjectPublicKeyInfo (section 4.1.2.7): its algorithm, and its curve and bits if they
/// are known.
fn public_key(alloc: Global, info: SubjectPublicKeyInfo<'_>) -> Result<Value, AllocError> {
    let algorithm = object(alloc, info.algorithm.algorithm);
    let mut table = Table::new(alloc).add("algorithm", algorithm);
    if let Some(curve) = key_curve(info) {
        table = table.add("namedCurve", object(alloc, curve));
    }
    if let Some(bits) = key_length(info) {
        table = table.decimal("bits", u64::from(bits));
    }
    table.finish()
}

/// Writes GeneralNames (section 4.2.1.6), each as text.
fn general_names(alloc: Global, value: &[u8]) -> ParsedValue {
    let Ok(([], names)) = parse_general_names(value) else {
        return None;
    };
    let mut all = Values::new(alloc);
    for name in names {
        all = all.add(text(general_name_text(alloc, name)));
    }
    if !names.rest().is_empty() {
        return None;
    }
    Some(all.finish())
}

/// Writes BasicConstraints (section 4.2.1.9).
fn basic_constraints(alloc: Global, value: &[u8]) -> ParsedValue {
    let Ok(([], constraints)) = parse_basic_constraints(value) else {
        return None;
    };
    let mut table = Table::new(alloc).add("cA", Ok(Value::Boolean(constraints.ca)));
    if let Some(length) = constraints.path_len_constraint {
        table = table.add("pathLenConstraint", text(serial_number_text(alloc, length)));
    }
    Some(table.finish())
}

/// Lists the names of the bits that a KeyUsage sets (section 4.2.1.3).
fn key_usage(alloc: Global, value: &[u8]) -> ParsedValue {
    let Ok(([], usage)) = parse_key_usage(value) else {
        return None;
    };
    let mut all = Values::new(alloc);
    for (name, is_set) in key_usage_bits(usage) {
        if is_set {
            all = all.add(Ok(Value::Name(name)));
        }
    }
    Some(all.finish())
}

/// Lists the names of an ExtKeyUsageSyntax's purposes (section 4.2.1.12).
fn purposes(alloc: Global, value: &[u8]) -> ParsedValue {
    let Ok(([], list)) = parse_extended_key_usage(value) else {
        return None;
    };
    let mut all = Values::new(alloc);
    for purpose in list {
        all = all.add(named(alloc, purpose_id(purpose)));
    }
    if !list.rest().is_empty() {
        return None;
    }
    Some(all.finish())
}

/// Parses the value of an extension by its type.
fn read_value(alloc: Global, id: ObjectIdentifier<'_>, value: &[u8]) -> ParsedValue {
    let id = id.content;
    if id == oid::SUBJECT_ALT_NAME.content || id == oid::ISSUER_ALT_NAME.content {
        general_names(alloc, value)
    } else if id == oid::BASIC_CONSTRAINTS.content {
        basic_constraints(alloc, value)
    } else if id == oid::KEY_USAGE.content {
        key_usage(alloc, value)
    } else if id == oid::EXTENDED_KEY_USAGE.content {
        purposes(alloc, value)
    } else {
        None
    }
}

/// Writes an Extension (section 4.1). A value that can't be parsed is its bytes.
fn extension(alloc: Global, extension: Extension<'_>) -> Result<Value, AllocError>
    ensures { IfOk result (HasNames extension_names) }
{
    let value = match read_value(alloc, extension.extn_id, extension.extn_value) {
        Some(value) => value,
        None => blob(alloc, extension.extn_value),
    };
    Table::new(alloc)
        .add("extnID", named(alloc, extension.extn_id))
        .add("critical", Ok(Value::Boolean(extension.critical)))
        .add("extnValue", value)
        .finish()
}

fn extensions<'a>(alloc: Global, list: Items<'a, Extensions>) -> Result<Value, AllocError> {
    let mut all = Values::new(alloc);
    for one in list {
        all = all.add(extension(alloc, one));
    }
    all.finish()
}

/// Writes the fields of a certificate (section 4.1).
fn fields(alloc: Global, certificate: &Certificate<'_>) -> Result<Value, AllocError>
    ensures { IfOk result (HasNames certificate_names) }
{
    let tbs = certificate.tbs_certificate;
    let version = u64::from(version_number(certificate));
    Table::new(alloc)
        .add("version", Ok(Value::Number(version)))
        .add(
            "serialNumber",
            text(serial_number_text(alloc, tbs.serial_number)),
        )
        .add("signature", object(alloc, tbs.signature.algorithm))
        .add("issuer", text(name_text(alloc, tbs.issuer)))
        .add("validity", validity(alloc, tbs.validity))
        .add("subject", text(name_text(alloc, tbs.subject)))
        .add(
            "subjectPublicKeyInfo",
            public_key(alloc, tbs.subject_public_key_info),
        )
        .add("extensions", extensions(alloc, tbs.extensions))
        .finish()
}

/// Writes a certificate by its fields, or as its bytes if it can't be parsed to their end.
pub fn certificate(alloc: Global, bytes: &[u8]) -> Result<Value, AllocError> {
    match parse_certificate(bytes) {
        Ok(([], certificate)) => fields(alloc, &certificate),
        _ => blob(alloc, bytes),
    }
}
