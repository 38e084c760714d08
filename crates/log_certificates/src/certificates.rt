//! The fields of a certificate (RFC 5280, section 4.1). Nothing is verified.
ghost use Rattle.std.specs.Prelude.{◌≡◌, IfOk, IfSome};
ghost use Rattle.std.specs.Option.{option_map};
ghost use Rattle.x509.specs.Certificate.{view_algorithm};
ghost use Rattle.x509_text.specs.Exponent.{natural_text as natural_text_of};
ghost use Rattle.x509_text.specs.ObjectText.{object_text as object_text_of};
ghost use Rattle.log_formats.specs.Data.{count_data, marked, text_data, value_of};
ghost use Rattle.log_certificates.specs.Noted.{NotesLast, noted};
ghost use Rattle.log_certificates.specs.Read.{view_read};
ghost use Rattle.log_certificates.specs.Values.{algorithm_value, certificate_value, curve_in};
ghost use Rattle.log_certificates.specs.Values.{differing, exponent_in, has_weak_key as is_weak_of};
ghost use Rattle.log_certificates.specs.Values.{has_weak_signature as has_weak_signature_of};
ghost use Rattle.log_certificates.specs.Values.{inner_algorithm_value, key_algorithm_value};
ghost use Rattle.log_certificates.specs.Values.{key_length_in, key_type_value, name_value};
ghost use Rattle.log_certificates.specs.Values.{serial_value, version_value};

use crate::extensions::{
    ADDRESS, DNS_NAME, MAIL, OTHER, URI, access_cell, decoded_names_cell, is_ca_cell, key_usage,
    may_be_ca_cell, names_cell, path_length_cell, policies_cell, purposes,
};
use crate::faults::unread_fields;
use crate::field::CertificateField;
use crate::read::ReadCertificate;
use crate::times::{days_cell, end_cell, start_cell, time_cell};
use crate::timestamps::{timestamp_count_cell, timestamp_logs_cell, timestamp_times_cell};
use der::ObjectIdentifier;
use log_formats::cell::Cell;
use log_formats::text::{name_cell, owned_text, some_mark};
use std::alloc::{AllocError, Global};
use x509::{Certificate, oid};
use x509_text::{
    is_self_issued, is_weak_key, is_weak_signature, key_curve, key_exponent, key_length, key_type,
    name_text, natural_text, object_text, serial_number_text, signature_algorithms_agree,
};

/// Returns the version: 1, 2 or 3 for those that RFC 5280, section 4.1.2.1, defines.
fn version_cell<'c>(read: &ReadCertificate<'_>) -> Option<Cell<'c>>
    ensures { value_of result ≡ version_value (view_read read.now).version }
{
    Some(Cell::Number(u64::from(read.version()?) + 1))
}

/// Returns the serial number.
fn serial_cell<'c>(
    alloc: Global,
    read: &ReadCertificate<'_>,
) -> Result<Option<Cell<'c>>, AllocError>
    ensures { IfOk result
        (λ cell. value_of cell ≡ serial_value (view_read read.now).serial_number) }
{
    match read.serial_number() {
        Some(number) => Ok(owned_text(serial_number_text(alloc, number)?)),
        None => Ok(None),
    }
}

/// Returns the name of the key's owner.
fn subject_cell<'c>(
    alloc: Global,
    read: &ReadCertificate<'_>,
) -> Result<Option<Cell<'c>>, AllocError>
    ensures { IfOk result (λ cell. value_of cell ≡ name_value (view_read read.now).subject) }
{
    match read.subject() {
        Some(name) => Ok(owned_text(name_text(alloc, name)?)),
        None => Ok(None),
    }
}

/// Returns the name of the signer.
fn issuer_cell<'c>(
    alloc: Global,
    read: &ReadCertificate<'_>,
) -> Result<Option<Cell<'c>>, AllocError>
    ensures { IfOk result (λ cell. value_of cell ≡ name_value (view_read read.now).issuer) }
{
    match read.issuer() {
        Some(name) => Ok(owned_text(name_text(alloc, name)?)),
        None => Ok(None),
    }
}

/// Returns whether subject and issuer have the same bytes.
fn self_issued_cell<'c>(read: &ReadCertificate<'_>) -> Option<Cell<'c>> {
    read.subject()?;
    read.issuer()?;
    Some(Cell::Mark(is_self_issued(&read.certificate)))
}

/// Returns the algorithm of the key.
fn key_algorithm_cell<'c>(
    alloc: Global,
    read: &ReadCertificate<'_>,
) -> Result<Option<Cell<'c>>, AllocError>
    ensures { IfOk result (λ cell. value_of cell ≡ key_algorithm_value (view_read read.now).key) }
{
    match read.key() {
        Some(info) => Ok(owned_text(object_text(alloc, info.algorithm.algorithm)?)),
        None => Ok(None),
    }
}

/// Returns the type of the key.
fn key_type_cell<'c>(read: &ReadCertificate<'_>) -> Option<Cell<'c>>
    ensures { value_of result ≡ key_type_value (view_read read.now).key }
{
    Some(name_cell(key_type(read.key()?)))
}

/// Returns the length of the key, in bits.
fn length_of(read: &ReadCertificate<'_>) -> Option<u32>
    ensures { result ≡ key_length_in (view_read read.now).key }
{
    key_length(read.key()?)
}

/// Returns [`length_of`] as a value.
fn key_length_cell<'c>(read: &ReadCertificate<'_>) -> Option<Cell<'c>>
    ensures { value_of result ≡ option_map count_data (key_length_in (view_read read.now).key) }
{
    Some(Cell::Number(u64::from(length_of(read)?)))
}

/// Returns the public exponent of an RSA key.
fn exponent_of<'a>(read: &ReadCertificate<'a>) -> Option<&'a [u8]>
    ensures { option_map (λ e. e.now) result ≡ exponent_in (view_read read.now).key }
{
    key_exponent(read.key()?)
}

/// Returns the public exponent of an RSA key as text.
fn exponent_cell<'c>(
    alloc: Global,
    read: &ReadCertificate<'_>,
) -> Result<Option<Cell<'c>>, AllocError>
    ensures { IfOk result (λ cell. value_of cell ≡ option_map (λ e. text_data (natural_text_of e))
        (exponent_in (view_read read.now).key)) }
{
    match exponent_of(read) {
        Some(exponent) => Ok(owned_text(natural_text(alloc, exponent)?)),
        None => Ok(None),
    }
}

/// Returns the curve of the key.
fn curve_of<'a>(read: &ReadCertificate<'a>) -> Option<ObjectIdentifier<'a>>
    ensures { option_map (λ o. o.content.now) result ≡ curve_in (view_read read.now).key }
{
    key_curve(read.key()?)
}

/// Returns the curve of the key as text.
fn curve_cell<'c>(alloc: Global, read: &ReadCertificate<'_>) -> Result<Option<Cell<'c>>, AllocError>
    ensures { IfOk result (λ cell. value_of cell ≡ option_map (λ c. text_data (object_text_of c))
        (curve_in (view_read read.now).key)) }
{
    match curve_of(read) {
        Some(curve) => Ok(owned_text(object_text(alloc, curve)?)),
        None => Ok(None),
    }
}

/// Returns whether the key is weak.
fn has_weak_key(read: &ReadCertificate<'_>) -> bool
    ensures { result ≡ is_weak_of (view_read read.now).key }
{
    match read.key() {
        Some(info) => is_weak_key(info).unwrap_or(false),
        None => false,
    }
}

/// Returns the algorithm of the signature.
fn signature_cell<'c>(
    alloc: Global,
    read: &ReadCertificate<'_>,
) -> Result<Option<Cell<'c>>, AllocError>
    ensures { IfOk result
        (λ cell. value_of cell ≡ algorithm_value (view_read read.now).signature_algorithm) }
{
    match read.signature_algorithm() {
        Some(algorithm) => Ok(owned_text(object_text(alloc, algorithm.algorithm)?)),
        None => Ok(None),
    }
}

/// Returns whether the signature is weak.
fn has_weak_signature(read: &ReadCertificate<'_>) -> bool
    ensures { result ≡ has_weak_signature_of (view_read read.now).signature_algorithm }
{
    match read.signature_algorithm() {
        Some(algorithm) => is_weak_signature(algorithm).unwrap_or(false),
        None => false,
    }
}

/// Returns the algorithm in the signed part, if it isn't the signature's.
fn differing_cell<'c>(
    alloc: Global,
    certificate: &Certificate<'_>,
) -> Result<Option<Cell<'c>>, AllocError>
    ensures { IfOk result (λ cell. value_of cell
        ≡ differing (view_algorithm certificate.now.tbs_certificate.signature)
        (view_algorithm certificate.now.signature_algorithm)) }
{
    if signature_algorithms_agree(certificate) {
        return Ok(None);
    }
    let inner = certificate.tbs_certificate.signature.algorithm;
    Ok(owned_text(object_text(alloc, inner)?))
}

/// Returns the algorithm in the signed part, if it isn't the signature's and both can be read.
fn inner_signature_cell<'c>(
    alloc: Global,
    read: &ReadCertificate<'_>,
) -> Result<Option<Cell<'c>>, AllocError>
    ensures { IfOk result (λ cell. value_of cell
        ≡ inner_algorithm_value (view_read read.now).inner_signature
        (view_read read.now).signature_algorithm) }
{
    match read.unread.inner_signature {
        Some(_) => Ok(None),
        None => match read.unread.signature_algorithm {
            Some(_) => Ok(None),
            None => differing_cell(alloc, &read.certificate),
        },
    }
}

/// Returns the value of a field of a certificate; `None` if it is missing, or can't be read.
pub fn certificate_cell<'c>(
    alloc: Global,
    read: &ReadCertificate<'_>,
    field: &CertificateField,
) -> Result<Option<Cell<'c>>, AllocError>
    ensures value { IfOk result (λ cell. IfSome (certificate_value field.now (view_read read.now))
        (λ value. value_of cell ≡ value)) }
    ensures noted { IfOk result (λ cell. NotesLast field.now
        (noted read.now.certificate.tbs_certificate.extensions.bytes.now) (value_of cell)) }
{
    match field {
        CertificateField::Version => Ok(version_cell(read)),
        CertificateField::Serial => serial_cell(alloc, read),
        CertificateField::Subject => subject_cell(alloc, read),
        CertificateField::Issuer => issuer_cell(alloc, read),
        CertificateField::NotBefore => time_cell(alloc, read.not_before()),
        CertificateField::NotAfter => time_cell(alloc, read.not_after()),
        CertificateField::ValidFrom => Ok(start_cell(read)),
        CertificateField::ValidUntil => Ok(end_cell(read)),
        CertificateField::ValidityDays => Ok(days_cell(read)),
        CertificateField::KeyAlgorithm => key_algorithm_cell(alloc, read),
        CertificateField::KeyType => Ok(key_type_cell(read)),
        CertificateField::KeyLength => Ok(key_length_cell(read)),
        CertificateField::Exponent => exponent_cell(alloc, read),
        CertificateField::Curve => curve_cell(alloc, read),
        CertificateField::WeakKey => Ok(some_mark(has_weak_key(read))),
        CertificateField::SignatureAlgorithm => signature_cell(alloc, read),
        CertificateField::InnerSignatureAlgorithm => inner_signature_cell(alloc, read),
        CertificateField::WeakSignature => Ok(some_mark(has_weak_signature(read))),
        CertificateField::DnsNames => names_cell(alloc, read, DNS_NAME),
        CertificateField::Uris => names_cell(alloc, read, URI),
        CertificateField::Emails => names_cell(alloc, read, MAIL),
        CertificateField::Addresses => names_cell(alloc, read, ADDRESS),
        CertificateField::OtherNames => names_cell(alloc, read, OTHER),
        CertificateField::UserNames => decoded_names_cell(alloc, read, false),
        CertificateField::DirectoryNames => decoded_names_cell(alloc, read, true),
        CertificateField::IsCa => Ok(is_ca_cell(read)),
        CertificateField::MayBeCa => Ok(may_be_ca_cell(read)),
        CertificateField::PathLength => Ok(path_length_cell(read)),
        CertificateField::SelfIssued => Ok(self_issued_cell(read)),
        CertificateField::KeyUsage => key_usage(alloc, read),
        CertificateField::Purposes => purposes(alloc, read),
        CertificateField::Timestamps => timestamp_count_cell(alloc, read),
        CertificateField::TimestampLogs => timestamp_logs_cell(alloc, read),
        CertificateField::TimestampTimes => timestamp_times_cell(alloc, read),
        CertificateField::OcspResponders => access_cell(alloc, read, oid::OCSP),
        CertificateField::CaIssuers => access_cell(alloc, read, oid::CA_ISSUERS),
        CertificateField::Policies => policies_cell(alloc, read),
        CertificateField::UnreadFields => unread_fields(alloc, read),
    }
}
