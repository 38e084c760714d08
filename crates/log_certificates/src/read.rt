//! Certificates whose fields can't all be read (RFC 5280, section 4.1): those that can stay.
ghost use Rattle.std.specs.Prelude.{◌≡◌};
ghost use Rattle.std.specs.Option.{option_map};
ghost use Rattle.layouts.specs.Items.{items_in};
ghost use Rattle.layouts.specs.Reading.{reading};
ghost use Rattle.x509.specs.Certificate.{algorithm_identifier, extension, subject_public_key_info as key_layout};
ghost use Rattle.x509.specs.Certificate.{time as time_layout, view_algorithm, view_key_info};
ghost use Rattle.x509.specs.Name.{name as name_layout, relative_distinguished_name};
ghost use Rattle.x509.specs.Outline.{certificate_outline, extensions_in, serial_number_in};
ghost use Rattle.x509.specs.Outline.{validity_elements, version_of as version_in, view_outline};
ghost use Rattle.log_certificates.specs.Read.{all_read, fields_of, if_read, outlined, read_if};
ghost use Rattle.log_certificates.specs.Read.{readable, readable_in, time_in, view_read};
ghost use Rattle.log_certificates.specs.Values.{names_host_in};

use der::{BitString, ObjectIdentifier};
use layouts::{Err, Error, ErrorKind, Items};
use x509::{
    AlgorithmIdentifier, Certificate, Extensions, Name, Outline, SubjectPublicKeyInfo,
    TBSCertificate, Validity, parse_algorithm_identifier, parse_certificate, parse_name,
    parse_outline, parse_time,
};
use x509_text::matches_host;

/// Why fields of a certificate can't be read; `None` for each that can.
#[derive(Clone, Copy)]
pub(crate) struct Unread {
    pub(crate) version: Option<ErrorKind>,
    pub(crate) serial_number: Option<ErrorKind>,
    pub(crate) inner_signature: Option<ErrorKind>,
    pub(crate) issuer: Option<ErrorKind>,
    pub(crate) not_before: Option<ErrorKind>,
    pub(crate) not_after: Option<ErrorKind>,
    pub(crate) subject: Option<ErrorKind>,
    pub(crate) key: Option<ErrorKind>,
    pub(crate) extensions: Option<ErrorKind>,
    pub(crate) signature_algorithm: Option<ErrorKind>,
}

impl Unread {
    /// Returns that all fields can be read.
    fn none() -> Unread
        ensures { result ≡ all_read }
    {
        Unread {
            version: None,
            serial_number: None,
            inner_signature: None,
            issuer: None,
            not_before: None,
            not_after: None,
            subject: None,
            key: None,
            extensions: None,
            signature_algorithm: None,
        }
    }
}

/// A certificate with the fields that can be read.
#[derive(Clone, Copy)]
pub struct ReadCertificate<'a> {
    /// The fields. One that can't be read is empty, or 0.
    pub(crate) certificate: Certificate<'a>,
    /// The fields that can't be read.
    pub(crate) unread: Unread,
}

impl<'a> ReadCertificate<'a> {
    /// Returns the version minus 1.
    pub(crate) fn version(&self) -> Option<u8>
        ensures { result ≡ (view_read self.now).version }
    {
        match self.unread.version {
            Some(_) => None,
            None => Some(self.certificate.tbs_certificate.version),
        }
    }

    /// Returns the serial number: an INTEGER's bytes.
    pub fn serial_number(&self) -> Option<&'a [u8]>
        ensures { option_map (λ n. n.now) result ≡ (view_read self.now).serial_number }
    {
        match self.unread.serial_number {
            Some(_) => None,
            None => Some(self.certificate.tbs_certificate.serial_number),
        }
    }

    /// Returns the signer.
    pub(crate) fn issuer(&self) -> Option<Name<'a>>
        ensures { option_map (λ n. items_in relative_distinguished_name n.bytes.now) result
            ≡ (view_read self.now).issuer }
    {
        match self.unread.issuer {
            Some(_) => None,
            None => Some(self.certificate.tbs_certificate.issuer),
        }
    }

    /// Returns the owner of the key.
    pub(crate) fn subject(&self) -> Option<Name<'a>>
        ensures { option_map (λ n. items_in relative_distinguished_name n.bytes.now) result
            ≡ (view_read self.now).subject }
    {
        match self.unread.subject {
            Some(_) => None,
            None => Some(self.certificate.tbs_certificate.subject),
        }
    }

    /// Returns the key.
    pub(crate) fn key(&self) -> Option<SubjectPublicKeyInfo<'a>>
        ensures { option_map view_key_info result ≡ (view_read self.now).key }
    {
        match self.unread.key {
            Some(_) => None,
            None => Some(self.certificate.tbs_certificate.subject_public_key_info),
        }
    }

    /// Returns the extensions.
    pub(crate) fn extensions(&self) -> Option<Items<'a, Extensions>>
        ensures { option_map (λ v. items_in extension v.bytes.now) result
            ≡ (view_read self.now).extensions }
    {
        match self.unread.extensions {
            Some(_) => None,
            None => Some(self.certificate.tbs_certificate.extensions),
        }
    }

    /// Returns the algorithm of the signature.
    pub(crate) fn signature_algorithm(&self) -> Option<AlgorithmIdentifier<'a>>
        ensures { option_map view_algorithm result ≡ (view_read self.now).signature_algorithm }
    {
        match self.unread.signature_algorithm {
            Some(_) => None,
            None => Some(self.certificate.signature_algorithm),
        }
    }

    /// Returns whether a host is a name in it; `None` if its extensions can't be read.
    pub fn matches(&self, host: &[u8]) -> Option<bool>
        ensures { result ≡ names_host_in host.now (view_read self.now) }
    {
        match self.unread.extensions {
            Some(_) => None,
            None => Some(matches_host(&self.certificate, host)),
        }
    }

    /// Returns its last second, in seconds since 1970-01-01 00:00 UTC.
    pub(crate) fn not_after(&self) -> Option<i64>
        ensures { result ≡ (view_read self.now).not_after }
    {
        match self.unread.not_after {
            Some(_) => None,
            None => Some(self.certificate.tbs_certificate.validity.not_after),
        }
    }

    /// Returns its first second, in seconds since 1970-01-01 00:00 UTC.
    pub(crate) fn not_before(&self) -> Option<i64>
        ensures { result ≡ (view_read self.now).not_before }
    {
        match self.unread.not_before {
            Some(_) => None,
            None => Some(self.certificate.tbs_certificate.validity.not_before),
        }
    }
}

/// Returns the kind of a refusal.
pub(crate) fn kind_of(refusal: Err<Error<&[u8]>>) -> ErrorKind {
    match refusal {
        Err::Error(error) | Err::Failure(error) => error.code,
        Err::Incomplete(_) | Err::OutOfMemory => ErrorKind::Complete,
    }
}

/// An algorithm that isn't read.
const NO_ALGORITHM: AlgorithmIdentifier<'static> = AlgorithmIdentifier {
    algorithm: ObjectIdentifier { content: &[] },
    parameters: None,
};

/// Bits that aren't read.
const NO_BITS: BitString<'static> = BitString {
    unused: 0,
    bytes: &[],
};

/// Returns the version minus 1; 0 with the reason if it can't be read.
fn version_of(outline: Outline<'_>) -> (u8, Option<ErrorKind>)
    ensures { if_read result.1 result.0
        ≡ readable (version_in (view_outline outline.entry).version) }
{
    match outline.version() {
        Ok(version) => (version, None),
        Err(refusal) => (0, Some(kind_of(refusal))),
    }
}

/// Returns the serial number; no bytes with the reason if it can't be read.
fn serial_number_of<'a>(outline: Outline<'a>) -> (&'a [u8], Option<ErrorKind>)
    ensures { if_read result.1 result.0.now
        ≡ readable (serial_number_in outline.entry.serial_number.now) }
{
    match outline.serial_number() {
        Ok(number) => (number, None),
        Err(refusal) => (&[], Some(kind_of(refusal))),
    }
}

/// Returns the algorithm in an element; [`NO_ALGORITHM`] with the reason if it can't be read.
fn algorithm_of<'a>(element: &'a [u8]) -> (AlgorithmIdentifier<'a>, Option<ErrorKind>)
    ensures { if_read result.1 (view_algorithm result.0)
        ≡ readable_in algorithm_identifier element.now }
{
    match parse_algorithm_identifier(element) {
        Ok((_, algorithm)) => (algorithm, None),
        Err(refusal) => (NO_ALGORITHM, Some(kind_of(refusal))),
    }
}

/// Returns the name in an element; an empty one with the reason if it can't be read.
fn name_of<'a>(element: &'a [u8]) -> (Name<'a>, Option<ErrorKind>)
    ensures { if_read result.1 (items_in relative_distinguished_name result.0.bytes.now)
        ≡ readable_in name_layout element.now }
{
    match parse_name(element) {
        Ok((_, name)) => (name, None),
        Err(refusal) => (Items::new(&[]), Some(kind_of(refusal))),
    }
}

/// Returns the time in an element; 0 with the reason if it can't be read.
fn time_of(element: &[u8]) -> (i64, Option<ErrorKind>)
    ensures { if_read result.1 result.0 ≡ readable_in time_layout element.now }
{
    match parse_time(element) {
        Ok((_, time)) => (time, None),
        Err(refusal) => (0, Some(kind_of(refusal))),
    }
}

/// The times between which a certificate is valid, and why they can't be read.
#[derive(Clone, Copy)]
struct Times {
    validity: Validity,
    not_before: Option<ErrorKind>,
    not_after: Option<ErrorKind>,
}

/// Returns the times between which a certificate is valid; 0 with the reason for one that can't be
/// read.
fn times_of(outline: Outline<'_>) -> Times
    ensures not_before { if_read result.not_before result.validity.not_before
        ≡ time_in (option_map (λ v. v.not_before)
        (readable_in validity_elements outline.entry.validity.now)) }
    ensures not_after { if_read result.not_after result.validity.not_after
        ≡ time_in (option_map (λ v. v.not_after)
        (readable_in validity_elements outline.entry.validity.now)) }
{
    match outline.validity() {
        Ok(elements) => {
            let (start, start_fault) = time_of(elements.not_before);
            let (end, end_fault) = time_of(elements.not_after);
            Times {
                validity: Validity {
                    not_before: start,
                    not_after: end,
                },
                not_before: start_fault,
                not_after: end_fault,
            }
        }
        Err(refusal) => {
            let why = Some(kind_of(refusal));
            Times {
                validity: Validity {
                    not_before: 0,
                    not_after: 0,
                },
                not_before: why,
                not_after: why,
            }
        }
    }
}

/// Returns the key; an empty one with the reason if it can't be read.
fn key_of<'a>(outline: Outline<'a>) -> (SubjectPublicKeyInfo<'a>, Option<ErrorKind>)
    ensures { if_read result.1 (view_key_info result.0)
        ≡ readable_in key_layout outline.entry.subject_public_key_info.now }
{
    match outline.subject_public_key_info() {
        Ok(key) => (key, None),
        Err(refusal) => {
            let none = SubjectPublicKeyInfo {
                algorithm: NO_ALGORITHM,
                subject_public_key: NO_BITS,
            };
            (none, Some(kind_of(refusal)))
        }
    }
}

/// Returns the extensions; none with the reason if they can't be read.
fn extensions_of<'a>(outline: Outline<'a>) -> (Items<'a, Extensions>, Option<ErrorKind>)
    ensures { if_read result.1 (items_in extension result.0.bytes.now)
        ≡ readable (extensions_in outline.entry.others.now) }
{
    match outline.extensions() {
        Ok(extensions) => (extensions, None),
        Err(refusal) => (Items::new(&[]), Some(kind_of(refusal))),
    }
}

/// Returns a certificate whose fields are read one by one: a broken one doesn't hide the others.
/// Its unique identifiers aren't read.
fn certificate_by_fields<'a>(outline: Outline<'a>) -> ReadCertificate<'a>
    ensures { view_read result ≡ fields_of (view_outline outline.entry) }
{
    let (version, version_fault) = version_of(outline);
    let (serial_number, number_fault) = serial_number_of(outline);
    let (signature, inner_fault) = algorithm_of(outline.signature);
    let (issuer, issuer_fault) = name_of(outline.issuer);
    let times = times_of(outline);
    let (subject, subject_fault) = name_of(outline.subject);
    let (subject_public_key_info, key_fault) = key_of(outline);
    let (extensions, extensions_fault) = extensions_of(outline);
    let (signature_algorithm, outer_fault) = algorithm_of(outline.signature_algorithm);
    ReadCertificate {
        certificate: Certificate {
            signed_bytes: &[],
            tbs_certificate: TBSCertificate {
                version,
                serial_number,
                signature,
                issuer,
                validity: times.validity,
                subject,
                subject_public_key_info,
                issuer_unique_id: None,
                subject_unique_id: None,
                extensions,
            },
            signature_algorithm,
            signature_value: NO_BITS,
        },
        unread: Unread {
            version: version_fault,
            serial_number: number_fault,
            inner_signature: inner_fault,
            issuer: issuer_fault,
            not_before: times.not_before,
            not_after: times.not_after,
            subject: subject_fault,
            key: key_fault,
            extensions: extensions_fault,
            signature_algorithm: outer_fault,
        },
    }
}

/// Returns the certificate in these bytes by their elements; `None` if they aren't the elements of
/// one.
fn read_by_fields<'a>(bytes: &'a [u8]) -> Option<ReadCertificate<'a>>
    ensures { option_map view_read result ≡ outlined (reading certificate_outline bytes.now) }
{
    match parse_outline(bytes) {
        Ok((_, outline)) => Some(certificate_by_fields(outline)),
        Err(_) => None,
    }
}

/// Returns the certificate in these bytes, with the fields that can be read.
pub fn certificate_of(bytes: Option<&[u8]>) -> Option<ReadCertificate<'_>>
    ensures { option_map view_read result ≡ read_if (option_map (λ b. b.now) bytes.entry) }
{
    let bytes = bytes?;
    match parse_certificate(bytes) {
        Ok((_, certificate)) => Some(ReadCertificate {
            certificate,
            unread: Unread::none(),
        }),
        Err(_) => read_by_fields(bytes),
    }
}
