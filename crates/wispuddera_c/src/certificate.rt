//! X.509 certificates: the places of their fields, their extensions, and the names of their
//! subjects.
ghost use Rattle.std.specs.Prelude.{◌≡◌};
ghost use Rattle.layouts.specs.Meaning.{EndsWith};
ghost use Rattle.layouts.specs.Reading.{reading};
ghost use Rattle.x509.specs.Certificate.{certificate as certificate_layout, extension, view_certificate};
ghost use Rattle.x509.specs.GeneralName.{general_name, general_names, view_general_name};
ghost use Rattle.x509_places.specs.Certificate.{CertificateStands};
ghost use Rattle.wispuddera_c.specs.Certificate.{ShowsName, ShowsX509, ShowsX509Extension, ShowsKey, name_tag};
ghost use Rattle.wispuddera_c.specs.Place.{ItemsStandAt};
ghost use Rattle.wispuddera_c.specs.Status.{IsAnswered, IsAnsweredAt};

use crate::found::Found;
use crate::part::Part;
use crate::place::{Place, bytes_from, held_in_c, in_c, offset_of};
use crate::status::{OUTSIDE, READ, Refusal};
use layouts::{Err, Error};
use x509::{Certificate, GeneralName, PublicKey};
use x509_places::{
    CertificatePlaces, certificate_with_places, extension_with_places, general_name_with_place,
    general_names_with_place,
};

/// A certificate (RFC 5280, section 4.1): its numbers, the places of its fields, and the offset of
/// what follows it.
#[repr(C)]
#[derive(Clone, Copy)]
pub struct X509 {
    /// How many bytes are missing, if the status is `INCOMPLETE`; else 0.
    pub missing: usize,
    /// The bytes that are signed.
    pub signed_bytes: Place,
    /// The serial number: an INTEGER's bytes.
    pub serial_number: Place,
    /// The algorithm of the signature: an object identifier's content.
    pub signature_algorithm: Place,
    /// The issuer's name, with its tag and its length.
    pub issuer: Place,
    /// The subject's name, with its tag and its length.
    pub subject: Place,
    /// The algorithm of the key: an object identifier's content.
    pub key_algorithm: Place,
    /// The content of the key algorithm's parameters; for an elliptic curve key, the curve's object
    /// identifier. Empty if there are none.
    pub key_parameters: Place,
    /// The key.
    pub public_key: Place,
    /// The extensions, without the tag and the length of their list; empty if there are none.
    pub extensions: Place,
    /// The signature.
    pub signature: Place,
    /// The first second of its validity, since 1970-01-01 00:00:00 UTC.
    pub not_before: i64,
    /// The last second of its validity, since 1970-01-01 00:00:00 UTC.
    pub not_after: i64,
    /// The offset of what follows.
    pub next: usize,
    /// The bit length of an RSA key's modulus; else 0.
    pub key_bits: u32,
    /// The kind of the key; 0 if the key is refused.
    pub key_kind: u8,
    /// The version minus 1.
    pub version: u8,
}

/// The kind of a parsed key, and the bit length of an RSA key's modulus.
#[inline(always)]
fn key_numbers(found: Result<PublicKey, Err<Error<&[u8]>>>) -> (u8, u32)
    ensures { ShowsKey found.entry result.0 result.1 }
{
    match found {
        Ok(PublicKey::Rsa(bits)) => (1, bits),
        Ok(PublicKey::Ec(_)) => (2, 0),
        Ok(PublicKey::Ed25519) => (3, 0),
        Ok(PublicKey::Ed448) => (4, 0),
        Ok(PublicKey::Other(_)) => (5, 0),
        Err(_) => (0, 0),
    }
}

/// The struct of a certificate parsed from `bytes`, with its places and the offset of `rest`.
#[inline(always)]
fn in_numbers(
    bytes: &[u8],
    certificate: &Certificate,
    places: &CertificatePlaces,
    rest: &[u8],
) -> X509
    ensures shows { CertificateStands bytes.now certificate.now places.now
        → EndsWith bytes.now rest.now
        → ShowsX509 bytes.now result (view_certificate certificate.now) rest.now }
    ensures missing { result.missing ≡ 0 }
{
    let tbs = &certificate.tbs_certificate;
    let within = &places.tbs_certificate;
    let key = key_numbers(tbs.subject_public_key_info.public_key());
    let signed_bytes = in_c(places.signed_bytes);
    let serial_number = in_c(within.serial_number);
    let signature_algorithm = in_c(places.signature_algorithm.algorithm);
    let issuer = in_c(within.issuer);
    let subject = in_c(within.subject);
    let key_algorithm = in_c(within.key.algorithm.algorithm);
    let key_parameters = held_in_c(within.key.algorithm.parameters);
    let public_key = in_c(within.key.key);
    let extensions = in_c(within.extensions);
    let signature = in_c(places.signature_value);
    let next = offset_of(bytes, rest);
    X509 {
        missing: 0,
        signed_bytes,
        serial_number,
        signature_algorithm,
        issuer,
        subject,
        key_algorithm,
        key_parameters,
        public_key,
        extensions,
        signature,
        not_before: tbs.validity.not_before,
        not_after: tbs.validity.not_after,
        next,
        key_bits: key.1,
        key_kind: key.0,
        version: tbs.version,
    }
}

/// Parses the certificate at the front.
#[tactic(auto, using(layouts::proofs::OneAnswerLemmas::read_allowed, layouts::proofs::PlaceLemmas::ends_here, layouts::proofs::PlaceLemmas::ends_read))]
#[unsafe(no_mangle)]
pub extern "C" fn wispuddera_read_x509(bytes: &[u8], out: &mut X509) -> u32
    ensures { IsAnswered (ShowsX509 bytes.now out.new) (reading certificate_layout bytes.now) result
        out.new.missing }
{
    match certificate_with_places(bytes) {
        Ok((rest, (certificate, places))) => {
            *out = in_numbers(bytes, &certificate, &places, rest);
            READ
        }
        Err(e) => {
            let refusal = Refusal::of(e);
            out.missing = refusal.missing;
            refusal.status
        }
    }
}

/// An extension of a certificate (RFC 5280, section 4.2): its type, its value, and the offset of
/// what follows it.
#[repr(C)]
#[derive(Clone, Copy)]
pub struct X509Extension {
    /// How many bytes are missing, if the status is `INCOMPLETE`; else 0.
    pub missing: usize,
    /// Its type: an object identifier's content.
    pub oid: Place,
    /// Its value, in DER.
    pub value: Place,
    /// The offset of what follows.
    pub next: usize,
    /// Whether a receiver that doesn't know it must reject the certificate.
    pub critical: bool,
}

/// Parses the extension at this offset of a certificate's extensions.
#[tactic(auto, using(layouts::proofs::OneAnswerLemmas::read_allowed, crate::proofs::StatusLemmas::refused, crate::proofs::StatusLemmas::behind))]
#[unsafe(no_mangle)]
pub extern "C" fn wispuddera_read_x509_extension(
    bytes: &[u8],
    offset: usize,
    out: &mut X509Extension,
) -> u32
    ensures { IsAnsweredAt extension (ShowsX509Extension bytes.now out.new) bytes.now offset result
        out.new.missing }
{
    let Some(i) = bytes_from(bytes, offset) else {
        out.missing = 0;
        return OUTSIDE;
    };
    match extension_with_places(bytes, i) {
        Ok((rest, (extension, places))) => {
            let oid = in_c(places.extn_id);
            let value = in_c(places.extn_value);
            *out = X509Extension {
                missing: 0,
                oid,
                value,
                next: offset_of(bytes, rest),
                critical: extension.critical,
            };
            READ
        }
        Err(e) => {
            let refusal = Refusal::of(e);
            out.missing = refusal.missing;
            refusal.status
        }
    }
}

/// The tag of a name's element.
#[inline(always)]
fn tag_of(name: &GeneralName) -> u8
    ensures { result ≡ name_tag (view_general_name name.now) }
{
    match name {
        GeneralName::Rfc822Name(_) => 0x81,
        GeneralName::DnsName(_) => 0x82,
        GeneralName::UniformResourceIdentifier(_) => 0x86,
        GeneralName::IpAddress(_) => 0x87,
        GeneralName::Other(e) => e.tag,
    }
}

/// Finds the list of names at the front, in the value of a subjectAltName or an issuerAltName (RFC
/// 5280, section 4.2.1.6).
#[tactic(auto, using(layouts::proofs::OneAnswerLemmas::read_allowed))]
#[unsafe(no_mangle)]
pub extern "C" fn wispuddera_find_x509_names(bytes: &[u8], out: &mut Found) -> u32
    ensures { IsAnswered (λ v _. ItemsStandAt general_name bytes.now out.new.place v)
        (reading general_names bytes.now) result out.new.missing }
{
    match general_names_with_place(bytes) {
        Ok((_, (_, place))) => {
            *out = Found {
                missing: 0,
                place: in_c(place),
            };
            READ
        }
        Err(e) => {
            let refusal = Refusal::of(e);
            out.missing = refusal.missing;
            refusal.status
        }
    }
}

/// Parses the name at this offset of a list of names. Its kind is the tag of its element.
#[tactic(auto, using(layouts::proofs::OneAnswerLemmas::read_allowed, crate::proofs::StatusLemmas::refused, crate::proofs::StatusLemmas::behind))]
#[unsafe(no_mangle)]
pub extern "C" fn wispuddera_read_x509_name(bytes: &[u8], offset: usize, out: &mut Part) -> u32
    ensures { IsAnsweredAt general_name (ShowsName bytes.now out.new) bytes.now offset result
        out.new.missing }
{
    let Some(i) = bytes_from(bytes, offset) else {
        out.missing = 0;
        return OUTSIDE;
    };
    match general_name_with_place(bytes, i) {
        Ok((rest, (name, place))) => {
            let content = in_c(place);
            let tag = tag_of(&name);
            *out = Part {
                missing: 0,
                content,
                next: offset_of(bytes, rest),
                kind: u16::from(tag),
            };
            READ
        }
        Err(e) => {
            let refusal = Refusal::of(e);
            out.missing = refusal.missing;
            refusal.status
        }
    }
}
