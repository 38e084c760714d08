//! A certificate's version, and whether it is self-issued.
ghost use Rattle.std.specs.Prelude.{◌≡◌, ◌+◌, map};
ghost use Rattle.std.specs.Str.{bytes_eq};
ghost use Rattle.std.specs.Option.{option_map};
ghost use Rattle.der.specs.Element.{view_element};
ghost use Rattle.x509.specs.Certificate.{view_algorithm};
ghost use Rattle.x509_text.specs.Chain.{chain_in_order, names_of};
ghost use Rattle.x509_text.specs.Algorithm.{same_algorithm as same_algorithm_of, same_parameters as same_parameters_of};

use der::Element;
use x509::{AlgorithmIdentifier, Certificate, Name};

/// The version of a certificate: 1, 2 or 3 for those that RFC 5280, section 4.1.2.1, defines.
pub fn version_number(certificate: &Certificate) -> u16
    ensures { result ≡ certificate.now.tbs_certificate.version + 1 }
{
    u16::from(certificate.tbs_certificate.version) + 1
}

/// Whether subject and issuer of a certificate have the same bytes (RFC 5280, section 6.1).
///
/// Equal names in different encodings don't count. Whether the subject's key signed the certificate
/// isn't checked.
pub fn is_self_issued(certificate: &Certificate) -> bool
    ensures { result ≡ bytes_eq certificate.now.tbs_certificate.subject.bytes.now
        certificate.now.tbs_certificate.issuer.bytes.now }
{
    let tbs = certificate.tbs_certificate;
    tbs.subject.bytes() == tbs.issuer.bytes()
}

/// Whether two names have the same bytes (RFC 5280, section 6.1.3, by its first rule).
fn same_name(a: Name, b: Name) -> bool
    ensures { result ≡ bytes_eq a.entry.bytes.now b.entry.bytes.now }
{
    a.bytes() == b.bytes()
}

/// Whether each certificate of a chain names the next one's subject as its issuer, byte for byte
/// (RFC 5246, section 7.4.2: "each following certificate MUST directly certify the one preceding
/// it"). Chains of none and of one are in order. No signature is checked.
pub fn is_chain_in_order(chain: &[Certificate]) -> bool
    ensures { result ≡ chain_in_order (map names_of chain.now) }
{
    let mut rest = chain;
    while let [first, second, ..] = rest {
        if !same_name(first.tbs_certificate.issuer, second.tbs_certificate.subject) {
            return false;
        }
        rest = &rest[1..];
    }
    true
}

/// Whether two parameters of algorithms are the same element, or both missing.
fn same_parameters(a: Option<Element>, b: Option<Element>) -> bool
    ensures { result ≡ same_parameters_of (option_map view_element a.entry)
        (option_map view_element b.entry) }
{
    match (a, b) {
        (Some(x), Some(y)) => x.tag == y.tag && x.content == y.content,
        (None, None) => true,
        _ => false,
    }
}

/// Whether two algorithms are the same, with the same parameters.
fn same_algorithm(a: AlgorithmIdentifier, b: AlgorithmIdentifier) -> bool
    ensures { result ≡ same_algorithm_of (view_algorithm a.entry) (view_algorithm b.entry) }
{
    a.algorithm.content == b.algorithm.content && same_parameters(a.parameters, b.parameters)
}

/// Whether the algorithm of a certificate's signature is also the one that the signed part names,
/// as it must be (RFC 5280, section 4.1.1.2).
pub fn signature_algorithms_agree(certificate: &Certificate) -> bool
    ensures { result ≡ same_algorithm_of
        (view_algorithm certificate.now.tbs_certificate.signature)
        (view_algorithm certificate.now.signature_algorithm) }
{
    same_algorithm(
        certificate.tbs_certificate.signature,
        certificate.signature_algorithm,
    )
}
