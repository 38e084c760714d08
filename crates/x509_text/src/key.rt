//! The type and the length of a public key.
#![tactic(auto, using(layouts::proofs::OneAnswerLemmas::read_allowed))]

ghost use Rattle.std.specs.Prelude.{◌≡◌, map};
ghost use Rattle.std.specs.Option.{option_map};
ghost use Rattle.x509.specs.Certificate.{view_key_info};
ghost use Rattle.x509.specs.PublicKey.{key_of};
ghost use Rattle.x509.specs.KeyParameters.{parameter_bits};
ghost use Rattle.x509_text.specs.CurveSizes.{curve_sizes};
ghost use Rattle.x509_text.specs.Key.{is_weak_by, key_curve_of, key_length_by, key_length_of, key_type_of, size_in};
ghost use Rattle.x509_text.specs.Object.{view_size};

use crate::parameters::described_curve;
use crate::tables::{CURVE_SIZES, CurveSize};
use der::ObjectIdentifier;
use x509::{PublicKey, SubjectPublicKeyInfo, oid};

/// The content of the object identifier of DSA keys: 1.2.840.10040.4.1 (RFC 3279, section 2.3.2).
const DSA: &[u8] = b"\x2a\x86\x48\xce\x38\x04\x01";

/// The type of a key, by its algorithm: `rsa` (for any padding, or PSS only), `dsa`, `ecdsa`,
/// `ed25519`, `ed448`, or `unknown`.
pub fn key_type(info: SubjectPublicKeyInfo) -> &'static str
    ensures { result.now ≡ key_type_of info.entry.algorithm.algorithm.content.now }
{
    let algorithm = info.algorithm.algorithm.content;
    if algorithm == oid::RSA_ENCRYPTION.content || algorithm == oid::RSASSA_PSS.content {
        "rsa"
    } else if algorithm == DSA {
        "dsa"
    } else if algorithm == oid::EC_PUBLIC_KEY.content {
        "ecdsa"
    } else if algorithm == oid::ED25519.content {
        "ed25519"
    } else if algorithm == oid::ED448.content {
        "ed448"
    } else {
        "unknown"
    }
}

/// The size in the first row of a table that has this content.
fn find_size(table: &'static [CurveSize], content: &[u8]) -> Option<u32>
    ensures { result ≡ size_in (map view_size table.now) content.now }
{
    for curve in table {
        if curve.content == content {
            return Some(curve.bits);
        }
    }
    None
}

/// The size of a curve, in bits.
#[tactic(auto, unfolding(crate::specs::CurveSizes::curve_sizes))]
fn curve_size(content: &[u8]) -> Option<u32>
    ensures { result ≡ size_in curve_sizes content.now }
{
    find_size(CURVE_SIZES, content)
}

/// The length of a key that its parameters don't give: of an RSA key, or of a named curve.
fn named_length(info: SubjectPublicKeyInfo) -> Option<u32>
    ensures { result ≡ key_length_of (key_of (view_key_info info.entry)) }
{
    match info.public_key() {
        Ok(PublicKey::Rsa(bits)) => Some(bits),
        Ok(PublicKey::Ec(curve)) => curve_size(curve.content),
        _ => None,
    }
}

/// The length of a key in bits: of the modulus of an RSA key, of the prime p of a DSA key, or of
/// the order of the base point of an elliptic curve, be it named or given by its parameters.
///
/// `None` for other keys, and if [`SubjectPublicKeyInfo::public_key`] refuses the key, its
/// parameters can't be read, or the curve isn't in the table.
pub fn key_length(info: SubjectPublicKeyInfo) -> Option<u32>
    ensures { result ≡ key_length_by (view_key_info info.entry) }
{
    match info.parameter_bits() {
        Some(bits) => Some(bits),
        None => named_length(info),
    }
}

/// Whether a key has less than 112 bits of security (NIST SP 800-57, part 1, table 2): an RSA or a
/// DSA key of less than 2048 bits, an elliptic curve of less than 224 bits.
///
/// `None` if [`key_length`] knows no length; a key of Ed25519 or Ed448 isn't weak.
pub fn is_weak_key(info: SubjectPublicKeyInfo) -> Option<bool>
    ensures { result ≡ is_weak_by info.entry.algorithm.algorithm.content.now
        (key_length_by (view_key_info info.entry)) }
{
    let algorithm = info.algorithm.algorithm.content;
    match key_length(info) {
        Some(bits) if algorithm == oid::EC_PUBLIC_KEY.content => Some(bits < 224),
        Some(bits) => Some(bits < 2048),
        None if algorithm == oid::ED25519.content => Some(false),
        None if algorithm == oid::ED448.content => Some(false),
        None => None,
    }
}

/// The curve of a key on an elliptic curve, named or with the parameters of secp224r1, secp256k1,
/// P-256, P-384, P-521, brainpoolP256r1, brainpoolP384r1 or brainpoolP512r1 (RFC 3279, section
/// 2.3.5). [`object_name`](crate::object_name) and [`object_text`](crate::object_text) return its
/// name.
///
/// `None` for other keys and other parameters.
pub fn key_curve<'a>(info: SubjectPublicKeyInfo<'a>) -> Option<ObjectIdentifier<'a>>
    ensures { option_map (λ o. o.content.now) result ≡ key_curve_of (view_key_info info.entry) }
{
    match info.public_key() {
        Ok(PublicKey::Ec(curve)) => Some(curve),
        _ => described_curve(info.algorithm),
    }
}
