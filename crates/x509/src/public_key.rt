//! Public keys, by their algorithm (RFC 3279, section 2.3; RFC 4055, section 1.2; RFC 5480, section
//! 2; RFC 8410, section 3).
#![tactic(auto, using(layouts::proofs::OneAnswerLemmas::read_allowed))]

ghost use Rattle.std.specs.Prelude.{◌≡◌, ◌≤◌, ℕ};
ghost use Rattle.std.specs.Option.{option_map};
ghost use Rattle.layouts.specs.Answers.{Gives};
ghost use Rattle.layouts.specs.Items.{Returns};
ghost use Rattle.der.specs.Element.{view_element, whole, tagged as tagged_layout};
ghost use Rattle.x509.specs.Certificate.{view_key_info};
ghost use Rattle.x509.specs.PublicKey.{byte_bits as byte_bits_of, zero_byte, bit_length, positive_bits, rsa_content, rsa_public_key, view_public_key, named_curve as named_curve_of, key_of};

use crate::algorithm::SubjectPublicKeyInfo;
use crate::oid;
use der::{Element, Integer, ObjectIdentifier, tag, tagged};
use layouts::{Err, Error, ErrorKind, IResult, InPlace, Items, number1, parsed, refused, rest};

/// The bit length of a number; 1 for 0.
fn byte_bits(n: u8) -> u32
    ensures is { result ≡ byte_bits_of n }
    ensures fits { result ≤ 8 }
{
    match n {
        0..=1 => 1,
        2..=3 => 2,
        4..=7 => 3,
        8..=15 => 4,
        16..=31 => 5,
        32..=63 => 6,
        64..=127 => 7,
        _ => 8,
    }
}

/// A byte that is 0.
struct ZeroByte;

impl<'a> InPlace<'a> for ZeroByte {
    type Read = ();

    ghost Value = { Unit };

    ghost view = { λ v. v };

    ghost layout = { zero_byte };

    #[tactic(auto, using(layouts::proofs::OneAnswerLemmas::read_allowed), unfolding(crate::specs::PublicKey::zero_byte))]
    fn read(i: &'a [u8]) -> IResult<&'a [u8], ()> {
        let (i, n) = parsed!(number1(i));
        if n != 0 {
            return refused(i, ErrorKind::Tag);
        }
        Ok((i, ()))
    }
}

/// Parses a big-endian number and returns its bit length.
#[tactic(auto, using(layouts::proofs::OneAnswerLemmas::read_allowed), unfolding(crate::specs::PublicKey::bit_length, crate::specs::PublicKey::significant_bits, crate::specs::PublicKey::behind_bits))]
fn bit_length_of(i: &[u8]) -> IResult<&[u8], u32>
    ensures { Gives (λ n. n) bit_length i.now result }
{
    let i = Items::<ZeroByte>::new(i).rest();
    let (i, first) = parsed!(number1(i));
    let n = i.len();
    if n > 65535 {
        return refused(i, ErrorKind::TooLarge);
    }
    let (i, _) = parsed!(rest(i));
    Ok((i, n as u32 * 8 + byte_bits(first)))
}

/// The bit length of an INTEGER above 0.
pub(crate) struct PositiveBits;

impl<'a> InPlace<'a> for PositiveBits {
    type Read = u32;

    ghost Value = { ℕ };

    ghost view = { λ n. n };

    ghost layout = { positive_bits };

    #[tactic(auto, using(layouts::proofs::OneAnswerLemmas::read_allowed), unfolding(crate::specs::PublicKey::positive_bits))]
    fn read(i: &'a [u8]) -> IResult<&'a [u8], u32> {
        let (_, _) = parsed!(Integer::read(i));
        let (_, first) = parsed!(number1(i));
        if first >= 128 {
            return refused(i, ErrorKind::Verify);
        }
        bit_length_of(i)
    }
}

/// The content of an RSAPublicKey. Reading it returns the bit length of the modulus.
struct RsaContent;

impl<'a> InPlace<'a> for RsaContent {
    type Read = u32;

    ghost Value = { ℕ };

    ghost view = { λ n. n };

    ghost layout = { rsa_content };

    #[tactic(auto, using(layouts::proofs::OneAnswerLemmas::read_allowed), unfolding(crate::specs::PublicKey::rsa_content))]
    fn read(i: &'a [u8]) -> IResult<&'a [u8], u32> {
        let (i, bits) = parsed!(tagged::<PositiveBits>(i, tag::INTEGER));
        let (i, _) = parsed!(tagged::<Integer>(i, tag::INTEGER));
        Ok((i, bits))
    }
}

/// Parses an RSAPublicKey (RFC 8017, section A.1.1) and returns the bit length of its modulus.
///
/// - What [`der::tagged`] and [`Integer`] refuse.
/// - `Error` of kind `Verify` if the modulus is negative, and `Complete` if it is 0.
/// - `Error` of kind `TooLarge` if the modulus has more than 65,536 bytes.
#[tactic(auto, using(layouts::proofs::OneAnswerLemmas::read_allowed), unfolding(crate::specs::PublicKey::rsa_public_key))]
pub fn parse_rsa_public_key(i: &[u8]) -> IResult<&[u8], u32>
    ensures { Gives (λ v. v) rsa_public_key i.now result }
{
    tagged::<RsaContent>(i, tag::SEQUENCE)
}

/// A public key, by its algorithm.
#[derive(Clone, Copy, Debug, PartialEq)]
pub enum PublicKey<'a> {
    /// An RSA key, for any padding or for PSS only: the bit length of its modulus.
    Rsa(u32),
    /// A key on a named curve: the curve.
    Ec(ObjectIdentifier<'a>),
    /// An Ed25519 key.
    Ed25519,
    /// An Ed448 key.
    Ed448,
    /// A key for another algorithm: the algorithm.
    Other(ObjectIdentifier<'a>),
}

/// The curve in an algorithm's parameters.
fn named_curve<'a>(parameters: Option<Element<'a>>) -> Result<PublicKey<'a>, Err<Error<&'a [u8]>>>
    ensures { Returns view_public_key
        (named_curve_of (option_map view_element parameters.entry)) result }
{
    match parameters {
        Some(
            Element {
                tag: tag::OBJECT_IDENTIFIER,
                content,
            },
        ) => {
            let (_, curve) = parsed!(ObjectIdentifier::read(content));
            Ok(PublicKey::Ec(curve))
        }
        _ => Err(Err::Error(Error {
            input: &[],
            code: ErrorKind::Tag,
        })),
    }
}

impl<'a> SubjectPublicKeyInfo<'a> {
    /// Parses the key: the modulus of an RSA key, the curve's name of an elliptic curve key.
    ///
    /// - What [`parse_rsa_public_key`] refuses, for an RSA key.
    /// - `Error` of kind `Tag` if the parameters of an elliptic curve key aren't a name (RFC 5480,
    ///   section 2.1.1, has no others), and what parsing an [`ObjectIdentifier`] refuses.
    pub fn public_key(self) -> Result<PublicKey<'a>, Err<Error<&'a [u8]>>>
        ensures { Returns view_public_key (key_of (view_key_info self.entry)) result }
    {
        let algorithm = self.algorithm.algorithm.content;
        if algorithm == oid::RSA_ENCRYPTION.content || algorithm == oid::RSASSA_PSS.content {
            let (_, bits) = parsed!(parse_rsa_public_key(self.subject_public_key.bytes));
            return Ok(PublicKey::Rsa(bits));
        }
        if algorithm == oid::EC_PUBLIC_KEY.content {
            return named_curve(self.algorithm.parameters);
        }
        if algorithm == oid::ED25519.content {
            return Ok(PublicKey::Ed25519);
        }
        if algorithm == oid::ED448.content {
            return Ok(PublicKey::Ed448);
        }
        Ok(PublicKey::Other(self.algorithm.algorithm))
    }
}
