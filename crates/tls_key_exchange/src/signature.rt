//! Signatures, and their algorithms.
#![tactic(auto, using(layouts::proofs::OneAnswerLemmas::read_allowed), unfolding(crate::specs::Signature::algorithm, crate::specs::Signature::digitally_signed, crate::specs::Signature::digitally_signed_old, crate::specs::Signature::signature))]

ghost use Rattle.std.specs.Prelude.{Some};
ghost use Rattle.layouts.specs.Answers.{Gives};
ghost use Rattle.tls_key_exchange.specs.Signature.{view_algorithm, algorithm, algorithm_text, view_signed, digitally_signed, digitally_signed_old, signature, GivesSignature};

use layouts::{IResult, counted2, parsed};
use std::fmt;
use tls_base::{HashAlgorithm, SignAlgorithm};

/// The pair of algorithms of a TLS 1.2 signature (RFC 5246, section 7.4.1.4.1).
#[derive(Clone, Debug, PartialEq, Drop)]
pub struct SignatureAndHashAlgorithm {
    /// The hash algorithm.
    pub hash: HashAlgorithm,
    /// The signature algorithm.
    pub sign: SignAlgorithm,
}

impl SignatureAndHashAlgorithm {
    /// Reads 1 byte, the hash algorithm, then 1 byte, the signature algorithm.
    ///
    /// `Incomplete(1)` if either is missing.
    pub fn parse(i: &[u8]) -> IResult<&[u8], Self>
        ensures { Gives view_algorithm algorithm i.now result }
    {
        let (i, hash) = parsed!(HashAlgorithm::parse(i));
        let (i, sign) = parsed!(SignAlgorithm::parse(i));
        Ok((i, SignatureAndHashAlgorithm { hash, sign }))
    }
}

impl fmt::Display for SignatureAndHashAlgorithm {
    ghost output = { λ v. Some (algorithm_text v) };

    fn fmt<W: fmt::Write>(&self, f: &mut fmt::Formatter<W>) -> fmt::Result {
        write!(f, "HashSign({},{})", self.hash, self.sign)
    }
}

/// A signature (RFC 5246, section 4.7).
#[derive(Clone, Debug, PartialEq, Drop)]
pub struct DigitallySigned<'a> {
    /// The signature's algorithms; `None` in the form of the versions before TLS 1.2.
    pub alg: Option<SignatureAndHashAlgorithm>,
    /// The signature itself.
    pub bytes: &'a [u8],
}

/// Reads a signature of the versions before TLS 1.2 (RFC 4346, section 4.7): a block after 2 bytes
/// of length, big-endian.
///
/// `Incomplete` with the bytes missing from the length, or else from the block.
pub fn parse_digitally_signed_old(i: &[u8]) -> IResult<&[u8], DigitallySigned>
    ensures { Gives view_signed digitally_signed_old i.now result }
{
    let (i, bytes) = parsed!(counted2(i));
    Ok((i, DigitallySigned { alg: None, bytes }))
}

/// Reads a signature (RFC 5246, section 4.7): 1 byte, the hash algorithm, 1 byte, the signature
/// algorithm, then a block after 2 bytes of length, big-endian.
///
/// `Incomplete` with the bytes missing from the first incomplete part.
pub fn parse_digitally_signed(i: &[u8]) -> IResult<&[u8], DigitallySigned>
    ensures { Gives view_signed digitally_signed i.now result }
{
    let (i, algorithm) = parsed!(SignatureAndHashAlgorithm::parse(i));
    let (i, bytes) = parsed!(counted2(i));
    let signed = DigitallySigned {
        alg: Some(algorithm),
        bytes,
    };
    Ok((i, signed))
}

/// Reads a signature: as [`parse_digitally_signed`] if `ext`, else as
/// [`parse_digitally_signed_old`].
fn either_signature(i: &[u8], ext: bool) -> IResult<&[u8], DigitallySigned>
    ensures { Gives view_signed (signature ext) i.now result }
{
    if ext {
        parse_digitally_signed(i)
    } else {
        parse_digitally_signed_old(i)
    }
}

/// Reads content with `fun`, then a signature from what `fun` leaves: as [`parse_digitally_signed`]
/// if `ext`, else as [`parse_digitally_signed_old`].
///
/// Any error of `fun` is passed on; further refusals are those of the signature.
pub fn parse_content_and_signature<'a, F, T>(
    i: &'a [u8],
    fun: F,
    ext: bool,
) -> IResult<&'a [u8], (T, DigitallySigned<'a>)>
where
    F: Fn(&'a [u8]) -> IResult<&'a [u8], T>,
    T: Drop,
    requires { F.pre fun i }
    ensures { (answer : _) × F.post fun i.entry answer × GivesSignature ext answer result }
{
    let (i, content) = fun(i)?;
    let (i, signature) = either_signature(i, ext)?;
    Ok((i, (content, signature)))
}
