//! The fixed-size fields at the beginning of a hello.
ghost use Rattle.std.specs.Prelude.{◌≡◌};
ghost use Rattle.layouts.specs.Answers.{Gives};
ghost use Rattle.ssl2_hello.specs.Front.{record_length as record_length_layout, fixed_fields as fixed_fields_layout, lengths as lengths_layout, view_fixed_fields};
ghost use Rattle.ssl2_hello.specs.Front.{beginning as beginning_layout, begins_ssl2_hello_in};

use layouts::{ErrorKind, IResult, number1, number2, parsed, refused};
use tls_base::TlsVersion;

/// The message type.
const CLIENT_HELLO: u8 = 1;

/// The length of the message before its CipherSpecs, in bytes.
const FRONT_LEN: u32 = 9;

/// The version, and the lengths of what follows, in bytes.
#[derive(Clone, Copy)]
pub(crate) struct FixedFields {
    pub(crate) version: TlsVersion,
    pub(crate) cipher_spec_length: u16,
    pub(crate) session_id_length: u16,
    pub(crate) challenge_length: u16,
}

/// Parses the record header of 2 bytes, which gives the length of what follows.
///
/// - `Incomplete` with the count of missing bytes if there are fewer than 2.
/// - `Error` of kind `Tag` if the first bit isn't set.
#[tactic(auto, using(layouts::proofs::OneAnswerLemmas::read_allowed), unfolding(crate::specs::Front::record_length))]
pub(crate) fn record_length(i: &[u8]) -> IResult<&[u8], u16>
    ensures { Gives (λ n. n) record_length_layout i.now result }
{
    let (i, n) = parsed!(number2(i));
    if n < 0x8000 {
        return refused(i, ErrorKind::Tag);
    }
    Ok((i, n - 0x8000))
}

/// Parses the lengths of what follows.
#[tactic(auto, using(layouts::proofs::OneAnswerLemmas::read_allowed), unfolding(crate::specs::Front::lengths))]
fn lengths(i: &[u8], version: TlsVersion) -> IResult<&[u8], FixedFields>
    ensures { Gives view_fixed_fields (lengths_layout version.0) i.now result }
{
    let (i, cipher_spec_length) = parsed!(number2(i));
    if cipher_spec_length % 3 != 0 || cipher_spec_length == 0 {
        return refused(i, ErrorKind::LengthValue);
    }
    let (i, session_id_length) = parsed!(number2(i));
    if session_id_length > 32 {
        return refused(i, ErrorKind::Verify);
    }
    let (i, challenge_length) = parsed!(number2(i));
    if challenge_length < 16 || challenge_length > 32 {
        return refused(i, ErrorKind::Verify);
    }
    let fields = FixedFields {
        version,
        cipher_spec_length,
        session_id_length,
        challenge_length,
    };
    Ok((i, fields))
}

/// Parses the fixed-size fields of a hello in a record of `n` bytes.
#[tactic(auto, using(layouts::proofs::OneAnswerLemmas::read_allowed), unfolding(crate::specs::Front::fixed_fields))]
pub(crate) fn fixed_fields(i: &[u8], n: u16) -> IResult<&[u8], FixedFields>
    ensures { Gives view_fixed_fields (fixed_fields_layout n) i.now result }
{
    let (i, msg_type) = parsed!(number1(i));
    if msg_type != CLIENT_HELLO {
        return refused(i, ErrorKind::Tag);
    }
    let (i, version) = parsed!(TlsVersion::parse(i));
    if version.0 != 0x0002 && (version.0 < 0x0300 || version.0 > 0x03ff) {
        return refused(i, ErrorKind::Tag);
    }
    let (i, fields) = parsed!(lengths(i, version));
    let length = FRONT_LEN
        + u32::from(fields.cipher_spec_length)
        + u32::from(fields.session_id_length)
        + u32::from(fields.challenge_length);
    if length != u32::from(n) {
        return refused(i, ErrorKind::LengthValue);
    }
    Ok((i, fields))
}

/// Parses the first 11 bytes of a stream: the header of the record and the fixed-size fields.
#[tactic(auto, using(layouts::proofs::OneAnswerLemmas::read_allowed), unfolding(crate::specs::Front::beginning))]
fn beginning(i: &[u8]) -> IResult<&[u8], FixedFields>
    ensures { Gives view_fixed_fields beginning_layout i.now result }
{
    let (i, n) = parsed!(record_length(i));
    fixed_fields(i, n)
}

/// Whether a stream begins with a ClientHello in the form of SSL 2.0 (RFC 5246, appendix E.2),
/// judging by its first 11 bytes: the header of a record, the type of a ClientHello, version 0x0002
/// or the major version 3, and lengths of CipherSpecs, session ID and challenge that are allowed
/// and fill the record. Fewer than 11 bytes are no such hello.
///
/// If so, [`crate::parse_ssl2_client_hello`] parses the hello once its record is whole, and returns
/// `Incomplete` until then.
pub fn begins_ssl2_hello(bytes: &[u8]) -> bool
    ensures { result ≡ begins_ssl2_hello_in bytes.now }
{
    beginning(bytes).is_ok()
}
