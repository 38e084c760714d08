//! The ClientHello in its record.
ghost use Rattle.layouts.specs.Answers.{Gives};
ghost use Rattle.layouts.specs.Layout.{complete};
ghost use Rattle.ssl2_hello.specs.ClientHello.{view_client_hello, message as message_layout, client_hello as client_hello_layout};

use crate::cipher_spec::CipherSpec;
use crate::front::{fixed_fields, record_length};
use layouts::{Err, ErrorKind, IResult, Items, block, parsed, refused};
use tls_base::TlsVersion;

/// A ClientHello in the form of SSL 2.0: the V2ClientHello of RFC 5246, appendix E.2.
#[derive(Clone, Copy, Debug, PartialEq)]
pub struct Ssl2ClientHello<'a> {
    /// The version that the client offers: 0x0002 is SSL 2.0.
    pub version: TlsVersion,
    /// The CipherSpecs that the client offers, in its order; at least one.
    pub cipher_specs: Items<'a, CipherSpec>,
    /// 0 to 32 bytes. Session IDs of SSL 2.0 have 16; a TLS 1.2 client sends none.
    pub session_id: &'a [u8],
    /// 16 to 32 bytes, which serve as the random of the ClientHello.
    pub challenge: &'a [u8],
}

/// Parses the message in a record of `n` bytes.
#[tactic(auto, using(layouts::proofs::OneAnswerLemmas::read_allowed), unfolding(crate::specs::ClientHello::message))]
fn message(i: &[u8], n: u16) -> IResult<&[u8], Ssl2ClientHello>
    ensures { Gives view_client_hello (message_layout n) i.now result }
{
    let (i, fields) = parsed!(fixed_fields(i, n));
    let (i, cipher_specs) = parsed!(block(i, fields.cipher_spec_length as usize));
    let (i, session_id) = parsed!(block(i, fields.session_id_length as usize));
    let (i, challenge) = parsed!(block(i, fields.challenge_length as usize));
    let hello = Ssl2ClientHello {
        version: fields.version,
        cipher_specs: Items::new(cipher_specs),
        session_id,
        challenge,
    };
    Ok((i, hello))
}

/// Parses the message, which must fill the record.
fn in_record(bytes: &[u8], n: u16) -> IResult<&[u8], Ssl2ClientHello>
    ensures { Gives view_client_hello (complete (message_layout n)) bytes.now result }
{
    match message(bytes, n) {
        Err(Err::Incomplete(_)) => refused(bytes, ErrorKind::Complete),
        answer => answer,
    }
}

/// Parses a ClientHello in the form of SSL 2.0, in its record (RFC 5246, appendix E.2; RFC 6101,
/// appendix E): a header of 2 bytes, whose first bit is set and whose other bits are the length of
/// what follows, in bytes; 1 byte of message type, 2 of version, 2 each for the lengths of
/// CipherSpecs, session ID and challenge in bytes, and these three. All numbers are big-endian.
///
/// - `Incomplete` with the count of bytes missing of the header or else of the record.
/// - `Error` of kind `Tag` if the first bit isn't set, the type isn't 1, or the version is neither
///   0x0002 nor 0x0300 to 0x03ff.
/// - `Error` of kind `LengthValue` if there is no CipherSpec, their length is no multiple of 3, or
///   the three lengths don't fill the record.
/// - `Error` of kind `Verify` if the session ID is longer than 32 bytes, or the challenge doesn't
///   have 16 to 32.
/// - `Error` of kind `Complete` if the record ends within the lengths.
///
/// The record is checked once it is whole; [`crate::begins_ssl2_hello`] decides from its first
/// bytes whether it will parse.
#[tactic(auto, using(layouts::proofs::OneAnswerLemmas::read_allowed), unfolding(crate::specs::ClientHello::client_hello))]
pub fn parse_ssl2_client_hello(i: &[u8]) -> IResult<&[u8], Ssl2ClientHello>
    ensures { Gives view_client_hello client_hello_layout i.now result }
{
    let (i, n) = parsed!(record_length(i));
    let (rest, record) = parsed!(block(i, n as usize));
    let (_, hello) = parsed!(in_record(record, n));
    Ok((rest, hello))
}
