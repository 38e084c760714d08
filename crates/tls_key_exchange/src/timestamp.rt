//! Signed certificate timestamps: a log's promises that it records a certificate (RFC 6962).
ghost use Rattle.std.specs.Prelude.{map};
ghost use Rattle.layouts.specs.Answers.{Gives, GivesOrMemory};
ghost use Rattle.tls_key_exchange.specs.Timestamp.{SignedCertificateTimestamp as Timestamp, view_log_id, log_id as log_id_layout, view_timestamp, timestamp as timestamp_layout, serialized_timestamp, timestamp_list};

use crate::signature::{DigitallySigned, parse_digitally_signed};
use layouts::{
    Err, IResult, InPlace, Needed, Room, block, counted2, items, number2, number8, parsed,
};
use std::alloc::Global;
use tls_base::CtVersion;

/// The id of a log: the hash of its key (RFC 6962, section 3.2).
#[derive(Clone, Debug, PartialEq, Drop)]
pub struct CtLogID<'a> {
    /// The SHA-256 hash of the log's public key.
    pub key_id: &'a [u8; 32],
}

/// Extensions of a timestamp (RFC 6962, section 3.2).
#[derive(Clone, Debug, PartialEq, Drop)]
pub struct CtExtensions<'a>(pub &'a [u8]);

/// A signed certificate timestamp (RFC 6962, section 3.2).
#[derive(Clone, Debug, PartialEq, Drop)]
pub struct SignedCertificateTimestamp<'a> {
    /// The version of the protocol.
    pub version: CtVersion,
    /// The log that signed.
    pub id: CtLogID<'a>,
    /// Milliseconds since the start of 1970.
    pub timestamp: u64,
    /// Extensions, none of which are defined.
    pub extensions: CtExtensions<'a>,
    /// The log's signature.
    pub signature: DigitallySigned<'a>,
}

/// Reads 32 bytes, the id of a log.
#[tactic(auto, using(layouts::proofs::OneAnswerLemmas::read_allowed), unfolding(layouts::specs::Reading::split_at))]
fn log_id(i: &[u8]) -> IResult<&[u8], CtLogID>
    ensures { Gives view_log_id log_id_layout i.now result }
{
    match i.first_chunk() {
        Some(key_id) => Ok((i.split_at(32).1, CtLogID { key_id })),
        None => Err(Err::Incomplete(Needed::Size(32 - i.len()))),
    }
}

/// Reads a timestamp without the length before it.
#[tactic(auto, using(layouts::proofs::OneAnswerLemmas::read_allowed), unfolding(crate::specs::Timestamp::timestamp))]
fn timestamp(i: &[u8]) -> IResult<&[u8], SignedCertificateTimestamp>
    ensures { Gives view_timestamp timestamp_layout i.now result }
{
    let (i, version) = parsed!(CtVersion::parse(i));
    let (i, id) = parsed!(log_id(i));
    let (i, timestamp) = parsed!(number8(i));
    let (i, extensions) = parsed!(counted2(i));
    let (i, signature) = parsed!(parse_digitally_signed(i));
    let timestamp = SignedCertificateTimestamp {
        version,
        id,
        timestamp,
        extensions: CtExtensions(extensions),
        signature,
    };
    Ok((i, timestamp))
}

/// Reads a timestamp after its length (RFC 6962, section 3.3). All numbers are big-endian.
///
/// - 2 bytes: the length of what follows;
/// - 1 byte: the version; 32 bytes: the log's id; 8 bytes: the time;
/// - extensions, after 2 bytes of length;
/// - a signature, as [`parse_digitally_signed`]. Bytes after it, up to the length, are dropped.
///
/// `Incomplete` with the bytes missing from the first incomplete part, also if the length ends
/// within it.
pub fn parse_ct_signed_certificate_timestamp(i: &[u8]) -> IResult<&[u8], SignedCertificateTimestamp>
    ensures { Gives view_timestamp serialized_timestamp i.now result }
{
    let (i, n) = parsed!(number2(i));
    let (i, window) = parsed!(block(i, n as usize));
    let (_, timestamp) = parsed!(timestamp(window));
    Ok((i, timestamp))
}

impl<'a> InPlace<'a> for SignedCertificateTimestamp<'a> {
    type Read = Self;

    ghost Value = { Timestamp };

    ghost view = { view_timestamp };

    ghost layout = { serialized_timestamp };

    fn read(i: &'a [u8]) -> IResult<&'a [u8], Self> {
        parse_ct_signed_certificate_timestamp(i)
    }
}

impl Room for SignedCertificateTimestamp<'_> {}

/// Reads a list of timestamps (RFC 6962, section 3.3): 2 bytes of length, big-endian, then
/// timestamps in that many bytes, up to the first that can't be read. The bytes from there are
/// dropped.
///
/// `Incomplete` with the bytes missing from the length, or else from the list. `OutOfMemory` if the
/// list can't be allocated.
pub fn parse_ct_signed_certificate_timestamp_list(
    alloc: Global,
    i: &[u8],
) -> IResult<&[u8], Vec<SignedCertificateTimestamp>>
    ensures { GivesOrMemory (λ v. map view_timestamp v.items) timestamp_list i.now result }
{
    let (i, n) = parsed!(number2(i));
    let (i, window) = parsed!(block(i, n as usize));
    let (_, timestamps) = parsed!(items::<SignedCertificateTimestamp>(alloc, window));
    Ok((i, timestamps))
}
