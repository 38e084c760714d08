//! The status of one certificate (RFC 6960, section 4.2.1).
#![tactic(auto, using(layouts::proofs::OneAnswerLemmas::read_allowed))]

ghost use Rattle.std.specs.Prelude.{◌≡◌, ℕ, ℤ, List};
ghost use Rattle.std.specs.Option.{option_map};
ghost use Rattle.layouts.specs.Answers.{Gives};
ghost use Rattle.layouts.specs.Items.{items_in};
ghost use Rattle.x509.specs.Certificate.{Extension as PlainExtension, extension, extensions as extensions_layout};
ghost use Rattle.ocsp.specs.Single.{CertId as PlainCertId, SingleResponse as PlainSingle, cert_id as cert_id_layout, cert_id_content, cert_status as cert_status_layout, empty_as, enumerated as enumerated_layout, reason, response_for as response_in, revoked_content, single_content, single_response, time as time_layout, view_cert_id, view_single};
ghost use Rattle.ocsp.specs.declared.single.CertStatus.TheVariants as status;

use der::{AllBytes, GeneralizedTime, Integer, ItemsOf, optional, tag, tagged};
use layouts::{ErrorKind, IResult, InPlace, Items, number1, parsed, refused};
use x509::{AlgorithmIdentifier, Extensions, parse_algorithm_identifier};

/// The tag of ENUMERATED.
pub(crate) const ENUMERATED: u8 = 0x0a;

const GOOD: u8 = 0x80;

const REVOKED: u8 = 0xa1;

const UNKNOWN: u8 = 0x82;

/// The content of an ENUMERATED of one byte.
///
/// - `Incomplete` with count 1 if it is empty.
/// - `Error` of kind `Verify` if it is negative.
pub(crate) struct Enumerated;

impl<'a> InPlace<'a> for Enumerated {
    type Read = u8;

    ghost Value = { ℕ };

    ghost view = { λ n. n };

    ghost layout = { enumerated_layout };

    #[tactic(auto, using(layouts::proofs::OneAnswerLemmas::read_allowed), unfolding(crate::specs::Single::enumerated))]
    fn read(i: &'a [u8]) -> IResult<&'a [u8], u8> {
        let (i, n) = parsed!(number1(i));
        if n >= 128 {
            return refused(i, ErrorKind::Verify);
        }
        Ok((i, n))
    }
}

/// Which certificate a status is for (RFC 6960, section 4.1.1).
#[derive(Clone, Copy, Debug, PartialEq)]
pub struct CertId<'a> {
    /// The hash of the next two fields.
    pub hash_algorithm: AlgorithmIdentifier<'a>,
    /// The hash of the issuer's name.
    pub issuer_name_hash: &'a [u8],
    /// The hash of the issuer's key.
    pub issuer_key_hash: &'a [u8],
    /// The certificate's serial number: an INTEGER's bytes.
    pub serial_number: &'a [u8],
}

/// The content of a CertID.
struct CertIdContent;

impl<'a> InPlace<'a> for CertIdContent {
    type Read = CertId<'a>;

    ghost Value = { PlainCertId };

    ghost view = { view_cert_id };

    ghost layout = { cert_id_content };

    #[tactic(auto, using(layouts::proofs::OneAnswerLemmas::read_allowed), unfolding(crate::specs::Single::cert_id_content))]
    fn read(i: &'a [u8]) -> IResult<&'a [u8], CertId<'a>> {
        let (i, hash_algorithm) = parsed!(parse_algorithm_identifier(i));
        let (i, issuer_name_hash) = parsed!(tagged::<AllBytes>(i, tag::OCTET_STRING));
        let (i, issuer_key_hash) = parsed!(tagged::<AllBytes>(i, tag::OCTET_STRING));
        let (i, serial_number) = parsed!(tagged::<Integer>(i, tag::INTEGER));
        let id = CertId {
            hash_algorithm,
            issuer_name_hash,
            issuer_key_hash,
            serial_number,
        };
        Ok((i, id))
    }
}

/// Parses a CertID.
#[tactic(auto, using(layouts::proofs::OneAnswerLemmas::read_allowed), unfolding(crate::specs::Single::cert_id))]
fn parse_cert_id(i: &[u8]) -> IResult<&[u8], CertId>
    ensures { Gives view_cert_id cert_id_layout i.now result }
{
    tagged::<CertIdContent>(i, tag::SEQUENCE)
}

/// A GeneralizedTime, in seconds since 1970-01-01 00:00:00 UTC.
pub(crate) struct Time;

impl<'a> InPlace<'a> for Time {
    type Read = i64;

    ghost Value = { ℤ };

    ghost view = { λ n. n };

    ghost layout = { time_layout };

    #[tactic(auto, using(layouts::proofs::OneAnswerLemmas::read_allowed), unfolding(crate::specs::Single::time))]
    fn read(i: &'a [u8]) -> IResult<&'a [u8], i64> {
        tagged::<GeneralizedTime>(i, tag::GENERALIZED_TIME)
    }
}

/// A CRLReason (RFC 5280, section 5.3.1).
struct Reason;

impl<'a> InPlace<'a> for Reason {
    type Read = u8;

    ghost Value = { ℕ };

    ghost view = { λ n. n };

    ghost layout = { reason };

    #[tactic(auto, using(layouts::proofs::OneAnswerLemmas::read_allowed), unfolding(crate::specs::Single::reason))]
    fn read(i: &'a [u8]) -> IResult<&'a [u8], u8> {
        tagged::<Enumerated>(i, ENUMERATED)
    }
}

/// When and why a certificate was revoked.
#[derive(Clone, Copy, Debug, PartialEq, Eq)]
pub struct RevokedInfo {
    /// When, in seconds since 1970-01-01 00:00:00 UTC.
    pub revocation_time: i64,
    /// Why, by the number of a CRLReason (RFC 5280, section 5.3.1).
    pub revocation_reason: Option<u8>,
}

/// The content of a RevokedInfo.
struct RevokedContent;

impl<'a> InPlace<'a> for RevokedContent {
    type Read = RevokedInfo;

    ghost use Rattle.ocsp.specs.declared.single.RevokedInfo.{RevokedInfo as PlainRevoked};

    ghost Value = { PlainRevoked };

    ghost view = { λ v. v };

    ghost layout = { revoked_content };

    #[tactic(auto, using(layouts::proofs::OneAnswerLemmas::read_allowed), unfolding(crate::specs::Single::revoked_content))]
    fn read(i: &'a [u8]) -> IResult<&'a [u8], RevokedInfo> {
        let (i, revocation_time) = parsed!(Time::read(i));
        let (i, revocation_reason) = parsed!(optional::<Reason>(i, 0xa0));
        let revoked = RevokedInfo {
            revocation_time,
            revocation_reason,
        };
        Ok((i, revoked))
    }
}

/// The status of a certificate.
#[derive(Clone, Copy, Debug, PartialEq, Eq)]
pub enum CertStatus {
    /// It isn't revoked.
    Good,
    /// It is revoked.
    Revoked(RevokedInfo),
    /// The responder doesn't know it.
    Unknown,
}

/// The empty content of the status `good`.
struct GoodContent;

impl<'a> InPlace<'a> for GoodContent {
    type Read = CertStatus;

    ghost use Rattle.ocsp.specs.declared.single.CertStatus.{CertStatus as PlainStatus};

    ghost Value = { PlainStatus };

    ghost view = { λ v. v };

    ghost layout = { empty_as status.Good };

    #[tactic(auto, using(layouts::proofs::OneAnswerLemmas::read_allowed), unfolding(crate::specs::Single::empty_as))]
    fn read(i: &'a [u8]) -> IResult<&'a [u8], CertStatus> {
        Ok((i, CertStatus::Good))
    }
}

/// The empty content of the status `unknown`.
struct UnknownContent;

impl<'a> InPlace<'a> for UnknownContent {
    type Read = CertStatus;

    ghost use Rattle.ocsp.specs.declared.single.CertStatus.{CertStatus as PlainStatus};

    ghost Value = { PlainStatus };

    ghost view = { λ v. v };

    ghost layout = { empty_as status.Unknown };

    #[tactic(auto, using(layouts::proofs::OneAnswerLemmas::read_allowed), unfolding(crate::specs::Single::empty_as))]
    fn read(i: &'a [u8]) -> IResult<&'a [u8], CertStatus> {
        Ok((i, CertStatus::Unknown))
    }
}

/// Parses a CertStatus.
#[tactic(auto, using(layouts::proofs::OneAnswerLemmas::read_allowed), unfolding(crate::specs::Single::cert_status, crate::specs::Single::cert_status_by))]
fn parse_cert_status(i: &[u8]) -> IResult<&[u8], CertStatus>
    ensures { Gives (λ v. v) cert_status_layout i.now result }
{
    let (_, t) = parsed!(number1(i));
    match t {
        GOOD => tagged::<GoodContent>(i, GOOD),
        REVOKED => {
            let (i, revoked) = parsed!(tagged::<RevokedContent>(i, REVOKED));
            Ok((i, CertStatus::Revoked(revoked)))
        }
        UNKNOWN => tagged::<UnknownContent>(i, UNKNOWN),
        _ => refused(i, ErrorKind::Tag),
    }
}

/// The Extensions structure: its list.
pub(crate) struct ExtensionList;

impl<'a> InPlace<'a> for ExtensionList {
    type Read = Items<'a, Extensions>;

    ghost Value = { List PlainExtension };

    ghost view = { λ v. items_in extension v.bytes.now };

    ghost layout = { extensions_layout };

    #[tactic(auto, using(layouts::proofs::OneAnswerLemmas::read_allowed), unfolding(x509::specs::Certificate::extensions))]
    fn read(i: &'a [u8]) -> IResult<&'a [u8], Items<'a, Extensions>> {
        tagged::<ItemsOf<Extensions>>(i, tag::SEQUENCE)
    }
}

/// The status of one certificate.
#[derive(Clone, Copy, Debug, PartialEq)]
pub struct SingleResponse<'a> {
    /// The certificate.
    pub cert_id: CertId<'a>,
    /// Its status.
    pub cert_status: CertStatus,
    /// When the status was known to be right, in seconds since 1970-01-01 00:00:00 UTC.
    pub this_update: i64,
    /// When a newer status will be there, likewise.
    pub next_update: Option<i64>,
    /// The extensions; empty if there is no list.
    pub extensions: Items<'a, Extensions>,
}

/// The content of a SingleResponse.
struct SingleContent;

impl<'a> InPlace<'a> for SingleContent {
    type Read = SingleResponse<'a>;

    ghost Value = { PlainSingle };

    ghost view = { view_single };

    ghost layout = { single_content };

    #[tactic(auto, using(layouts::proofs::OneAnswerLemmas::read_allowed, layouts::proofs::ItemsLemmas::none_in), unfolding(crate::specs::Single::single_content))]
    fn read(i: &'a [u8]) -> IResult<&'a [u8], SingleResponse<'a>> {
        let (i, cert_id) = parsed!(parse_cert_id(i));
        let (i, cert_status) = parsed!(parse_cert_status(i));
        let (i, this_update) = parsed!(Time::read(i));
        let (i, next_update) = parsed!(optional::<Time>(i, 0xa0));
        let (i, list) = parsed!(optional::<ExtensionList>(i, 0xa1));
        let extensions = match list {
            Some(extensions) => extensions,
            None => Items::new(&[]),
        };
        let response = SingleResponse {
            cert_id,
            cert_status,
            this_update,
            next_update,
            extensions,
        };
        Ok((i, response))
    }
}

/// A list of statuses; each is parsed as a [`SingleResponse`].
pub struct SingleResponses;

impl<'a> InPlace<'a> for SingleResponses {
    type Read = SingleResponse<'a>;

    ghost Value = { PlainSingle };

    ghost view = { view_single };

    ghost layout = { single_response };

    #[tactic(auto, using(layouts::proofs::OneAnswerLemmas::read_allowed), unfolding(crate::specs::Single::single_response))]
    fn read(i: &'a [u8]) -> IResult<&'a [u8], SingleResponse<'a>> {
        tagged::<SingleContent>(i, tag::SEQUENCE)
    }
}

/// The first response for the certificate with this serial number.
///
/// `None` if there is none before the iterator ends. The hashes of the issuer aren't compared.
pub fn response_for<'a>(
    responses: Items<'a, SingleResponses>,
    serial_number: &[u8],
) -> Option<SingleResponse<'a>>
    ensures { option_map view_single result ≡ response_in serial_number.now
        (items_in single_response responses.entry.bytes.now) }
{
    for response in responses {
        if response.cert_id.serial_number == serial_number {
            return Some(response);
        }
    }
    None
}
