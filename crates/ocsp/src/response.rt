//! The response around: whether the responder answered (RFC 6960, section 4.2.1).
#![tactic(auto, using(layouts::proofs::OneAnswerLemmas::read_allowed))]

ghost use Rattle.layouts.specs.Answers.{Gives};
ghost use Rattle.ocsp.specs.Response.{OcspResponse as PlainResponse, ResponseBytes as PlainBytes, ocsp_response, ocsp_response_content, response_bytes as response_bytes_layout, response_bytes_content, view_response, view_response_bytes};

use crate::single::{ENUMERATED, Enumerated};
use der::{AllBytes, ObjectIdentifier, object_identifier, optional, tag, tagged};
use layouts::{IResult, InPlace, parsed};

/// Whether the responder answered, by its number.
#[derive(Clone, Copy, Debug, PartialEq, Eq)]
pub struct OcspResponseStatus(pub u8);

impl OcspResponseStatus {
    /// It answered.
    pub const SUCCESSFUL: OcspResponseStatus = OcspResponseStatus(0);
    /// It couldn't parse the request.
    pub const MALFORMED_REQUEST: OcspResponseStatus = OcspResponseStatus(1);
    /// An internal error of the responder.
    pub const INTERNAL_ERROR: OcspResponseStatus = OcspResponseStatus(2);
    /// It can't answer now.
    pub const TRY_LATER: OcspResponseStatus = OcspResponseStatus(3);
    /// It wants a signed request.
    pub const SIG_REQUIRED: OcspResponseStatus = OcspResponseStatus(5);
    /// It doesn't answer this client, or not about this certificate.
    pub const UNAUTHORIZED: OcspResponseStatus = OcspResponseStatus(6);
}

/// An answer, in a form that its type defines.
#[derive(Clone, Copy, Debug, PartialEq)]
pub struct ResponseBytes<'a> {
    /// The type: [`crate::oid::BASIC`], or another.
    pub response_type: ObjectIdentifier<'a>,
    /// The answer; of [`crate::oid::BASIC`] what [`crate::parse_basic_ocsp_response`] parses.
    pub response: &'a [u8],
}

/// The content of a ResponseBytes.
struct ResponseBytesContent;

impl<'a> InPlace<'a> for ResponseBytesContent {
    type Read = ResponseBytes<'a>;

    ghost Value = { PlainBytes };

    ghost view = { view_response_bytes };

    ghost layout = { response_bytes_content };

    #[tactic(auto, using(layouts::proofs::OneAnswerLemmas::read_allowed), unfolding(crate::specs::Response::response_bytes_content))]
    fn read(i: &'a [u8]) -> IResult<&'a [u8], ResponseBytes<'a>> {
        let (i, response_type) = parsed!(object_identifier(i));
        let (i, response) = parsed!(tagged::<AllBytes>(i, tag::OCTET_STRING));
        let bytes = ResponseBytes {
            response_type,
            response,
        };
        Ok((i, bytes))
    }
}

/// A ResponseBytes within its explicit tag.
struct Explicit;

impl<'a> InPlace<'a> for Explicit {
    type Read = ResponseBytes<'a>;

    ghost Value = { PlainBytes };

    ghost view = { view_response_bytes };

    ghost layout = { response_bytes_layout };

    #[tactic(auto, using(layouts::proofs::OneAnswerLemmas::read_allowed), unfolding(crate::specs::Response::response_bytes))]
    fn read(i: &'a [u8]) -> IResult<&'a [u8], ResponseBytes<'a>> {
        tagged::<ResponseBytesContent>(i, tag::SEQUENCE)
    }
}

/// An OCSPResponse.
#[derive(Clone, Copy, Debug, PartialEq)]
pub struct OcspResponse<'a> {
    /// Whether the responder answered.
    pub response_status: OcspResponseStatus,
    /// The answer; there is one if it did.
    pub response_bytes: Option<ResponseBytes<'a>>,
}

/// The content of an OCSPResponse.
struct OcspResponseContent;

impl<'a> InPlace<'a> for OcspResponseContent {
    type Read = OcspResponse<'a>;

    ghost Value = { PlainResponse };

    ghost view = { view_response };

    ghost layout = { ocsp_response_content };

    #[tactic(auto, using(layouts::proofs::OneAnswerLemmas::read_allowed), unfolding(crate::specs::Response::ocsp_response_content))]
    fn read(i: &'a [u8]) -> IResult<&'a [u8], OcspResponse<'a>> {
        let (i, status) = parsed!(tagged::<Enumerated>(i, ENUMERATED));
        let (i, response_bytes) = parsed!(optional::<Explicit>(i, 0xa0));
        let response = OcspResponse {
            response_status: OcspResponseStatus(status),
            response_bytes,
        };
        Ok((i, response))
    }
}

/// Parses an OCSPResponse, without copying.
///
/// - `Incomplete` with the count of bytes missing of its tag, length or content.
/// - `Error` of kind `Tag` if an element has another tag than the one required.
/// - `Error` of kind `Complete` if an element doesn't fit in the one around it, or is missing
///   there.
/// - `Error` of kind `LengthValue` if bytes follow the last field of a structure, or the status has
///   more than one byte.
/// - `Error` of kind `Verify` if the status is negative, or a length or an arc isn't the shortest.
/// - What [`der::tagged`] refuses.
#[tactic(auto, using(layouts::proofs::OneAnswerLemmas::read_allowed), unfolding(crate::specs::Response::ocsp_response))]
pub fn parse_ocsp_response(i: &[u8]) -> IResult<&[u8], OcspResponse>
    ensures { Gives view_response ocsp_response i.now result }
{
    tagged::<OcspResponseContent>(i, tag::SEQUENCE)
}
