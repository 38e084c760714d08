//! What a responder answered (RFC 6960, section 4.2.1).
#![tactic(auto, using(layouts::proofs::OneAnswerLemmas::read_allowed))]

ghost use Rattle.std.specs.Prelude.{List};
ghost use Rattle.layouts.specs.Answers.{Gives};
ghost use Rattle.layouts.specs.Bytes.{Bytes};
ghost use Rattle.layouts.specs.Items.{items_in};
ghost use Rattle.x509.specs.Certificate.{Certificate as PlainCertificate, certificate, view_certificate};
ghost use Rattle.x509.specs.Name.{AttributeTypeAndValue as PlainAttribute, name as name_layout, relative_distinguished_name};
ghost use Rattle.ocsp.specs.Response.{BasicOcspResponse as PlainBasic, ResponseData as PlainData, basic_content, basic_ocsp_response, certificates as certificates_layout, data_content, key_hash, responder_id as responder_id_layout, version as version_layout, view_basic, view_data, view_responder};

use crate::single::{ExtensionList, SingleResponses, Time};
use der::{AllBytes, BitString, Integer, ItemsOf, optional, tag, tagged};
use layouts::{ErrorKind, IResult, InPlace, Items, number1, parsed, refused};
use x509::{
    AlgorithmIdentifier, Certificate, Extensions, Name, parse_algorithm_identifier,
    parse_certificate, parse_name,
};

const BY_NAME: u8 = 0xa1;

const BY_KEY: u8 = 0xa2;

/// Who signed a response.
#[derive(Clone, Copy, Debug, PartialEq)]
pub enum ResponderId<'a> {
    /// The responder's name.
    ByName(Name<'a>),
    /// The SHA-1 hash of its public key.
    ByKey(&'a [u8]),
}

/// A Name within its explicit tag.
struct ResponderName;

impl<'a> InPlace<'a> for ResponderName {
    type Read = Name<'a>;

    ghost Value = { List (List PlainAttribute) };

    ghost view = { λ v. items_in relative_distinguished_name v.bytes.now };

    ghost layout = { name_layout };

    fn read(i: &'a [u8]) -> IResult<&'a [u8], Name<'a>> {
        parse_name(i)
    }
}

/// A key's hash within its explicit tag.
struct KeyHash;

impl<'a> InPlace<'a> for KeyHash {
    type Read = &'a [u8];

    ghost Value = { Bytes };

    ghost view = { λ bytes. bytes.now };

    ghost layout = { key_hash };

    #[tactic(auto, using(layouts::proofs::OneAnswerLemmas::read_allowed), unfolding(crate::specs::Response::key_hash))]
    fn read(i: &'a [u8]) -> IResult<&'a [u8], &'a [u8]> {
        tagged::<AllBytes>(i, tag::OCTET_STRING)
    }
}

/// Parses a ResponderID.
#[tactic(auto, using(layouts::proofs::OneAnswerLemmas::read_allowed), unfolding(crate::specs::Response::responder_id, crate::specs::Response::responder_by))]
fn parse_responder_id(i: &[u8]) -> IResult<&[u8], ResponderId>
    ensures { Gives view_responder responder_id_layout i.now result }
{
    let (_, t) = parsed!(number1(i));
    match t {
        BY_NAME => {
            let (i, name) = parsed!(tagged::<ResponderName>(i, BY_NAME));
            Ok((i, ResponderId::ByName(name)))
        }
        BY_KEY => {
            let (i, hash) = parsed!(tagged::<KeyHash>(i, BY_KEY));
            Ok((i, ResponderId::ByKey(hash)))
        }
        _ => refused(i, ErrorKind::Tag),
    }
}

/// A version within its explicit tag.
struct Version;

impl<'a> InPlace<'a> for Version {
    type Read = &'a [u8];

    ghost Value = { Bytes };

    ghost view = { λ bytes. bytes.now };

    ghost layout = { version_layout };

    #[tactic(auto, using(layouts::proofs::OneAnswerLemmas::read_allowed), unfolding(crate::specs::Response::version))]
    fn read(i: &'a [u8]) -> IResult<&'a [u8], &'a [u8]> {
        tagged::<Integer>(i, tag::INTEGER)
    }
}

/// The part of a response that is signed.
#[derive(Clone, Copy, Debug, PartialEq)]
pub struct ResponseData<'a> {
    /// The version, 0 for v1: an INTEGER's bytes; `None` if the field is absent, as of v1.
    pub version: Option<&'a [u8]>,
    /// Who signed it.
    pub responder_id: ResponderId<'a>,
    /// When it was signed, in seconds since 1970-01-01 00:00:00 UTC.
    pub produced_at: i64,
    /// The statuses of certificates.
    pub responses: Items<'a, SingleResponses>,
    /// The extensions; empty if there is no list.
    pub extensions: Items<'a, Extensions>,
}

impl<'a> InPlace<'a> for ResponseData<'a> {
    type Read = Self;

    ghost Value = { PlainData };

    ghost view = { view_data };

    ghost layout = { data_content };

    #[tactic(auto, using(layouts::proofs::OneAnswerLemmas::read_allowed, layouts::proofs::ItemsLemmas::none_in), unfolding(crate::specs::Response::data_content))]
    fn read(i: &'a [u8]) -> IResult<&'a [u8], Self> {
        let (i, version) = parsed!(optional::<Version>(i, 0xa0));
        let (i, responder_id) = parsed!(parse_responder_id(i));
        let (i, produced_at) = parsed!(Time::read(i));
        let (i, responses) = parsed!(tagged::<ItemsOf<SingleResponses>>(i, tag::SEQUENCE));
        let (i, list) = parsed!(optional::<ExtensionList>(i, 0xa1));
        let extensions = match list {
            Some(extensions) => extensions,
            None => Items::new(&[]),
        };
        let response_data = ResponseData {
            version,
            responder_id,
            produced_at,
            responses,
            extensions,
        };
        Ok((i, response_data))
    }
}

/// A list of certificates; each is parsed as a [`Certificate`].
pub struct Certificates;

impl<'a> InPlace<'a> for Certificates {
    type Read = Certificate<'a>;

    ghost Value = { PlainCertificate };

    ghost view = { view_certificate };

    ghost layout = { certificate };

    fn read(i: &'a [u8]) -> IResult<&'a [u8], Certificate<'a>> {
        parse_certificate(i)
    }
}

/// A list of certificates within its explicit tag.
struct CertificateList;

impl<'a> InPlace<'a> for CertificateList {
    type Read = Items<'a, Certificates>;

    ghost Value = { List PlainCertificate };

    ghost view = { λ v. items_in certificate v.bytes.now };

    ghost layout = { certificates_layout };

    #[tactic(auto, using(layouts::proofs::OneAnswerLemmas::read_allowed), unfolding(crate::specs::Response::certificates))]
    fn read(i: &'a [u8]) -> IResult<&'a [u8], Items<'a, Certificates>> {
        tagged::<ItemsOf<Certificates>>(i, tag::SEQUENCE)
    }
}

/// A BasicOCSPResponse.
#[derive(Clone, Copy, Debug, PartialEq)]
pub struct BasicOcspResponse<'a> {
    /// What is signed.
    pub tbs_response_data: ResponseData<'a>,
    /// The algorithm of the signature.
    pub signature_algorithm: AlgorithmIdentifier<'a>,
    /// The signature.
    pub signature: BitString<'a>,
    /// Certificates that help to verify it; empty if there is no list.
    pub certs: Items<'a, Certificates>,
}

/// The content of a BasicOCSPResponse.
struct BasicContent;

impl<'a> InPlace<'a> for BasicContent {
    type Read = BasicOcspResponse<'a>;

    ghost Value = { PlainBasic };

    ghost view = { view_basic };

    ghost layout = { basic_content };

    #[tactic(auto, using(layouts::proofs::OneAnswerLemmas::read_allowed, layouts::proofs::ItemsLemmas::none_in), unfolding(crate::specs::Response::basic_content))]
    fn read(i: &'a [u8]) -> IResult<&'a [u8], BasicOcspResponse<'a>> {
        let (i, tbs_response_data) = parsed!(tagged::<ResponseData>(i, tag::SEQUENCE));
        let (i, signature_algorithm) = parsed!(parse_algorithm_identifier(i));
        let (i, signature) = parsed!(tagged::<BitString>(i, tag::BIT_STRING));
        let (i, list) = parsed!(optional::<CertificateList>(i, 0xa0));
        let certs = match list {
            Some(certs) => certs,
            None => Items::new(&[]),
        };
        let response = BasicOcspResponse {
            tbs_response_data,
            signature_algorithm,
            signature,
            certs,
        };
        Ok((i, response))
    }
}

/// Parses a BasicOCSPResponse, without copying.
///
/// Statuses, extensions and certificates are lists: each item is parsed when the iterator reaches
/// it, and [`layouts::Items::refusal`] returns why an iterator ended early.
///
/// It refuses what [`crate::parse_ocsp_response`] does, and with kind `Verify` a time that doesn't
/// exist, an INTEGER that isn't the shortest and unused bits that are set.
#[tactic(auto, using(layouts::proofs::OneAnswerLemmas::read_allowed), unfolding(crate::specs::Response::basic_ocsp_response))]
pub fn parse_basic_ocsp_response(i: &[u8]) -> IResult<&[u8], BasicOcspResponse>
    ensures { Gives view_basic basic_ocsp_response i.now result }
{
    tagged::<BasicContent>(i, tag::SEQUENCE)
}
