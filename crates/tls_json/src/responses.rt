//! OCSP responses by the names of RFC 6960, section 4.2.1. Nothing is verified.
ghost use Rattle.std.specs.Prelude.{IfOk, ◌≡◌, ◌++◌, map};
ghost use Rattle.std.specs.Option.{option_map};
ghost use Rattle.layouts.specs.Answers.{refusal_of};
ghost use Rattle.layouts.specs.Items.{items_in};
ghost use Rattle.layouts.specs.Reading.{reading};
ghost use Rattle.serde_json.specs.Data.{array};
ghost use Rattle.ocsp.specs.Response.{basic_ocsp_response, ocsp_response, view_basic, view_data, view_response, view_response_bytes};
ghost use Rattle.ocsp.specs.Single.{single_response, view_single};
ghost use Rattle.tls_json.specs.Views.{items_of};
ghost use Rattle.tls_json.specs.Outline.{Entries, object_of};
ghost use Rattle.tls_json.specs.Whole.{Is, HasMembers, name_or_code};
ghost use Rattle.tls_json.specs.Responses.{answer_entries, answered_entries, basic_entries, data_entries};
ghost use Rattle.tls_json.specs.Responses.{basic_or_error, cert_status_text};
ghost use Rattle.tls_json.specs.Responses.{kind_name as kind_name_of, read_whole};
ghost use Rattle.tls_json.specs.Responses.{reason_data, reason_entries};
ghost use Rattle.tls_json.specs.Responses.{reason_name as reason_name_of};
ghost use Rattle.tls_json.specs.Responses.{refusal_name as refusal_name_of, response_data};
ghost use Rattle.tls_json.specs.Responses.{response_entries, response_status_name};
ghost use Rattle.tls_json.specs.Responses.{revocation_entries, revoked_entries, single_data};
ghost use Rattle.tls_json.specs.Responses.{some_answer, status_data, viewed};

use crate::json::Value;
use crate::object::ObjectBuilder;
use layouts::{Err, Error, ErrorKind, Items, Needed};
use ocsp::{
    BasicOcspResponse, CertStatus, OcspResponse, OcspResponseStatus, ResponseBytes, ResponseData,
    RevokedInfo, SingleResponse, SingleResponses, oid, parse_basic_ocsp_response,
    parse_ocsp_response,
};
use std::alloc::{AllocError, Global};
use x509_text::{object_text, serial_number_text};

/// Returns the name of an OCSPResponseStatus.
fn status_name(status: OcspResponseStatus) -> Option<&'static str>
    ensures { option_map (λ t. t.now) result ≡ response_status_name status.0 }
{
    match status {
        OcspResponseStatus::SUCCESSFUL => Some("successful"),
        OcspResponseStatus::MALFORMED_REQUEST => Some("malformedRequest"),
        OcspResponseStatus::INTERNAL_ERROR => Some("internalError"),
        OcspResponseStatus::TRY_LATER => Some("tryLater"),
        OcspResponseStatus::SIG_REQUIRED => Some("sigRequired"),
        OcspResponseStatus::UNAUTHORIZED => Some("unauthorized"),
        _ => None,
    }
}

/// Returns the name of a CRLReason (RFC 5280, section 5.3.1).
fn reason_name(reason: u8) -> Option<&'static str>
    ensures { option_map (λ t. t.now) result ≡ reason_name_of reason }
{
    match reason {
        0 => Some("unspecified"),
        1 => Some("keyCompromise"),
        2 => Some("cACompromise"),
        3 => Some("affiliationChanged"),
        4 => Some("superseded"),
        5 => Some("cessationOfOperation"),
        6 => Some("certificateHold"),
        8 => Some("removeFromCRL"),
        9 => Some("privilegeWithdrawn"),
        10 => Some("aACompromise"),
        _ => None,
    }
}

/// Returns the name of a CertStatus.
fn cert_status_name(status: CertStatus) -> &'static str
    ensures { result.now ≡ cert_status_text status }
{
    match status {
        CertStatus::Good => "good",
        CertStatus::Revoked(_) => "revoked",
        CertStatus::Unknown => "unknown",
    }
}

/// Returns a code by its name, or its number if it has none.
fn code(name: Option<&'static str>, number: u8) -> Value
    ensures { Is (name_or_code (option_map (λ t. t.now) name.entry) number) result }
{
    match name {
        Some(name) => Value::Name(name),
        None => Value::Number(u64::from(number)),
    }
}

fn status_value(status: OcspResponseStatus) -> Value
    ensures { Is (status_data status.0) result }
{
    code(status_name(status), status.0)
}

fn reason_value(reason: u8) -> Value
    ensures { Is (reason_data reason) result }
{
    code(reason_name(reason), reason)
}

/// Adds why a certificate was revoked, if the response has it.
fn with_reason(object: ObjectBuilder, reason: Option<u8>) -> ObjectBuilder
    ensures { (es : Entries) → HasMembers es object
        → HasMembers (es ++ reason_entries reason) result }
{
    match reason {
        Some(reason) => object.add("revocationReason", Ok(reason_value(reason))),
        None => object,
    }
}

/// Adds when and why a certificate was revoked.
fn with_revoked(object: ObjectBuilder, info: RevokedInfo) -> ObjectBuilder
    ensures { (es : Entries) → HasMembers es object
        → HasMembers (es ++ revoked_entries info) result }
{
    let dated = object.whole("revocationTime", info.revocation_time);
    with_reason(dated, info.revocation_reason)
}

/// Adds when and why a certificate was revoked, if it was.
fn with_revocation(object: ObjectBuilder, status: CertStatus) -> ObjectBuilder
    ensures { (es : Entries) → HasMembers es object
        → HasMembers (es ++ revocation_entries status) result }
{
    match status {
        CertStatus::Revoked(info) => with_revoked(object, info),
        CertStatus::Good | CertStatus::Unknown => object,
    }
}

/// Writes a SingleResponse.
fn single(alloc: Global, response: &SingleResponse<'_>) -> Result<Value, AllocError>
    ensures { IfOk result (Is (single_data (view_single response.now))) }
{
    let serial_number = serial_number_text(alloc, response.cert_id.serial_number);
    let front = ObjectBuilder::new(alloc)
        .text("serialNumber", serial_number)
        .name("certStatus", cert_status_name(response.cert_status));
    with_revocation(front, response.cert_status)
        .whole("thisUpdate", response.this_update)
        .some_whole("nextUpdate", response.next_update)
        .finish()
}

/// Lists responses in order, up to the first that can't be read.
fn singles<'a>(alloc: Global, list: Items<'a, SingleResponses>) -> Result<Value, AllocError>
    ensures { IfOk result (Is (array (items_of (map single_data
        (items_in single_response list.entry.bytes.now))))) }
{
    let mut all = Vec::new(alloc);
    for response in list {
        all.push(single(alloc, &response)?)?;
    }
    Ok(Value::List(all))
}

/// Adds the fields of a ResponseData.
fn with_data(alloc: Global, object: ObjectBuilder, signed: &ResponseData<'_>) -> ObjectBuilder
    ensures { (es : Entries) → HasMembers es object
        → HasMembers (es ++ data_entries (view_data signed.now)) result }
{
    object
        .whole("producedAt", signed.produced_at)
        .add("responses", singles(alloc, signed.responses))
}

/// Adds the fields of a BasicOCSPResponse.
fn with_basic(alloc: Global, object: ObjectBuilder, basic: &BasicOcspResponse<'_>) -> ObjectBuilder
    ensures { (es : Entries) → HasMembers es object
        → HasMembers (es ++ basic_entries (view_basic basic.now)) result }
{
    with_data(alloc, object, &basic.tbs_response_data).text(
        "signatureAlgorithm",
        object_text(alloc, basic.signature_algorithm.algorithm),
    )
}

fn kind_name(kind: ErrorKind) -> &'static str
    ensures { result.now ≡ kind_name_of kind }
{
    match kind {
        ErrorKind::TooLarge => "too_large",
        ErrorKind::LengthValue => "length_value",
        ErrorKind::Verify => "verify",
        ErrorKind::Switch => "switch",
        ErrorKind::Tag => "tag",
        ErrorKind::Complete => "complete",
    }
}

/// Returns the name of the error for which bytes aren't parsed.
fn refusal_name(refusal: &Err<Error<&[u8]>>) -> &'static str
    ensures { result.now ≡ refusal_name_of (refusal_of refusal.now) }
{
    match refusal {
        Err::Incomplete(Needed::Size(_)) => "incomplete",
        Err::Error(error) => kind_name(error.code),
        _ => kind_name(ErrorKind::Complete),
    }
}

/// Parses a BasicOCSPResponse to its end, or returns the error's name.
fn basic_in<'a>(bytes: &'a [u8]) -> Result<BasicOcspResponse<'a>, &'static str>
    ensures { viewed view_basic result ≡ read_whole (reading basic_ocsp_response bytes.now) }
{
    match parse_basic_ocsp_response(bytes) {
        Ok(([], basic)) => Ok(basic),
        Ok((_, _)) => Err("trailing"),
        Err(refusal) => Err(refusal_name(&refusal)),
    }
}

/// Parses an OCSPResponse to its end, or returns the error's name.
fn response_in<'a>(bytes: &'a [u8]) -> Result<OcspResponse<'a>, &'static str>
    ensures { viewed view_response result ≡ read_whole (reading ocsp_response bytes.now) }
{
    match parse_ocsp_response(bytes) {
        Ok(([], response)) => Ok(response),
        Ok((_, _)) => Err("trailing"),
        Err(refusal) => Err(refusal_name(&refusal)),
    }
}

/// Adds the fields of a BasicOCSPResponse, or the name of the error.
fn with_basic_in(alloc: Global, object: ObjectBuilder, bytes: &[u8]) -> ObjectBuilder
    ensures { (es : Entries) → HasMembers es object → HasMembers
        (es ++ basic_or_error (read_whole (reading basic_ocsp_response bytes.now))) result }
{
    match basic_in(bytes) {
        Ok(basic) => with_basic(alloc, object, &basic),
        Err(name) => object.name("error", name),
    }
}

/// Adds the fields of a BasicOCSPResponse, if the answer has this type.
fn with_answered(alloc: Global, object: ObjectBuilder, answer: &ResponseBytes<'_>) -> ObjectBuilder
    ensures { (es : Entries) → HasMembers es object
        → HasMembers (es ++ answered_entries (view_response_bytes answer.now)) result }
{
    if answer.response_type.content == oid::BASIC.content {
        with_basic_in(alloc, object, answer.response)
    } else {
        object
    }
}

/// Adds the fields of a ResponseBytes: its type, and what a BasicOCSPResponse has.
fn with_answer(alloc: Global, object: ObjectBuilder, answer: &ResponseBytes<'_>) -> ObjectBuilder
    ensures { (es : Entries) → HasMembers es object
        → HasMembers (es ++ answer_entries (view_response_bytes answer.now)) result }
{
    let typed = object.text("responseType", object_text(alloc, answer.response_type));
    with_answered(alloc, typed, answer)
}

/// Adds the fields of a ResponseBytes, if there is one.
fn with_some_answer(
    alloc: Global,
    object: ObjectBuilder,
    answer: &Option<ResponseBytes<'_>>,
) -> ObjectBuilder
    ensures { (es : Entries) → HasMembers es object → HasMembers
        (es ++ some_answer (option_map view_response_bytes answer.now)) result }
{
    match answer {
        Some(answer) => with_answer(alloc, object, answer),
        None => object,
    }
}

/// Writes the fields of an OCSPResponse.
fn fields(alloc: Global, response: &OcspResponse<'_>) -> Result<Value, AllocError>
    ensures { IfOk result (Is (object_of (response_entries (view_response response.now)))) }
{
    let status = status_value(response.response_status);
    let front = ObjectBuilder::new(alloc).add("responseStatus", Ok(status));
    with_some_answer(alloc, front, &response.response_bytes).finish()
}

/// Writes an OCSPResponse by its fields, or the name of the error if it can't be parsed to its end.
pub fn ocsp_response(alloc: Global, bytes: &[u8]) -> Result<Value, AllocError>
    ensures { IfOk result (Is (response_data bytes.now)) }
{
    match response_in(bytes) {
        Ok(response) => fields(alloc, &response),
        Err(name) => ObjectBuilder::new(alloc).name("error", name).finish(),
    }
}
