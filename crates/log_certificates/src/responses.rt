//! Stapled OCSP responses: what they say about the server's certificate (RFC 6960, section 4.2).
//! Nothing is verified.
ghost use Rattle.std.specs.Prelude.{◌≡◌, IfOk};
ghost use Rattle.std.specs.Option.{option_and_then, option_map};
ghost use Rattle.layouts.specs.Items.{items_in};
ghost use Rattle.tls_key_exchange.specs.Timestamp.{serialized_timestamp};
ghost use Rattle.ocsp.specs.Response.{view_basic, view_response, view_response_bytes};
ghost use Rattle.ocsp.specs.Single.{view_single};
ghost use Rattle.log_formats.specs.Data.{value_of};
ghost use Rattle.log_formats.specs.Texts.{text_bytes};
ghost use Rattle.log_certificates.specs.Responses.{Answered, basic_in, cert_status_text};
ghost use Rattle.log_certificates.specs.Responses.{next_update_value};
ghost use Rattle.log_certificates.specs.Responses.{refusal_name as refusal_name_of, revocation_time};
ghost use Rattle.log_certificates.specs.Responses.{revoked_at_value, single_by, single_of};
ghost use Rattle.log_certificates.specs.Responses.{stapled_count_value, stapled_in};
ghost use Rattle.log_certificates.specs.Responses.{stapled_logs_value, stapled_status_value};
ghost use Rattle.log_certificates.specs.Responses.{stapled_text, stapled_times_value};
ghost use Rattle.log_certificates.specs.Responses.{stapled_timestamps, status_in};
ghost use Rattle.log_certificates.specs.Responses.{this_update_value, view_stapled};

use crate::timestamps::{count_cell, listed_in, logs_cell, no_timestamps, times_cell, times_of};
use layouts::Items;
use log_formats::cell::Cell;
use log_formats::text::{Text, name_or_number};
use ocsp::{
    BasicOcspResponse, CertStatus, OcspResponse, OcspResponseStatus, ResponseBytes, SingleResponse,
    oid, parse_basic_ocsp_response, parse_ocsp_response, response_for,
};
use std::alloc::{AllocError, Global};
use tls_key_exchange::SignedCertificateTimestamp;
use x509::first_extension;

/// What a response says about a certificate.
#[derive(Clone, Copy)]
pub enum StapledStatus<'a> {
    /// The responder refused to answer: a status other than successful.
    Refused(OcspResponseStatus),
    /// The responder's answer for the certificate.
    Answered(SingleResponse<'a>),
}

/// Returns the answer in the basic form; `None` in another form, and if it doesn't parse.
fn basic_of<'a>(answer: &ResponseBytes<'a>) -> Option<BasicOcspResponse<'a>>
    ensures { option_map view_basic result ≡ basic_in (view_response_bytes answer.now) }
{
    if answer.response_type.content == oid::BASIC.content {
        match parse_basic_ocsp_response(answer.response) {
            Ok((_, basic)) => Some(basic),
            Err(_) => None,
        }
    } else {
        None
    }
}

/// Returns an answer's response for the certificate with this serial number.
fn single_for<'a>(
    serial_number: Option<&[u8]>,
    basic: Option<BasicOcspResponse<'a>>,
) -> Option<SingleResponse<'a>>
    ensures { option_map view_single result ≡ single_by (option_map (λ n. n.now) serial_number.entry)
        (option_map view_basic basic.entry) }
{
    let serial_number = serial_number?;
    let basic = basic?;
    response_for(basic.tbs_response_data.responses, serial_number)
}

/// Returns the answer in a response, if there is one.
fn answer_of<'a>(response: &OcspResponse<'a>) -> Option<BasicOcspResponse<'a>>
    ensures { option_map view_basic result
        ≡ option_and_then basic_in (view_response response.now).response_bytes }
{
    match &response.response_bytes {
        Some(answer) => basic_of(answer),
        None => None,
    }
}

/// Returns the answer for a certificate as its status, if there is one.
fn answered<'a>(single: Option<SingleResponse<'a>>) -> Option<StapledStatus<'a>>
    ensures { option_map view_stapled result
        ≡ option_map Answered (option_map view_single single.entry) }
{
    match single {
        Some(single) => Some(StapledStatus::Answered(single)),
        None => None,
    }
}

/// Returns what a parsed response says about the certificate with this serial number.
fn status_of<'a>(
    serial_number: Option<&[u8]>,
    response: &OcspResponse<'a>,
) -> Option<StapledStatus<'a>>
    ensures { option_map view_stapled result
        ≡ status_in (option_map (λ n. n.now) serial_number.entry) (view_response response.now) }
{
    match response.response_status {
        OcspResponseStatus::SUCCESSFUL => answered(single_for(serial_number, answer_of(response))),
        refusal => Some(StapledStatus::Refused(refusal)),
    }
}

/// Returns what a response's bytes say about the certificate with this serial number (an INTEGER's
/// bytes): its status, or that the responder refused to answer.
///
/// `None` if the response doesn't parse, or doesn't answer for that certificate. The hashes of the
/// issuer aren't compared.
pub fn stapled_status<'a>(
    response: Option<&'a [u8]>,
    serial_number: Option<&[u8]>,
) -> Option<StapledStatus<'a>>
    ensures { option_map view_stapled result ≡ stapled_in (option_map (λ b. b.now) response.entry)
        (option_map (λ n. n.now) serial_number.entry) }
{
    match parse_ocsp_response(response?) {
        Ok((_, response)) => status_of(serial_number, &response),
        Err(_) => None,
    }
}

/// Returns RFC 6960's name for the status of a responder that refused.
fn refusal_name(status: OcspResponseStatus) -> Option<&'static str>
    ensures { option_map (λ t. t.now) result ≡ refusal_name_of status.0 }
{
    match status {
        OcspResponseStatus::MALFORMED_REQUEST => Some("malformedRequest"),
        OcspResponseStatus::INTERNAL_ERROR => Some("internalError"),
        OcspResponseStatus::TRY_LATER => Some("tryLater"),
        OcspResponseStatus::SIG_REQUIRED => Some("sigRequired"),
        OcspResponseStatus::UNAUTHORIZED => Some("unauthorized"),
        _ => None,
    }
}

/// Returns RFC 6960's name for the status of a certificate.
fn cert_status_name(status: CertStatus) -> &'static str
    ensures { result.now ≡ cert_status_text status }
{
    match status {
        CertStatus::Good => "good",
        CertStatus::Revoked(_) => "revoked",
        CertStatus::Unknown => "unknown",
    }
}

/// Returns the name of a status.
fn status_text<'c>(status: &StapledStatus<'_>) -> Text<'c>
    ensures { text_bytes result ≡ stapled_text (view_stapled status.now) }
{
    match status {
        StapledStatus::Refused(status) => {
            name_or_number(refusal_name(*status), u16::from(status.0))
        }
        StapledStatus::Answered(single) => Text::Plain(cert_status_name(single.cert_status)),
    }
}

/// Returns the name of the status as a value; `None` without one.
pub fn stapled_status_cell<'c>(status: Option<StapledStatus<'_>>) -> Option<Cell<'c>>
    ensures { value_of result ≡ stapled_status_value (option_map view_stapled status.entry) }
{
    match status {
        Some(status) => Some(Cell::Text(status_text(&status))),
        None => None,
    }
}

/// Returns the response for the certificate, if the responder answered.
fn single_in<'a>(status: Option<StapledStatus<'a>>) -> Option<SingleResponse<'a>>
    ensures { option_map view_single result ≡ single_of (option_map view_stapled status.entry) }
{
    match status {
        Some(StapledStatus::Answered(single)) => Some(single),
        Some(StapledStatus::Refused(_)) | None => None,
    }
}

/// Returns when the status was known to be right, in seconds since 1970-01-01 00:00 UTC.
pub fn this_update_cell<'c>(status: Option<StapledStatus<'_>>) -> Option<Cell<'c>>
    ensures { value_of result ≡ this_update_value (option_map view_stapled status.entry) }
{
    let single = single_in(status)?;
    Some(Cell::Whole(single.this_update))
}

/// Returns when a newer status will be there, in seconds since 1970-01-01 00:00 UTC.
pub fn next_update_cell<'c>(status: Option<StapledStatus<'_>>) -> Option<Cell<'c>>
    ensures { value_of result ≡ next_update_value (option_map view_stapled status.entry) }
{
    let single = single_in(status)?;
    Some(Cell::Whole(single.next_update?))
}

/// Returns when a certificate of this status was revoked.
fn revocation_of(status: CertStatus) -> Option<i64>
    ensures { result ≡ revocation_time status }
{
    match status {
        CertStatus::Revoked(info) => Some(info.revocation_time),
        CertStatus::Good | CertStatus::Unknown => None,
    }
}

/// Returns when the certificate was revoked, in seconds since 1970-01-01 00:00 UTC; `None` if it
/// wasn't.
pub fn revoked_at_cell<'c>(status: Option<StapledStatus<'_>>) -> Option<Cell<'c>>
    ensures { value_of result ≡ revoked_at_value (option_map view_stapled status.entry) }
{
    let single = single_in(status)?;
    Some(Cell::Whole(revocation_of(single.cert_status)?))
}

/// Returns the timestamps in a response for a certificate (RFC 6962, section 3.3); none if they
/// can't be read.
fn timestamps_in<'a>(
    single: Option<SingleResponse<'a>>,
) -> Items<'a, SignedCertificateTimestamp<'a>>
    ensures { items_in serialized_timestamp result.bytes.now
        ≡ stapled_timestamps (option_map view_single single.entry) }
{
    match single {
        Some(single) => listed_in(first_extension(single.extensions, oid::OCSP_TIMESTAMPS)),
        None => no_timestamps(),
    }
}

/// Returns how many timestamps the response has; `None` instead of 0.
#[tactic(auto, using(crate::proofs::TimestampLemmas::count_times))]
pub fn stapled_count_cell<'c>(
    alloc: Global,
    status: Option<StapledStatus<'_>>,
) -> Result<Option<Cell<'c>>, AllocError>
    ensures { IfOk result (λ cell. value_of cell
        ≡ stapled_count_value (option_map view_stapled status.entry)) }
{
    let times = times_of(alloc, timestamps_in(single_in(status)))?;
    Ok(count_cell(times.as_slice()))
}

/// Returns the ids of the logs that signed the response's timestamps.
pub fn stapled_logs_cell<'c>(
    alloc: Global,
    status: Option<StapledStatus<'_>>,
) -> Result<Option<Cell<'c>>, AllocError>
    ensures { IfOk result (λ cell. value_of cell
        ≡ stapled_logs_value (option_map view_stapled status.entry)) }
{
    logs_cell(alloc, timestamps_in(single_in(status)))
}

/// Returns when the response's timestamps were signed, in milliseconds since 1970-01-01 00:00 UTC.
pub fn stapled_times_cell<'c>(
    alloc: Global,
    status: Option<StapledStatus<'_>>,
) -> Result<Option<Cell<'c>>, AllocError>
    ensures { IfOk result (λ cell. value_of cell
        ≡ stapled_times_value (option_map view_stapled status.entry)) }
{
    times_cell(alloc, timestamps_in(single_in(status)))
}
