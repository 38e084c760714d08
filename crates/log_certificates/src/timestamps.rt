//! Signed certificate timestamps: in a certificate's extension (RFC 6962, section 3.3), or in a
//! list from elsewhere.
ghost use Rattle.std.specs.Prelude.{◌≡◌, [], IfOk};
ghost use Rattle.std.specs.Option.{option_map, unwrap_or};
ghost use Rattle.layouts.specs.Items.{items_in};
ghost use Rattle.tls_key_exchange.specs.Timestamp.{serialized_timestamp};
ghost use Rattle.x509.specs.Certificate.{extension, view_extension};
ghost use Rattle.log_formats.specs.Data.{value_of};
ghost use Rattle.log_certificates.specs.Read.{view_read};
ghost use Rattle.log_certificates.specs.Timestamps.{count_value, ids_in, list_by, logs_value, times_in};
ghost use Rattle.log_certificates.specs.Timestamps.{times_value, timestamp_count_value};
ghost use Rattle.log_certificates.specs.Timestamps.{timestamp_logs_value, timestamp_times_value};
ghost use Rattle.log_certificates.specs.Timestamps.{timestamps_in};

use crate::read::ReadCertificate;
use layouts::Items;
use log_formats::cell::Cell;
use log_formats::lists::{Numbers, Texts, some_numbers, some_texts};
use ocsp::{oid, parse_timestamp_list};
use std::alloc::{AllocError, Global};
use tls_key_exchange::{SignedCertificateTimestamp, certificate_timestamps};
use x509::{Extension, Extensions, first_extension};

/// Returns no timestamps.
pub(crate) fn no_timestamps<'a>() -> Items<'a, SignedCertificateTimestamp<'a>>
    ensures { items_in serialized_timestamp result.bytes.now ≡ [] }
{
    Items::new(&[])
}

/// Returns the timestamps in an extension (RFC 6962, section 3.3); none without one, and if they
/// can't be read.
pub(crate) fn listed_in<'a>(
    found: Option<Extension<'a>>,
) -> Items<'a, SignedCertificateTimestamp<'a>>
    ensures { items_in serialized_timestamp result.bytes.now
        ≡ unwrap_or (list_by (option_map view_extension found.entry)) [] }
{
    let Some(found) = found else {
        return no_timestamps();
    };
    let Ok((_, list)) = parse_timestamp_list(found.extn_value) else {
        return no_timestamps();
    };
    match certificate_timestamps(list) {
        Ok((_, timestamps)) => timestamps,
        Err(_) => no_timestamps(),
    }
}

/// Returns the timestamps in a certificate's extensions; none if they can't be read.
pub(crate) fn timestamps_of<'a>(
    extensions: Items<'a, Extensions>,
) -> Items<'a, SignedCertificateTimestamp<'a>>
    ensures { items_in serialized_timestamp result.bytes.now
        ≡ timestamps_in (items_in extension extensions.entry.bytes.now) }
{
    listed_in(first_extension(extensions, oid::CERTIFICATE_TIMESTAMPS))
}

/// Returns the ids of the logs that signed these timestamps.
fn ids_of<'a>(
    alloc: Global,
    timestamps: Items<'a, SignedCertificateTimestamp<'a>>,
) -> Result<Vec<[u8; 32]>, AllocError>
    ensures { IfOk result (λ ids. ids.items
        ≡ ids_in (items_in serialized_timestamp timestamps.entry.bytes.now)) }
{
    let mut ids = Vec::new(alloc);
    for timestamp in timestamps {
        ids.push(*timestamp.id.key_id)?;
    }
    Ok(ids)
}

/// Returns when these timestamps were signed, in milliseconds since 1970-01-01 00:00 UTC.
pub(crate) fn times_of<'a>(
    alloc: Global,
    timestamps: Items<'a, SignedCertificateTimestamp<'a>>,
) -> Result<Vec<u64>, AllocError>
    ensures { IfOk result (λ all. all.items
        ≡ times_in (items_in serialized_timestamp timestamps.entry.bytes.now)) }
{
    let mut all = Vec::new(alloc);
    for timestamp in timestamps {
        all.push(timestamp.timestamp)?;
    }
    Ok(all)
}

/// Returns the ids of the logs that signed these timestamps as a value; `None` if there are none.
pub fn logs_cell<'a, 'c>(
    alloc: Global,
    timestamps: Items<'a, SignedCertificateTimestamp<'a>>,
) -> Result<Option<Cell<'c>>, AllocError>
    ensures { IfOk result (λ cell. value_of cell
        ≡ logs_value (items_in serialized_timestamp timestamps.entry.bytes.now)) }
{
    Ok(some_texts(Texts::Digests(ids_of(alloc, timestamps)?)))
}

/// Returns when these timestamps were signed, in milliseconds since 1970-01-01 00:00 UTC, as a
/// value; `None` if there are none.
pub fn times_cell<'a, 'c>(
    alloc: Global,
    timestamps: Items<'a, SignedCertificateTimestamp<'a>>,
) -> Result<Option<Cell<'c>>, AllocError>
    ensures { IfOk result (λ cell. value_of cell
        ≡ times_value (items_in serialized_timestamp timestamps.entry.bytes.now)) }
{
    Ok(some_numbers(Numbers::Owned(times_of(alloc, timestamps)?)))
}

/// Returns how many times there are; `None` instead of 0.
pub(crate) fn count_cell<'c>(times: &[u64]) -> Option<Cell<'c>>
    ensures { value_of result ≡ count_value times.now }
{
    match times {
        [] => None,
        _ => Some(Cell::Number(times.len() as u64)),
    }
}

/// Returns how many timestamps a certificate has; `None` without one.
#[tactic(auto, using(crate::proofs::TimestampLemmas::count_times))]
pub(crate) fn timestamp_count_cell<'c>(
    alloc: Global,
    read: &ReadCertificate<'_>,
) -> Result<Option<Cell<'c>>, AllocError>
    ensures { IfOk result
        (λ cell. value_of cell ≡ timestamp_count_value (view_read read.now).extensions) }
{
    match read.extensions() {
        Some(extensions) => {
            let times = times_of(alloc, timestamps_of(extensions))?;
            Ok(count_cell(times.as_slice()))
        }
        None => Ok(None),
    }
}

/// Returns the ids of the logs that signed a certificate's timestamps.
pub(crate) fn timestamp_logs_cell<'c>(
    alloc: Global,
    read: &ReadCertificate<'_>,
) -> Result<Option<Cell<'c>>, AllocError>
    ensures { IfOk result
        (λ cell. value_of cell ≡ timestamp_logs_value (view_read read.now).extensions) }
{
    match read.extensions() {
        Some(extensions) => logs_cell(alloc, timestamps_of(extensions)),
        None => Ok(None),
    }
}

/// Returns when a certificate's timestamps were signed.
pub(crate) fn timestamp_times_cell<'c>(
    alloc: Global,
    read: &ReadCertificate<'_>,
) -> Result<Option<Cell<'c>>, AllocError>
    ensures { IfOk result
        (λ cell. value_of cell ≡ timestamp_times_value (view_read read.now).extensions) }
{
    match read.extensions() {
        Some(extensions) => times_cell(alloc, timestamps_of(extensions)),
        None => Ok(None),
    }
}
