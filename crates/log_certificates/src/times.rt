//! The times between which a certificate is valid (RFC 5280, section 4.1.2.5).
ghost use Rattle.std.specs.Prelude.{◌≡◌};
ghost use Rattle.log_formats.specs.Data.{value_of};
ghost use Rattle.log_certificates.specs.Read.{view_read};
ghost use Rattle.log_certificates.specs.Values.{days_between, days_value};
ghost use Rattle.log_certificates.specs.Values.{has_expired as has_expired_at};
ghost use Rattle.log_certificates.specs.Values.{is_not_yet_valid as is_not_yet_valid_at};
ghost use Rattle.log_certificates.specs.Values.{seconds_of as whole_seconds, time_value};

use crate::read::ReadCertificate;
use log_formats::cell::Cell;
use log_formats::text::Text;
use std::alloc::{AllocError, Global};
use x509::Validity;
use x509_text::{time_text, validity_days};

/// Returns the seconds since 1970-01-01 00:00 UTC of a time in nanoseconds.
fn seconds_of(time: u64) -> i64
    ensures { result ≡ whole_seconds time }
{
    (time / 1_000_000_000) as i64
}

/// Returns whether its last second was before a time, in nanoseconds since 1970-01-01 00:00 UTC;
/// false if its end can't be read.
pub fn has_expired(certificate: &ReadCertificate<'_>, time: u64) -> bool
    ensures { result ≡ has_expired_at (view_read certificate.now) time }
{
    match certificate.not_after() {
        Some(end) => end < seconds_of(time),
        None => false,
    }
}

/// Returns whether its first second is after a time, in nanoseconds since 1970-01-01 00:00 UTC;
/// false if its beginning can't be read.
pub fn is_not_yet_valid(certificate: &ReadCertificate<'_>, time: u64) -> bool
    ensures { result ≡ is_not_yet_valid_at (view_read certificate.now) time }
{
    match certificate.not_before() {
        Some(start) => seconds_of(time) < start,
        None => false,
    }
}

/// Returns how many whole days it is valid; `None` if a time can't be read, or it ends before it
/// begins.
fn days_of(certificate: &ReadCertificate<'_>) -> Option<u64>
    ensures { result ≡ days_between (view_read certificate.now).not_before
        (view_read certificate.now).not_after }
{
    let not_before = certificate.not_before()?;
    let not_after = certificate.not_after()?;
    validity_days(Validity {
        not_before,
        not_after,
    })
}

/// Returns [`days_of`] as a value.
pub(crate) fn days_cell<'c>(certificate: &ReadCertificate<'_>) -> Option<Cell<'c>>
    ensures { value_of result ≡ days_value (view_read certificate.now).not_before
        (view_read certificate.now).not_after }
{
    Some(Cell::Number(days_of(certificate)?))
}

/// Returns a time as text; `None` if it can't be read, or the calendar doesn't have it.
pub(crate) fn time_cell<'c>(
    alloc: Global,
    seconds: Option<i64>,
) -> Result<Option<Cell<'c>>, AllocError> {
    let Some(seconds) = seconds else {
        return Ok(None);
    };
    match time_text(alloc, seconds)? {
        Some(text) => Ok(Some(Cell::Text(Text::Owned(text)))),
        None => Ok(None),
    }
}

/// Returns its first second; `None` if it can't be read.
pub(crate) fn start_cell<'c>(certificate: &ReadCertificate<'_>) -> Option<Cell<'c>>
    ensures { value_of result ≡ time_value (view_read certificate.now).not_before }
{
    Some(Cell::Whole(certificate.not_before()?))
}

/// Returns its last second; `None` if it can't be read.
pub(crate) fn end_cell<'c>(certificate: &ReadCertificate<'_>) -> Option<Cell<'c>>
    ensures { value_of result ≡ time_value (view_read certificate.now).not_after }
{
    Some(Cell::Whole(certificate.not_after()?))
}
