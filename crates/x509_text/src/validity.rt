//! When a certificate is valid, against a time (RFC 5280, section 4.1.2.5).
ghost use Rattle.std.specs.Prelude.{◌≡◌, ◌<ℤ◌, IsTrue, ◌↔◌};
ghost use Rattle.x509_text.specs.Validity.{validity_days as validity_days_of};

use x509::Validity;

/// Whether a certificate has expired `at` a time: after its last second.
pub fn has_expired(validity: Validity, at: i64) -> bool
    ensures { IsTrue result ↔ validity.not_after <ℤ at }
{
    validity.not_after < at
}

/// Whether a certificate isn't valid yet `at` a time: before its first second.
pub fn is_not_yet_valid(validity: Validity, at: i64) -> bool
    ensures { IsTrue result ↔ at <ℤ validity.not_before }
{
    at < validity.not_before
}

/// How many whole days, of 86,400 seconds, a certificate is valid: from its first second to its
/// last.
///
/// `None` if it ends before it begins.
pub fn validity_days(validity: Validity) -> Option<u64>
    ensures { result ≡ validity_days_of validity }
{
    let seconds = i128::from(validity.not_after) - i128::from(validity.not_before);
    match u64::try_from(seconds) {
        Ok(seconds) => Some(seconds / 86_400),
        Err(_) => None,
    }
}
