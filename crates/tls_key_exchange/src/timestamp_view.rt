//! Timestamps of certificates in place (RFC 6962, section 3.3).
ghost use Rattle.layouts.specs.Answers.{Gives};
ghost use Rattle.layouts.specs.Items.{items_in};
ghost use Rattle.tls_key_exchange.specs.Timestamp.{serialized_timestamp, timestamp_list};

use crate::timestamp::SignedCertificateTimestamp;
use layouts::{IResult, Items, counted2, parsed};

/// Reads a list of timestamps in place (RFC 6962, section 3.3). Gives the same answer as
/// [`crate::parse_ct_signed_certificate_timestamp_list`], but allocates nothing.
///
/// `Incomplete` with the bytes missing from the length, or else from the list. Each timestamp is
/// read when the walk reaches it.
#[inline(always)]
pub fn certificate_timestamps(i: &[u8]) -> IResult<&[u8], Items<SignedCertificateTimestamp>>
    ensures { Gives (λ v. items_in serialized_timestamp v.bytes.now) timestamp_list i.now result }
{
    let (i, window) = parsed!(counted2(i));
    Ok((i, Items::new(window)))
}
