//! Lists of signed certificate timestamps in extensions (RFC 6962, section 3.3).

ghost use Rattle.layouts.specs.Answers.{Gives};
ghost use Rattle.ocsp.specs.Timestamps.{timestamp_list};

use der::{AllBytes, tag, tagged};
use layouts::IResult;

/// Parses the value of the extension [`crate::oid::CERTIFICATE_TIMESTAMPS`] or
/// [`crate::oid::OCSP_TIMESTAMPS`]: an OCTET STRING. Returns its content, which is a list of
/// timestamps as TLS encodes it.
///
/// It refuses what [`der::tagged`] does.
#[tactic(auto, using(layouts::proofs::OneAnswerLemmas::read_allowed), unfolding(crate::specs::Timestamps::timestamp_list))]
pub fn parse_timestamp_list(i: &[u8]) -> IResult<&[u8], &[u8]>
    ensures { Gives (λ v. v.now) timestamp_list i.now result }
{
    tagged::<AllBytes>(i, tag::OCTET_STRING)
}
