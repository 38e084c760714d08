//! When a certificate is valid (RFC 5280, section 4.1.2.5).
#![tactic(auto, using(layouts::proofs::OneAnswerLemmas::read_allowed))]

ghost use Rattle.layouts.specs.Answers.{Gives};
ghost use Rattle.x509.specs.Certificate.{time as time_layout, validity_content, validity};

use der::{GeneralizedTime, UtcTime, tag, tagged};
use layouts::{ErrorKind, IResult, InPlace, number1, parsed, refused};

/// Parses a Time, in seconds since 1970-01-01 00:00:00 UTC: a UTCTime of a year from 1950 to 2049,
/// or a GeneralizedTime.
///
/// - `Incomplete` with the count of missing bytes.
/// - `Error` of kind `Tag` if it is neither.
/// - What [`der::tagged`] and [`UtcTime`] or [`GeneralizedTime`] refuse.
#[tactic(auto, using(layouts::proofs::OneAnswerLemmas::read_allowed), unfolding(crate::specs::Certificate::time, crate::specs::Certificate::time_by))]
pub fn parse_time(i: &[u8]) -> IResult<&[u8], i64>
    ensures { Gives (λ v. v) time_layout i.now result }
{
    let (_, t) = parsed!(number1(i));
    match t {
        tag::UTC_TIME => tagged::<UtcTime>(i, tag::UTC_TIME),
        tag::GENERALIZED_TIME => tagged::<GeneralizedTime>(i, tag::GENERALIZED_TIME),
        _ => refused(i, ErrorKind::Tag),
    }
}

/// The time in which a certificate is valid, inclusive, in seconds since 1970-01-01 00:00:00 UTC.
#[derive(Clone, Copy, Debug, PartialEq, Eq)]
pub struct Validity {
    /// The first second.
    pub not_before: i64,
    /// The last second.
    pub not_after: i64,
}

/// The content of a Validity.
struct ValidityContent;

impl<'a> InPlace<'a> for ValidityContent {
    type Read = Validity;

    ghost use Rattle.x509.specs.declared.validity.Validity.{Validity as PlainValidity};

    ghost Value = { PlainValidity };

    ghost view = { λ v. v };

    ghost layout = { validity_content };

    #[tactic(auto, using(layouts::proofs::OneAnswerLemmas::read_allowed), unfolding(crate::specs::Certificate::validity_content))]
    fn read(i: &'a [u8]) -> IResult<&'a [u8], Validity> {
        let (i, not_before) = parsed!(parse_time(i));
        let (i, not_after) = parsed!(parse_time(i));
        let validity = Validity {
            not_before,
            not_after,
        };
        Ok((i, validity))
    }
}

/// Parses a Validity.
#[tactic(auto, using(layouts::proofs::OneAnswerLemmas::read_allowed), unfolding(crate::specs::Certificate::validity))]
pub(crate) fn parse_validity(i: &[u8]) -> IResult<&[u8], Validity>
    ensures { Gives (λ v. v) validity i.now result }
{
    tagged::<ValidityContent>(i, tag::SEQUENCE)
}
