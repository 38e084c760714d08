//! IPv6 datagrams longer than 65,535 bytes (RFC 2675).
#![tactic(auto, using(layouts::proofs::OneAnswerLemmas::read_allowed), unfolding(crate::specs::Jumbo::other_option, crate::specs::Jumbo::jumbo_length, crate::specs::Jumbo::payload_length))]

ghost use Rattle.layouts.specs.Layout.{complete};
ghost use Rattle.layouts.specs.Answers.{Gives};
ghost use Rattle.capture.specs.Jumbo.{other_option, jumbo_option as jumbo_option_layout};
ghost use Rattle.capture.specs.Jumbo.{jumbo_length as jumbo_length_layout, payload_length as payload_length_layout};

use layouts::{Err, ErrorKind, IResult, InPlace, Items, block, number1, number4, parsed, refused};

/// The type of the jumbo payload option.
const JUMBO_PAYLOAD: u8 = 0xc2;

/// A Hop-by-Hop option that isn't a jumbo payload.
struct OtherOption;

impl<'a> InPlace<'a> for OtherOption {
    type Read = ();

    ghost Value = { Unit };

    ghost view = { λ v. v };

    ghost layout = { other_option };

    fn read(i: &'a [u8]) -> IResult<&'a [u8], ()> {
        let (i, kind) = parsed!(number1(i));
        if kind == JUMBO_PAYLOAD {
            return refused(i, ErrorKind::Tag);
        }
        if kind == 0 {
            return Ok((i, ()));
        }
        let (i, len) = parsed!(number1(i));
        let (i, _) = parsed!(block(i, len as usize));
        Ok((i, ()))
    }
}

/// Parses the first jumbo payload option, behind others: returns its length.
#[tactic(auto, using(layouts::proofs::OneAnswerLemmas::read_allowed), unfolding(crate::specs::Jumbo::jumbo_option))]
fn jumbo_option(i: &[u8]) -> IResult<&[u8], u32>
    ensures { Gives (λ v. v) jumbo_option_layout i.now result }
{
    let (i, kind) = parsed!(number1(Items::<OtherOption>::new(i).rest()));
    if kind != JUMBO_PAYLOAD {
        return refused(i, ErrorKind::Tag);
    }
    let (i, len) = parsed!(number1(i));
    if len != 4 {
        return refused(i, ErrorKind::LengthValue);
    }
    number4(i)
}

/// Parses the first jumbo payload option among the options, all of `i`. If there is none or it
/// doesn't fit, this is an `Error` of kind `Complete`.
fn whole_option(i: &[u8]) -> IResult<&[u8], u32>
    ensures { Gives (λ v. v) (complete jumbo_option_layout) i.now result }
{
    match jumbo_option(i) {
        Err(Err::Incomplete(_)) => refused(i, ErrorKind::Complete),
        answer => answer,
    }
}

/// Parses a Hop-by-Hop Options header: returns the length in its jumbo payload. `Error` of kind
/// `LengthValue` if that is below 65,536.
fn jumbo_length(i: &[u8]) -> IResult<&[u8], u32>
    ensures { Gives (λ v. v) jumbo_length_layout i.now result }
{
    let (i, _) = parsed!(block(i, 1));
    let (i, words) = parsed!(number1(i));
    let (i, options) = parsed!(block(i, words as usize * 8 + 6));
    let (_, len) = parsed!(whole_option(options));
    if len < 65536 {
        return refused(i, ErrorKind::LengthValue);
    }
    Ok((i, len))
}

/// Returns how many bytes follow an IPv6 header with this payload length and next header. It takes
/// no bytes.
pub(crate) fn payload_length(i: &[u8], len: u16, next: u8) -> IResult<&[u8], u32>
    ensures { Gives (λ v. v) (payload_length_layout len next) i.now result }
{
    if len == 0 && next == 0 {
        let (_, len) = parsed!(jumbo_length(i));
        return Ok((i, len));
    }
    Ok((i, len as u32))
}
