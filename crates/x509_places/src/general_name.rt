//! Names of a subject or an issuer, with their places (RFC 5280, section 4.2.1.6).
#![tactic(auto, using(layouts::proofs::OneAnswerLemmas::read_allowed))]

ghost use Rattle.std.specs.Prelude.{◌≡◌, IfOk};
ghost use Rattle.layouts.specs.Answers.{Gives};
ghost use Rattle.layouts.specs.Items.{items_in};
ghost use Rattle.layouts.specs.Meaning.{EndsWith};
ghost use Rattle.x509.specs.GeneralName.{view_general_name, general_name, general_names};
ghost use Rattle.x509_places.specs.Place.{Stands};
ghost use Rattle.x509_places.specs.Walk.{name_content};

use crate::part::tagged_at;
use crate::place::place_before;
use crate::value::ItemsAt;
use der::tag;
use layouts::{IResult, InPlace, Items, Place};
use x509::{GeneralName, GeneralNames};

/// The content of a name's element.
#[inline(always)]
fn content_of<'a>(name: &GeneralName<'a>) -> &'a [u8]
    ensures { result.now ≡ name_content name.now }
{
    match name {
        GeneralName::Rfc822Name(b)
        | GeneralName::DnsName(b)
        | GeneralName::UniformResourceIdentifier(b)
        | GeneralName::IpAddress(b) => b,
        GeneralName::Other(e) => e.content,
    }
}

/// Parses one name at the front of `i`, with the place of its content in `whole`, if `i` is an end
/// of `whole`.
///
/// The result and the refusals are those of an item of [`GeneralNames`].
pub fn general_name_with_place<'a>(
    whole: &[u8],
    i: &'a [u8],
) -> IResult<&'a [u8], (GeneralName<'a>, Place)>
    ensures gives { Gives (λ x. view_general_name x.0) general_name i.now result }
    ensures places { EndsWith whole.now i.now
        → IfOk result (λ x. Stands whole.now x.1.1 (name_content x.1.0)) }
{
    let (rest, x) = GeneralNames::read(i)?;
    let content = content_of(&x);
    let place = place_before(whole, 0, content, rest);
    Ok((rest, (x, place)))
}

/// Parses GeneralNames at the front of `whole`, the value of subjectAltName and issuerAltName, with
/// the place of the names, without the tag and the length of their list.
///
/// The result and the refusals are those of [`x509::parse_general_names`].
#[tactic(auto, using(layouts::proofs::OneAnswerLemmas::read_allowed, crate::proofs::PlaceLemmas::whole_before), unfolding(x509::specs::GeneralName::general_names))]
pub fn general_names_with_place<'a>(
    whole: &'a [u8],
) -> IResult<&'a [u8], (Items<'a, GeneralNames>, Place)>
    ensures gives { Gives
        (λ x. items_in general_name x.0.bytes.now) general_names whole.now result }
    ensures places { IfOk result (λ x. Stands whole.now x.1.1 x.1.0.bytes.now) }
{
    tagged_at::<ItemsAt<GeneralNames>>(whole, 0, whole, tag::SEQUENCE)
}
