//! Extensions, with the places of their parts (RFC 5280, section 4.2).
#![tactic(auto, using(layouts::proofs::OneAnswerLemmas::read_allowed))]

ghost use Rattle.std.specs.Prelude.{IfOk};
ghost use Rattle.layouts.specs.Answers.{Gives};
ghost use Rattle.layouts.specs.Meaning.{EndsWith};
ghost use Rattle.x509.specs.Certificate.{Extension as PlainExtension, view_extension, extension_content, extension};
ghost use Rattle.x509_places.specs.Walk.{ExtensionStands};

use crate::part::{Part, tagged_at};
use crate::value::{AllBytesAt, ObjectIdentifierAt};
use der::{default_false, tag};
use layouts::{IResult, Place};
use x509::Extension;

/// The places of an extension's parts.
#[derive(Clone, Copy, Debug, PartialEq)]
pub struct ExtensionPlaces {
    /// Its type: the content of the object identifier.
    pub extn_id: Place,
    /// Its value, in DER.
    pub extn_value: Place,
}

/// The content of an extension.
struct ExtensionContentAt;

impl<'a> Part<'a> for ExtensionContentAt {
    type Read = (Extension<'a>, ExtensionPlaces);

    ghost Value = { PlainExtension };

    ghost view = { λ x. view_extension x.0 };

    ghost layout = { extension_content };

    ghost stands = { λ b x. ExtensionStands b x.0 x.1 };

    #[tactic(auto, using(layouts::proofs::OneAnswerLemmas::read_allowed), unfolding(x509::specs::Certificate::extension_content, der::specs::ObjectIdentifier::object_identifier))]
    fn read_at(whole: &[u8], behind: usize, i: &'a [u8]) -> IResult<&'a [u8], Self::Read> {
        let (after_id, (extn_id, id_place)) = tagged_at::<ObjectIdentifierAt>(
            whole,
            behind,
            i,
            tag::OBJECT_IDENTIFIER,
        )?;
        let (after_critical, critical) = default_false(after_id)?;
        let (rest, (extn_value, value_place)) = tagged_at::<AllBytesAt>(
            whole,
            behind,
            after_critical,
            tag::OCTET_STRING,
        )?;
        let extension = Extension {
            extn_id,
            critical,
            extn_value,
        };
        let places = ExtensionPlaces {
            extn_id: id_place,
            extn_value: value_place,
        };
        Ok((rest, (extension, places)))
    }
}

/// Parses one extension at the front of `i`, with the places of its parts in `whole`, if `i` is an
/// end of `whole`.
///
/// The result and the refusals are those of an item of [`x509::Extensions`].
#[tactic(auto, using(layouts::proofs::OneAnswerLemmas::read_allowed, crate::proofs::PlaceLemmas::end_before), unfolding(x509::specs::Certificate::extension))]
pub fn extension_with_places<'a>(
    whole: &[u8],
    i: &'a [u8],
) -> IResult<&'a [u8], (Extension<'a>, ExtensionPlaces)>
    ensures gives { Gives (λ x. view_extension x.0) extension i.now result }
    ensures places { EndsWith whole.now i.now
        → IfOk result (λ x. ExtensionStands whole.now x.1.0 x.1.1) }
{
    tagged_at::<ExtensionContentAt>(whole, 0, i, tag::SEQUENCE)
}
