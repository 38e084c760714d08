//! The places of a hello's extensions, and of names in them.
#![tactic(auto, using(layouts::proofs::OneAnswerLemmas::read_allowed))]

ghost use Rattle.std.specs.Prelude.{◌≡◌, ℕ, IfOk, IfSome};
ghost use Rattle.std.specs.Option.{option_map};
ghost use Rattle.layouts.specs.Bytes.{Bytes};
ghost use Rattle.layouts.specs.Answers.{Gives};
ghost use Rattle.layouts.specs.Items.{Returns, items_in};
ghost use Rattle.layouts.specs.Place.{bytes_at as bytes_there};
ghost use Rattle.layouts.specs.Layout.{counted};
ghost use Rattle.layouts.specs.Reading.{reading};
ghost use Rattle.tls_ext.specs.Content as content;
ghost use Rattle.tls_ext.specs.Extension as extension;
ghost use Rattle.tls_ext.specs.InPlace.{content_of, first_name, host_name, picked, protocol_names};
ghost use Rattle.tls_places.specs.Find.{protocol_names_in};
ghost use Rattle.tls_places.specs.Place.{IsWithin, Stands};

use crate::frame::{Placed, frame_at};
use crate::place::{bytes_at, outward, place_within};
use layouts::{Counted1, Counted2, Err, Error, IResult, Items, Place};
use tls_base::TlsExtensionType;
use tls_ext::{RawExtension, ServerName};

/// The place of the first extension's content of this type in `block`, the extensions of a hello
/// without their length.
///
/// If there is none: `None` if all bytes of the extensions were parsed, else the refusal of the
/// extension at which the iteration ended, as in [`tls_ext::first_content`].
pub fn content_place(
    block: &[u8],
    kind: TlsExtensionType,
) -> Result<Option<Place>, Err<Error<&[u8]>>>
    ensures finds { Returns (option_map (bytes_there block.now))
        (content_of kind.0 block.now) result }
    ensures within { IsWithin block.now result }
{
    let walk: Placed<RawExtension> = Placed::new(block);
    for (extension, place) in walk {
        if extension.extension_type == kind {
            return Ok(Some(place));
        }
    }
    let whole: Placed<RawExtension> = Placed::new(block);
    match whole.items().refusal() {
        Some(e) => Err(e),
        None => Ok(None),
    }
}

/// Parses the names in the content of a server_name extension as [`tls_ext::server_names`] does,
/// with their place in it.
#[tactic(auto, using(layouts::proofs::OneAnswerLemmas::read_allowed, layouts::proofs::ItemsLemmas::none_in, layouts::proofs::PlaceLemmas::ends_here, crate::proofs::PlaceLemmas::none_stands), unfolding(tls_ext::specs::Content::server_names))]
#[inline(always)]
fn server_names_placed(i: &[u8]) -> IResult<&[u8], (Items<ServerName>, Place)>
    ensures gives { Gives (λ x. extension.server_name (items_in content.server_name x.0.bytes.now))
        content.server_names i.now result }
    ensures stands { IfOk result (λ x. Stands i.now x.1.1 x.1.0.bytes.now) }
{
    if i.is_empty() {
        let nothing = Place {
            offset: 0,
            length: 0,
        };
        return Ok((i, (Items::new(i), nothing)));
    }
    let (rest, (window, place)) = frame_at::<Counted2>(i, i)?;
    Ok((rest, (Items::new(window), place)))
}

/// The place of the first name in the content of a server_name extension.
fn first_name_place(i: &[u8]) -> Result<Option<Place>, Err<Error<&[u8]>>>
    ensures finds { Returns (option_map (bytes_there i.now))
        (picked first_name (reading content.server_names i.now)) result }
    ensures within { IsWithin i.now result }
{
    let (_, (names, outer)) = server_names_placed(i)?;
    let mut walk: Placed<ServerName> = Placed::new(names.bytes());
    match walk.next() {
        Some((_, inner)) => Ok(Some(place_within(i, outer, inner))),
        None => Ok(None),
    }
}

/// The place of the host name that a client asks for in `block`, the extensions of its hello
/// without their length: the first name, of any type, in the first server_name extension (RFC 6066,
/// section 3).
///
/// The result and the refusals are those of [`tls_ext::server_name`].
#[inline(always)]
pub fn host_name_place(block: &[u8]) -> Result<Option<Place>, Err<Error<&[u8]>>>
    ensures finds { Returns (option_map (bytes_there block.now)) (host_name block.now) result }
    ensures within { IsWithin block.now result }
{
    match content_place(block, TlsExtensionType::ServerName)? {
        Some(outer) => outward(block, outer, first_name_place(bytes_at(block, outer))),
        None => Ok(None),
    }
}

/// Parses the protocol names in the content of an application_layer_protocol_negotiation extension,
/// with their place in it.
#[tactic(auto, using(layouts::proofs::OneAnswerLemmas::read_allowed, layouts::proofs::PlaceLemmas::ends_here), unfolding(tls_ext::specs::Content::application_layer_protocol_negotiation))]
#[inline(always)]
fn protocol_names_placed(i: &[u8]) -> IResult<&[u8], (Items<Counted1>, Place)>
    ensures gives { Gives (λ x. protocol_names_in x.0.bytes.now)
        content.application_layer_protocol_negotiation i.now result }
    ensures stands { IfOk result (λ x. Stands i.now x.1.1 x.1.0.bytes.now) }
{
    let (rest, (window, place)) = frame_at::<Counted2>(i, i)?;
    Ok((rest, (Items::new(window), place)))
}

/// The place of the list of protocol names in `block`, the extensions of a hello without their
/// length: the list in the first application_layer_protocol_negotiation extension (RFC 7301,
/// section 3.1), without its length.
///
/// The result and the refusals are those of [`tls_ext::application_protocols`]. The names are the
/// items of [`Counted1`] there.
pub fn protocol_names_place(block: &[u8]) -> Result<Option<Place>, Err<Error<&[u8]>>>
    ensures finds { Returns (option_map (λ p. items_in (counted 1) (bytes_there block.now p)))
        (protocol_names block.now) result }
    ensures within { IsWithin block.now result }
{
    let kind = TlsExtensionType::ApplicationLayerProtocolNegotiation;
    let Some(outer) = content_place(block, kind)? else {
        return Ok(None);
    };
    let (_, (_, inner)) = protocol_names_placed(bytes_at(block, outer))?;
    Ok(Some(place_within(block, outer, inner)))
}
