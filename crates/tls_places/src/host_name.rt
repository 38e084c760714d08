//! The place of the host name that a client asks for: in a hello, in a fragment, in a record.
#![tactic(auto, using(layouts::proofs::OneAnswerLemmas::read_allowed))]

ghost use Rattle.std.specs.Option.{option_map};
ghost use Rattle.layouts.specs.Items.{Returns};
ghost use Rattle.layouts.specs.Place.{bytes_at as bytes_there};
ghost use Rattle.layouts.specs.Reading.{reading};
ghost use Rattle.tls_hs.specs.Hello.{client_hello};
ghost use Rattle.tls_records.specs.InPlace.{body_of_type, host_name_of_record, name_in_body, name_in_hello};
ghost use Rattle.tls_places.specs.Place.{IsWithin};

use crate::find::host_name_place;
use crate::frame::{Placed, frame_at};
use crate::place::{bytes_at, outward};
use crate::record::Record;
use layouts::{Err, Error, Place};
use tls_base::{TlsHandshakeType, TlsRecordType};
use tls_hs::{ClientHelloView, RawHandshake};

/// The place of the body of the first handshake message with this type in `fragment`.
///
/// The result and the refusals are those of [`tls_records::first_body`].
pub fn body_place(
    fragment: &[u8],
    kind: TlsHandshakeType,
) -> Result<Option<Place>, Err<Error<&[u8]>>>
    ensures finds { Returns (option_map (bytes_there fragment.now))
        (body_of_type kind.0 fragment.now) result }
    ensures within { IsWithin fragment.now result }
{
    let walk: Placed<RawHandshake> = Placed::new(fragment);
    for (message, place) in walk {
        if message.msg_type == kind {
            return Ok(Some(place));
        }
    }
    let whole: Placed<RawHandshake> = Placed::new(fragment);
    match whole.items().refusal() {
        Some(e) => Err(e),
        None => Ok(None),
    }
}

/// The place of the host name in `body`, a ClientHello's body: the name that
/// [`tls_ext::server_name`] returns.
///
/// It refuses what [`ClientHelloView::parse`] refuses in the body, and [`tls_ext::server_name`] in
/// the extensions.
#[tactic(auto, using(layouts::proofs::OneAnswerLemmas::read_allowed, crate::proofs::HostNameLemmas::none_found))]
#[inline(always)]
pub fn host_name_place_of_hello(body: &[u8]) -> Result<Option<Place>, Err<Error<&[u8]>>>
    ensures finds { Returns (option_map (bytes_there body.now))
        (name_in_hello (reading client_hello body.now)) result }
    ensures within { IsWithin body.now result }
{
    let (rest, (hello, places)) = ClientHelloView::parse_with_places(body)?;
    match places.ext {
        Some(outer) => outward(body, outer, host_name_place(bytes_at(body, outer))),
        None => Ok(None),
    }
}

/// The place of the host name in `fragment`, from the first ClientHello of its handshake messages.
fn host_name_place_of_fragment(fragment: &[u8]) -> Result<Option<Place>, Err<Error<&[u8]>>>
    ensures finds { Returns (option_map (bytes_there fragment.now))
        (name_in_body (body_of_type 1 fragment.now)) result }
    ensures within { IsWithin fragment.now result }
{
    match body_place(fragment, TlsHandshakeType::ClientHello)? {
        Some(outer) => outward(
            fragment,
            outer,
            host_name_place_of_hello(bytes_at(fragment, outer)),
        ),
        None => Ok(None),
    }
}

/// The place in `i` of the host name that the first ClientHello in the record at the front of `i`
/// asks for.
///
/// The result and the refusals are those of [`tls_records::server_name_of_record`].
pub fn host_name_place_of_record(i: &[u8]) -> Result<Option<Place>, Err<Error<&[u8]>>>
    ensures finds { Returns (option_map (bytes_there i.now)) (host_name_of_record i.now) result }
    ensures within { IsWithin i.now result }
{
    let (_, (record, outer)) = frame_at::<Record>(i, i)?;
    if record.hdr.record_type != TlsRecordType::Handshake {
        return Ok(None);
    }
    outward(i, outer, host_name_place_of_fragment(record.bytes))
}
