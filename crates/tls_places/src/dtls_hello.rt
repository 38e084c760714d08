//! The places of the parts of a DTLS ClientHello.
#![tactic(auto, using(layouts::proofs::OneAnswerLemmas::read_allowed))]

ghost use Rattle.std.specs.Prelude.{IfOk};
ghost use Rattle.layouts.specs.Answers.{Gives};
ghost use Rattle.dtls_records.specs.DtlsHello.{client_hello};
ghost use Rattle.dtls_records.specs.DtlsInPlace.{view_client_hello_in_place};
ghost use Rattle.tls_places.specs.DtlsHello.{DtlsClientHelloStands};

use dtls_records::DTLSClientHelloView;
use layouts::{IResult, Place};
use tls_hs::parts::{client_hello_fields, client_hello_places_in};

/// An empty place.
const NOWHERE: Place = Place {
    offset: 0,
    length: 0,
};

/// The places of a DTLS ClientHello's parts in its body.
#[derive(Clone, Copy, Debug, PartialEq)]
pub struct DtlsClientHelloPlaces {
    /// The 32 bytes of the random.
    pub random: Place,
    /// The session ID, without its length; `None` if it is empty.
    pub session_id: Option<Place>,
    /// The cookie, without its length.
    pub cookie: Place,
    /// The cipher suites, without their length.
    pub ciphers: Place,
    /// The compression methods, without their length.
    pub comp: Place,
    /// The extensions, without their length; `None` if no whole block follows.
    pub ext: Option<Place>,
}

/// Parses the body of a DTLS ClientHello as [`DTLSClientHelloView::parse`] does, with the places of
/// its parts in `whole`.
#[tactic(auto, using(layouts::proofs::OneAnswerLemmas::read_allowed), unfolding(dtls_records::specs::DtlsHello::client_hello))]
pub fn dtls_client_hello_with_places(
    whole: &[u8],
) -> IResult<&[u8], (DTLSClientHelloView, DtlsClientHelloPlaces)>
    ensures gives { Gives (λ x. view_client_hello_in_place x.0) client_hello whole.now result }
    ensures places { IfOk result (λ x. DtlsClientHelloStands whole.now x.1.0 x.1.1) }
{
    let (rest, (hello, cookie)) = client_hello_fields(whole, true)?;
    let (places, cookie_place) = client_hello_places_in(whole, &hello, cookie);
    let places = DtlsClientHelloPlaces {
        random: places.random,
        session_id: places.session_id,
        cookie: cookie_place.unwrap_or(NOWHERE),
        ciphers: places.ciphers,
        comp: places.comp,
        ext: places.ext,
    };
    Ok((
        rest,
        (DTLSClientHelloView::with_cookie(hello, cookie), places),
    ))
}
