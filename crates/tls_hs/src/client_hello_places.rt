//! Positions of the parts of a ClientHello within its bytes.
#![tactic(auto, using(layouts::proofs::OneAnswerLemmas::read_allowed))]

ghost use Rattle.std.specs.Prelude.{◌≡◌, ◌+◌, IfOk};
ghost use Rattle.std.specs.Option.{option_map};
ghost use Rattle.layouts.specs.Answers.{Gives};
ghost use Rattle.tls_hs.specs.Hello.{client_hello};
ghost use Rattle.tls_hs.specs.InPlace.{view_client_hello_in_place};
ghost use Rattle.tls_hs.specs.Places.{BeginsAt, HelloStands, HelloStandsWithin, LiesAsClientHello, MayBeginAt, MayStand, place_from};

use crate::client_hello_view::{ClientHelloView, client_hello_fields};
use crate::hello_fields::held_bytes;
use layouts::{IResult, Place};

/// The positions of the parts of a ClientHello within its body.
#[derive(Clone, Copy, Debug, PartialEq)]
pub struct ClientHelloPlaces {
    /// The 32 bytes of the random.
    pub random: Place,
    /// The session id, without its length; `None` if there is none.
    pub session_id: Option<Place>,
    /// The cipher suites, without their length.
    pub ciphers: Place,
    /// The compression methods, without their length.
    pub comp: Place,
    /// The extensions, without their length; `None` if no complete block follows.
    pub ext: Option<Place>,
}

/// Returns where `part` is in `whole`, if it begins `between` bytes after the end of `place`.
#[inline(always)]
fn behind(whole: &[u8], place: Place, between: usize, part: &[u8]) -> Place
    ensures { BeginsAt whole.now (place.offset + place.length + between) part.now
        → result ≡ place_from (place.offset + place.length + between) part.now }
{
    Place {
        offset: place
            .offset
            .saturating_add(place.length)
            .saturating_add(between)
            .min(whole.len()),
        length: part.len(),
    }
}

/// Returns where an optional part is in `whole`, if it begins `between` bytes after the end of
/// `place`.
#[inline(always)]
fn held_behind(whole: &[u8], place: Place, between: usize, part: Option<&[u8]>) -> Option<Place>
    ensures { MayBeginAt whole.now (place.offset + place.length + between)
        (option_map (λ x. x.now) part.entry)
        → result ≡ option_map (λ x. place_from (place.offset + place.length + between) x.now)
        part.entry }
{
    match part {
        Some(bytes) => Some(behind(whole, place, between, bytes)),
        None => None,
    }
}

/// Returns where the parts of a ClientHello, and its cookie if it has one, are in its body `whole`.
#[inline(always)]
pub fn client_hello_places_in(
    whole: &[u8],
    hello: &ClientHelloView,
    cookie: Option<&[u8]>,
) -> (ClientHelloPlaces, Option<Place>)
    ensures places { LiesAsClientHello whole.now hello.now (option_map (λ x. x.now) cookie.entry)
        → HelloStandsWithin whole.now hello.now result.0 }
    ensures cookie { LiesAsClientHello whole.now hello.now (option_map (λ x. x.now) cookie.entry)
        → MayStand whole.now result.1 (option_map (λ x. x.now) cookie.entry) }
{
    let random = Place {
        offset: 2,
        length: 32,
    };
    let session_id = held_behind(whole, random, 1, hello.session_id);
    let id = behind(whole, random, 1, held_bytes(hello.session_id));
    let cookie_place = held_behind(whole, id, 1, cookie);
    let ciphers = behind(whole, cookie_place.unwrap_or(id), 2, hello.ciphers.bytes());
    let comp = behind(whole, ciphers, 1, hello.comp.bytes());
    let ext = held_behind(whole, comp, 2, hello.ext);
    let places = ClientHelloPlaces {
        random,
        session_id,
        ciphers,
        comp,
        ext,
    };
    (places, cookie_place)
}

impl<'a> ClientHelloView<'a> {
    /// Reads the body of a ClientHello, as [`ClientHelloView::parse`], and returns where its parts
    /// are in `i`.
    #[tactic(auto, using(layouts::proofs::OneAnswerLemmas::read_allowed), unfolding(crate::specs::Hello::client_hello))]
    pub fn parse_with_places(i: &'a [u8]) -> IResult<&'a [u8], (Self, ClientHelloPlaces)>
        ensures gives { Gives (λ x. view_client_hello_in_place x.0) client_hello i.now result }
        ensures places { IfOk result (λ x. HelloStands i.now x.1.0 x.1.1) }
        ensures within { IfOk result (λ x. HelloStandsWithin i.now x.1.0 x.1.1) }
    {
        let (rest, (hello, cookie)) = client_hello_fields(i, false)?;
        let (places, _) = client_hello_places_in(i, &hello, cookie);
        Ok((rest, (hello, places)))
    }
}
