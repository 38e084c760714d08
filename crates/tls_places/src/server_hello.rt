//! The places of a ServerHello's parts.
#![tactic(auto, using(layouts::proofs::OneAnswerLemmas::read_allowed))]

ghost use Rattle.std.specs.Prelude.{IfOk};
ghost use Rattle.layouts.specs.Answers.{Gives};
ghost use Rattle.tls_hs.specs.ServerHello.{server_hello, view_server_hello};
ghost use Rattle.tls_hs.specs.ServerHello.{server_hello_any as server_hello_of_any_version};
ghost use Rattle.tls_places.specs.Hello.{LiesAsServerHello, ServerHelloStands};

use crate::place::{held_before, held_from};
use layouts::{IResult, Place};
use tls_hs::parts::server_hello_any;
use tls_hs::{TlsServerHelloContents, parse_tls_handshake_server_hello};

/// The places of a ServerHello's parts in its body.
#[derive(Clone, Copy, Debug, PartialEq)]
pub struct ServerHelloPlaces {
    /// The 32 bytes of the random.
    pub random: Place,
    /// The session ID, without its length; `None` if it is empty.
    pub session_id: Option<Place>,
    /// The extensions, without their length; `None` if no whole block follows.
    pub ext: Option<Place>,
}

/// The places of a hello's parts in `i`, its body followed by `rest`.
#[inline(always)]
fn places_in(i: &[u8], hello: &TlsServerHelloContents, rest: &[u8]) -> ServerHelloPlaces
    ensures { LiesAsServerHello i.now hello.now rest.now
        → ServerHelloStands i.now hello.now result }
{
    ServerHelloPlaces {
        random: Place {
            offset: 2,
            length: 32,
        },
        session_id: held_from(i, 35, hello.session_id),
        ext: held_before(i, hello.ext, rest),
    }
}

/// Parses the body of a ServerHello as [`parse_tls_handshake_server_hello`] does, with the places
/// of its parts in `i`.
pub fn server_hello_with_places(
    i: &[u8],
) -> IResult<&[u8], (TlsServerHelloContents, ServerHelloPlaces)>
    ensures gives { Gives (λ x. view_server_hello x.0) server_hello i.now result }
    ensures places { IfOk result (λ x. ServerHelloStands i.now x.1.0 x.1.1) }
{
    let (rest, hello) = parse_tls_handshake_server_hello(i)?;
    let places = places_in(i, &hello, rest);
    Ok((rest, (hello, places)))
}

/// Parses the body of a DTLS ServerHello (RFC 6347, section 4.2), with the places of its parts in
/// `i`. It has the form of TLS with any version, as in [`server_hello_any`].
pub fn dtls_server_hello_with_places(
    i: &[u8],
) -> IResult<&[u8], (TlsServerHelloContents, ServerHelloPlaces)>
    ensures gives { Gives (λ x. view_server_hello x.0) server_hello_of_any_version i.now result }
    ensures places { IfOk result (λ x. ServerHelloStands i.now x.1.0 x.1.1) }
{
    let (rest, hello) = server_hello_any(i)?;
    let places = places_in(i, &hello, rest);
    Ok((rest, (hello, places)))
}
