//! Teredo: IPv6 through NATs, over UDP (RFC 4380).
#![tactic(auto, using(layouts::proofs::OneAnswerLemmas::read_allowed), unfolding(crate::specs::Teredo::authentication, crate::specs::Teredo::authentication_if))]

ghost use Rattle.layouts.specs.Answers.{Gives};
ghost use Rattle.tunnels.specs.Tunnel.{view_header};
ghost use Rattle.tunnels.specs.Teredo.{authentication as authentication_layout, authentication_if as authentication_if_layout, teredo};

use crate::tunnel::{Header, IPV6, TunnelKind, carrying, skipped_if};
use layouts::{ErrorKind, IResult, block, number1, number2, parsed, refused};

/// Skips an authentication header.
fn authentication(i: &[u8]) -> IResult<&[u8], ()>
    ensures { Gives (λ v. v) authentication_layout i.now result }
{
    let (i, _) = parsed!(block(i, 2));
    let (i, name) = parsed!(number1(i));
    let (i, value) = parsed!(number1(i));
    let (i, _) = parsed!(block(i, name as usize + value as usize + 9));
    Ok((i, ()))
}

/// Skips an authentication header if `front`, its type, is 1.
fn authentication_if(i: &[u8], front: u16) -> IResult<&[u8], ()>
    ensures { Gives (λ v. v) (authentication_if_layout front) i.now result }
{
    if front == 1 {
        return authentication(i);
    }
    Ok((i, ()))
}

/// Parses what Teredo puts before an IPv6 datagram (RFC 4380, section 5.1.1): an optional
/// authentication header and an optional origin indication. The datagram is all the rest.
///
/// - `Incomplete`, with the count of missing bytes of the first field that isn't whole.
/// - `Error` of kind `Verify` if the datagram's version isn't 6.
#[tactic(auto, using(layouts::proofs::OneAnswerLemmas::read_allowed), unfolding(crate::specs::Teredo::teredo))]
pub fn parse_teredo(i: &[u8]) -> IResult<&[u8], Header>
    ensures { Gives view_header teredo i.now result }
{
    let (_, front) = parsed!(number2(i));
    let (i, _) = parsed!(authentication_if(i, front));
    let (_, behind) = parsed!(number2(i));
    let (i, _) = parsed!(skipped_if(i, behind == 0, 8));
    let (_, first) = parsed!(number1(i));
    if first / 16 != 6 {
        return refused(i, ErrorKind::Verify);
    }
    carrying(i, TunnelKind::Teredo, None, IPV6)
}
