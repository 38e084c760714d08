//! Overlay networks over UDP: VXLAN (RFC 7348), GENEVE (RFC 8926).
#![tactic(auto, using(layouts::proofs::OneAnswerLemmas::read_allowed), unfolding(crate::specs::Overlay::vxlan, crate::specs::Overlay::geneve_front))]

ghost use Rattle.std.specs.Prelude.{◌≡◌, ◌<◌, IfOk};
ghost use Rattle.layouts.specs.Answers.{Gives};
ghost use Rattle.tunnels.specs.Tunnel.{view_header};
ghost use Rattle.tunnels.specs.Overlay.{geneve, geneve_front as geneve_front_layout, is_overlaid as is_overlaid_type, vxlan};

use crate::tunnel::{ETHERNET, Header, IPV4, IPV6, TunnelKind, carrying};
use layouts::{ErrorKind, IResult, block, number1, number2, number3, parsed, refused};

/// Parses a VXLAN header (RFC 7348, section 5), 8 bytes, and the Ethernet frame behind it.
///
/// - `Incomplete`, with the count of missing bytes of the header.
/// - `Error` of kind `Verify` if the flags are others than I, with or without G.
pub fn parse_vxlan(i: &[u8]) -> IResult<&[u8], Header>
    ensures { Gives view_header vxlan i.now result }
{
    let (i, flags) = parsed!(number1(i));
    if flags != 0x08 && flags != 0x88 {
        return refused(i, ErrorKind::Verify);
    }
    let (i, _) = parsed!(block(i, 3));
    let (i, network) = parsed!(number3(i));
    let (i, _) = parsed!(block(i, 1));
    carrying(i, TunnelKind::Vxlan, Some(network), ETHERNET)
}

/// Returns whether GENEVE payloads of this EtherType are parsed.
fn is_overlaid(kind: u16) -> bool
    ensures { result ≡ is_overlaid_type kind }
{
    kind == ETHERNET || kind == IPV4 || kind == IPV6
}

/// Parses the front of a GENEVE header: returns the options' length in words of 4 bytes, and the
/// payload's EtherType.
fn geneve_front(i: &[u8]) -> IResult<&[u8], (u8, u16)>
    ensures gives { Gives (λ v. v) geneve_front_layout i.now result }
    ensures bound { IfOk result (λ x. x.1.0 < 64) }
{
    let (i, words) = parsed!(number1(i));
    if words > 63 {
        return refused(i, ErrorKind::Verify);
    }
    let (i, _) = parsed!(block(i, 1));
    let (i, kind) = parsed!(number2(i));
    if !is_overlaid(kind) {
        return refused(i, ErrorKind::Verify);
    }
    Ok((i, (words, kind)))
}

/// Parses a GENEVE header (RFC 8926, section 3.4), 8 bytes and options, and all the rest.
///
/// - `Incomplete`, with the count of missing bytes of the header or the options.
/// - `Error` of kind `Verify` if the version isn't 0, or the payload is neither an Ethernet frame
///   nor IPv4 nor IPv6. Reserved bits are ignored.
#[tactic(auto, using(layouts::proofs::OneAnswerLemmas::read_allowed), unfolding(crate::specs::Overlay::geneve))]
pub fn parse_geneve(i: &[u8]) -> IResult<&[u8], Header>
    ensures { Gives view_header geneve i.now result }
{
    let (i, (words, kind)) = parsed!(geneve_front(i));
    let (i, network) = parsed!(number3(i));
    let (i, _) = parsed!(block(i, words as usize * 4 + 1));
    carrying(i, TunnelKind::Geneve, Some(network), kind)
}
