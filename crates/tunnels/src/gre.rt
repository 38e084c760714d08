//! Generic Routing Encapsulation (RFC 2784; RFC 2890), and ERSPAN, in which switches send copies of
//! frames (draft-foschiano-erspan).
#![tactic(auto, using(layouts::proofs::OneAnswerLemmas::read_allowed), unfolding(crate::specs::Gre::key_if, crate::specs::Gre::erspan2, crate::specs::Gre::erspan, crate::specs::Gre::copied, crate::specs::Gre::gre_payload))]

ghost use Rattle.std.specs.Prelude.{◌≡◌};
ghost use Rattle.layouts.specs.Answers.{Gives};
ghost use Rattle.tunnels.specs.Tunnel.{view_header};
ghost use Rattle.tunnels.specs.Gre.{gre, gre_payload as gre_payload_layout, erspan as erspan_layout, erspan2 as erspan2_layout, erspan3 as erspan3_layout, copied as copied_layout, key_if as key_if_layout, is_plain as is_plain_flags};

use crate::tunnel::{ETHERNET, Header, TunnelKind, carrying, skipped_if, version_type};
use layouts::{ErrorKind, IResult, block, number2, number4, parsed, refused};

/// The GRE protocol of ERSPAN types I and II.
const ERSPAN: u16 = 0x88be;

/// The GRE protocol of ERSPAN type III.
const ERSPAN3: u16 = 0x22eb;

/// Returns whether GRE flags are those of version 0 without the source routing of RFC 1701.
fn is_plain(flags: u16) -> bool
    ensures { result ≡ is_plain_flags flags }
{
    flags % 8 == 0 && flags / 0x4000 % 2 == 0 && flags / 0x400 % 4 == 0
}

/// Parses the key, if it is present.
fn key_if(i: &[u8], present: bool) -> IResult<&[u8], Option<u32>>
    ensures { Gives (λ v. v) (key_if_layout present) i.now result }
{
    if present {
        let (i, key) = parsed!(number4(i));
        return Ok((i, Some(key)));
    }
    Ok((i, None))
}

/// Parses an ERSPAN type II header.
fn erspan2(i: &[u8]) -> IResult<&[u8], Header>
    ensures { Gives view_header erspan2_layout i.now result }
{
    let (i, front) = parsed!(number2(i));
    if front / 4096 != 1 {
        return refused(i, ErrorKind::Verify);
    }
    let (i, session) = parsed!(number2(i));
    let (i, _) = parsed!(block(i, 4));
    let id = Some(u32::from(session % 1024));
    carrying(i, TunnelKind::Erspan, id, ETHERNET)
}

/// Parses ERSPAN type II if GRE has a sequence number, or else type I, which has no header.
fn erspan(i: &[u8], is_numbered: bool) -> IResult<&[u8], Header>
    ensures { Gives view_header (erspan_layout is_numbered) i.now result }
{
    if is_numbered {
        return erspan2(i);
    }
    carrying(i, TunnelKind::Erspan, None, ETHERNET)
}

/// Returns the EtherType of a type III copy, by its frame type; 0 for an unknown one.
fn copied(i: &[u8], frame_type: u16) -> IResult<&[u8], u16>
    ensures { Gives (λ v. v) (copied_layout frame_type) i.now result }
{
    match frame_type {
        0 => Ok((i, ETHERNET)),
        2 => version_type(i),
        _ => Ok((i, 0)),
    }
}

/// Parses an ERSPAN type III header.
#[tactic(auto, using(layouts::proofs::OneAnswerLemmas::read_allowed), unfolding(crate::specs::Gre::erspan3))]
fn erspan3(i: &[u8]) -> IResult<&[u8], Header>
    ensures { Gives view_header erspan3_layout i.now result }
{
    let (i, front) = parsed!(number2(i));
    if front / 4096 != 2 {
        return refused(i, ErrorKind::Verify);
    }
    let (i, session) = parsed!(number2(i));
    let (i, _) = parsed!(block(i, 6));
    let (i, last) = parsed!(number2(i));
    let (i, _) = parsed!(skipped_if(i, last % 2 == 1, 8));
    let (i, kind) = parsed!(copied(i, last / 1024 % 32));
    let id = Some(u32::from(session % 1024));
    carrying(i, TunnelKind::Erspan, id, kind)
}

/// Parses what follows the GRE header, by its protocol.
fn gre_payload(
    i: &[u8],
    protocol: u16,
    is_numbered: bool,
    key: Option<u32>,
) -> IResult<&[u8], Header>
    ensures { Gives view_header (gre_payload_layout protocol is_numbered key) i.now result }
{
    match protocol {
        ERSPAN => erspan(i, is_numbered),
        ERSPAN3 => erspan3(i),
        _ => carrying(i, TunnelKind::Gre, key, protocol),
    }
}

/// Parses a GRE header (RFC 2784, section 2; RFC 2890, section 2): 4 bytes; checksum, key and
/// sequence number if their flags are set; and the payload, all of the rest. The checksum isn't
/// verified.
///
/// Protocols 0x88be and 0x22eb are ERSPAN: its header is parsed too (draft-foschiano-erspan,
/// section 4), and the tunnel is ERSPAN's.
///
/// - `Incomplete`, with the count of missing bytes of the headers.
/// - `Error` of kind `Verify` if the version isn't 0, one of the bits 1, 4 and 5 is set (RFC 2784,
///   section 2.3), or the ERSPAN version doesn't match the protocol.
#[tactic(auto, using(layouts::proofs::OneAnswerLemmas::read_allowed), unfolding(crate::specs::Gre::gre))]
pub fn parse_gre(i: &[u8]) -> IResult<&[u8], Header>
    ensures { Gives view_header gre i.now result }
{
    let (i, flags) = parsed!(number2(i));
    if !is_plain(flags) {
        return refused(i, ErrorKind::Verify);
    }
    let (i, protocol) = parsed!(number2(i));
    let (i, _) = parsed!(skipped_if(i, flags / 0x8000 == 1, 4));
    let (i, key) = parsed!(key_if(i, flags / 0x2000 % 2 == 1));
    let is_numbered = flags / 0x1000 % 2 == 1;
    let (i, _) = parsed!(skipped_if(i, is_numbered, 4));
    gre_payload(i, protocol, is_numbered, key)
}
