//! GTP-U, the tunnels of mobile networks (3GPP TS 29.281).
#![tactic(auto, using(layouts::proofs::OneAnswerLemmas::read_allowed), unfolding(crate::specs::Gtp::extension, crate::specs::Gtp::further_extension, crate::specs::Gtp::extensions_if, crate::specs::Gtp::optional_fields, crate::specs::Gtp::gtp_payload))]

ghost use Rattle.layouts.specs.Layout.{complete};
ghost use Rattle.layouts.specs.Answers.{Gives};
ghost use Rattle.tunnels.specs.Tunnel.{view_header};
ghost use Rattle.tunnels.specs.Gtp.{extension as extension_layout, extensions as extensions_layout, extensions_if as extensions_if_layout, further_extension, gtp, gtp_payload as gtp_payload_layout, optional_fields as optional_fields_layout};

use crate::tunnel::{Header, TunnelKind, carrying, version_type};
use layouts::{
    Err, ErrorKind, IResult, InPlace, Items, block, number1, number2, number4, parsed, refused,
};

/// The message type of user data (G-PDU).
const USER_DATA: u8 = 255;

/// Parses an extension header: returns the type of the next one. `Error` of kind `LengthValue` if
/// its length is 0.
fn extension(i: &[u8]) -> IResult<&[u8], u8>
    ensures { Gives (λ v. v) extension_layout i.now result }
{
    let (i, words) = parsed!(number1(i));
    if words < 1 {
        return refused(i, ErrorKind::LengthValue);
    }
    let (i, _) = parsed!(block(i, words as usize * 4 - 2));
    number1(i)
}

/// An extension header with another behind it.
struct FurtherExtension;

impl<'a> InPlace<'a> for FurtherExtension {
    type Read = ();

    ghost Value = { Unit };

    ghost view = { λ v. v };

    ghost layout = { further_extension };

    fn read(i: &'a [u8]) -> IResult<&'a [u8], ()> {
        let (i, next) = parsed!(extension(i));
        if next == 0 {
            return refused(i, ErrorKind::Tag);
        }
        Ok((i, ()))
    }
}

/// Skips all extension headers. Returns 0, the next type in the last.
#[tactic(auto, using(layouts::proofs::OneAnswerLemmas::read_allowed), unfolding(crate::specs::Gtp::extensions))]
fn extensions(i: &[u8]) -> IResult<&[u8], u8>
    ensures { Gives (λ v. v) extensions_layout i.now result }
{
    extension(Items::<FurtherExtension>::new(i).rest())
}

/// Skips the extension headers, if there are any.
fn extensions_if(i: &[u8], present: bool) -> IResult<&[u8], u8>
    ensures { Gives (λ v. v) (extensions_if_layout present) i.now result }
{
    if present {
        return extensions(i);
    }
    Ok((i, 0))
}

/// Skips the optional fields, which are present if one of these flags is set, and the extension
/// headers.
fn optional_fields(i: &[u8], flags: u8) -> IResult<&[u8], u8>
    ensures { Gives (λ v. v) (optional_fields_layout flags) i.now result }
{
    if flags == 0 {
        return Ok((i, 0));
    }
    let (i, _) = parsed!(block(i, 3));
    let (i, next) = parsed!(number1(i));
    extensions_if(i, flags / 4 == 1 && next != 0)
}

/// Skips the optional fields and extension headers, and parses the datagram behind them.
fn gtp_payload(i: &[u8], flags: u8, id: u32) -> IResult<&[u8], Header>
    ensures { Gives view_header (gtp_payload_layout flags id) i.now result }
{
    let (i, _) = parsed!(optional_fields(i, flags));
    let (i, kind) = parsed!(version_type(i));
    carrying(i, TunnelKind::GtpU, Some(id), kind)
}

/// Skips the optional fields and extension headers and parses the datagram, in all of `i`. If they
/// don't fit, this is an `Error` of kind `Complete`.
fn whole_payload(i: &[u8], flags: u8, id: u32) -> IResult<&[u8], Header>
    ensures { Gives view_header (complete (gtp_payload_layout flags id)) i.now result }
{
    match gtp_payload(i, flags, id) {
        Err(Err::Incomplete(_)) => refused(i, ErrorKind::Complete),
        answer => answer,
    }
}

/// Parses a GTP-U message with user data (TS 29.281, section 5.1): 8 bytes; sequence number and
/// extension headers if the flags are set; and the datagram, up to the message's length.
///
/// - `Incomplete`, with the count of missing bytes of the first 8, or of the message's length.
/// - `Error` of kind `Verify` if the version isn't 1, it is GTP', or the message type isn't 255.
/// - `Error` of kind `LengthValue` if an extension header's length is 0.
/// - `Error` of kind `Complete` if the fields and the datagram's first byte don't fit in the
///   length.
#[tactic(auto, using(layouts::proofs::OneAnswerLemmas::read_allowed), unfolding(crate::specs::Gtp::gtp))]
pub fn parse_gtp(i: &[u8]) -> IResult<&[u8], Header>
    ensures { Gives view_header gtp i.now result }
{
    let (i, first) = parsed!(number1(i));
    if first / 16 != 3 {
        return refused(i, ErrorKind::Verify);
    }
    let (i, message) = parsed!(number1(i));
    if message != USER_DATA {
        return refused(i, ErrorKind::Verify);
    }
    let (i, len) = parsed!(number2(i));
    let (i, id) = parsed!(number4(i));
    let (i, held) = parsed!(block(i, len as usize));
    let (_, header) = parsed!(whole_payload(held, first % 8, id));
    Ok((i, header))
}
