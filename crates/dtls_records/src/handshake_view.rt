//! Handshake messages of DTLS in place, and their fragments (RFC 6347, section 4.2.2).
ghost use Rattle.std.specs.Prelude.{◌≡◌};
ghost use Rattle.layouts.specs.Answers.{Gives};
ghost use Rattle.dtls_records.specs.DtlsHandshake.{body as body_layout, whole_body as whole_body_layout};
ghost use Rattle.dtls_records.specs.DtlsRecord as dtls_record;
ghost use Rattle.dtls_records.specs.DtlsRecord.{Message};
ghost use Rattle.dtls_records.specs.DtlsInPlace.{RawHandshake, is_part, raw_handshake, view_body_in_place, view_message_in_place, view_raw_handshake};

use crate::handshake::{DTLSMessageHandshakeBody, listless_body};
use crate::hello_view::DTLSClientHelloView;
use layouts::{IResult, InPlace, Items, block, number2, number3, parsed, rest};
use tls_base::TlsHandshakeType;
use tls_hs::{RawCertificate, certificates};

/// The body of a handshake message of DTLS, or a fragment of it, as [`DTLSMessageHandshakeBody`],
/// with its lists in place.
#[derive(Debug, PartialEq, Drop)]
pub enum DTLSBodyView<'a> {
    /// The client's offer (RFC 6347, section 4.2.1).
    ClientHello(DTLSClientHelloView<'a>),
    /// The sender's certificates (RFC 5246, section 7.4.2).
    Certificate(Items<'a, RawCertificate<'a>>),
    /// A body without lists, or a fragment of a body, as the calls that make lists return it.
    Other(DTLSMessageHandshakeBody<'a>),
}

/// A handshake message of DTLS, or a fragment of one, whose body isn't parsed (RFC 6347, section
/// 4.2.2).
#[derive(Clone, Copy, Debug, PartialEq)]
pub struct DTLSRawHandshake<'a> {
    /// The type of the message.
    pub msg_type: TlsHandshakeType,
    /// The length of the whole body, in bytes.
    pub length: u32,
    /// The message's number among those of its sender.
    pub message_seq: u16,
    /// The offset of the fragment within the whole body, in bytes.
    pub fragment_offset: u32,
    /// The length of the fragment, in bytes.
    pub fragment_length: u32,
    /// The body, or a fragment of it.
    pub body: &'a [u8],
}

impl<'a> InPlace<'a> for DTLSRawHandshake<'a> {
    type Read = Self;

    ghost Value = { RawHandshake };

    ghost view = { view_raw_handshake };

    ghost layout = { raw_handshake };

    #[tactic(auto, using(layouts::proofs::OneAnswerLemmas::read_allowed), unfolding(crate::specs::DtlsInPlace::raw_handshake))]
    #[inline(always)]
    fn read(i: &'a [u8]) -> IResult<&'a [u8], Self> {
        let (i, msg_type) = parsed!(TlsHandshakeType::parse(i));
        let (i, length) = parsed!(number3(i));
        let (i, message_seq) = parsed!(number2(i));
        let (i, fragment_offset) = parsed!(number3(i));
        let (i, fragment_length) = parsed!(number3(i));
        let (i, body) = parsed!(block(i, fragment_length as usize));
        let message = DTLSRawHandshake {
            msg_type,
            length,
            message_seq,
            fragment_offset,
            fragment_length,
            body,
        };
        Ok((i, message))
    }
}

/// Reads a whole body of type `msg_type` and `length` bytes in place, from the start of `i`.
///
/// `Error` of kind `Switch` if no body has this type, else the refusal of the body.
#[tactic(auto, using(layouts::proofs::OneAnswerLemmas::read_allowed), unfolding(crate::specs::DtlsHandshake::whole_body, crate::specs::DtlsHandshake::client_hello_body, crate::specs::DtlsHandshake::certificate_body))]
fn whole_body(i: &[u8], msg_type: TlsHandshakeType, length: usize) -> IResult<&[u8], DTLSBodyView>
    ensures { Gives view_body_in_place (whole_body_layout msg_type.0 length) i.now result }
{
    match msg_type {
        TlsHandshakeType::ClientHello => {
            let (i, hello) = parsed!(DTLSClientHelloView::parse(i));
            Ok((i, DTLSBodyView::ClientHello(hello)))
        }
        TlsHandshakeType::Certificate => {
            let (i, chain) = parsed!(certificates(i));
            Ok((i, DTLSBodyView::Certificate(chain)))
        }
        _ => {
            let (i, body) = parsed!(listless_body(i, msg_type, length));
            Ok((i, DTLSBodyView::Other(body)))
        }
    }
}

/// Reads a body of type `msg_type` and `length` bytes in place: as [`whole_body`], or all of `i` as
/// a fragment if `is_fragment`.
#[tactic(auto, using(layouts::proofs::OneAnswerLemmas::read_allowed), unfolding(crate::specs::DtlsHandshake::body))]
#[inline(always)]
fn body(
    i: &[u8],
    msg_type: TlsHandshakeType,
    length: usize,
    is_fragment: bool,
) -> IResult<&[u8], DTLSBodyView>
    ensures { Gives view_body_in_place (body_layout msg_type.0 length is_fragment) i.now result }
{
    if is_fragment {
        let (i, bytes) = parsed!(rest(i));
        let part = DTLSMessageHandshakeBody::Fragment(bytes);
        return Ok((i, DTLSBodyView::Other(part)));
    }
    whole_body(i, msg_type, length)
}

impl<'a> DTLSRawHandshake<'a> {
    /// Returns whether this is a fragment of a handshake message, to be reassembled with the
    /// others: it begins after the body's first byte, or is shorter than the body.
    #[inline(always)]
    pub fn is_fragment(self) -> bool
        ensures { result ≡ is_part (view_raw_handshake self.entry) }
    {
        self.fragment_offset > 0 || self.fragment_length < self.length
    }

    /// Parses the body within its bytes. Gives the same answer as
    /// [`crate::parse_dtls_message_handshake`] on a complete message, but allocates nothing. The
    /// rest is what the body leaves of its bytes.
    #[inline(always)]
    pub fn parse_body(self) -> IResult<&'a [u8], DTLSBodyView<'a>>
        ensures { Gives view_body_in_place
            (body_layout self.entry.msg_type.0 self.entry.length
            (is_part (view_raw_handshake self.entry)))
            self.entry.body.now result }
    {
        body(
            self.body,
            self.msg_type,
            self.length as usize,
            self.is_fragment(),
        )
    }
}

/// A handshake message of DTLS, or a fragment of one, with its body parsed in place: as
/// [`crate::DTLSMessageHandshake`].
#[derive(Debug, PartialEq, Drop)]
pub struct DTLSHandshakeView<'a> {
    /// The header, and the bytes of the body.
    pub raw: DTLSRawHandshake<'a>,
    /// The body, or a fragment of it.
    pub body: DTLSBodyView<'a>,
}

/// A message with its body parsed, as an item of a list. Gives the same answer as
/// [`crate::parse_dtls_message_handshake`], but allocates nothing.
impl<'a> InPlace<'a> for DTLSHandshakeView<'a> {
    type Read = Self;

    ghost Value = { Message };

    ghost view = { view_message_in_place };

    ghost layout = { dtls_record.handshake };

    #[tactic(auto, using(layouts::proofs::OneAnswerLemmas::read_allowed, crate::proofs::DtlsInPlaceLemmas::handshake_decodes))]
    #[inline(always)]
    fn read(i: &'a [u8]) -> IResult<&'a [u8], Self> {
        let (i, raw) = parsed!(DTLSRawHandshake::read(i));
        let (_, body) = parsed!(raw.parse_body());
        Ok((i, DTLSHandshakeView { raw, body }))
    }
}
