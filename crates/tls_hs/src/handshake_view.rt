//! Handshake messages in place (RFC 5246, section 7.4): raw, with an unparsed body, and with the
//! body parsed.
ghost use Rattle.std.specs.Prelude.{◌≡◌, length};
ghost use Rattle.layouts.specs.Answers.{Gives};
ghost use Rattle.layouts.specs.Framed.{Framed};
ghost use Rattle.tls_hs.specs.Handshake.{handshake_body, body_from_certificate};
ghost use Rattle.tls_hs.specs.Message as message;
ghost use Rattle.tls_hs.specs.Message.{Message};
ghost use Rattle.tls_hs.specs.InPlace.{view_handshake_in_place, view_raw_handshake, raw_handshake, as_other};

use crate::body_by_type::{body_from_finished, certificate_rows, first_rows, read_body, rows};
use crate::certificate::RawCertificate;
use crate::certificate_view::{CertificateRequestView, certificates};
use crate::client_hello_view::ClientHelloView;
use crate::handshake::TlsMessageHandshake;
use crate::{bodies, session};
use layouts::{IResult, InPlace, Items, block, counted3, number3, parsed};
use tls_base::TlsHandshakeType;

/// A handshake message (RFC 5246, section 7.4), as [`crate::TlsMessageHandshake`], with its lists
/// in place.
#[derive(Debug, PartialEq, Drop)]
pub enum HandshakeView<'a> {
    /// The client's offer (RFC 5246, section 7.4.1.2).
    ClientHello(ClientHelloView<'a>),
    /// The sender's certificates, in the form up to TLS 1.2 (RFC 5246, section 7.4.2).
    Certificate(Items<'a, RawCertificate<'a>>),
    /// The server requests a certificate, in the form up to TLS 1.2 (RFC 5246, section 7.4.4).
    CertificateRequest(CertificateRequestView<'a>),
    /// A message without lists, as the calls that make lists return it.
    Other(TlsMessageHandshake<'a>),
}

/// A handshake message whose body isn't parsed.
#[derive(Clone, Copy, Debug, PartialEq)]
pub struct RawHandshake<'a> {
    /// The type of the message.
    pub msg_type: TlsHandshakeType,
    /// The body, without its length.
    pub body: &'a [u8],
}

impl<'a> InPlace<'a> for RawHandshake<'a> {
    type Read = Self;

    ghost Value = { Framed };

    ghost view = { view_raw_handshake };

    ghost layout = { raw_handshake };

    #[tactic(auto, using(layouts::proofs::OneAnswerLemmas::read_allowed), unfolding(layouts::specs::Framed::framed))]
    #[inline(always)]
    fn read(i: &'a [u8]) -> IResult<&'a [u8], Self> {
        let (i, msg_type) = parsed!(TlsHandshakeType::parse(i));
        let (i, body) = parsed!(counted3(i));
        Ok((i, RawHandshake { msg_type, body }))
    }
}

/// A message with its body parsed, as an item of a list. Gives the same answer as
/// [`crate::parse_tls_message_handshake`], but allocates nothing.
impl<'a> InPlace<'a> for HandshakeView<'a> {
    type Read = Self;

    ghost Value = { Message };

    ghost view = { λ h. message.Handshake (view_handshake_in_place h) };

    ghost layout = { message.handshake };

    #[tactic(auto, using(layouts::proofs::OneAnswerLemmas::read_allowed), unfolding(crate::specs::Message::handshake))]
    #[inline(always)]
    fn read(i: &'a [u8]) -> IResult<&'a [u8], Self> {
        let (i, msg_type) = parsed!(TlsHandshakeType::parse(i));
        let (i, n) = parsed!(number3(i));
        let (i, window) = parsed!(block(i, n as usize));
        let (_, message) = parsed!(body_in_place(window, msg_type, n as usize));
        Ok((i, message))
    }
}

impl<'a> RawHandshake<'a> {
    /// Parses the body within its bytes. Gives the same answer as
    /// [`crate::parse_tls_message_handshake`] on a complete message, but allocates nothing. The
    /// rest is what the body leaves of its bytes.
    #[inline(always)]
    pub fn parse_body(self) -> IResult<&'a [u8], HandshakeView<'a>>
        ensures { Gives view_handshake_in_place
            (handshake_body self.entry.msg_type.0 (length self.entry.body.now))
            self.entry.body.now result }
    {
        body_in_place(self.body, self.msg_type, self.body.len())
    }
}

/// Converts the result of a body without lists.
#[inline(always)]
fn other<'a>(
    read: IResult<&'a [u8], TlsMessageHandshake<'a>>,
) -> IResult<&'a [u8], HandshakeView<'a>>
    ensures { result ≡ as_other read.entry }
{
    match read {
        Ok((i, message)) => Ok((i, HandshakeView::Other(message))),
        Err(e) => Err(e),
    }
}

/// Expands to a match on the type: the reader in place of its row, or `$other` if no row has it.
macro_rules! in_place {
    ([$msg_type:ident $i:ident $len:ident => $other:expr]
        $($form:ident $name:ident $(($view:path))?: $module:ident::$read:ident
            $arguments:tt;)*) => {
        match $msg_type {
            $(TlsHandshakeType::$name =>
                one_in_place!($form $name $(($view))?: $module::$read $arguments, $i $len),)*
            _ => $other,
        }
    };
}

/// Expands to the reader in place of a row: for lists the call in brackets, for any other message
/// its usual call.
macro_rules! one_in_place {
    (lists $name:ident($view:path): $module:ident::$read:ident $arguments:tt, $i:ident $len:ident)
        => {{
        let (i, lists) = parsed!($view($i));
        Ok((i, HandshakeView::$name(lists)))
    }};
    ($form:ident $name:ident: $module:ident::$read:ident $arguments:tt, $i:ident $len:ident) => {
        other(read_body!($module::$read $arguments, ($i $len)))
    };
}

/// Reads the body of a message of type `msg_type` and `len` bytes in place, if the type is
/// Certificate (11) or above.
///
/// `Error` of kind `Switch` if no body has this type, else the refusal of the body's call.
#[tactic(auto, using(layouts::proofs::OneAnswerLemmas::read_allowed), unfolding(crate::specs::Handshake::body_from_certificate, crate::specs::Handshake::certificate_body, crate::specs::Handshake::certificate_request_body))]
fn from_certificate(
    i: &[u8],
    msg_type: TlsHandshakeType,
    len: usize,
) -> IResult<&[u8], HandshakeView>
    ensures { Gives view_handshake_in_place (body_from_certificate msg_type.0 len) i.now result }
{
    rows!(certificate_rows in_place msg_type i len => other(body_from_finished(i, msg_type, len)))
}

/// Reads the body of a message of type `msg_type` and `len` bytes in place, from the start of `i`.
///
/// `Error` of kind `Switch` if no body has this type, else the refusal of the body's call.
#[tactic(auto, using(layouts::proofs::OneAnswerLemmas::read_allowed), unfolding(crate::specs::Handshake::handshake_body, crate::specs::Handshake::client_hello_body))]
#[inline(always)]
fn body_in_place(i: &[u8], msg_type: TlsHandshakeType, len: usize) -> IResult<&[u8], HandshakeView>
    ensures { Gives view_handshake_in_place (handshake_body msg_type.0 len) i.now result }
{
    rows!(first_rows in_place msg_type i len => from_certificate(i, msg_type, len))
}
