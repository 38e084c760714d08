//! The table of handshake messages: which type has which body (RFC 5246, section 7.4), and the
//! functions that use it.
ghost use Rattle.layouts.specs.Answers.{Gives, GivesOrMemory};
ghost use Rattle.tls_hs.specs.Handshake.{view_handshake, handshake_body as handshake_body_layout};
ghost use Rattle.tls_hs.specs.Handshake.{body_from_certificate as body_from_certificate_layout, body_from_finished as body_from_finished_layout};

use crate::handshake::TlsMessageHandshake;
use crate::{bodies, session};
use layouts::{ErrorKind, IResult, refused};
use std::alloc::Global;
use tls_base::TlsHandshakeType;

/// The table. It passes its rows to the macro `$then`, after the words in brackets; `$part` picks
/// the rows.
///
/// A row has the form of the message, then the name that the constant of `TlsHandshakeType` and the
/// variant of `TlsMessageHandshake` share. Then comes the call that reads the body as that message
/// from `i`. Some of these calls also take `alloc`, others the body's length `len`. The forms:
///
/// - `empty`: the message has no fields.
/// - `value`: it has one field, which is copied.
/// - `contents`: it has a struct without lists.
/// - `lists`: it has a struct with lists. `HandshakeView` has a variant of that name too, which the
///   call in brackets reads.
///
/// The rows are in the order of the types' numbers, in three parts of at most six rows each, as in
/// the definition.
macro_rules! rows {
    ($part:ident $then:ident $($words:tt)*) => {
        $part! {
            $then [$($words)*]
            {
                empty HelloRequest: bodies::parse_tls_handshake_msg_hello_request(i);
                lists ClientHello(ClientHelloView::parse):
                    bodies::parse_tls_handshake_msg_client_hello(alloc, i);
                contents ServerHello: bodies::parse_tls_handshake_msg_server_hello(i);
                contents NewSessionTicket:
                    session::parse_tls_handshake_msg_newsessionticket(i, len);
                empty EndOfEarlyData: bodies::end_of_early_data(i);
                contents HelloRetryRequest: bodies::parse_tls_handshake_msg_hello_retry_request(i);
            }
            {
                lists Certificate(certificates):
                    bodies::parse_tls_handshake_msg_certificate(alloc, i);
                contents ServerKeyExchange:
                    session::parse_tls_handshake_msg_serverkeyexchange(i, len);
                lists CertificateRequest(CertificateRequestView::parse):
                    bodies::parse_tls_handshake_msg_certificaterequest(alloc, i);
                value ServerDone: bodies::parse_tls_handshake_msg_serverdone(i, len);
                value CertificateVerify: bodies::parse_tls_handshake_msg_certificateverify(i, len);
                contents ClientKeyExchange:
                    session::parse_tls_handshake_msg_clientkeyexchange(i, len);
            }
            {
                value Finished: bodies::parse_tls_handshake_msg_finished(i, len);
                contents CertificateStatus: bodies::parse_tls_handshake_msg_certificatestatus(i);
                value KeyUpdate: session::parse_tls_handshake_msg_key_update(i);
                contents NextProtocol: session::parse_tls_handshake_msg_next_protocol(i);
            }
        }
    };
}

/// Picks all rows.
macro_rules! every_row {
    ($then:ident $words:tt $({ $($row:tt)* })*) => {
        $then! { $words $($($row)*)* }
    };
}

/// Picks the rows of the types below Certificate (11).
macro_rules! first_rows {
    ($then:ident $words:tt { $($row:tt)* } $certificate:tt $finished:tt) => {
        $then! { $words $($row)* }
    };
}

/// Picks the rows from Certificate (11) on, below Finished (20).
macro_rules! certificate_rows {
    ($then:ident $words:tt $first:tt { $($row:tt)* } $finished:tt) => {
        $then! { $words $($row)* }
    };
}

/// Picks the rows from Finished (20) on.
macro_rules! finished_rows {
    ($then:ident $words:tt $first:tt $certificate:tt { $($row:tt)* }) => {
        $then! { $words $($row)* }
    };
}

/// Expands to the call of a row, with the arguments that it takes.
macro_rules! read_body {
    ($module:ident::$read:ident(i), ($i:ident $len:ident $($alloc:ident)?)) => {
        $module::$read($i)
    };
    ($module:ident::$read:ident(i, len), ($i:ident $len:ident $($alloc:ident)?)) => {
        $module::$read($i, $len)
    };
    ($module:ident::$read:ident(alloc, i), ($i:ident $len:ident $alloc:ident)) => {
        $module::$read($alloc, $i)
    };
}

pub(crate) use certificate_rows;
pub(crate) use every_row;
pub(crate) use first_rows;
pub(crate) use read_body;
pub(crate) use rows;

/// Expands to a match on the type: the call of its row, or `$other` if no row has it.
macro_rules! by_type {
    ([$msg_type:ident $given:tt => $other:expr]
        $($form:ident $name:ident $(($view:path))?: $module:ident::$read:ident
            $arguments:tt;)*) => {
        match $msg_type {
            $(TlsHandshakeType::$name => read_body!($module::$read $arguments, $given),)*
            _ => $other,
        }
    };
}

/// Reads the body of a message of type `msg_type` and `len` bytes, if the type is Finished (20) or
/// above.
///
/// `Error` of kind `Switch` if no body has this type, else the refusal of the body's call.
#[tactic(auto, using(layouts::proofs::OneAnswerLemmas::read_allowed), unfolding(crate::specs::Handshake::body_from_finished))]
pub(crate) fn body_from_finished(
    i: &[u8],
    msg_type: TlsHandshakeType,
    len: usize,
) -> IResult<&[u8], TlsMessageHandshake>
    ensures { Gives view_handshake (body_from_finished_layout msg_type.0 len) i.now result }
{
    rows!(finished_rows by_type msg_type (i len) => refused(i, ErrorKind::Switch))
}

/// Reads the body of a message of type `msg_type` and `len` bytes, if the type is Certificate (11)
/// or above.
///
/// `Error` of kind `Switch` if no body has this type, else the refusal of the body's call.
#[tactic(auto, using(layouts::proofs::OneAnswerLemmas::read_allowed), unfolding(crate::specs::Handshake::body_from_certificate))]
fn body_from_certificate(
    alloc: Global,
    i: &[u8],
    msg_type: TlsHandshakeType,
    len: usize,
) -> IResult<&[u8], TlsMessageHandshake>
    ensures { GivesOrMemory view_handshake (body_from_certificate_layout msg_type.0 len)
        i.now result }
{
    rows!(certificate_rows by_type msg_type (i len alloc) => body_from_finished(i, msg_type, len))
}

/// Reads the body of a message of type `msg_type` and `len` bytes from the start of `i`.
///
/// `Error` of kind `Switch` if no body has this type, else the refusal of the body's call.
#[tactic(auto, using(layouts::proofs::OneAnswerLemmas::read_allowed), unfolding(crate::specs::Handshake::handshake_body))]
pub(crate) fn handshake_body(
    alloc: Global,
    i: &[u8],
    msg_type: TlsHandshakeType,
    len: usize,
) -> IResult<&[u8], TlsMessageHandshake>
    ensures { GivesOrMemory view_handshake (handshake_body_layout msg_type.0 len) i.now result }
{
    rows!(first_rows by_type msg_type
        (i len alloc) => body_from_certificate(alloc, i, msg_type, len))
}
