//! Bodies of handshake messages.
ghost use Rattle.std.specs.Prelude.{IfOk, IfSome, ◌≡◌, ◌++◌, codes};
ghost use Rattle.serde_json.specs.Data.{array, no_items};
ghost use Rattle.layouts.specs.Items.{left_in};
ghost use Rattle.layouts.specs.Layout.{counted};
ghost use Rattle.tls_json.specs.Outline.{Shows, Entries, list, HasNames, HasFields};
ghost use Rattle.tls_json.specs.Whole.{Is, HasMembers};
ghost use Rattle.tls_json.specs.Tables.{chain_fields, list_if, request_fields, ticket_fields, ocsp_entries, status_fields, next_protocol_names, verify_request_fields, finished_fields, key_update_fields};

use crate::certificate::certificate;
use crate::datagrams::whole_message;
use crate::hello::{client_hello, hello_retry_request, server_hello, server_hello_of_draft};
use crate::json::{ParsedValue, Value};
use crate::key_exchange::{client_key_exchange, server_key_exchange, signature};
use crate::negotiated::NegotiatedParameters;
use crate::object::ObjectBuilder;
use crate::responses::ocsp_response;
use crate::suite::SuiteText;
use crate::table::{Table, Values, single};
use crate::text::{blob, blobs, codes, escaped, numbers};
use layouts::{Items, counted2, number4};
use std::alloc::{AllocError, Global};
use tls_base::{TlsHandshakeType, TlsVersion};
use tls_flow::{HandshakeMessage, ReadServerHello};
use tls_hs::{
    CertificateRequestView, ClientHelloView, HandshakeView, RawCertificate, RawHandshake,
    TlsCertificateStatusContents, TlsMessageHandshake, TlsNextProtocolContent,
};
use tls_records::{DTLSBodyView, DTLSClientHelloView, DTLSMessageHandshakeBody};

/// The type of a status that is an OCSPResponse (RFC 6066, section 8).
const OCSP: u8 = 1;

/// A body, and the bytes after its last field.
#[derive(Drop)]
pub struct BodyJson<'a> {
    /// The fields of the body, or its bytes if it can't be parsed.
    pub body: Result<Value, AllocError>,
    /// Empty if the body can't be parsed.
    pub rest: &'a [u8],
}

/// Lists the certificates of a chain, each as its bytes.
fn certificate_bytes<'a>(alloc: Global, list: &'a [u8]) -> Result<Value, AllocError>
    ensures { IfOk result (Shows (array no_items)) }
{
    let walk: Items<RawCertificate> = Items::new(list);
    let mut all = Values::new(alloc);
    for certificate in walk {
        all = all.add(blob(alloc, certificate.bytes));
    }
    all.finish()
}

/// Lists the certificates of a chain, each by its fields.
fn certificate_fields<'a>(alloc: Global, list: &'a [u8]) -> Result<Value, AllocError>
    ensures { IfOk result (Shows (array no_items)) }
{
    let walk: Items<RawCertificate> = Items::new(list);
    let mut all = Values::new(alloc);
    for one in walk {
        all = all.add(certificate(alloc, one.bytes));
    }
    all.finish()
}

/// Returns the bytes after the last whole certificate of a list.
fn rest_of_chain<'a>(list: &'a [u8]) -> &'a [u8]
    ensures { result.now ≡ left_in (counted 3) list.now }
{
    let walk: Items<RawCertificate> = Items::new(list);
    walk.rest()
}

/// Writes a certificate chain (RFC 5246, section 7.4.2): the certificates' bytes, their fields, and
/// what follows the last whole one.
fn chain(alloc: Global, list: &[u8]) -> Result<Value, AllocError>
    ensures { IfOk result (Shows (chain_fields list.now)) }
{
    Table::new(alloc)
        .add("certificate_list", certificate_bytes(alloc, list))
        .add("certificates", certificate_fields(alloc, list))
        .some_bytes("rest", rest_of_chain(list))
        .finish()
}

/// Adds the signature algorithms, if the request has them.
fn with_algorithms(alloc: Global, table: Table, algorithms: Option<Items<'_, u16>>) -> Table
    ensures { (es : Entries) → HasFields es table
        → HasFields (es ++ list_if (codes "supported_signature_algorithms") algorithms.entry)
        result }
{
    match algorithms {
        Some(list) => table.add(
            "supported_signature_algorithms",
            numbers(alloc, list.bytes()),
        ),
        None => table,
    }
}

/// Writes a CertificateRequest (RFC 5246, section 7.4.4), and what follows the last whole
/// authority.
fn certificate_request(
    alloc: Global,
    request: &CertificateRequestView<'_>,
) -> Result<Value, AllocError>
    ensures { IfOk result (Shows (request_fields request.now)) }
{
    let table = Table::new(alloc).add("certificate_types", codes(alloc, request.cert_types));
    with_algorithms(alloc, table, request.sig_hash_algs)
        .add("certificate_authorities", blobs(alloc, request.unparsed_ca))
        .some_bytes("rest", request.unparsed_ca.rest())
        .finish()
}

/// Writes a CertificateRequest; `None` if its algorithms end in half of one, for which there is no
/// field.
fn whole_request(alloc: Global, request: &CertificateRequestView<'_>) -> ParsedValue
    ensures { IfSome result (λ r. IfOk r (Shows (request_fields request.now))) }
{
    match request.sig_hash_algs {
        Some(list) if !list.rest().is_empty() => None,
        _ => Some(certificate_request(alloc, request)),
    }
}

/// Writes a NewSessionTicket (RFC 5077, section 3.3).
fn ticket(alloc: Global, lifetime_hint: u32, ticket: &[u8]) -> Result<Value, AllocError>
    ensures { IfOk result (Shows (ticket_fields lifetime_hint ticket.now)) }
{
    Table::new(alloc)
        .decimal("ticket_lifetime_hint", u64::from(lifetime_hint))
        .bytes("ticket", ticket)
        .finish()
}

/// Adds the fields of a response, if it is an OCSPResponse.
fn with_ocsp(
    alloc: Global,
    object: ObjectBuilder,
    status_type: u8,
    response: &[u8],
) -> ObjectBuilder
    ensures { (es : Entries) → HasMembers es object
        → HasMembers (es ++ ocsp_entries status_type response.now) result }
{
    if status_type == OCSP {
        object.add("ocsp_response", ocsp_response(alloc, response))
    } else {
        object
    }
}

/// Writes a CertificateStatus (RFC 6066, section 8).
fn status(alloc: Global, status: &TlsCertificateStatusContents<'_>) -> Result<Value, AllocError>
    ensures { IfOk result (Is (status_fields status.now)) }
{
    let raw = ObjectBuilder::new(alloc)
        .decimal("status_type", u64::from(status.status_type))
        .bytes("response", status.blob);
    with_ocsp(alloc, raw, status.status_type, status.blob).finish()
}

/// Writes a NextProtocol (draft-agl-tls-nextprotoneg-04, section 3).
fn next_protocol(alloc: Global, next: &TlsNextProtocolContent<'_>) -> Result<Value, AllocError>
    ensures { IfOk result (HasNames next_protocol_names) }
{
    Table::new(alloc)
        .add("selected_protocol", escaped(alloc, next.selected_protocol))
        .bytes("padding", next.padding)
        .finish()
}

/// Writes a HelloVerifyRequest (RFC 6347, section 4.2.1).
fn verify_request(alloc: Global, version: TlsVersion, cookie: &[u8]) -> Result<Value, AllocError>
    ensures { IfOk result (Shows (verify_request_fields version.0 cookie.now)) }
{
    Table::new(alloc)
        .hexadecimal("server_version", version.0)
        .bytes("cookie", cookie)
        .finish()
}

/// Writes a Finished (RFC 5246, section 7.4.9).
fn finished(alloc: Global, verify_data: &[u8]) -> Result<Value, AllocError>
    ensures { IfOk result (Shows (finished_fields verify_data.now)) }
{
    single(alloc, "verify_data", blob(alloc, verify_data))
}

/// Writes a KeyUpdate (RFC 8446, section 4.6.3).
fn key_update(alloc: Global, request_update: u8) -> Result<Value, AllocError>
    ensures { IfOk result (Shows (key_update_fields request_update)) }
{
    Table::new(alloc)
        .decimal("request_update", u64::from(request_update))
        .finish()
}

/// Writes the body of a message without lists, if it has fields.
fn other(alloc: Global, suite_text: SuiteText, message: &TlsMessageHandshake<'_>) -> ParsedValue {
    match message {
        TlsMessageHandshake::ServerHello(hello) => Some(server_hello(alloc, suite_text, hello)),
        TlsMessageHandshake::ServerHelloV13Draft18(hello) => {
            Some(server_hello_of_draft(alloc, suite_text, hello))
        }
        TlsMessageHandshake::HelloRetryRequest(request) => {
            Some(hello_retry_request(alloc, suite_text, request))
        }
        TlsMessageHandshake::CertificateStatus(contents) => Some(status(alloc, contents)),
        TlsMessageHandshake::NextProtocol(next) => Some(next_protocol(alloc, next)),
        TlsMessageHandshake::Finished(verify_data) => Some(finished(alloc, verify_data)),
        TlsMessageHandshake::KeyUpdate(request_update) => Some(key_update(alloc, *request_update)),
        _ => None,
    }
}

/// Writes the parsed body of a message of TLS.
fn body_of(alloc: Global, suite_text: SuiteText, read: HandshakeView<'_>) -> ParsedValue {
    match read {
        HandshakeView::ClientHello(hello) => Some(client_hello(alloc, suite_text, &hello, None)),
        HandshakeView::Certificate(list) => Some(chain(alloc, list.bytes())),
        HandshakeView::CertificateRequest(request) => whole_request(alloc, &request),
        HandshakeView::Other(message) => other(alloc, suite_text, &message),
    }
}

/// Writes a ClientHello of DTLS, which has a cookie.
fn client_hello_of_datagrams(
    alloc: Global,
    suite_text: SuiteText,
    hello: &DTLSClientHelloView<'_>,
) -> Result<Value, AllocError> {
    let as_of_tls = ClientHelloView {
        version: hello.version,
        random: hello.random,
        session_id: hello.session_id,
        ciphers: hello.ciphers,
        comp: hello.comp,
        ext: hello.ext,
    };
    client_hello(alloc, suite_text, &as_of_tls, Some(hello.cookie))
}

/// Writes a body that differs between DTLS and TLS.
fn other_in_datagrams(
    alloc: Global,
    suite_text: SuiteText,
    read: &DTLSBodyView<'_>,
) -> ParsedValue {
    match read {
        DTLSBodyView::ClientHello(hello) => Some(client_hello_of_datagrams(
            alloc, suite_text, hello,
        )),
        DTLSBodyView::Other(DTLSMessageHandshakeBody::HelloVerifyRequest(verify)) => Some(
            verify_request(alloc, verify.server_version, verify.cookie),
        ),
        _ => None,
    }
}

/// Writes the parsed body of a message whose body differs between DTLS and TLS.
fn body_in_datagrams(alloc: Global, suite_text: SuiteText, read: DTLSBodyView<'_>) -> ParsedValue {
    other_in_datagrams(alloc, suite_text, &read)
}

/// Writes a ServerHello; `None` if it can't be parsed.
fn read_hello(
    alloc: Global,
    suite_text: SuiteText,
    hello: &Option<ReadServerHello<'_>>,
) -> ParsedValue {
    match hello {
        Some(read) => other(alloc, suite_text, &read.message),
        None => None,
    }
}

/// Returns the bytes after a ServerHello's last field.
fn rest_of_hello<'a>(message: &HandshakeMessage<'a>) -> &'a [u8] {
    match &message.server_hello {
        Some(read) => read.rest,
        None => &[],
    }
}

impl<'a> BodyJson<'a> {
    /// Returns a body and the bytes after it, or the bytes of a body that can't be parsed.
    fn of_body(alloc: Global, body: ParsedValue, rest: &'a [u8], bytes: &[u8]) -> BodyJson<'a> {
        match body {
            Some(body) => BodyJson { body, rest },
            None => BodyJson::of_bytes(alloc, bytes),
        }
    }

    /// Returns a body that can't be parsed, as its bytes.
    fn of_bytes(alloc: Global, bytes: &[u8]) -> BodyJson<'a> {
        BodyJson {
            body: blob(alloc, bytes),
            rest: &[],
        }
    }

    /// Parses a NewSessionTicket. `tls_hs` leaves the ticket's length in front of it, so it is
    /// parsed here.
    fn of_ticket(alloc: Global, bytes: &'a [u8]) -> BodyJson<'a> {
        let Ok((i, lifetime_hint)) = number4(bytes) else {
            return BodyJson::of_bytes(alloc, bytes);
        };
        let Ok((rest, content)) = counted2(i) else {
            return BodyJson::of_bytes(alloc, bytes);
        };
        BodyJson {
            body: ticket(alloc, lifetime_hint, content),
            rest,
        }
    }

    /// Parses a message whose fields depend on the negotiated parameters.
    fn of_exchange(
        alloc: Global,
        negotiated: NegotiatedParameters,
        msg_type: TlsHandshakeType,
        bytes: &'a [u8],
    ) -> BodyJson<'a> {
        let read = match msg_type {
            TlsHandshakeType::ServerKeyExchange => server_key_exchange(alloc, negotiated, bytes),
            TlsHandshakeType::ClientKeyExchange => client_key_exchange(alloc, negotiated, bytes),
            _ => signature(alloc, negotiated.version, bytes),
        };
        match read {
            Some((rest, body)) => BodyJson { body, rest },
            None => BodyJson::of_bytes(alloc, bytes),
        }
    }

    /// Parses the body of a message of TLS, with the parameters of the ServerHello before it.
    pub fn new(
        alloc: Global,
        suite_text: SuiteText,
        negotiated: Option<NegotiatedParameters>,
        message: &HandshakeMessage<'a>,
    ) -> BodyJson<'a> {
        if message.msg_type == TlsHandshakeType::ServerHello {
            return BodyJson::of_server_hello(alloc, suite_text, message);
        }
        BodyJson::of_other(
            alloc,
            suite_text,
            negotiated,
            message.msg_type,
            message.body,
        )
    }

    /// Parses the body of a message other than a ServerHello.
    fn of_other(
        alloc: Global,
        suite_text: SuiteText,
        negotiated: Option<NegotiatedParameters>,
        msg_type: TlsHandshakeType,
        body: &'a [u8],
    ) -> BodyJson<'a> {
        match msg_type {
            TlsHandshakeType::NewSessionTicket => BodyJson::of_ticket(alloc, body),
            TlsHandshakeType::ServerKeyExchange
            | TlsHandshakeType::ClientKeyExchange
            | TlsHandshakeType::CertificateVerify => match negotiated {
                Some(negotiated) => BodyJson::of_exchange(alloc, negotiated, msg_type, body),
                None => BodyJson::of_bytes(alloc, body),
            },
            _ => BodyJson::of_itself(alloc, suite_text, msg_type, body),
        }
    }

    /// Returns the body of a ServerHello, which was parsed already.
    fn of_server_hello(
        alloc: Global,
        suite_text: SuiteText,
        message: &HandshakeMessage<'a>,
    ) -> BodyJson<'a> {
        let body = read_hello(alloc, suite_text, &message.server_hello);
        BodyJson::of_body(alloc, body, rest_of_hello(message), message.body)
    }

    /// Parses the body of a message that doesn't depend on others.
    fn of_itself(
        alloc: Global,
        suite_text: SuiteText,
        msg_type: TlsHandshakeType,
        body: &'a [u8],
    ) -> BodyJson<'a> {
        let message = RawHandshake { msg_type, body };
        match message.parse_body() {
            Ok((rest, read)) => BodyJson::of_body(
                alloc,
                body_of(alloc, suite_text, read),
                rest,
                body,
            ),
            Err(_) => BodyJson::of_bytes(alloc, body),
        }
    }

    /// Parses the body of a message of DTLS. Only ClientHello and HelloVerifyRequest differ from
    /// TLS (RFC 6347, section 4.2).
    pub fn of_datagrams(
        alloc: Global,
        suite_text: SuiteText,
        negotiated: Option<NegotiatedParameters>,
        message: &HandshakeMessage<'a>,
    ) -> BodyJson<'a> {
        match message.msg_type {
            TlsHandshakeType::ClientHello | TlsHandshakeType::HelloVerifyRequest => {
                BodyJson::of_datagrams_alone(alloc, suite_text, message.msg_type, message.body)
            }
            _ => BodyJson::new(alloc, suite_text, negotiated, message),
        }
    }

    /// Parses a body that differs between DTLS and TLS.
    fn of_datagrams_alone(
        alloc: Global,
        suite_text: SuiteText,
        msg_type: TlsHandshakeType,
        body: &'a [u8],
    ) -> BodyJson<'a> {
        let Some(message) = whole_message(msg_type, body) else {
            return BodyJson::of_bytes(alloc, body);
        };
        match message.parse_body() {
            Ok((rest, read)) => BodyJson::of_body(
                alloc,
                body_in_datagrams(alloc, suite_text, read),
                rest,
                body,
            ),
            Err(_) => BodyJson::of_bytes(alloc, body),
        }
    }
}
