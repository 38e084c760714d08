//! The summary of a connection, from both sides' messages and alerts.
ghost use Rattle.std.specs.Prelude.{◌≡◌, OnOk};
ghost use Rattle.std.specs.Option.{option_map};
ghost use Rattle.tls_hs.specs.InPlace.{view_client_hello_in_place};
ghost use Rattle.tls_hs.specs.Handshake.{view_handshake};
ghost use Rattle.tls_hs.specs.ServerHello.{view_server_hello, view_server_hello_draft18};
ghost use Rattle.tls_summary.specs.HandshakeSummary.{asked, asked_in_ssl2, certified, chosen, exchanged, has_asked as has_asked_in, is_stray as is_stray_in, nothing, of_alert, of_bytes, of_datagram_client_hello, of_datagram_message, of_datagrams, of_draft, of_message, of_other, of_server_hello, retried, stapled, ticketed, verified, view_summary, with_chain};
ghost use Rattle.ssl2_hello.specs.ClientHello.{view_client_hello as view_ssl2_hello};
ghost use Rattle.layouts.specs.Reading.{reading};
ghost use Rattle.tls_hs.specs.Certificate.{certificate, certificate_status};
ghost use Rattle.tls_flow.specs.Bytes.{view_handshake_message};
ghost use Rattle.dtls_records.specs.DtlsHello.{client_hello as datagram_client_hello};

use crate::certificate_cache::CertificateCache;
use crate::exchange::{curve_of, prime_bits_of};
use crate::hellos::{first_number, group_of_share};
use crate::parts::{
    CertificateSummary, Chain, ClientParts, ServerParts, chain_of, copied, copied_if,
    ocsp_response_in,
};
use dtls_records::DTLSClientHelloView;
use ssl2_hello::Ssl2ClientHello;
use std::alloc::{AllocError, Global};
use tls_base::{
    NamedGroup, TlsAlertDescription, TlsCipherSuiteID, TlsCompressionID, TlsExtensionType,
    TlsHandshakeType,
};
use tls_ext::offered::{content, none};
use tls_flow::{Direction, HandshakeMessage, Kind, ReadServerHello};
use tls_hs::{
    ClientHelloView, TlsMessageHandshake, TlsServerHelloContents, TlsServerHelloV13Draft18Contents,
    certificates,
};

/// What both sides of a connection have sent in the clear.
#[derive(Debug, PartialEq, Drop)]
pub struct HandshakeSummary {
    /// The ClientHello that was answered or will be: the client's first, or the one that the server
    /// asked for with a HelloRetryRequest (RFC 8446, section 4.1.2) or a HelloVerifyRequest (RFC
    /// 6347, section 4.2.1).
    pub client: Option<ClientParts>,
    /// The server's first ServerHello that isn't a HelloRetryRequest.
    pub server: Option<ServerParts>,
    pub(crate) curve: Option<NamedGroup>,
    /// The length in bits of dh_p, the prime in the ServerKeyExchange (RFC 5246, section 7.4.3);
    /// `None` without one, and if the message doesn't parse.
    pub dh_bits: Option<u32>,
    /// The certificates of the client's last Certificate message, its end-entity certificate first
    /// (RFC 5246, section 7.4.6). TLS 1.3 encrypts it.
    pub client_certificates: Option<Vec<CertificateSummary>>,
    /// The certificates of the server's last Certificate message, its end-entity certificate first
    /// (RFC 5246, section 7.4.2).
    pub server_certificates: Option<Vec<CertificateSummary>>,
    /// The client's end-entity certificate in DER, the first of
    /// [`client_certificates`](HandshakeSummary::client_certificates); `None` if there is none.
    pub client_certificate: Option<Vec<u8>>,
    /// The server's end-entity certificate in DER; `None` if there is none.
    pub server_certificate: Option<Vec<u8>>,
    /// Whether each of the [`client_certificates`](HandshakeSummary::client_certificates) was issued
    /// by the next one's subject, as [`server_chain_order`](HandshakeSummary::server_chain_order).
    pub client_chain_order: Option<bool>,
    /// Whether the server's certificates are in order: the issuer of each is the subject of the next,
    /// byte for byte (RFC 5246, section 7.4.2). `None` for fewer than two, and if one doesn't parse.
    pub server_chain_order: Option<bool>,
    // Whether the server asked for another ClientHello that hasn't come yet.
    pub(crate) is_asked_again: bool,
    /// Whether the server asked for another ClientHello with a HelloRetryRequest (RFC 8446, section
    /// 4.1.4).
    pub is_retried: bool,
    /// Whether a CertificateRequest came (RFC 5246, section 7.4.4).
    pub requests_certificate: bool,
    /// Whether a CertificateStatus came (RFC 6066, section 8).
    pub has_status: bool,
    /// The OCSP response in the server's first CertificateStatus that holds one, as it came: it may
    /// be no response at all (RFC 6066, section 8). TLS 1.3 encrypts it.
    pub ocsp_response: Option<Vec<u8>>,
    /// Whether a NewSessionTicket came (RFC 5077, section 3.3).
    pub has_ticket: bool,
    /// The lifetime of the ticket in the server's last NewSessionTicket, in seconds; 0 leaves it
    /// unspecified (RFC 5077, section 3.3). TLS 1.3 encrypts the message.
    pub ticket_lifetime_hint: Option<u32>,
    // Whether a ClientHello that another one replaced had encrypted_client_hello.
    pub(crate) had_encrypted_hello: bool,
    /// The description of the last alert in the clear.
    pub last_alert: Option<TlsAlertDescription>,
    /// The CipherSpecs of a ClientHello of SSL 2.0's form, 3 bytes each, in its order (RFC 5246,
    /// appendix E.2). `None` for any other, whose cipher suites are in
    /// [`client`](HandshakeSummary::client).
    pub ssl2_cipher_specs: Option<Vec<u8>>,
}

/// A ServerHello of a draft of TLS 1.3 as a later one, with an empty session ID and compression
/// method 0.
fn as_later<'a>(hello: &TlsServerHelloV13Draft18Contents<'a>) -> TlsServerHelloContents<'a>
    ensures { view_server_hello result ≡ of_draft (view_server_hello_draft18 hello.now) }
{
    TlsServerHelloContents {
        version: hello.version,
        random: hello.random,
        session_id: None,
        cipher: hello.cipher,
        compression: TlsCompressionID(0),
        ext: hello.ext,
    }
}

impl HandshakeSummary {
    /// An empty summary. It doesn't allocate.
    pub fn new() -> HandshakeSummary
        ensures { view_summary result ≡ nothing }
    {
        HandshakeSummary {
            client: None,
            server: None,
            curve: None,
            dh_bits: None,
            client_certificates: None,
            server_certificates: None,
            client_certificate: None,
            server_certificate: None,
            client_chain_order: None,
            server_chain_order: None,
            is_asked_again: false,
            is_retried: false,
            requests_certificate: false,
            has_status: false,
            ocsp_response: None,
            has_ticket: false,
            ticket_lifetime_hint: None,
            had_encrypted_hello: false,
            last_alert: None,
            ssl2_cipher_specs: None,
        }
    }

    /// Whether the client sent its hello and wasn't asked for another.
    pub fn has_asked(&self) -> bool
        ensures { result ≡ has_asked_in (view_summary self.now) }
    {
        self.client.is_some() && !self.is_asked_again
    }

    /// Whether a hello doesn't belong to the handshake: a ClientHello that nobody asked for (RFC
    /// 8446, section 4.1.2; RFC 5246, section 7.4.1.2), a second ServerHello or HelloRetryRequest,
    /// or a hello from the wrong side. Its receiver aborts the handshake with an alert, or drops
    /// the hello. The summary ignores it.
    pub fn is_stray(&self, side: Direction, kind: Kind) -> bool
        ensures { result ≡ is_stray_in side kind (view_summary self.now) }
    {
        match (side, kind) {
            (Direction::ToServer, Kind::ClientHello) => self.has_asked(),
            (Direction::FromServer, Kind::ClientHello) => true,
            (
                Direction::ToServer,
                Kind::ServerHello | Kind::ServerHello13 | Kind::HelloRetryRequest,
            ) => true,
            (Direction::FromServer, Kind::ServerHello | Kind::ServerHello13) => self
                .server
                .is_some(),
            (Direction::FromServer, Kind::HelloRetryRequest) => self.server.is_some()
                || self.is_retried,
            _ => false,
        }
    }

    /// Stores a ClientHello.
    fn ask(
        &mut self,
        alloc: Global,
        side: Direction,
        hello: &ClientHelloView<'_>,
    ) -> Result<(), AllocError>
        ensures { OnOk result
            (view_summary self.new ≡ asked side (view_client_hello_in_place hello.now)
            (view_summary self.old)) }
    {
        if side == Direction::FromServer || self.has_asked() {
            return Ok(());
        }
        let parts = ClientParts::of(alloc, hello)?;
        self.had_encrypted_hello = self.had_encrypted_hello || self.offers_encrypted_client_hello();
        self.is_asked_again = self.client.is_none() && self.is_asked_again;
        self.client = Some(parts);
        self.ssl2_cipher_specs = None;
        Ok(())
    }

    /// Records a ClientHello of SSL 2.0's form (RFC 5246, appendix E.2), with which a side begins.
    /// Its challenge becomes the client's random.
    ///
    /// `AllocError` if there is no memory for it.
    pub fn note_ssl2_hello(
        &mut self,
        alloc: Global,
        side: Direction,
        hello: &Ssl2ClientHello<'_>,
    ) -> Result<(), AllocError>
        ensures { OnOk result
            (view_summary self.new ≡ asked_in_ssl2 side (view_ssl2_hello hello.now)
            (view_summary self.old)) }
    {
        if side == Direction::FromServer || self.has_asked() {
            return Ok(());
        }
        let specs = copied(alloc, hello.cipher_specs.bytes())?;
        let as_tls = ClientHelloView {
            version: hello.version,
            random: hello.challenge,
            session_id: if hello.session_id.is_empty() {
                None
            } else {
                Some(hello.session_id)
            },
            ciphers: none::<TlsCipherSuiteID>(),
            comp: none::<TlsCompressionID>(),
            ext: None,
        };
        self.ask(alloc, side, &as_tls)?;
        self.ssl2_cipher_specs = Some(specs);
        Ok(())
    }

    /// Records a HelloRetryRequest.
    fn retry(&mut self, side: Direction)
        ensures { view_summary self.new ≡ retried side (view_summary self.old) }
    {
        if side == Direction::FromServer && self.server.is_none() && !self.is_retried {
            self.is_asked_again = true;
            self.is_retried = true;
        }
    }

    /// Records a HelloVerifyRequest of this side (RFC 6347, section 4.2.1), which asks for another
    /// ClientHello.
    pub fn verify(&mut self, side: Direction)
        ensures { view_summary self.new ≡ verified side (view_summary self.old) }
    {
        if side == Direction::FromServer && self.server.is_none() {
            self.is_asked_again = true;
        }
    }

    /// Stores a ServerHello.
    fn choose(
        &mut self,
        alloc: Global,
        side: Direction,
        hello: &TlsServerHelloContents<'_>,
    ) -> Result<(), AllocError>
        ensures { OnOk result
            (view_summary self.new ≡ chosen side (view_server_hello hello.now)
            (view_summary self.old)) }
    {
        if hello.is_retry_request() {
            self.retry(side);
            return Ok(());
        }
        if side == Direction::ToServer || self.server.is_some() {
            return Ok(());
        }
        self.server = Some(ServerParts::of(alloc, hello)?);
        self.curve = group_of_share(content(hello.ext, TlsExtensionType::KeyShare));
        Ok(())
    }

    /// Records a ServerHello; a refused one is ignored.
    fn note_server_hello(
        &mut self,
        alloc: Global,
        side: Direction,
        hello: &Option<ReadServerHello<'_>>,
    ) -> Result<(), AllocError>
        ensures { OnOk result
            (view_summary self.new ≡ of_server_hello side
            (option_map (λ h. view_handshake h.message) hello.now) (view_summary self.old)) }
    {
        let Some(hello) = hello else {
            return Ok(());
        };
        match &hello.message {
            TlsMessageHandshake::ServerHello(hello) => self.choose(alloc, side, hello),
            TlsMessageHandshake::ServerHelloV13Draft18(hello) => {
                self.choose(alloc, side, &as_later(hello))
            }
            _ => Ok(()),
        }
    }

    /// Records a ServerKeyExchange.
    fn note_key_exchange(&mut self, body: &[u8])
        ensures { view_summary self.new ≡ exchanged body.now (view_summary self.old) }
    {
        let Some(hello) = &self.server else {
            return;
        };
        self.curve = curve_of(hello.cipher, body, self.curve);
        self.dh_bits = prime_bits_of(hello.cipher, body, self.dh_bits);
    }

    /// Records a NewSessionTicket of this side.
    fn note_ticket(&mut self, side: Direction, body: &[u8])
        ensures { view_summary self.new ≡ ticketed side body.now (view_summary self.old) }
    {
        self.has_ticket = true;
        if side == Direction::FromServer {
            self.ticket_lifetime_hint = first_number(body);
        }
    }

    /// Records a CertificateStatus of this side.
    fn note_status(&mut self, alloc: Global, side: Direction, body: &[u8]) -> Result<(), AllocError>
        ensures { OnOk result
            (view_summary self.new ≡ stapled side (reading certificate_status body.now)
            (view_summary self.old)) }
    {
        if side == Direction::FromServer && self.ocsp_response.is_none() {
            self.ocsp_response = copied_if(alloc, ocsp_response_in(body))?;
        }
        self.has_status = true;
        Ok(())
    }

    /// Stores a side's chain in place of an earlier one.
    fn keep_chain(&mut self, side: Direction, chain: Chain)
        ensures { view_summary self.new ≡ with_chain side chain.summaries.items
            (option_map (λ v. v.items) chain.own) chain.is_in_order (view_summary self.old) }
    {
        let Chain {
            summaries,
            is_in_order,
            own,
        } = chain;
        match side {
            Direction::ToServer => {
                self.client_certificates = Some(summaries);
                self.client_certificate = own;
                self.client_chain_order = is_in_order;
            }
            Direction::FromServer => {
                self.server_certificates = Some(summaries);
                self.server_certificate = own;
                self.server_chain_order = is_in_order;
            }
        }
    }

    /// Records a Certificate of this side.
    fn note_certificates(
        &mut self,
        alloc: Global,
        side: Direction,
        body: &[u8],
        known: Option<&mut CertificateCache>,
    ) -> Result<(), AllocError>
        ensures { OnOk result
            (view_summary self.new ≡ certified side (reading certificate body.now)
            (view_summary self.old)) }
    {
        let Ok((_, list)) = certificates(body) else {
            return Ok(());
        };
        let chain = chain_of(alloc, list.bytes(), known)?;
        self.keep_chain(side, chain);
        Ok(())
    }

    /// Records a message that isn't a hello.
    fn note_other(
        &mut self,
        alloc: Global,
        side: Direction,
        msg_type: TlsHandshakeType,
        body: &[u8],
        known: Option<&mut CertificateCache>,
    ) -> Result<(), AllocError>
        ensures { OnOk result
            (view_summary self.new ≡ of_other side msg_type.0 body.now (view_summary self.old)) }
    {
        match msg_type {
            TlsHandshakeType::NewSessionTicket => self.note_ticket(side, body),
            TlsHandshakeType::HelloRetryRequest => self.retry(side),
            TlsHandshakeType::Certificate => self.note_certificates(alloc, side, body, known)?,
            TlsHandshakeType::ServerKeyExchange => self.note_key_exchange(body),
            TlsHandshakeType::CertificateRequest => self.requests_certificate = true,
            TlsHandshakeType::CertificateStatus => self.note_status(alloc, side, body)?,
            _ => {}
        }
        Ok(())
    }

    /// Records a handshake message of a side. The first hello of a side is kept; the ClientHello
    /// that a HelloRetryRequest asks for replaces the first one entirely. A refused message and a
    /// [stray](HandshakeSummary::is_stray) hello are ignored.
    ///
    /// `AllocError` if there is no memory for it.
    pub fn note(
        &mut self,
        alloc: Global,
        side: Direction,
        message: &HandshakeMessage<'_>,
    ) -> Result<(), AllocError>
        ensures { OnOk result
            (view_summary self.new ≡ of_message side (view_handshake_message message.now)
            (view_summary self.old)) }
    {
        self.note_with(alloc, side, message, None)
    }

    /// Records a handshake message of a side as [`HandshakeSummary::note`] does, with a cache of
    /// certificates: their summaries are taken from it, and new ones are added.
    ///
    /// `AllocError` if there is no memory for the message.
    pub fn note_with(
        &mut self,
        alloc: Global,
        side: Direction,
        message: &HandshakeMessage<'_>,
        known: Option<&mut CertificateCache>,
    ) -> Result<(), AllocError>
        ensures { OnOk result
            (view_summary self.new ≡ of_message side (view_handshake_message message.now)
            (view_summary self.old)) }
    {
        match message.msg_type {
            TlsHandshakeType::ClientHello => match ClientHelloView::parse(message.body) {
                Ok((_, hello)) => self.ask(alloc, side, &hello),
                Err(_) => Ok(()),
            },
            TlsHandshakeType::ServerHello => {
                self.note_server_hello(alloc, side, &message.server_hello)
            }
            _ => self.note_other(alloc, side, message.msg_type, message.body, known),
        }
    }

    /// Records a handshake message of a side as [`HandshakeSummary::note`] does, from its bytes
    /// with the header of 4 bytes (RFC 8446, section 4). One that isn't whole is ignored.
    ///
    /// `AllocError` if there is no memory for it.
    pub fn note_message(
        &mut self,
        alloc: Global,
        side: Direction,
        message: &[u8],
    ) -> Result<(), AllocError>
        ensures { OnOk result
            (view_summary self.new ≡ of_bytes side message.now (view_summary self.old)) }
    {
        match HandshakeMessage::read(message) {
            Some(message) => self.note(alloc, side, &message),
            None => Ok(()),
        }
    }

    /// Records a ClientHello of DTLS, from its body.
    fn note_datagram_client_hello(
        &mut self,
        alloc: Global,
        side: Direction,
        body: &[u8],
    ) -> Result<(), AllocError>
        ensures { OnOk result
            (view_summary self.new ≡ of_datagram_client_hello side
            (reading datagram_client_hello body.now) (view_summary self.old)) }
    {
        let Ok((rest, hello)) = DTLSClientHelloView::parse(body) else {
            return Ok(());
        };
        // (its receiver aborts the handshake with decode_error, and the first one was the one
        // answered)
        if self.client.is_some() && !rest.is_empty() {
            return Ok(());
        }
        let hello = ClientHelloView {
            version: hello.version,
            random: hello.random,
            session_id: hello.session_id,
            ciphers: hello.ciphers,
            comp: hello.comp,
            ext: hello.ext,
        };
        self.ask(alloc, side, &hello)
    }

    /// Records a handshake message of DTLS (RFC 6347, section 4.2.2) as [`HandshakeSummary::note`]
    /// does. A HelloVerifyRequest asks for another ClientHello too.
    ///
    /// `AllocError` if there is no memory for it.
    pub fn note_datagrams(
        &mut self,
        alloc: Global,
        side: Direction,
        message: &HandshakeMessage<'_>,
    ) -> Result<(), AllocError>
        ensures { OnOk result
            (view_summary self.new ≡ of_datagrams side (view_handshake_message message.now)
            (view_summary self.old)) }
    {
        self.note_datagrams_with(alloc, side, message, None)
    }

    /// Records a handshake message of DTLS with a cache of certificates, as
    /// [`HandshakeSummary::note_with`] does.
    ///
    /// `AllocError` if there is no memory for the message.
    pub fn note_datagrams_with(
        &mut self,
        alloc: Global,
        side: Direction,
        message: &HandshakeMessage<'_>,
        known: Option<&mut CertificateCache>,
    ) -> Result<(), AllocError>
        ensures { OnOk result
            (view_summary self.new ≡ of_datagrams side (view_handshake_message message.now)
            (view_summary self.old)) }
    {
        match message.msg_type {
            TlsHandshakeType::ClientHello => {
                self.note_datagram_client_hello(alloc, side, message.body)
            }
            TlsHandshakeType::ServerHello => {
                self.note_server_hello(alloc, side, &message.server_hello)
            }
            TlsHandshakeType::HelloVerifyRequest => {
                self.verify(side);
                Ok(())
            }
            _ => self.note_other(alloc, side, message.msg_type, message.body, known),
        }
    }

    /// Records a whole handshake message of DTLS from its type and its body, as
    /// [`HandshakeSummary::note_datagrams`] does.
    ///
    /// `AllocError` if there is no memory for it.
    pub fn note_datagram_message(
        &mut self,
        alloc: Global,
        side: Direction,
        msg_type: TlsHandshakeType,
        body: &[u8],
    ) -> Result<(), AllocError>
        ensures { OnOk result
            (view_summary self.new ≡ of_datagram_message side msg_type.0 body.now
            (view_summary self.old)) }
    {
        self.note_datagrams(alloc, side, &HandshakeMessage::of_datagrams(msg_type, body))
    }

    /// Records an alert (RFC 8446, section 6).
    pub fn note_alert(&mut self, alert: TlsAlertDescription)
        ensures { view_summary self.new ≡ of_alert alert.0 (view_summary self.old) }
    {
        self.last_alert = Some(alert);
    }
}
