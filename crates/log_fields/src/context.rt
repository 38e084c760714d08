//! What the fields of a connection's line are computed from.
ghost use Rattle.std.specs.Prelude.{◌≡◌};
ghost use Rattle.std.specs.Option.{option_map};
ghost use Rattle.log_certificates.specs.Read.{read_if, view_read};
ghost use Rattle.log_fields.specs.Known.{known, known_of, own_certificate, parsed_certificate};
ghost use Rattle.log_fields.specs.Values.{party_of};

use crate::summary::{Party, Summary};
use connections::{Protocol, Side};
use log_certificates::{ReadCertificate, certificate_of};
use log_formats::suites::Suites;
use std::alloc::Global;
use std::cell::RefCell;
use tls_fingerprints::DigestCache;
use tls_summary::HandshakeSummary;

/// A connection at its first packet, or when a message or certificate was completed.
#[derive(Clone, Copy)]
pub struct Moment<'a> {
    /// The allocator of texts.
    pub alloc: Global,
    /// The connection.
    pub summary: &'a Summary<'a>,
    /// The time, in nanoseconds since 1970-01-01 00:00 UTC.
    pub time: u64,
}

/// One side of a connection, for the fields of what it sent.
#[derive(Clone, Copy)]
pub struct SideContext<'a> {
    /// The allocator of texts.
    pub alloc: Global,
    /// The transport protocol.
    pub protocol: Protocol,
    /// The side.
    pub party: &'a Party<'a>,
}

/// The text of JA3S, kept from the field of its digest for that of the text.
#[derive(Drop)]
pub struct KeptTexts {
    pub ja3s: Option<String>,
}

/// A side's own certificate. It is parsed when the first field needs it: for most lines its text is
/// cached.
#[derive(Drop)]
pub enum OwnCertificate<'a> {
    /// The bytes, if it was sent.
    Unparsed(Option<&'a [u8]>),
    /// The certificate, if it was sent and any of its fields can be read.
    Parsed(Option<ReadCertificate<'a>>),
}

impl<'a> OwnCertificate<'a> {
    /// Returns the certificate in these bytes, unparsed.
    fn new(bytes: Option<&'a [u8]>) -> OwnCertificate<'a>
        ensures { own_certificate result ≡ read_if (option_map (λ b. b.now) bytes.entry) }
    {
        OwnCertificate::Unparsed(bytes)
    }

    /// Parses the certificate, unless it is parsed.
    pub fn parse(&mut self)
        ensures parsed { parsed_certificate self.new ≡ own_certificate self.old }
        ensures same { own_certificate self.new ≡ own_certificate self.old }
    {
        match self {
            OwnCertificate::Unparsed(bytes) => {
                *self = OwnCertificate::Parsed(certificate_of(*bytes));
            }
            OwnCertificate::Parsed(_) => {}
        }
    }

    /// Returns the parsed certificate, if it was sent and any of its fields can be read.
    pub fn parsed(&self) -> Option<&ReadCertificate<'a>>
        ensures { option_map (λ r. view_read r.now) result ≡ parsed_certificate self.now }
    {
        match self {
            OwnCertificate::Unparsed(_) | OwnCertificate::Parsed(None) => None,
            OwnCertificate::Parsed(Some(certificate)) => Some(certificate),
        }
    }

    /// Returns the certificate, if it was sent and any of its fields can be read.
    pub fn certificate(&mut self) -> Option<&ReadCertificate<'a>> {
        self.parse();
        self.parsed()
    }
}

/// A connection, both sides' own certificates, and texts that later fields reuse.
#[derive(Drop)]
pub struct FieldContext<'a> {
    /// The allocator of texts.
    pub alloc: Global,
    /// The names of cipher suites.
    pub suites: &'a Suites,
    /// A cache of digests from earlier lines.
    pub digests: &'a RefCell<DigestCache>,
    /// The connection.
    pub summary: &'a Summary<'a>,
    /// The handshake of both sides.
    pub handshake: &'a HandshakeSummary,
    /// The server's own certificate.
    pub server: OwnCertificate<'a>,
    /// The client's own certificate.
    pub client: OwnCertificate<'a>,
    /// Texts kept for later fields.
    pub kept: KeptTexts,
}

impl<'a> FieldContext<'a> {
    /// Returns a connection, with these names of suites and this cache of digests.
    pub fn new(
        alloc: Global,
        suites: &'a Suites,
        digests: &'a RefCell<DigestCache>,
        summary: &'a Summary<'a>,
    ) -> FieldContext<'a>
        ensures summary { result.summary.now ≡ summary.entry.now }
        ensures handshake { result.handshake.now ≡ summary.entry.now.handshake.now }
        ensures suites { result.suites.now ≡ suites.entry.now }
        ensures known { known_of result ≡ known suites.entry.now summary.entry.now }
    {
        let handshake = summary.handshake;
        FieldContext {
            alloc,
            suites,
            digests,
            summary,
            handshake,
            server: OwnCertificate::new(handshake.server_certificate.as_deref()),
            client: OwnCertificate::new(handshake.client_certificate.as_deref()),
            kept: KeptTexts { ja3s: None },
        }
    }

    /// Returns the connection at its first packet.
    pub fn first_moment(&self) -> Moment<'a>
        ensures summary { result.summary.now ≡ self.now.summary.now }
        ensures time { result.time ≡ self.now.summary.now.first_time }
    {
        Moment {
            alloc: self.alloc,
            summary: self.summary,
            time: self.summary.first_time,
        }
    }

    /// Returns a side of it.
    pub fn sender(&self, side: Side) -> SideContext<'a>
        ensures protocol { result.protocol ≡ self.now.summary.now.protocol }
        ensures party { result.party.now ≡ party_of side self.now.summary.now }
    {
        SideContext {
            alloc: self.alloc,
            protocol: self.summary.protocol,
            party: self.summary.party(side),
        }
    }
}
