//! The stored parts of a connection's hellos and certificates.
ghost use Rattle.std.specs.Prelude.{◌≡◌, IfOk};
ghost use Rattle.std.specs.Option.{option_map};
ghost use Rattle.layouts.specs.Items.{items_in};
ghost use Rattle.layouts.specs.Layout.{counted};
ghost use Rattle.tls_hs.specs.InPlace.{view_client_hello_in_place};
ghost use Rattle.tls_hs.specs.Certificate.{certificate_status};
ghost use Rattle.tls_hs.specs.ServerHello.{view_server_hello};
ghost use Rattle.layouts.specs.Reading.{reading};
ghost use Rattle.x509.specs.Certificate.{certificate};
ghost use Rattle.tls_summary.specs.ChainOrder.{chain_order, facts_of};
ghost use Rattle.tls_summary.specs.Parts.{summaries_of_all, fault_by, first_of, ocsp_response_in as ocsp_response_of, view_client, view_server};

use crate::certificate_cache::CertificateCache;
use crate::chain_order::{Order, places_of};
use layouts::{Err, ErrorKind, Items};
use sha2::{Digest, Sha256};
use std::alloc::{AllocError, Global};
use tls_base::{TlsCipherSuiteID, TlsCompressionID, TlsVersion};
use tls_hs::{
    ClientHelloView, RawCertificate, TlsServerHelloContents, parse_tls_handshake_certificatestatus,
};
use x509::{NamePlaces, parse_certificate};

/// The CertificateStatusType of an OCSP response (RFC 6066, section 8).
const STATUS_TYPE_OCSP: u8 = 1;

/// The fields of a ClientHello (RFC 8446, section 4.1.2).
#[derive(Debug, PartialEq, Drop)]
pub struct ClientParts {
    /// The version field of the hello: 0x0303 in TLS 1.3.
    pub version: TlsVersion,
    /// 32 bytes. In a hello of SSL 2.0's form it is the challenge, of 16 to 32 bytes (RFC 5246,
    /// appendix E.2).
    pub random: Vec<u8>,
    /// 1 to 32 bytes; `None` if it is empty.
    pub session_id: Option<Vec<u8>>,
    /// The cipher suites that the client offers, 2 bytes each, in its order.
    pub ciphers: Vec<u8>,
    /// The compression methods that the client offers, 1 byte each, in its order.
    pub compressions: Vec<u8>,
    /// The bytes of the extensions, without their length; `None` if there are none.
    pub ext: Option<Vec<u8>>,
}

/// The fields of a ServerHello (RFC 8446, section 4.1.3).
#[derive(Debug, PartialEq, Drop)]
pub struct ServerParts {
    /// The version field of the hello: 0x0303 in TLS 1.3.
    pub version: TlsVersion,
    /// 32 bytes.
    pub random: Vec<u8>,
    /// 1 to 32 bytes; `None` if it is empty.
    pub session_id: Option<Vec<u8>>,
    /// The cipher suite that the server chose.
    pub cipher: TlsCipherSuiteID,
    /// The compression method that the server chose.
    pub compression: TlsCompressionID,
    /// The bytes of the extensions, without their length; `None` if there are none.
    pub ext: Option<Vec<u8>>,
}

/// Why a certificate doesn't parse.
#[derive(Clone, Copy, Debug, PartialEq, Eq)]
pub enum CertificateFault {
    /// It is truncated.
    Incomplete,
    /// It breaks a rule: one of the kinds that [`parse_certificate`] returns.
    Broken(ErrorKind),
    /// Bytes follow it.
    Trailing,
}

/// The length and the digest of a certificate, and whether it parses.
#[derive(Clone, Copy, Debug, PartialEq, Eq)]
pub struct CertificateSummary {
    /// Its length in DER, in bytes.
    pub length: usize,
    /// Its SHA-256 (FIPS 180-4).
    pub sha256: [u8; 32],
    /// Why it doesn't parse (RFC 5280, section 4.1); `None` if it does.
    pub fault: Option<CertificateFault>,
}

/// What is known of a certificate: its summary, and the places of its names if it parses.
#[derive(Clone, Copy)]
pub(crate) struct CertificateFacts {
    pub(crate) summary: CertificateSummary,
    pub(crate) names: Option<NamePlaces>,
}

/// A copy of the bytes.
pub(crate) fn copied(alloc: Global, bytes: &[u8]) -> Result<Vec<u8>, AllocError>
    ensures { IfOk result (λ v. v.items ≡ bytes.now) }
{
    let mut copy = Vec::new(alloc);
    copy.extend_from_slice(bytes)?;
    Ok(copy)
}

/// A copy of the bytes, if there are any.
pub(crate) fn copied_if(alloc: Global, bytes: Option<&[u8]>) -> Result<Option<Vec<u8>>, AllocError>
    ensures { IfOk result (λ v. option_map (λ x. x.items) v ≡ option_map (λ x. x.now) bytes.entry) }
{
    match bytes {
        Some(bytes) => Ok(Some(copied(alloc, bytes)?)),
        None => Ok(None),
    }
}

impl ClientParts {
    /// Copies the fields of a ClientHello.
    pub(crate) fn of(alloc: Global, hello: &ClientHelloView<'_>) -> Result<ClientParts, AllocError>
        ensures { IfOk result (λ p. view_client p ≡ view_client_hello_in_place hello.now) }
    {
        Ok(ClientParts {
            version: hello.version,
            random: copied(alloc, hello.random)?,
            session_id: copied_if(alloc, hello.session_id)?,
            ciphers: copied(alloc, hello.ciphers.bytes())?,
            compressions: copied(alloc, hello.comp.bytes())?,
            ext: copied_if(alloc, hello.ext)?,
        })
    }
}

impl ServerParts {
    /// Copies the fields of a ServerHello.
    pub(crate) fn of(
        alloc: Global,
        hello: &TlsServerHelloContents<'_>,
    ) -> Result<ServerParts, AllocError>
        ensures { IfOk result (λ p. view_server p ≡ view_server_hello hello.now) }
    {
        Ok(ServerParts {
            version: hello.version,
            random: copied(alloc, hello.random)?,
            session_id: copied_if(alloc, hello.session_id)?,
            cipher: hello.cipher,
            compression: hello.compression,
            ext: copied_if(alloc, hello.ext)?,
        })
    }
}

/// Why bytes don't parse as exactly one certificate (RFC 5280, section 4.1); `None` if they do.
pub fn certificate_fault(bytes: &[u8]) -> Option<CertificateFault>
    ensures { result ≡ fault_by (reading certificate bytes.now) }
{
    match parse_certificate(bytes) {
        Ok(([], _)) => None,
        Ok(_) => Some(CertificateFault::Trailing),
        Err(Err::Error(error)) | Err(Err::Failure(error)) => {
            Some(CertificateFault::Broken(error.code))
        }
        Err(_) => Some(CertificateFault::Incomplete),
    }
}

/// The OCSP response in the body of a CertificateStatus (RFC 6066, section 8), as it came; `None` if
/// the status is of another type or doesn't parse.
pub(crate) fn ocsp_response_in<'a>(body: &'a [u8]) -> Option<&'a [u8]>
    ensures { option_map (λ x. x.now) result ≡ ocsp_response_of
        (reading certificate_status body.now) }
{
    let Ok((_, status)) = parse_tls_handshake_certificatestatus(body) else {
        return None;
    };
    if status.status_type == STATUS_TYPE_OCSP {
        Some(status.blob)
    } else {
        None
    }
}

/// The facts of a certificate, computed.
pub(crate) fn compute_facts(bytes: &[u8]) -> CertificateFacts
    ensures { result ≡ facts_of bytes.now }
{
    let fault = certificate_fault(bytes);
    CertificateFacts {
        summary: CertificateSummary {
            length: bytes.len(),
            sha256: Sha256::digest(bytes),
            fault,
        },
        names: places_of(bytes, fault),
    }
}

/// The facts of a certificate, from the cache if there is one and it has it.
fn facts_with(
    alloc: Global,
    bytes: &[u8],
    known: &mut Option<&mut CertificateCache>,
) -> CertificateFacts
    ensures { result ≡ facts_of bytes.now }
{
    match known {
        Some(known) => known.facts(alloc, bytes),
        None => compute_facts(bytes),
    }
}

/// The summaries of certificates, in order, and whether the chain is in order.
#[tactic(auto, using(crate::proofs::OrderLemmas::one_more, crate::proofs::OrderLemmas::from_none, crate::proofs::OrderLemmas::is_order_of_chain))]
fn summaries_of<'a>(
    alloc: Global,
    chain: Items<'a, RawCertificate<'a>>,
    known: Option<&mut CertificateCache>,
) -> Result<(Vec<CertificateSummary>, Option<bool>), AllocError>
    ensures summaries { IfOk result
        (λ x. x.0.items ≡ summaries_of_all (items_in (counted 3) chain.entry.bytes.now)) }
    ensures order { IfOk result
        (λ x. x.1 ≡ chain_order (items_in (counted 3) chain.entry.bytes.now)) }
{
    let mut known = known;
    let mut summaries = Vec::new(alloc);
    let mut order = Order::new();
    for certificate in chain {
        summaries.push(order.add(
            certificate.bytes,
            facts_with(alloc, certificate.bytes, &mut known),
        ))?;
    }
    let is_in_order = order.of_chain(summaries.len());
    Ok((summaries, is_in_order))
}

/// The first certificate of a list.
fn first_certificate<'a>(list: &'a [u8]) -> Option<&'a [u8]>
    ensures { option_map (λ x. x.now) result ≡ first_of (items_in (counted 3) list.now) }
{
    let mut walk: Items<RawCertificate> = Items::new(list);
    match walk.next() {
        Some(certificate) => Some(certificate.bytes),
        None => None,
    }
}

/// The summaries of a chain's certificates, whether they are in order, and the bytes of the first
/// one.
#[derive(Drop)]
pub(crate) struct Chain {
    pub(crate) summaries: Vec<CertificateSummary>,
    pub(crate) is_in_order: Option<bool>,
    pub(crate) own: Option<Vec<u8>>,
}

/// Computes a chain from the bytes of its list.
pub(crate) fn chain_of(
    alloc: Global,
    list: &[u8],
    known: Option<&mut CertificateCache>,
) -> Result<Chain, AllocError>
    ensures summaries { IfOk result
        (λ c. c.summaries.items ≡ summaries_of_all (items_in (counted 3) list.now)) }
    ensures order { IfOk result
        (λ c. c.is_in_order ≡ chain_order (items_in (counted 3) list.now)) }
    ensures own { IfOk result
        (λ c. option_map (λ x. x.items) c.own ≡ first_of (items_in (counted 3) list.now)) }
{
    let (summaries, is_in_order) = summaries_of(alloc, Items::new(list), known)?;
    let own = copied_if(alloc, first_certificate(list))?;
    Ok(Chain {
        summaries,
        is_in_order,
        own,
    })
}
