//! The unencrypted certificates of both sides, each kept until its line is written.
ghost use Rattle.std.specs.Prelude.{◌≡◌, ◌++◌, [], map, OnOk};
ghost use Rattle.std.specs.Option.{option_map};
ghost use Rattle.tls_flow.specs.Bytes.{view_handshake_message};
ghost use Rattle.log_messages.specs.Certificates.{certificates_of, counted_behind, sent_in, view_sent};

use std::alloc::{AllocError, Global};
use std::mem;
use tls_base::TlsHandshakeType;
use tls_flow::{Direction, HandshakeMessage};
use tls_hs::certificates;

/// A certificate, its sender and its place.
#[derive(Drop)]
pub struct SentCertificate {
    /// The direction in which it was sent.
    pub direction: Direction,
    /// The number of certificates before it in its chain: 0 for its sender's own.
    pub place: u64,
    /// The number of certificates that both sides sent before it.
    pub number: u64,
    /// Its DER.
    pub bytes: Vec<u8>,
}

/// Certificates that are kept until they are taken.
#[derive(Drop)]
pub struct CertificateCollector {
    alloc: Global,
    kept: Vec<SentCertificate>,
    // How many certificates both sides have sent.
    count: u64,
}

impl CertificateCollector {
    /// Returns one that keeps nothing yet.
    pub fn new(alloc: Global) -> CertificateCollector
        ensures none { result.kept.items ≡ [] }
        ensures unsent { result.count ≡ 0 }
    {
        CertificateCollector {
            alloc,
            kept: Vec::new(alloc),
            count: 0,
        }
    }

    /// Keeps the certificates of a message, if it is a Certificate (RFC 5246, section 7.4.2).
    ///
    /// `AllocError` if memory runs out; certificates before that are kept.
    pub fn add_message(
        &mut self,
        direction: Direction,
        message: Option<&HandshakeMessage<'_>>,
    ) -> Result<(), AllocError>
        ensures kept { OnOk result (map view_sent self.new.kept.items
            ≡ map view_sent self.old.kept.items ++ sent_in direction self.old.count
            (certificates_of (option_map (λ m. view_handshake_message m.now) message.entry))) }
        ensures counted { OnOk result (self.new.count ≡ counted_behind self.old.count
            (certificates_of (option_map (λ m. view_handshake_message m.now) message.entry))) }
    {
        let Some(message) = message else {
            return Ok(());
        };
        if message.msg_type != TlsHandshakeType::Certificate {
            return Ok(());
        }
        let Ok((_, chain)) = certificates(message.body) else {
            return Ok(());
        };
        let mut place = 0u64;
        for certificate in chain {
            let mut bytes = Vec::new(self.alloc);
            bytes.extend_from_slice(certificate.bytes)?;
            self.kept.push(SentCertificate {
                direction,
                place,
                number: self.count,
                bytes,
            })?;
            place = place.saturating_add(1);
            self.count = self.count.saturating_add(1);
        }
        Ok(())
    }

    /// Returns how many certificates both sides have sent. The count saturates.
    pub fn count(&self) -> u64
        ensures { result ≡ self.now.count }
    {
        self.count
    }

    /// Removes the certificates that are kept, and returns them.
    pub fn take(&mut self) -> Vec<SentCertificate>
        ensures taken { result.items ≡ self.old.kept.items }
        ensures none { self.new.kept.items ≡ [] }
        ensures same { self.new ≡ record self.old { kept = self.new.kept } }
    {
        mem::replace(&mut self.kept, Vec::new(self.alloc))
    }
}
