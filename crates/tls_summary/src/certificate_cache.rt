//! A cache for the summaries of certificates and the places of their names.
ghost use Rattle.std.specs.Prelude.{◌≡◌, IfSome};
ghost use Rattle.tls_summary.specs.ChainOrder.{facts_of};
ghost use Rattle.tls_summary.specs.Parts.{summary_of_certificate as summary_by};

use crate::parts::{CertificateFacts, CertificateSummary, compute_facts, copied};
use std::alloc::Global;

/// The size of the cache: most connections of a network go to few servers, with one or two
/// authorities each.
const MOST: usize = 64;

/// The longest certificate that is cached, in bytes, so that peers can't fill memory with theirs.
const LONGEST: usize = 4096;

/// A certificate in DER, and its facts.
#[derive(Drop)]
struct KnownCertificate {
    bytes: Vec<u8>,
    facts: CertificateFacts,
    ghost is: { facts ≡ facts_of bytes.items },
}

/// A cache of recent certificates with their summaries. Servers send the same ones again and again,
/// so most digests needn't be computed again for each connection.
#[derive(Drop)]
pub struct CertificateCache {
    certificates: Vec<KnownCertificate>,
}

impl CertificateCache {
    /// An empty cache. It doesn't allocate.
    pub fn new(alloc: Global) -> CertificateCache {
        CertificateCache {
            certificates: Vec::new(alloc),
        }
    }

    /// The facts of a certificate, if it is cached.
    fn known(&self, bytes: &[u8]) -> Option<CertificateFacts>
        ensures { IfSome result (λ facts. facts ≡ facts_of bytes.now) }
    {
        for one in &self.certificates {
            if one.bytes.as_slice() == bytes {
                return Some(one.facts);
            }
        }
        None
    }

    /// Caches one more; a full cache is cleared first. It isn't cached if there is no memory for
    /// it.
    fn keep(&mut self, one: KnownCertificate) {
        if self.certificates.len() >= MOST {
            self.certificates.clear();
        }
        let _is_kept = self.certificates.push(one).is_ok();
    }

    /// The facts of a certificate, computed unless it is cached.
    pub(crate) fn facts(&mut self, alloc: Global, bytes: &[u8]) -> CertificateFacts
        ensures { result ≡ facts_of bytes.now }
    {
        if let Some(facts) = self.known(bytes) {
            return facts;
        }
        let facts = compute_facts(bytes);
        if bytes.len() > LONGEST {
            return facts;
        }
        if let Ok(bytes) = copied(alloc, bytes) {
            self.keep(KnownCertificate { bytes, facts });
        }
        facts
    }

    /// The summary of a certificate, computed unless it is cached. A certificate of up to 4,096
    /// bytes is then cached, if there is memory for it.
    pub fn summary(&mut self, alloc: Global, bytes: &[u8]) -> CertificateSummary
        ensures { result ≡ summary_by bytes.now }
    {
        self.facts(alloc, bytes).summary
    }
}
