//! Whether the certificates of a chain are in order (RFC 5246, section 7.4.2; RFC 8446, section
//! 4.4.2).
ghost use Rattle.std.specs.Prelude.{◌≡◌};
ghost use Rattle.std.specs.Option.{option_map};
ghost use Rattle.layouts.specs.Reading.{reading};
ghost use Rattle.x509.specs.NamePlaces.{name_places, names_at};
ghost use Rattle.tls_summary.specs.ChainOrder.{is_issuer as is_issuer_of, no_certificate, order_after, order_of, places_by, view_order};

use crate::parts::{CertificateFacts, CertificateFault, CertificateSummary};
use x509::{NamePlaces, parse_name_places};

/// Where a certificate's names are, by why it doesn't parse; `None` if it doesn't.
pub(crate) fn places_of(bytes: &[u8], fault: Option<CertificateFault>) -> Option<NamePlaces>
    ensures { result ≡ places_by fault (reading name_places bytes.now) }
{
    if fault.is_some() {
        return None;
    }
    match parse_name_places(bytes) {
        Ok((_, places)) => Some(places),
        Err(_) => None,
    }
}

/// Whether the certificate before, if there is one, was issued by this subject: byte for byte.
fn is_issuer(before: Option<&[u8]>, subject: &[u8]) -> bool
    ensures { result ≡ is_issuer_of (option_map (λ x. x.now) before.entry) subject.now }
{
    match before {
        Some(issuer) => issuer == subject,
        None => true,
    }
}

/// The order of the certificates at the front of a chain.
#[derive(Clone, Copy)]
pub(crate) struct Order<'a> {
    /// Whether they are in order; `None` if one doesn't parse.
    is_in_order: Option<bool>,
    /// The issuer of the last one.
    issuer: Option<&'a [u8]>,
}

impl<'a> Order<'a> {
    /// The order of no certificate.
    pub(crate) fn new() -> Order<'a>
        ensures { view_order result ≡ no_certificate }
    {
        Order {
            is_in_order: Some(true),
            issuer: None,
        }
    }

    /// The order with one certificate more, which has its names at these places.
    fn with(self, bytes: &'a [u8], places: Option<NamePlaces>) -> Order<'a>
        ensures { view_order result ≡ order_after (view_order self.entry)
            (option_map (names_at bytes.now) places) }
    {
        let Some(places) = places else {
            return Order {
                is_in_order: None,
                issuer: None,
            };
        };
        let names = places.names(bytes);
        Order {
            is_in_order: match self.is_in_order {
                Some(front) => Some(front && is_issuer(self.issuer, names.subject)),
                None => None,
            },
            issuer: Some(names.issuer),
        }
    }

    /// Adds a certificate with these facts, and returns its summary.
    pub(crate) fn add(&mut self, bytes: &'a [u8], facts: CertificateFacts) -> CertificateSummary
        ensures order { view_order self.new ≡ order_after (view_order self.old)
            (option_map (names_at bytes.now) facts.names) }
        ensures summary { result ≡ facts.summary }
    {
        *self = self.with(bytes, facts.names);
        facts.summary
    }

    /// Whether a chain of so many certificates is in order; `None` for fewer than two, or if one
    /// doesn't parse.
    pub(crate) fn of_chain(self, count: usize) -> Option<bool>
        ensures { result ≡ order_of count (view_order self.entry) }
    {
        if count < 2 {
            return None;
        }
        self.is_in_order
    }
}
