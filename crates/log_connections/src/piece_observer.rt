//! The observer of a connection's events.
ghost use Rattle.std.specs.Prelude.{◌≡◌};

use crate::analysis::{PieceCollector, PieceKind};
use std::alloc::{AllocError, Global};
use tls_flow::{Direction, HandshakeMessage};
use tls_observer::{NoObserver, Observer};
use tls_stream::SideEvent;
use tls_summary::CertificateCache;

/// The collector of a connection's pieces, if it has one, and the certificates of all connections,
/// which are borrowed. The collector is owned, since no contract of the analyzers' calls says that
/// a borrowed one stays in place.
#[derive(Drop)]
pub(crate) struct PieceObserver<'a, K> {
    pub(crate) collector: Option<Box<K>>,
    pub(crate) known: &'a mut CertificateCache,
}

impl<K: PieceCollector> Observer for PieceObserver<'_, K> {
    fn on_stream_event(
        &mut self,
        side: Direction,
        sent: &SideEvent<'_>,
        message: Option<&HandshakeMessage<'_>>,
    ) -> Result<(), AllocError> {
        self.collector.on_stream_event(side, sent, message)
    }

    fn on_datagram_event(
        &mut self,
        side: Direction,
        event: &dtls_stream::Event<'_>,
        message: Option<&HandshakeMessage<'_>>,
    ) -> Result<(), AllocError> {
        self.collector.on_datagram_event(side, event, message)
    }

    fn certificate_cache(&mut self) -> Option<&mut CertificateCache> {
        Some(&mut *self.known)
    }
}

/// Keeps no pieces, for a log that needs none.
impl PieceCollector for NoObserver {
    ghost most_bytes = { λ _. 0 };

    fn begin(alloc: Global, pieces: PieceKind) -> NoObserver {
        NoObserver
    }

    fn capacity(&self) -> usize
        ensures { result ≡ 0 }
    {
        0
    }
}
