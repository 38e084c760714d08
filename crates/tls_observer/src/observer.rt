//! Receives both sides' events.
use std::alloc::AllocError;
use tls_flow::{Direction, HandshakeMessage};
use tls_stream::SideEvent;
use tls_summary::CertificateCache;

/// Receives each event of a connection that counts, after it was followed and recorded.
pub trait Observer {
    /// Receives an event of a TLS side. `message` is its handshake message with the ServerHello
    /// parsed, if it is one.
    fn on_stream_event(
        &mut self,
        side: Direction,
        sent: &SideEvent<'_>,
        message: Option<&HandshakeMessage<'_>>,
    ) -> Result<(), AllocError>;

    /// Receives an event of a DTLS side. `message` is its handshake message with the ServerHello
    /// parsed, if it is one.
    fn on_datagram_event(
        &mut self,
        side: Direction,
        event: &dtls_stream::Event<'_>,
        message: Option<&HandshakeMessage<'_>>,
    ) -> Result<(), AllocError>;

    /// Lends a cache for the summaries of certificates, if there is one.
    fn certificate_cache(&mut self) -> Option<&mut CertificateCache> {
        None
    }
}

/// An observer that ignores every event.
#[derive(Clone, Copy, Drop)]
pub struct NoObserver;

impl Observer for NoObserver {
    fn on_stream_event(
        &mut self,
        side: Direction,
        sent: &SideEvent<'_>,
        message: Option<&HandshakeMessage<'_>>,
    ) -> Result<(), AllocError> {
        Ok(())
    }

    fn on_datagram_event(
        &mut self,
        side: Direction,
        event: &dtls_stream::Event<'_>,
        message: Option<&HandshakeMessage<'_>>,
    ) -> Result<(), AllocError> {
        Ok(())
    }
}

/// Passes the events on if there is a observer.
impl<W: Observer> Observer for Option<Box<W>> {
    fn on_stream_event(
        &mut self,
        side: Direction,
        sent: &SideEvent<'_>,
        message: Option<&HandshakeMessage<'_>>,
    ) -> Result<(), AllocError> {
        match self {
            Some(observer) => observer.on_stream_event(side, sent, message),
            None => Ok(()),
        }
    }

    fn on_datagram_event(
        &mut self,
        side: Direction,
        event: &dtls_stream::Event<'_>,
        message: Option<&HandshakeMessage<'_>>,
    ) -> Result<(), AllocError> {
        match self {
            Some(observer) => observer.on_datagram_event(side, event, message),
            None => Ok(()),
        }
    }

    fn certificate_cache(&mut self) -> Option<&mut CertificateCache> {
        match self {
            Some(observer) => observer.certificate_cache(),
            None => None,
        }
    }
}
