//! What is kept of each connection, and the summary that its lines are made of.
ghost use Rattle.std.specs.Prelude.{◌≡◌, ◌≤◌};
ghost use Rattle.log_summaries.specs.Pieces.{Gives, GivesCertificates, GivesMessages, IsCollectorOf, bytes_of, certificates_in, chain_in, collector_of, count_in, messages_in, piece_count_in, sent_certificates, sent_messages};
ghost use Rattle.log_summaries.specs.Summary.{IsParty, IsSummary};

use connections::{Connection, Side};
use log_connections::{PieceCollector, PieceKind, TlsAnalysis};
use log_fields::summary::{Party, Summary};
use log_messages::{
    CertificateCollector, CertificateLists, MessageCollector, SentCertificate, SentMessage,
    SuiteText,
};
use std::alloc::{AllocError, Global};
use tls_flow::{Direction, HandshakeMessage};
use tls_observer::Observer;
use tls_stream::SideEvent;

/// The pieces of a connection that are kept until they are printed.
#[derive(Drop)]
pub enum CollectedPieces {
    /// Its messages.
    Messages(MessageCollector),
    /// Its certificates.
    Certificates(CertificateCollector),
    /// The chains of both sides, for its line.
    Chains(CertificateLists),
}

impl CollectedPieces {
    /// Returns how many messages or certificates both sides have sent, if each has a line.
    fn count(&self) -> u64
        ensures { result ≡ count_in self.now }
    {
        match self {
            CollectedPieces::Messages(messages) => messages.count(),
            CollectedPieces::Certificates(certificates) => certificates.count(),
            CollectedPieces::Chains(_) => 0,
        }
    }

    /// Takes the messages, if these are kept.
    fn take_messages(&mut self, alloc: Global) -> Vec<SentMessage>
        ensures taken { result.items ≡ sent_messages self.old }
        ensures none { GivesMessages self.old self.new }
    {
        match self {
            CollectedPieces::Messages(messages) => messages.take(),
            CollectedPieces::Certificates(_) | CollectedPieces::Chains(_) => Vec::new(alloc),
        }
    }

    /// Takes the certificates, if each is kept until its line is written.
    fn take_certificates(&mut self, alloc: Global) -> Vec<SentCertificate>
        ensures taken { result.items ≡ sent_certificates self.old }
        ensures none { GivesCertificates self.old self.new }
    {
        match self {
            CollectedPieces::Certificates(certificates) => certificates.take(),
            CollectedPieces::Messages(_) | CollectedPieces::Chains(_) => Vec::new(alloc),
        }
    }
}

impl PieceCollector for CollectedPieces {
    fn begin(alloc: Global, pieces: PieceKind) -> CollectedPieces
        ensures { IsCollectorOf pieces result }
    {
        match pieces {
            PieceKind::Messages => CollectedPieces::Messages(MessageCollector::new(
                alloc,
                SuiteText::Name,
            )),
            PieceKind::NumberedMessages => CollectedPieces::Messages(MessageCollector::new(
                alloc,
                SuiteText::Number,
            )),
            PieceKind::Certificates => CollectedPieces::Certificates(CertificateCollector::new(
                alloc,
            )),
            PieceKind::Chains => CollectedPieces::Chains(CertificateLists::new(alloc)),
        }
    }

    ghost most_bytes = { λ p. bytes_of p };

    fn capacity(&self) -> usize
        ensures exactly { result ≡ bytes_of self.now }
        ensures within { result ≤ bytes_of self.now }
    {
        match self {
            // (these are taken before the next packet)
            CollectedPieces::Messages(_) | CollectedPieces::Certificates(_) => 0,
            CollectedPieces::Chains(lists) => lists.capacity(),
        }
    }
}

impl Observer for CollectedPieces {
    fn on_stream_event(
        &mut self,
        side: Direction,
        event: &SideEvent<'_>,
        message: Option<&HandshakeMessage<'_>>,
    ) -> Result<(), AllocError> {
        match self {
            CollectedPieces::Messages(messages) => messages.on_stream_event(side, event, message),
            CollectedPieces::Certificates(certificates) => certificates.add_message(side, message),
            CollectedPieces::Chains(lists) => {
                // Without memory the sender has no chain, and the connection goes on.
                let _is_kept = lists.add_message(side, message).is_ok();
                Ok(())
            }
        }
    }

    fn on_datagram_event(
        &mut self,
        side: Direction,
        event: &dtls_stream::Event<'_>,
        message: Option<&HandshakeMessage<'_>>,
    ) -> Result<(), AllocError> {
        match self {
            CollectedPieces::Messages(messages) => messages.on_datagram_event(side, event, message),
            CollectedPieces::Certificates(certificates) => certificates.add_message(side, message),
            CollectedPieces::Chains(lists) => {
                // Without memory the sender has no chain, and the connection goes on.
                let _is_kept = lists.add_message(side, message).is_ok();
                Ok(())
            }
        }
    }
}

/// The state of a connection's TLS, with the pieces that are printed one by one.
pub type Analysis = TlsAnalysis<CollectedPieces>;

/// Returns how many messages or certificates both sides have sent, if each has a line.
pub fn piece_count(attachment: &Analysis) -> u64
    ensures { result ≡ piece_count_in (collector_of attachment.now) }
{
    match attachment.kept() {
        Some(pieces) => pieces.count(),
        None => 0,
    }
}

/// Takes the messages that are kept.
pub fn take_messages(alloc: Global, attachment: &mut Analysis) -> Vec<SentMessage>
    ensures taken { result.items ≡ messages_in (collector_of attachment.old) }
    ensures none { Gives GivesMessages (collector_of attachment.old)
        (collector_of attachment.new) }
    ensures same { attachment.new
        ≡ record attachment.old { collector = attachment.new.collector } }
{
    match attachment.collector() {
        Some(pieces) => pieces.take_messages(alloc),
        None => Vec::new(alloc),
    }
}

/// Takes the certificates that are kept.
pub fn take_certificates(alloc: Global, attachment: &mut Analysis) -> Vec<SentCertificate>
    ensures taken { result.items ≡ certificates_in (collector_of attachment.old) }
    ensures none { Gives GivesCertificates (collector_of attachment.old)
        (collector_of attachment.new) }
    ensures same { attachment.new
        ≡ record attachment.old { collector = attachment.new.collector } }
{
    match attachment.collector() {
        Some(pieces) => pieces.take_certificates(alloc),
        None => Vec::new(alloc),
    }
}

/// Returns one side of a connection for its summary.
fn party(connection: &Connection<Analysis>, side: Side) -> Party<'_>
    ensures { IsParty side connection.now result }
{
    Party {
        end: match side {
            Side::Originator => connection.originator,
            Side::Responder => connection.responder,
        },
        stream: connection.stream(side),
        sent: connection.sent(side),
        dropped: connection.dropped(side),
        preamble: connection.attachment.preamble(side),
        records: connection.attachment.records(side),
        lacks_front: connection.attachment.lacks_front(side),
    }
}

/// Returns the certificates that the sender of this direction sent, if chains are kept.
fn chain(attachment: &Analysis, direction: Direction) -> &[u8]
    ensures { result.now ≡ chain_in direction (collector_of attachment.now) }
{
    match attachment.kept() {
        Some(CollectedPieces::Chains(lists)) => lists.of(direction),
        Some(CollectedPieces::Messages(_) | CollectedPieces::Certificates(_)) | None => &[],
    }
}

/// Returns the summary of a connection that its lines are made of.
pub fn summary(connection: &Connection<Analysis>) -> Summary<'_>
    ensures { IsSummary connection.now result }
{
    let analysis = &connection.attachment;
    Summary {
        protocol: connection.protocol,
        first_time: connection.first_time,
        last_time: connection.last_time,
        originator: party(connection, Side::Originator),
        responder: party(connection, Side::Responder),
        handshake: analysis.handshake(),
        client_chain: chain(analysis, Direction::ToServer),
        server_chain: chain(analysis, Direction::FromServer),
        history: analysis.history(),
        outcome: analysis.outcome(),
        stop: analysis.stop(),
        is_established: analysis.is_established(),
        is_resumed: analysis.is_resumed(),
        is_ended_early: analysis.is_ended_early,
        dialogue: analysis.dialogue(),
        tunnels: analysis.tunnels(),
    }
}
