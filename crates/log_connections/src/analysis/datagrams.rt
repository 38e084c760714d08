//! How the datagrams of DTLS are analyzed.
ghost use Rattle.std.specs.Prelude.{◌≡◌, OnOk};
ghost use Rattle.tls_detection.specs.Front.{held_datagram as held_datagram_of};
ghost use Rattle.log_connections.specs.Analysis.{AnalyzesDatagram, AnalyzesHeld, Decides, SeesHello, TurnsTo, counted};

use crate::analysis::{PieceCollector, TlsAnalysis, TransportAnalyzer};
use crate::piece_observer::PieceObserver;
use crate::turning::{is_other, turned_from};
use connections::Side;
use dtls_analyzer::DatagramAnalyzer;
use std::alloc::AllocError;
use std::mem;
use tls_detection::held_datagram;
use tls_flow::Direction;
use tls_summary::CertificateCache;

impl<K: PieceCollector> TlsAnalysis<K> {
    /// Counts the records in a side's datagram.
    fn count_datagram(&mut self, side: Side, payload: &[u8], connection_id_len: usize, is_13: bool)
        ensures { self.new ≡ counted side payload.now is_13 connection_id_len self.old }
    {
        match side {
            Side::Originator => self.by_originator.add(payload, connection_id_len, is_13),
            Side::Responder => self.by_responder.add(payload, connection_id_len, is_13),
        }
    }

    /// Returns the direction of a datagram, if the hello that it begins with shows which side is
    /// the client.
    fn deciding_direction(&self, datagram: &[u8]) -> Option<Direction>
        ensures { Decides result datagram.now self.now.transport }
    {
        match &self.transport {
            TransportAnalyzer::Stream(_, _) => None,
            TransportAnalyzer::Datagrams(analyzer) => analyzer.deciding_direction(datagram),
        }
    }

    /// Turns the sides, if they aren't already. Forgets what was analyzed of their datagrams, which
    /// belongs to no handshake.
    fn turn(&mut self, is_turned: bool)
        ensures { TurnsTo is_turned self.old self.new }
    {
        if !is_other(self.is_turned, is_turned) {
            return;
        }
        self.is_turned = is_turned;
        self.transport = TransportAnalyzer::Datagrams(DatagramAnalyzer::new(self.alloc));
    }

    /// Decides which side is the client, if the hello that a side's datagram begins with shows it.
    fn see_hello(&mut self, side: Side, datagram: &[u8])
        ensures { SeesHello side datagram.now self.old self.new }
    {
        let direction = self.deciding_direction(datagram);
        self.turn(turned_from(direction, side, self.is_turned));
    }

    /// Analyzes a side's DTLS datagram.
    fn analyze_held(
        &mut self,
        side: Side,
        datagram: &[u8],
        known: &mut CertificateCache,
    ) -> Result<(), AllocError>
        ensures { OnOk result (AnalyzesHeld side datagram.now self.old self.new) }
    {
        let direction = self.direction(side);
        let TransportAnalyzer::Datagrams(analyzer) = &mut self.transport else {
            return Ok(());
        };
        let mut observer = PieceObserver {
            collector: mem::replace(&mut self.collector, None),
            known,
        };
        let is_received = analyzer.analyze_with(self.alloc, direction, datagram, &mut observer);
        let PieceObserver {
            collector,
            known: _,
        } = observer;
        self.collector = collector;
        is_received?;
        // (the version and the connection ids may be in this datagram, before its encrypted
        // records)
        let id_len = analyzer.handshake().connection_id_len(direction);
        let is_13 = analyzer.is_13();
        self.count_datagram(side, datagram, id_len, is_13);
        Ok(())
    }

    /// Analyzes a side's datagram, or the DTLS datagram inside it. The sender of the first
    /// ClientHello is the client, whoever sent the connection's first datagram.
    pub(crate) fn analyze_datagram(
        &mut self,
        side: Side,
        payload: &[u8],
        known: &mut CertificateCache,
    ) -> Result<(), AllocError>
        ensures { OnOk result
            (AnalyzesDatagram side (held_datagram_of payload.now) self.old self.new) }
    {
        let datagram = held_datagram(payload);
        self.see_hello(side, datagram);
        self.analyze_held(side, datagram, known)
    }
}
