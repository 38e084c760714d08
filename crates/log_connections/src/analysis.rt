//! The TLS or DTLS analysis of a connection.
ghost use Rattle.std.specs.Prelude.{◌≡◌, ◌≤◌, ◌||◌, ◌^◌, ℕ, ⊤, IfOk, IfSome, OnErr, OnOk, Some, drop, false, is_some};
ghost use Rattle.std.specs.Option.{option_copied_mut, option_map};
ghost use Rattle.std.specs.Borrow.{sem};
ghost use Rattle.tls_detection.specs.Front.{held_datagram as held_datagram_of};
ghost use Rattle.tls_summary.specs.HandshakeSummary.{view_summary};
ghost use Rattle.log_connections.specs.Accessors.{BeginsAnother, HasHandshake, HasHistory, HasOutcome, HasStop, IsEstablishedBy, IsResumedBy, LacksFront, records_of};
ghost use Rattle.log_connections.specs.Analysis.{IsBegun as IsBegunAs, IsPrepared, IsTlsBy, Keeps, PassesMissing, awaits_of, is_front_in, are_passed as are_passed_on, behind_tls_of, direction_of as direction_by, is_answered as is_answered_in, is_responder as is_responder_side, is_silent_in, noted_tunnels, preamble_of, stopped_if, tls_in_transport, tunnels_in, turned_by as turned_by_message, FollowsOnce, dialogue_of, is_followed_in, without_dialogue_in};
ghost use Rattle.log_connections.specs.Capacity.{buffers_of as buffers_by, least_bytes_of, least_of_transport, most_bytes_of, most_of_transport, of_collector as of_collector_in, of_tunnels as of_tunnels_in};
ghost use Rattle.log_connections.specs.Lends.{lends_collector};
ghost use Rattle.log_connections.specs.Tds.{tls_of as tls_by};

use crate::fit::do_hellos_fit;
use crate::fronts::{Preambles, speaker};
use connections::{Attachment, Protocol, Side, Stream};
use dtls_analyzer::{DatagramAnalyzer, DatagramRecordCounter};
use std::alloc::{AllocError, Global};
use std::mem::size_of;
use tls_analyzer::{Analyzer, RecordCounter};
use tls_detection::held_datagram;
use tls_flow::{Direction, Outcome, Stop};
use tls_observer::Observer;
use tls_summary::HandshakeSummary;
use tunnels::{Tunnel, Tunnels};

mod datagrams;
mod streams;

/// The types of the first handshake messages of client and server (RFC 8446, section 4).
const CLIENT_HELLO: u8 = 1;

const SERVER_HELLO: u8 = 2;

/// An upper bound for a connection's memory besides its handshake summary, in bytes.
pub const ANALYSIS_COST: usize = 2048;

/// An upper bound for a keeper's memory besides what it keeps, in bytes.
pub const COLLECTOR_COST: usize = 512;

/// The memory of a connection's tunnels, in bytes.
const TUNNELS_COST: usize = size_of::<Tunnels>();

/// An upper bound for the buffers of a conversation, in bytes. On each side this is twice the sum
/// of a message in fragments, a record, the part that was processed but not yet moved out, and what
/// arrives at once behind a gap.
const MAX_BUFFERS: usize = 2_621_440;

/// What a [`PieceCollector`] keeps of a connection.
#[derive(Clone, Copy, Debug, PartialEq, Eq)]
pub enum PieceKind {
    /// Its messages, in which cipher suites have names.
    Messages,
    /// Its messages, in which cipher suites have numbers.
    NumberedMessages,
    /// The certificates of its chains, each until it is taken.
    Certificates,
    /// Its chains, until it ends.
    Chains,
}

impl PieceKind {
    /// Returns whether they are passed on as they come, and not with the connection.
    pub(crate) fn are_passed(self) -> bool
        ensures { result ≡ are_passed_on self }
    {
        !matches!(self, PieceKind::Chains)
    }
}

/// Keeps the pieces of a connection until they are taken. It gets each event that counts.
pub trait PieceCollector: Drop + Observer {
    ghost use Rattle.log_connections.specs.declared.analysis.PieceKind.{PieceKind};

    // What holds of a collector that begins with these pieces, if a contract needs that.
    ghost IsOf: { PieceKind → Self → Type 0 } = { λ _ _. ⊤ };

    /// Returns the collector for a new connection.
    fn begin(alloc: Global, pieces: PieceKind) -> Self
        ensures { IsOf pieces result };

    /// The most bytes of memory that it may take for what it keeps beyond a packet.
    ghost most_bytes: { Self → ℕ } = { λ _. 2 ^ 64 };

    /// Returns the bytes of memory that it takes for what it keeps beyond a packet.
    fn capacity(&self) -> usize
        ensures { result ≤ most_bytes self.now };
}

/// The analysis of both sides' bytes, by transport.
#[derive(Drop)]
enum TransportAnalyzer {
    /// TLS over TCP, and the bytes before it.
    Stream(Analyzer, Preambles),
    /// DTLS over UDP.
    Datagrams(DatagramAnalyzer),
}

/// The analysis of a connection.
#[derive(Drop)]
pub struct TlsAnalysis<K> {
    pub(crate) alloc: Global,
    protocol: Protocol,
    transport: TransportAnalyzer,
    // Whether the originator is the TLS server.
    is_turned: bool,
    // How many bytes of both streams were analyzed. The buffers of a conversation take at most
    // twice as many.
    received: usize,
    /// Whether it was ended early, as the longest-idle connection when memory ran short.
    pub is_ended_early: bool,
    // The collector, if pieces are kept. Boxed, since most logs keep none.
    collector: Option<Box<K>>,
    // The tunnels of the first packet that was in any. Boxed, since most packets are in none.
    tunnels: Option<Box<Tunnels>>,
    // Over TCP, the records of each side, encrypted ones included.
    from_originator: RecordCounter,
    from_responder: RecordCounter,
    // Over UDP, the records in the datagrams of each side.
    by_originator: DatagramRecordCounter,
    by_responder: DatagramRecordCounter,
}

/// Returns an upper bound for a conversation's buffers, by the number of bytes analyzed. Their
/// memory grows by doubling.
fn buffers_of(received: usize) -> usize
    ensures { result ≡ buffers_by received }
{
    received.saturating_mul(2).min(MAX_BUFFERS)
}

/// Returns an upper bound for the memory of an analyzer and its buffers, in bytes. `received` bytes
/// were analyzed over TCP.
fn of_transport(transport: &TransportAnalyzer, received: usize) -> usize
    ensures enough { least_of_transport transport.now received ≤ result }
    ensures within { result ≤ most_of_transport transport.now received }
{
    match transport {
        TransportAnalyzer::Stream(analyzer, _) => {
            analyzer.capacity().saturating_add(buffers_of(received))
        }
        TransportAnalyzer::Datagrams(analyzer) => analyzer.capacity(),
    }
}

/// Returns an upper bound for the memory of a collector, in bytes.
fn of_collector<K: PieceCollector>(collector: &Option<Box<K>>) -> usize
    ensures enough { of_collector_in (λ _. 0) collector.now ≤ result }
    ensures within { result ≤ of_collector_in K.most_bytes collector.now }
{
    match collector {
        Some(collector) => collector.capacity().saturating_add(COLLECTOR_COST),
        None => 0,
    }
}

/// Returns the memory of a connection's tunnels, in bytes.
fn of_tunnels(tunnels: &Option<Box<Tunnels>>) -> usize
    ensures { result ≡ of_tunnels_in tunnels.now }
{
    match tunnels {
        Some(_) => TUNNELS_COST,
        None => 0,
    }
}

/// Returns what is behind the first `n` bytes.
#[tactic(auto, using(crate::proofs::FrontLemmas::behind_all))]
pub(crate) fn behind(bytes: &[u8], n: usize) -> &[u8]
    ensures { result.now ≡ drop n bytes.now }
{
    if n == 0 {
        return bytes;
    }
    let (_, rest) = bytes.split_at(n.min(bytes.len()));
    rest
}

/// Returns the direction in which a side speaks. `is_turned` means that the originator is the
/// server.
fn direction_of(is_turned: bool, side: Side) -> Direction
    ensures { result ≡ direction_by is_turned side }
{
    match (side, is_turned) {
        (Side::Originator, false) | (Side::Responder, true) => Direction::ToServer,
        (Side::Responder, false) | (Side::Originator, true) => Direction::FromServer,
    }
}

/// Returns whether a side is the responder.
pub(crate) fn is_responder(side: Side) -> bool
    ensures { result ≡ is_responder_side side }
{
    matches!(side, Side::Responder)
}

/// Returns whether the originator is the server, by the type of a side's first message. The
/// connection's opening was captured if it `is_opened`. A ServerHello counts only if it wasn't: a
/// server that opens the connection waits for the client's hello.
fn turned_by(message: Option<u8>, side: Side, is_opened: bool) -> bool
    ensures { result ≡ turned_by_message message side is_opened }
{
    let Some(kind) = message else {
        return false;
    };
    if kind == CLIENT_HELLO {
        return is_responder(side);
    }
    kind == SERVER_HELLO && !is_responder(side) && !is_opened
}

/// Stops reading the stream of a side that is over.
fn stop_if(stream: &mut Stream, is_over: bool)
    ensures { stream.new ≡ stopped_if is_over stream.old }
{
    if is_over {
        stream.stop();
    }
}

impl<K: PieceCollector> Attachment for TlsAnalysis<K> {
    ghost IsBegun = { λ protocol a. IsBegunAs protocol a };

    fn begin(alloc: Global, protocol: Protocol) -> TlsAnalysis<K>
        ensures { IsBegunAs protocol result }
    {
        let transport = match protocol {
            Protocol::Tcp => TransportAnalyzer::Stream(Analyzer::new(alloc), Preambles::new()),
            Protocol::Udp => TransportAnalyzer::Datagrams(DatagramAnalyzer::new(alloc)),
        };
        TlsAnalysis {
            alloc,
            protocol,
            transport,
            is_turned: false,
            received: 0,
            is_ended_early: false,
            collector: None,
            tunnels: None,
            from_originator: RecordCounter::new(),
            from_responder: RecordCounter::new(),
            by_originator: DatagramRecordCounter::new(),
            by_responder: DatagramRecordCounter::new(),
        }
    }

    ghost most_bytes = { λ a. most_bytes_of K.most_bytes a };

    fn capacity(&self) -> usize
        ensures enough { least_bytes_of self.now ≤ result }
        ensures within { result ≤ most_bytes_of K.most_bytes self.now }
    {
        of_transport(&self.transport, self.received)
            .saturating_add(of_collector(&self.collector))
            .saturating_add(of_tunnels(&self.tunnels))
            .saturating_add(ANALYSIS_COST)
    }
}

impl<K: PieceCollector> TlsAnalysis<K> {
    /// Returns whether it is TLS or DTLS. If other bytes came before TLS, both sides have to speak
    /// it.
    pub fn is_tls_or_dtls(&self) -> bool
        ensures { IsTlsBy result self.now.is_turned self.now.transport }
    {
        match &self.transport {
            TransportAnalyzer::Stream(analyzer, _) => analyzer.is_tls()
                && self.is_answered(Side::Originator, Side::Responder)
                && self.is_answered(Side::Responder, Side::Originator),
            TransportAnalyzer::Datagrams(analyzer) => analyzer.is_dtls(),
        }
    }

    /// Returns whether a side's TLS counts: it has no other bytes in front, TLS began behind a
    /// dialogue, or the other side answers in TLS, and its hello fits. A lone hello may be part of
    /// another protocol's content, such as a file.
    fn is_answered(&self, side: Side, other: Side) -> bool
        ensures { result ≡ is_answered_in side other self.now.is_turned self.now.transport }
    {
        match &self.transport {
            TransportAnalyzer::Stream(analyzer, preambles) => {
                preambles.of(side) == 0
                    || preambles.dialogue.protocol().is_some()
                    || analyzer.is_tls_on(self.direction(other))
                        && do_hellos_fit(analyzer.handshake())
            }
            TransportAnalyzer::Datagrams(_) => true,
        }
    }

    /// Returns the handshake summary.
    pub fn handshake(&self) -> &HandshakeSummary
        ensures { HasHandshake (view_summary result.now) self.now.transport }
    {
        match &self.transport {
            TransportAnalyzer::Stream(analyzer, _) => analyzer.handshake(),
            TransportAnalyzer::Datagrams(analyzer) => analyzer.handshake(),
        }
    }

    /// Returns a letter for each event, as in Zeek's ssl_history.
    pub fn history(&self) -> &[u8]
        ensures { HasHistory result.now self.now.transport }
    {
        match &self.transport {
            TransportAnalyzer::Stream(analyzer, _) => analyzer.history(),
            TransportAnalyzer::Datagrams(analyzer) => analyzer.history(),
        }
    }

    /// Returns the state of the handshake.
    pub fn outcome(&self) -> Outcome
        ensures { HasOutcome result self.now.transport }
    {
        match &self.transport {
            TransportAnalyzer::Stream(analyzer, _) => analyzer.outcome(),
            TransportAnalyzer::Datagrams(analyzer) => analyzer.outcome(),
        }
    }

    /// Returns the event that ended the handshake without success, if one did.
    pub fn stop(&self) -> Option<Stop>
        ensures { HasStop result self.now.transport }
    {
        match &self.transport {
            TransportAnalyzer::Stream(analyzer, _) => analyzer.stop(),
            TransportAnalyzer::Datagrams(analyzer) => analyzer.stop(),
        }
    }

    /// Returns whether the readable part of the handshake is complete.
    pub fn is_established(&self) -> bool
        ensures { IsEstablishedBy result self.now.transport }
    {
        match &self.transport {
            TransportAnalyzer::Stream(analyzer, _) => analyzer.is_established(),
            TransportAnalyzer::Datagrams(analyzer) => analyzer.is_established(),
        }
    }

    /// Returns whether a session was resumed.
    pub fn is_resumed(&self) -> bool
        ensures { IsResumedBy result self.now.transport }
    {
        match &self.transport {
            TransportAnalyzer::Stream(analyzer, _) => analyzer.is_resumed(),
            TransportAnalyzer::Datagrams(analyzer) => analyzer.is_resumed(),
        }
    }

    /// Returns whether the first messages of a side weren't captured, by the message numbers of
    /// DTLS.
    pub fn lacks_front(&self, side: Side) -> bool
        ensures { LacksFront result (direction_by self.now.is_turned side) self.now.transport }
    {
        match &self.transport {
            TransportAnalyzer::Stream(_, _) => false,
            TransportAnalyzer::Datagrams(analyzer) => analyzer.lacks_front(self.direction(side)),
        }
    }

    /// Returns whether a side's datagram begins another DTLS association.
    pub(crate) fn begins_another(&self, side: Side, payload: &[u8]) -> bool
        ensures { BeginsAnother result (direction_by self.now.is_turned side)
            (held_datagram_of payload.now) self.now.transport }
    {
        match &self.transport {
            TransportAnalyzer::Stream(_, _) => false,
            TransportAnalyzer::Datagrams(analyzer) => {
                matches!(self.direction(side), Direction::ToServer)
                    && analyzer.begins_another(held_datagram(payload))
            }
        }
    }

    /// Keeps the pieces that come from here on.
    fn keep(&mut self, pieces: PieceKind) -> Result<(), AllocError>
        ensures kept { OnOk result (Keeps self.old self.new) }
        ensures begun { OnOk result (is_some self.old.collector ≡ false
            → IfSome self.new.collector (λ b. K.IsOf pieces b.value)) }
        ensures err { OnErr result (self.new ≡ self.old) }
    {
        if self.collector.is_some() {
            return Ok(());
        }
        let collector = K::begin(self.alloc, pieces);
        self.collector = Some(Box::new(self.alloc, collector)?);
        Ok(())
    }

    /// Notes the tunnels of a packet, unless an earlier packet was in any.
    fn note_tunnels(&mut self, tunnels: &Tunnels) -> Result<(), AllocError>
        ensures noted { OnOk result (option_map (λ t. t.value) self.new.tunnels
            ≡ noted_tunnels tunnels.now (option_map (λ t. t.value) self.old.tunnels)) }
        ensures same { self.new ≡ record self.old { tunnels = self.new.tunnels } }
        ensures err { OnErr result (self.new ≡ self.old) }
    {
        if let Some(_) = &self.tunnels {
            return Ok(());
        }
        if tunnels.is_empty() {
            return Ok(());
        }
        self.tunnels = Some(Box::new(self.alloc, *tunnels)?);
        Ok(())
    }

    /// Notes the tunnels of the next packet, and keeps its pieces if any are `kept`.
    pub(crate) fn prepare(
        &mut self,
        tunnels: &Tunnels,
        kept: Option<PieceKind>,
    ) -> Result<(), AllocError>
        ensures prepared { OnOk result (IsPrepared tunnels.now kept self.old self.new) }
        ensures begun { OnOk result (IfSome kept (λ pieces. is_some self.old.collector ≡ false
            → IfSome self.new.collector (λ b. K.IsOf pieces b.value))) }
    {
        self.note_tunnels(tunnels)?;
        match kept {
            Some(pieces) => self.keep(pieces),
            None => Ok(()),
        }
    }

    /// Returns the tunnels of the first packet that was in any, outermost first.
    pub fn tunnels(&self) -> &[Tunnel]
        ensures { result.now ≡ tunnels_in self.now.tunnels }
    {
        match &self.tunnels {
            Some(tunnels) => tunnels.as_slice(),
            None => &[],
        }
    }

    /// Returns the collector, if pieces are kept.
    pub fn collector(&mut self) -> Option<&mut K>
        ensures* writes_back { sem 𝓛 (lends_collector K.row self.entry result) }
        ensures value { option_copied_mut result ≡ option_map (λ b. b.value) self.old.collector }
    {
        let collector = self.collector.as_mut()?;
        Some(collector.as_mut())
    }

    /// Returns the collector, if there is one.
    pub fn kept(&self) -> Option<&K>
        ensures { option_map (λ k. k.now) result ≡ option_map (λ b. b.value) self.now.collector }
    {
        match &self.collector {
            Some(collector) => Some(&**collector),
            None => None,
        }
    }

    /// Returns how many records a side sent: over TCP up to the first missing bytes, over UDP those
    /// of all its datagrams.
    pub fn records(&self, side: Side) -> u64
        ensures { result ≡ records_of self.now.protocol side self.now }
    {
        match (self.protocol, side) {
            (Protocol::Tcp, Side::Originator) => self.from_originator.count(),
            (Protocol::Tcp, Side::Responder) => self.from_responder.count(),
            (Protocol::Udp, Side::Originator) => self.by_originator.count(),
            (Protocol::Udp, Side::Responder) => self.by_responder.count(),
        }
    }

    /// Returns the direction in which a side speaks: the originator is the client, unless a hello
    /// shows otherwise.
    pub(crate) fn direction(&self, side: Side) -> Direction
        ensures { result ≡ direction_by self.now.is_turned side }
    {
        direction_of(self.is_turned, side)
    }

    /// Returns how many bytes came before a side's TLS; 0 if no TLS was found.
    pub fn preamble(&self, side: Side) -> u64
        ensures { result ≡ preamble_of side self.now.transport }
    {
        match &self.transport {
            TransportAnalyzer::Stream(_, preambles) => preambles.of(side),
            TransportAnalyzer::Datagrams(_) => 0,
        }
    }

    /// Returns the protocol of the dialogue behind which TLS begins, if one is known.
    pub fn dialogue(&self) -> Option<preambles::Protocol>
        ensures { result ≡ dialogue_of self.now.transport }
    {
        match &self.transport {
            TransportAnalyzer::Stream(_, preambles) => preambles.dialogue.protocol(),
            TransportAnalyzer::Datagrams(_) => None,
        }
    }

    /// Returns whether a dialogue in front of TLS goes on.
    pub(crate) fn is_followed(&self) -> bool
        ensures { result ≡ is_followed_in self.now.transport }
    {
        match &self.transport {
            TransportAnalyzer::Stream(_, preambles) => preambles.dialogue.is_followed(),
            TransportAnalyzer::Datagrams(_) => false,
        }
    }

    /// Returns whether of one of the sides it isn't known whether it speaks TLS.
    #[inline(always)]
    pub(crate) fn is_in_front(&self) -> bool
        ensures { result ≡ is_front_in self.now.transport }
    {
        match &self.transport {
            TransportAnalyzer::Stream(analyzer, _) => {
                analyzer.is_unknown(Direction::ToServer)
                    || analyzer.is_unknown(Direction::FromServer)
            }
            TransportAnalyzer::Datagrams(_) => false,
        }
    }

    /// Returns whether missing bytes of a side are skipped: it isn't known whether it speaks TLS.
    pub(crate) fn awaits(&self, side: Side) -> bool
        ensures { result ≡ awaits_of side self.now }
    {
        match &self.transport {
            TransportAnalyzer::Stream(analyzer, preambles) => {
                analyzer.is_unknown(self.direction(side))
                    && preambles.dialogue.awaits(speaker(side))
            }
            TransportAnalyzer::Datagrams(_) => false,
        }
    }

    /// Notes that bytes of a side were skipped, since some were missing.
    pub(crate) fn pass_missing(&mut self, side: Side, skipped: usize)
        ensures { PassesMissing side skipped self.old self.new }
    {
        if let TransportAnalyzer::Stream(_, preambles) = &mut self.transport {
            preambles.pass_missing(side, skipped);
        }
    }

    /// Follows the dialogue in front of TLS by the next bytes of both streams, and skips those that
    /// it passed.
    pub(crate) fn follow(&mut self, originator: &mut Stream, responder: &mut Stream)
        ensures { FollowsOnce originator.old originator.new responder.old responder.new self.old
            self.new }
    {
        let TransportAnalyzer::Stream(_, preambles) = &mut self.transport else {
            return;
        };
        let (client, server) = preambles.follow(originator.available(), responder.available());
        originator.take(client);
        responder.take(server);
    }

    /// Ends a dialogue in front of TLS that goes on, since no more bytes of it come.
    pub(crate) fn end_dialogue(&mut self)
        ensures { self.new ≡ record self.old
            { transport = without_dialogue_in self.old.transport } }
    {
        if let TransportAnalyzer::Stream(_, preambles) = &mut self.transport {
            preambles.end_dialogue();
        }
    }

    /// Returns whether neither side of a stream is analyzed yet.
    fn are_silent(&self) -> bool
        ensures { result ≡ is_silent_in self.now.transport }
    {
        match &self.transport {
            TransportAnalyzer::Stream(analyzer, _) => {
                analyzer.is_unknown(Direction::ToServer)
                    && analyzer.is_unknown(Direction::FromServer)
            }
            TransportAnalyzer::Datagrams(_) => false,
        }
    }

    /// Takes TLS out of what a side sent next, if it comes in packets.
    fn take_tls(&mut self, side: Side, sent: &[u8]) -> Result<Option<Vec<u8>>, AllocError>
        ensures tls { IfOk result (λ taken. tls_by (option_map (λ t. t.items) taken) sent.now
            ≡ tls_in_transport side sent.now self.old.transport) }
        ensures behind { OnOk result (self.new ≡ behind_tls_of side sent.now self.old) }
        ensures err { OnErr result (self.new ≡ self.old) }
    {
        match &mut self.transport {
            TransportAnalyzer::Stream(_, preambles) => preambles.take_tls(side, self.alloc, sent),
            TransportAnalyzer::Datagrams(_) => Ok(None),
        }
    }
}
