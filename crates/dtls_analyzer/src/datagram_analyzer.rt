//! The analyzer of a DTLS conversation.
ghost use Rattle.std.specs.Prelude.{◌≡◌, IfOk, OnOk};
ghost use Rattle.std.specs.Option.{option_map};
ghost use Rattle.raw_records.specs.Ciphertext.{view_ciphertext};
ghost use Rattle.raw_records.specs.RawDtlsRecord.{view_raw_record};
ghost use Rattle.dtls_stream.specs.Fragments.{view_fragment};
ghost use Rattle.tls_stream.specs.Conversations.{views};
ghost use Rattle.tls_summary.specs.HandshakeSummary.{view_summary};
ghost use Rattle.tls_flow.specs.Table.{outcome_at};
ghost use Rattle.dtls_analyzer.specs.Another.{begins_another as another_begins};
ghost use Rattle.replay_window.specs.Replay.{Remembers, is_new as is_new_behind};
ghost use Rattle.dtls_analyzer.specs.Datagrams.{IsKnown, Analyzer, begun, came_before, first_fragment as first, number_of, numbered, renumbers as renumbers_in, received, received_all, is_late as is_late_in, is_over as is_over_in, has_finished_by, longest_with as longest_by, sealed_next, record_received, sealed_by, datagram_side_of, side_progress, taken, accepted, accepts as is_accepted, nothing_observed, with_side_progress};
ghost use Rattle.dtls_analyzer.specs.Senders.{deciding_direction as decided_by};
ghost use Rattle.tls_observer.specs.Ends.{is_13 as is_13_by, is_established as established_by, is_resumed as resumed_by};

use crate::account::Account;
use crate::another::{has_ended, has_other_hello};
use crate::datagram_records::is_known;
use crate::datagram_side::{DatagramSide, first_fragment, is_hello, is_opening};
use crate::sender::{deciding, hello_direction};
use dtls_stream::Fragment;
use raw_records::{DTLSCiphertext, DTLSRawRecord, parse_dtls13_ciphertext, read_record};
use replay_window::ReplayWindow;
use std::alloc::{AllocError, Global};
use tls_flow::{Direction, Flow, Outcome, Stop};
use tls_observer::{NoObserver, Observer, ends, of_handshake};
use tls_summary::HandshakeSummary;

/// The length of the client's longest encrypted record, with this one of a side. Early data has the
/// epoch 1 (RFC 9147, section 6.1), and isn't counted.
fn longest_with(side: Direction, record: &DTLSCiphertext<'_>, longest: usize) -> usize
    ensures { result ≡ longest_by side (view_ciphertext record.now) longest }
{
    if matches!(side, Direction::FromServer) || record.header.epoch_bits == 1 {
        return longest;
    }
    longest.max(record.encrypted_record.len())
}

/// Analyzes both sides of a DTLS conversation (RFC 6347, RFC 9147), datagram by datagram: whether
/// they speak DTLS, and what they send in the clear. What a peer would drop changes nothing.
#[derive(Drop)]
pub struct DatagramAnalyzer {
    client: DatagramSide,
    server: DatagramSide,
    account: Account,
    is_dtls: bool,
    // The length of the client's longest encrypted record of DTLS 1.3, without early data.
    longest: usize,
}

impl DatagramAnalyzer {
    /// An analyzer of a new conversation. It doesn't allocate.
    pub fn new(alloc: Global) -> DatagramAnalyzer
        ensures { IsKnown nothing_observed result }
    {
        DatagramAnalyzer {
            client: DatagramSide::new(alloc),
            server: DatagramSide::new(alloc),
            account: Account {
                flow: Flow::new(),
                handshake: HandshakeSummary::new(),
                history: Vec::new(alloc),
            },
            is_dtls: false,
            longest: 0,
        }
    }

    /// An upper bound for the memory that it uses besides itself, in bytes.
    pub fn capacity(&self) -> usize {
        of_handshake(&self.account.handshake)
            .saturating_add(self.account.history.capacity())
            .saturating_add(self.client.messages.capacity())
            .saturating_add(self.server.messages.capacity())
    }

    /// Whether a datagram began with a record of DTLS of epoch 0.
    pub fn is_dtls(&self) -> bool
        ensures { (k : Analyzer) → IsKnown k self.now → result ≡ k.is_dtls }
    {
        self.is_dtls
    }

    /// The summary of what both sides sent in the clear.
    pub fn handshake(&self) -> &HandshakeSummary
        ensures { (k : Analyzer) → IsKnown k self.now → view_summary result.now ≡ k.handshake }
    {
        &self.account.handshake
    }

    /// A letter for each event, as in [`Analyzer::history`](crate::Analyzer::history).
    /// Retransmissions have none.
    pub fn history(&self) -> &[u8]
        ensures { (k : Analyzer) → IsKnown k self.now → result.now ≡ k.history }
    {
        self.account.history.as_slice()
    }

    /// The outcome of the handshake so far.
    pub fn outcome(&self) -> Outcome
        ensures { (k : Analyzer) → IsKnown k self.now → result ≡ outcome_at k.flow.state }
    {
        self.account.flow.outcome()
    }

    /// The event that ended the handshake without success, if one did.
    pub fn stop(&self) -> Option<Stop>
        ensures { (k : Analyzer) → IsKnown k self.now → result ≡ k.flow.stop }
    {
        self.account.flow.stop()
    }

    /// Whether the client of DTLS 1.3 can have sent its Finished.
    fn has_finished(&self) -> bool
        ensures { (k : Analyzer) → IsKnown k self.now → result ≡ has_finished_by k }
    {
        ends::has_finished(
            ends::DATAGRAM_MESSAGE_HEADER,
            &self.account.handshake,
            self.longest,
        )
    }

    /// Whether the handshake is complete. DTLS 1.3 ends it with the client's Finished, which is
    /// encrypted: there the client has sent an encrypted record, not of epoch 1, that can hold a
    /// Finished (RFC 9147, sections 5.2 and 6.1). An ACK of three records can too.
    pub fn is_established(&self) -> bool
        ensures { (k : Analyzer) → IsKnown k self.now
            → result ≡ established_by (outcome_at k.flow.state) (has_finished_by k) }
    {
        ends::is_established(self.outcome(), self.has_finished())
    }

    /// Whether a session was resumed.
    pub fn is_resumed(&self) -> bool
        ensures { (k : Analyzer) → IsKnown k self.now
            → result ≡ resumed_by (outcome_at k.flow.state) k.handshake }
    {
        ends::is_resumed(self.outcome(), &self.account.handshake)
    }

    /// Whether the first messages of a side are missing: by its number, it begins with a second
    /// ClientHello, or with the ServerHello after a HelloVerifyRequest (RFC 6347, section 4.2.2).
    pub fn lacks_front(&self, side: Direction) -> bool
        ensures { (k : Analyzer) → IsKnown k self.now
            → result ≡ (side_progress k side).lacks_front }
    {
        self.datagram_side(side).lacks_front
    }

    /// Whether a datagram of the client begins another association (RFC 6347, section 4.2.8). The
    /// handshake of this one has ended, with success or by an alert. The datagram begins with a
    /// whole ClientHello in the clear, of number 0, whose random differs. So a retransmitted hello,
    /// the one with a cookie, and one in an unfinished handshake begin none.
    pub fn begins_another(&self, datagram: &[u8]) -> bool
        ensures { (k : Analyzer) → IsKnown k self.now → result ≡ another_begins k datagram.now }
    {
        has_ended(self.outcome()) && has_other_hello(&self.account.handshake, datagram)
    }

    /// The direction of a datagram by the hello that it begins with, if that hello shows which side
    /// is the client: the first ClientHello does, and until it comes the first ServerHello or a
    /// HelloVerifyRequest before it. `None` if the datagram begins with anything else.
    pub fn deciding_direction(&self, datagram: &[u8]) -> Option<Direction>
        ensures { (k : Analyzer) → IsKnown k self.now
            → result ≡ decided_by k datagram.now }
    {
        deciding(hello_direction(datagram), &self.account.handshake)
    }

    /// The state of one side.
    fn datagram_side(&self, side: Direction) -> &DatagramSide
        ensures { result.now ≡ datagram_side_of self.now side }
    {
        match side {
            Direction::ToServer => &self.client,
            Direction::FromServer => &self.server,
        }
    }

    /// Whether the side is skipped from now on: it is encrypted, and the handshake has ended.
    pub fn is_over(&self, side: Direction) -> bool
        ensures { (k : Analyzer) → IsKnown k self.now → result ≡ is_over_in k side }
    {
        self.datagram_side(side).progress.is_encrypted
            && !matches!(self.account.flow.outcome(), Outcome::Waiting)
    }

    /// Whether a record begins with a new hello that comes too late: after the ServerHello.
    fn is_late(&self, side: Direction, record: &DTLSRawRecord<'_>) -> bool
        ensures { (k : Analyzer) → IsKnown k self.now
            → result ≡ is_late_in (first (view_raw_record record.now)) k side }
    {
        match first_fragment(record) {
            Some(fragment) => {
                self.account.handshake.server.is_some()
                    && is_hello(&fragment)
                    && self.datagram_side(side).is_new(&fragment)
            }
            None => false,
        }
    }

    /// Whether the client numbers the records of another association from 0 again, with this one.
    /// Before its ServerHello a server keeps no numbers (RFC 6347, section 4.2.1).
    fn renumbers(&self, side: Direction, record: &DTLSRawRecord<'_>) -> bool
        ensures { (k : Analyzer) → IsKnown k self.now
            → result ≡ renumbers_in k side (view_raw_record record.now) }
    {
        matches!(side, Direction::ToServer)
            && self.account.handshake.client.is_some()
            && !self.account.handshake.server.is_some()
            && record.header.sequence_number == 0
            && is_opening(record)
    }

    /// The numbers of this side's records before this one.
    fn window_before(&self, side: Direction, record: &DTLSRawRecord<'_>) -> ReplayWindow
        ensures { (k : Analyzer) → IsKnown k self.now
            → Remembers (came_before k side (view_raw_record record.now)) result }
    {
        if self.renumbers(side, record) {
            return ReplayWindow::new();
        }
        self.datagram_side(side).window
    }

    /// Whether a record's number is new.
    fn is_new(&self, side: Direction, record: &DTLSRawRecord<'_>) -> bool
        ensures { (k : Analyzer) → IsKnown k self.now
            → result ≡ is_new_behind (came_before k side (view_raw_record record.now))
            (number_of (view_raw_record record.now)) }
    {
        let window = self.window_before(side, record);
        window.is_new(record.header.epoch, record.header.sequence_number)
    }

    /// Whether the peer accepts a record of this side, by its epoch and number.
    fn accepts(&self, side: Direction, record: &DTLSRawRecord<'_>) -> bool
        ensures { (k : Analyzer) → IsKnown k self.now
            → result ≡ is_accepted k side (view_raw_record record.now) }
    {
        self.is_dtls
            && !self.is_over(side)
            && record.header.epoch == self.datagram_side(side).epoch()
            && self.is_new(side, record)
    }

    /// Adds a record's number to those of its side.
    fn add_number(&mut self, side: Direction, record: &DTLSRawRecord<'_>)
        ensures { (k : Analyzer) → IsKnown k self.old
            → IsKnown (numbered k side (view_raw_record record.now)) self.new }
    {
        let mut window = self.window_before(side, record);
        window.insert(record.header.epoch, record.header.sequence_number);
        match side {
            Direction::ToServer => self.client.window = window,
            Direction::FromServer => self.server.window = window,
        }
    }

    /// Begins a side with its first fragment.
    fn begin(&mut self, alloc: Global, side: Direction, fragment: &Fragment<'_>)
        ensures { (k : Analyzer) → IsKnown k self.old
            → IsKnown (with_side_progress k side
            (begun side (view_fragment fragment.now) (side_progress k side)))
            self.new }
    {
        match side {
            Direction::ToServer => self.client.begin(alloc, side, fragment),
            Direction::FromServer => self.server.begin(alloc, side, fragment),
        }
    }

    /// Follows a side's record and updates the summary.
    fn follow<W: Observer>(
        &mut self,
        alloc: Global,
        side: Direction,
        record: DTLSRawRecord<'_>,
        observer: &mut W,
    ) -> Result<(), AllocError>
        ensures { (k : Analyzer) → IsKnown k self.old
            → OnOk result (IsKnown (taken k side (view_raw_record record.entry)) self.new) }
    {
        match side {
            Direction::ToServer => self
                .client
                .analyze(&mut self.account, alloc, side, record, observer),
            Direction::FromServer => self
                .server
                .analyze(&mut self.account, alloc, side, record, observer),
        }
    }

    /// Reads a record that the peer accepts, unless it begins with a late hello.
    fn read_accepted<W: Observer>(
        &mut self,
        alloc: Global,
        side: Direction,
        record: DTLSRawRecord<'_>,
        observer: &mut W,
    ) -> Result<(), AllocError>
        ensures { (k : Analyzer) → IsKnown k self.old
            → OnOk result (IsKnown (accepted k side (view_raw_record record.entry)) self.new) }
    {
        if self.is_late(side, &record) {
            return Ok(());
        }
        if let Some(fragment) = first_fragment(&record) {
            self.begin(alloc, side, &fragment);
        }
        self.follow(alloc, side, record, observer)
    }

    /// Reads a record of a side.
    fn read_record_events<W: Observer>(
        &mut self,
        alloc: Global,
        side: Direction,
        record: DTLSRawRecord<'_>,
        observer: &mut W,
    ) -> Result<(), AllocError>
        ensures { (k : Analyzer) → IsKnown k self.old
            → OnOk result (IsKnown
            (record_received k side (view_raw_record record.entry)) self.new) }
    {
        self.is_dtls = self.is_dtls || record.header.epoch == 0;
        if !self.accepts(side, &record) {
            return Ok(());
        }
        self.add_number(side, &record);
        self.read_accepted(alloc, side, record, observer)
    }

    /// Whether DTLS 1.3 was negotiated.
    pub fn is_13(&self) -> bool
        ensures { (k : Analyzer) → IsKnown k self.now
            → result ≡ is_13_by (outcome_at k.flow.state) }
    {
        ends::is_13(self.outcome())
    }

    /// The encrypted record of DTLS 1.3 that comes next, if DTLS 1.3 was negotiated.
    fn next_sealed<'a>(&self, side: Direction, bytes: &'a [u8]) -> Option<DTLSCiphertext<'a>>
        ensures { (k : Analyzer) → IsKnown k self.now
            → option_map view_ciphertext result ≡ sealed_next k side bytes.now }
    {
        if !self.is_13() {
            return None;
        }
        let len = self.account.handshake.connection_id_len(side);
        match parse_dtls13_ciphertext(bytes, len) {
            Ok((_, record)) => Some(record),
            Err(_) => None,
        }
    }

    /// Marks the side as encrypted if the next bytes are an encrypted record of DTLS 1.3.
    fn see_sealed(&mut self, side: Direction, bytes: &[u8])
        ensures { (k : Analyzer) → IsKnown k self.old
            → IsKnown (sealed_by k side bytes.now) self.new }
    {
        let Some(record) = self.next_sealed(side, bytes) else {
            return;
        };
        self.longest = longest_with(side, &record, self.longest);
        match side {
            Direction::ToServer => self.client.progress.is_encrypted = true,
            Direction::FromServer => self.server.progress.is_encrypted = true,
        }
    }

    /// Reads a datagram of a side, record by record. In DTLS 1.3 the first encrypted record marks
    /// the side as encrypted (RFC 9147, section 4). What the peer would drop changes nothing:
    ///
    /// - bytes that are no whole record, and what follows them in the datagram (RFC 6347, section
    ///   4.1.2.7). A datagram that begins with such bytes is skipped, since other protocols may use
    ///   the same ports (RFC 7983). A record has [a version of DTLS](is_datagram_version);
    /// - a record of an epoch that hasn't begun or is over (section 4.1), and all records of a side
    ///   that is over;
    /// - a record whose number came before, with whatever bytes, or is 64 or more below another
    ///   one's (section 4.1.2.6);
    /// - a record whose content doesn't parse, such as an empty one;
    /// - a fragment that reaches past its message, gives another length for it, or belongs to a
    ///   message that was delivered or is too far ahead (sections 4.2.2 and 4.2.3). If bytes
    ///   disagree, the first ones are kept;
    /// - a ChangeCipherSpec that the handshake hasn't reached or that is a retransmission, and a
    ///   hello after the ServerHello.
    ///
    /// After `AllocError` there was no memory for it, and the analyzer can't be used any more.
    pub fn analyze(
        &mut self,
        alloc: Global,
        side: Direction,
        datagram: &[u8],
    ) -> Result<(), AllocError>
        ensures { (k : Analyzer) → IsKnown k self.old
            → OnOk result (IsKnown (received k side datagram.now) self.new) }
    {
        self.analyze_with(alloc, side, datagram, &mut NoObserver)
    }

    /// Reads a datagram of a side as [`DatagramAnalyzer::analyze`] does, and passes each event that
    /// counts to the observer.
    pub fn analyze_with<W: Observer>(
        &mut self,
        alloc: Global,
        side: Direction,
        datagram: &[u8],
        observer: &mut W,
    ) -> Result<(), AllocError>
        ensures { (k : Analyzer) → IsKnown k self.old
            → OnOk result (IsKnown (received k side datagram.now) self.new) }
    {
        let mut left = datagram;
        'records: for read in 0..datagram.len() {
            let Ok((rest, record)) = read_record(left) else {
                self.see_sealed(side, left);
                return Ok(());
            };
            if !is_known(&record.header) {
                self.see_sealed(side, left);
                return Ok(());
            }
            self.read_record_events(alloc, side, record, observer)?;
            left = rest;
        }
        Ok(())
    }
}

/// The analyzer after these datagrams, in order, each with its direction.
///
/// `AllocError` if there is no memory for an event.
pub fn analyzer_of(
    alloc: Global,
    datagrams: &[(Direction, &[u8])],
) -> Result<DatagramAnalyzer, AllocError>
    ensures { IfOk result (λ t. IsKnown (received_all nothing_observed (views datagrams.now)) t) }
{
    let mut analyzer = DatagramAnalyzer::new(alloc);
    for (side, datagram) in datagrams {
        analyzer.analyze(alloc, *side, datagram)?;
    }
    Ok(analyzer)
}
