//! The analyzer of a TLS connection.
ghost use Rattle.std.specs.Prelude.{◌≡◌, ◌≤◌, ◌++◌, [], IfOk, OnOk, length};
ghost use Rattle.ssl2_hello.specs.ClientHello.{view_client_hello as view_ssl2_hello};
ghost use Rattle.tls_stream.specs.Conversations.{views};
ghost use Rattle.tls_stream.specs.Readers.{reader_of};
ghost use Rattle.tls_stream.specs.SideReaders.{IsReady, front_of};
ghost use Rattle.tls_summary.specs.HandshakeSummary.{view_summary};
ghost use Rattle.tls_flow.specs.Table.{outcome_at};
ghost use Rattle.tls_observer.specs.Ends.{is_established as established_by, is_resumed as resumed_by};
ghost use Rattle.tls_analyzer.specs.Capacity.{capacity_of};
ghost use Rattle.tls_analyzer.specs.Following.{known_of};
ghost use Rattle.tls_analyzer.specs.Analyzers.{IsFirstRead, has_finished_by as finished_by, IsReadAsNone, IsReadInSsl2, IsReadOn, IsNew, IsNext, IsTaken, IsAnalyzerOf, Waits, side_state as side_state_of, is_over as is_over_in, is_tls_on as is_tls_on_side, is_unknown as is_unknown_in, known_as_tls, waiting as waiting_of, with_side_state};

use crate::conversation_state::ConversationState;
use ssl2_hello::Ssl2ClientHello;
use std::alloc::{AllocError, Global};
use std::mem;
use tls_detection::{HEADER_LEN, begins_tls};
use tls_flow::{Direction, Outcome, Stop};
use tls_observer::{NoObserver, Observer, ends, of_handshake};
use tls_summary::HandshakeSummary;

/// What is known of a side.
#[derive(Clone, Copy, Debug, PartialEq, Eq)]
pub(crate) enum SideState {
    /// Too few bytes have come to decide whether it is TLS.
    Unknown,
    /// It is TLS, in the clear so far.
    Clear,
    /// It is TLS, and has sent an encrypted record.
    Encrypted,
    /// It isn't TLS.
    Other,
}

/// Analyzes both sides of a connection over a stream: whether they are TLS, and what they send in
/// the clear.
#[derive(Drop)]
pub struct Analyzer {
    conversation_state: ConversationState,
    is_tls: bool,
    client: SideState,
    server: SideState,
    // The first bytes of each side, while they are too few to decide whether it is TLS.
    client_first: Vec<u8>,
    server_first: Vec<u8>,
}

impl Analyzer {
    /// An analyzer of a new connection. It doesn't allocate.
    pub fn new(alloc: Global) -> Analyzer
        ensures { IsNew result }
    {
        Analyzer {
            conversation_state: ConversationState::new(alloc),
            is_tls: false,
            client: SideState::Unknown,
            server: SideState::Unknown,
            client_first: Vec::new(alloc),
            server_first: Vec::new(alloc),
        }
    }

    /// An upper bound for the memory of the summary, the history and the stored first bytes, in
    /// bytes. It includes neither the analyzer itself nor its conversation's buffers, which hold at
    /// most twice the bytes that came.
    pub fn capacity(&self) -> usize
        ensures { result ≡ capacity_of self.now }
    {
        of_handshake(&self.conversation_state.handshake)
            .saturating_add(self.conversation_state.history.capacity())
            .saturating_add(self.client_first.capacity())
            .saturating_add(self.server_first.capacity())
    }

    /// Whether a side's first bytes are TLS.
    pub fn is_tls(&self) -> bool
        ensures { result ≡ self.now.is_tls }
    {
        self.is_tls
    }

    /// The summary of what both sides sent in the clear.
    pub fn handshake(&self) -> &HandshakeSummary
        ensures { result.now ≡ self.now.conversation_state.handshake }
    {
        &self.conversation_state.handshake
    }

    /// A letter for each event, as in Zeek's ssl_history: upper case for the client, in capture
    /// order, for messages in the clear, up to [`HISTORY_LIMIT`](crate::HISTORY_LIMIT).
    pub fn history(&self) -> &[u8]
        ensures { result.now ≡ self.now.conversation_state.history.items }
    {
        self.conversation_state.history.as_slice()
    }

    /// The outcome of the handshake so far.
    pub fn outcome(&self) -> Outcome
        ensures { result ≡ outcome_at self.now.conversation_state.flow.state }
    {
        self.conversation_state.flow.outcome()
    }

    /// The event that ended the handshake without success, if one did.
    pub fn stop(&self) -> Option<Stop>
        ensures { result ≡ self.now.conversation_state.flow.stop }
    {
        self.conversation_state.flow.stop()
    }

    /// Whether the handshake is complete. TLS 1.3 ends it with the client's Finished, which is
    /// encrypted: there the client has answered the ServerHello with a record of application_data
    /// that can hold a Finished (RFC 8446, section 4.4.4), which an alert or an empty Certificate
    /// can't.
    ///
    /// Early data that is still on its way when the ServerHello comes counts as an answer, since it
    /// can't be told from one.
    pub fn is_established(&self) -> bool
        ensures { result ≡ established_by (outcome_at self.now.conversation_state.flow.state)
            (finished_by (known_of self.now.conversation_state)) }
    {
        ends::is_established(self.outcome(), self.conversation_state.has_finished())
    }

    /// Whether a session was resumed, or a pre-shared key accepted.
    pub fn is_resumed(&self) -> bool
        ensures { result ≡ resumed_by (outcome_at self.now.conversation_state.flow.state)
            (view_summary self.now.conversation_state.handshake) }
    {
        ends::is_resumed(self.outcome(), &self.conversation_state.handshake)
    }

    fn side_state(&self, side: Direction) -> SideState
        ensures { result ≡ side_state_of self.now side }
    {
        match side {
            Direction::ToServer => self.client,
            Direction::FromServer => self.server,
        }
    }

    /// Whether it isn't decided yet whether a side is TLS.
    pub fn is_unknown(&self, side: Direction) -> bool
        ensures { result ≡ is_unknown_in self.now side }
    {
        matches!(self.side_state(side), SideState::Unknown)
    }

    /// Whether a side's first bytes are TLS.
    pub fn is_tls_on(&self, side: Direction) -> bool
        ensures { result ≡ is_tls_on_side self.now side }
    {
        matches!(
            self.side_state(side),
            SideState::Clear | SideState::Encrypted
        )
    }

    fn set_side_state(&mut self, side: Direction, side_state: SideState)
        ensures { self.new ≡ with_side_state self.old side side_state }
    {
        match side {
            Direction::ToServer => self.client = side_state,
            Direction::FromServer => self.server = side_state,
        }
    }

    /// Whether the side is skipped from now on: it isn't TLS, or it is encrypted and the handshake
    /// has ended, for the client of TLS 1.3 with its Finished.
    pub fn is_over(&self, side: Direction) -> bool
        ensures { result ≡ is_over_in self.now side }
    {
        match self.side_state(side) {
            SideState::Unknown | SideState::Clear => false,
            SideState::Encrypted => !self.conversation_state.awaits(side),
            SideState::Other => true,
        }
    }

    /// The first bytes of a side that are stored so far.
    fn waiting(&self, side: Direction) -> &[u8]
        ensures { result.now ≡ (waiting_of self.now side).items }
    {
        match side {
            Direction::ToServer => self.client_first.as_slice(),
            Direction::FromServer => self.server_first.as_slice(),
        }
    }

    /// Stores more of the first bytes of a side.
    fn wait(&mut self, side: Direction, bytes: &[u8]) -> Result<(), AllocError>
        ensures { OnOk result
            (Waits self.old side ((waiting_of self.old side).items ++ bytes.now) self.new) }
    {
        match side {
            Direction::ToServer => self.client_first.extend_from_slice(bytes),
            Direction::FromServer => self.server_first.extend_from_slice(bytes),
        }
    }

    /// Removes the stored first bytes of a side and returns them.
    fn take_waiting(&mut self, alloc: Global, side: Direction) -> Vec<u8>
        ensures value { result ≡ waiting_of self.old side }
        ensures taken { Waits self.old side [] self.new }
    {
        match side {
            Direction::ToServer => mem::replace(&mut self.client_first, Vec::new(alloc)),
            Direction::FromServer => mem::replace(&mut self.server_first, Vec::new(alloc)),
        }
    }

    /// Follows the side's next event, updates the summary and removes the event. Returns false if
    /// there is none.
    fn take_next<W: Observer>(
        &mut self,
        alloc: Global,
        side: Direction,
        observer: &mut W,
    ) -> Result<bool, AllocError>
        ensures taken { IfOk result
            (λ taken. IsTaken (front_of (reader_of self.old.conversation_state.reader side))
            self.old side taken
            self.new) }
        ensures ready { OnOk result (IsReady (reader_of self.old.conversation_state.reader side)
            → IsReady (reader_of self.new.conversation_state.reader side)) }
    {
        match self.conversation_state.take_next(alloc, side, observer)? {
            Some(true) => {
                self.set_side_state(side, SideState::Encrypted);
                Ok(true)
            }
            Some(false) => Ok(true),
            None => Ok(false),
        }
    }

    /// Reads a piece of a side, up to the event after which the side is skipped.
    fn follow<W: Observer>(
        &mut self,
        alloc: Global,
        side: Direction,
        piece: &[u8],
        observer: &mut W,
    ) -> Result<(), AllocError>
        ensures { OnOk result (IsNext self.old side piece.now self.new) }
    {
        if self.is_over(side) {
            return Ok(());
        }
        self.conversation_state.feed(side, piece)?;
        for _ in 0..u64::MAX {
            if self.is_over(side) || !self.take_next(alloc, side, observer)? {
                break;
            }
        }
        Ok(())
    }

    /// Reads the first bytes of a side, which come at once and decide whether it is TLS.
    fn analyze_front<W: Observer>(
        &mut self,
        alloc: Global,
        side: Direction,
        bytes: &[u8],
        observer: &mut W,
    ) -> Result<(), AllocError>
        requires none { length (waiting_of self.old side).items ≡ 0 }
        requires enough { 5 ≤ length bytes.now }
        ensures { OnOk result
            (IsFirstRead self.old side (waiting_of self.old side).items bytes.now self.new) }
    {
        let (front, _) = bytes.split_at(HEADER_LEN);
        if begins_tls(front) {
            self.begin_tls(side);
            return self.follow(alloc, side, bytes, observer);
        }
        self.follow(alloc, side, front, observer)?;
        self.set_side_state(side, SideState::Other);
        Ok(())
    }

    /// Reads the first bytes of a side, which decide whether it is TLS.
    fn analyze_first<W: Observer>(
        &mut self,
        alloc: Global,
        side: Direction,
        bytes: &[u8],
        observer: &mut W,
    ) -> Result<(), AllocError>
        ensures { OnOk result
            (IsFirstRead self.old side (waiting_of self.old side).items bytes.now self.new) }
    {
        let missing = HEADER_LEN.saturating_sub(self.waiting(side).len());
        if bytes.len() < missing {
            return self.wait(side, bytes);
        }
        if missing == HEADER_LEN {
            return self.analyze_front(alloc, side, bytes, observer);
        }
        let (front, rest) = bytes.split_at(missing);
        let mut first = self.take_waiting(alloc, side);
        first.extend_from_slice(front)?;
        if begins_tls(first.as_slice()) {
            self.begin_tls(side);
            self.follow(alloc, side, first.as_slice(), observer)?;
            return self.follow(alloc, side, rest, observer);
        }
        self.follow(alloc, side, first.as_slice(), observer)?;
        self.set_side_state(side, SideState::Other);
        Ok(())
    }

    /// Starts a side's TLS at its next byte. That is read as a record's first, whatever it is. For
    /// callers that know where TLS begins.
    pub fn begin_tls(&mut self, side: Direction)
        ensures { self.new ≡ known_as_tls self.old side }
    {
        self.is_tls = true;
        self.set_side_state(side, SideState::Clear);
    }

    /// Reads a ClientHello of SSL 2.0's form (RFC 5246, appendix E.2) with which a side begins.
    /// What follows it is TLS.
    ///
    /// After `AllocError` there was no memory for it, and the analyzer can't be used any more.
    pub fn analyze_ssl2(
        &mut self,
        alloc: Global,
        side: Direction,
        hello: &Ssl2ClientHello<'_>,
    ) -> Result<(), AllocError>
        ensures { OnOk result (IsReadInSsl2 self.old side (view_ssl2_hello hello.now) self.new) }
    {
        self.conversation_state.analyze_ssl2(alloc, side, hello)?;
        self.begin_tls(side);
        Ok(())
    }

    /// Treats a side that has sent nothing so far as one that isn't TLS: that counts as a fault,
    /// and the side is skipped.
    pub fn skip_side(&mut self, side: Direction)
        ensures { IsReadAsNone self.old side self.new }
    {
        if !self.is_over(side) {
            self.conversation_state.follow_fault(side);
        }
        self.set_side_state(side, SideState::Other);
    }

    /// Reads the next bytes of a side. The first ones are stored until there are 5, which decide
    /// whether the side is TLS. If it isn't, these 5 count as a fault, and the rest is skipped.
    /// Once a side is over, its bytes are skipped, from the event on that ended it.
    ///
    /// After `AllocError` there was no memory for them, and the analyzer can't be used any more.
    pub fn analyze(
        &mut self,
        alloc: Global,
        side: Direction,
        bytes: &[u8],
    ) -> Result<(), AllocError>
        ensures { OnOk result (IsReadOn self.old side bytes.now self.new) }
    {
        self.analyze_with(alloc, side, bytes, &mut NoObserver)
    }

    /// Reads the next bytes of a side as [`Analyzer::analyze`] does, and passes each event to the
    /// observer.
    pub fn analyze_with<W: Observer>(
        &mut self,
        alloc: Global,
        side: Direction,
        bytes: &[u8],
        observer: &mut W,
    ) -> Result<(), AllocError>
        ensures { OnOk result (IsReadOn self.old side bytes.now self.new) }
    {
        if self.side_state(side) == SideState::Unknown {
            return self.analyze_first(alloc, side, bytes, observer);
        }
        self.follow(alloc, side, bytes, observer)
    }
}

/// The analyzer after these pieces, in order, each with its direction. The result depends only on
/// the turns: a side's pieces up to the other side's next one, joined. So neither the cuts of the
/// pieces nor those of the records matter.
///
/// `AllocError` if there is no memory for a piece or an event.
pub fn analyze_all(alloc: Global, pieces: &[(Direction, &[u8])]) -> Result<Analyzer, AllocError>
    ensures { IfOk result (λ t. IsAnalyzerOf (views pieces.now) t) }
{
    let mut analyzer = Analyzer::new(alloc);
    for (side, piece) in pieces {
        analyzer.analyze(alloc, *side, piece)?;
    }
    Ok(analyzer)
}
