//! One side of a DTLS association.
ghost use Rattle.std.specs.Prelude.{◌≡◌, OnOk, nat_lt, not};
ghost use Rattle.std.specs.Option.{option_map};
ghost use Rattle.raw_records.specs.RawDtlsRecord.{view_raw_record};
ghost use Rattle.dtls_stream.specs.Fragments.{view_fragment};
ghost use Rattle.dtls_stream.specs.Messages.{Received, Stands};
ghost use Rattle.dtls_analyzer.specs.Datagrams.{IsSameSide, IsSideProgress, SideReads, SideProgress, allowed, begun, epoch_of, first_fragment as first, is_behind_front as is_behind, is_hello as hello, is_opening as opening, no_side_progress};

use crate::account::{Account, Progress};
use dtls_stream::{DEFAULT_LIMITS, Fragment, Messages, parse_dtls_fragment, read_record_events};
use raw_records::DTLSRawRecord;
use replay_window::ReplayWindow;
use std::alloc::{AllocError, Global};
use tls_base::{TlsHandshakeType, TlsRecordType};
use tls_flow::Direction;
use tls_observer::Observer;

/// The state of one side.
#[derive(Drop)]
pub(crate) struct DatagramSide {
    pub(crate) messages: Messages,
    // The numbers of the accepted records.
    pub(crate) window: ReplayWindow,
    // Whether a fragment of it was added, and whether the messages before it are missing.
    pub(crate) is_begun: bool,
    pub(crate) lacks_front: bool,
    pub(crate) progress: Progress,
}

/// The handshake fragment that a record begins with.
pub(crate) fn first_fragment<'a>(record: &DTLSRawRecord<'a>) -> Option<Fragment<'a>>
    ensures { option_map view_fragment result ≡ first (view_raw_record record.now) }
{
    if record.header.content_type.0 != TlsRecordType::Handshake.0 {
        return None;
    }
    match parse_dtls_fragment(record.fragment) {
        Ok((_, fragment)) => Some(fragment),
        Err(_) => None,
    }
}

/// Whether it belongs to a ClientHello, a ServerHello or a HelloVerifyRequest.
pub(crate) fn is_hello(fragment: &Fragment<'_>) -> bool
    ensures { result ≡ hello (view_fragment fragment.now) }
{
    fragment.msg_type.0 == TlsHandshakeType::ClientHello.0
        || fragment.msg_type.0 == TlsHandshakeType::ServerHello.0
        || fragment.msg_type.0 == TlsHandshakeType::HelloVerifyRequest.0
}

/// Whether a record begins with the first bytes of a client's first message.
pub(crate) fn is_opening(record: &DTLSRawRecord<'_>) -> bool
    ensures { result ≡ opening (first (view_raw_record record.now)) }
{
    match first_fragment(record) {
        Some(fragment) => {
            fragment.msg_type.0 == TlsHandshakeType::ClientHello.0
                && fragment.message_seq == 0
                && fragment.fragment_offset == 0
        }
        None => false,
    }
}

/// Whether it belongs to a second ClientHello, or to the ServerHello after a HelloVerifyRequest
/// (RFC 6347, section 4.2.2).
fn is_behind_front(side: Direction, fragment: &Fragment<'_>) -> bool
    ensures { result ≡ is_behind side (view_fragment fragment.now) }
{
    let hello = match side {
        Direction::ToServer => TlsHandshakeType::ClientHello.0,
        Direction::FromServer => TlsHandshakeType::ServerHello.0,
    };
    fragment.msg_type.0 == hello && fragment.message_seq == 1
}

impl DatagramSide {
    /// A side that has sent nothing. It doesn't allocate.
    pub(crate) fn new(alloc: Global) -> DatagramSide
        ensures { IsSideProgress no_side_progress result }
    {
        DatagramSide {
            messages: Messages::new(alloc, DEFAULT_LIMITS),
            window: ReplayWindow::new(),
            is_begun: false,
            lacks_front: false,
            progress: Progress {
                has_changed: false,
                is_encrypted: false,
            },
        }
    }

    /// The epoch of the records that its peer accepts.
    pub(crate) fn epoch(&self) -> u16
        ensures { (p : SideProgress) → IsSideProgress p self.now → result ≡ epoch_of p }
    {
        if self.progress.has_changed { 1 } else { 0 }
    }

    /// Whether a fragment's message wasn't delivered yet.
    pub(crate) fn is_new(&self, fragment: &Fragment<'_>) -> bool
        ensures { (p : SideProgress) → IsSideProgress p self.now
            → result ≡ not (nat_lt fragment.now.message_seq p.received.next) }
    {
        fragment.message_seq as u32 >= self.messages.next_number()
    }

    /// Begins the side with its first fragment, and after the missing messages if there are any.
    pub(crate) fn begin(&mut self, alloc: Global, side: Direction, first: &Fragment<'_>)
        ensures { (p : SideProgress) → IsSideProgress p self.old
            → IsSideProgress (begun side (view_fragment first.now) p) self.new }
    {
        if self.is_begun {
            return;
        }
        self.is_begun = true;
        if is_behind_front(side, first) {
            self.lacks_front = true;
            self.messages = Messages::beginning_at(alloc, DEFAULT_LIMITS, 1);
        }
    }

    /// Reads a record of this side, follows its events and updates the summary.
    pub(crate) fn analyze<W: Observer>(
        &mut self,
        account: &mut Account,
        alloc: Global,
        side: Direction,
        record: DTLSRawRecord<'_>,
        observer: &mut W,
    ) -> Result<(), AllocError>
        ensures emitted { (h : Received) → Stands allowed h self.old.messages
            → OnOk result
            (SideReads side h (view_raw_record record.entry) account.old account.new self.old
            self.new) }
        ensures same { IsSameSide self.old self.new }
    {
        let mut events = Vec::new(alloc);
        read_record_events(alloc, record, &mut self.messages, &mut events).map_err(
            |_e| AllocError,
        )?;
        account.add_all(alloc, side, &mut self.progress, events.as_slice(), observer)
    }
}
