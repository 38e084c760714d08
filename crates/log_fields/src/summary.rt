//! The summary of a connection.
ghost use Rattle.std.specs.Prelude.{◌≡◌, ◌==◌};
ghost use Rattle.std.specs.Option.{option_map};
ghost use Rattle.log_fields.specs.Names.{found_by_text, gap_text};
ghost use Rattle.log_fields.specs.Values.{has_gap as has_gap_of, party_of};

use crate::names::{dialogue_name, search_name};
use connections::{Dropped, End, Protocol, Side, Stream, Traffic};
use tls_flow::{Outcome, Stop};
use tls_summary::HandshakeSummary;
use tunnels::Tunnel;

/// One side of a connection.
#[derive(Clone, Copy)]
pub struct Party<'a> {
    /// The address and port.
    pub end: End,
    /// The TCP stream.
    pub stream: &'a Stream,
    /// What the side sent.
    pub sent: Traffic,
    /// What it sent over TCP and the other side dropped.
    pub dropped: Dropped,
    /// How many bytes came before its TLS.
    pub preamble: u64,
    /// How many records it sent.
    pub records: u64,
    /// Whether its first messages weren't captured, by the message numbers of DTLS.
    pub lacks_front: bool,
}

impl Party<'_> {
    /// Returns whether bytes of its stream, or its first messages, are missing.
    fn has_gap(&self) -> bool
        ensures { result ≡ has_gap_of self.now }
    {
        self.lacks_front || self.stream.has_gap()
    }
}

/// The summary of a connection.
#[derive(Clone, Copy)]
pub struct Summary<'a> {
    /// The transport protocol.
    pub protocol: Protocol,
    /// When its first packet was captured, in nanoseconds since 1970-01-01 00:00 UTC.
    pub first_time: u64,
    /// When its last packet was captured, in nanoseconds since 1970-01-01 00:00 UTC.
    pub last_time: u64,
    /// The side that asked for it.
    pub originator: Party<'a>,
    /// The side that answered.
    pub responder: Party<'a>,
    /// The handshake of both sides.
    pub handshake: &'a HandshakeSummary,
    /// The certificates that the client sent, in DER, each after 3 bytes of length. Empty if it
    /// sent none, or they aren't kept.
    pub client_chain: &'a [u8],
    /// The certificates that the server sent, in the same form.
    pub server_chain: &'a [u8],
    /// A letter for each event, as in Zeek's ssl_history.
    pub history: &'a [u8],
    /// The state of the handshake.
    pub outcome: Outcome,
    /// The event that ended the handshake without success, if one did.
    pub stop: Option<Stop>,
    /// Whether the readable part of the handshake is complete.
    pub is_established: bool,
    /// Whether a session was resumed.
    pub is_resumed: bool,
    /// Whether it was ended early, when memory ran short.
    pub is_ended_early: bool,
    /// The protocol of the dialogue behind which TLS begins, if one is known.
    pub dialogue: Option<preambles::Protocol>,
    /// The tunnels around it, outermost first.
    pub tunnels: &'a [Tunnel],
}

impl<'a> Summary<'a> {
    /// Returns a side.
    pub fn party(&self, side: Side) -> &Party<'a>
        ensures { result.now ≡ party_of side self.now }
    {
        match side {
            Side::Originator => &self.originator,
            Side::Responder => &self.responder,
        }
    }

    /// Returns the name of what found TLS behind other bytes, if any came before it.
    pub fn found_by(&self) -> Option<&'static str>
        ensures { option_map (λ t. t.now) result
            ≡ found_by_text self.now.dialogue (self.now.originator.preamble == 0)
            (self.now.responder.preamble == 0) }
    {
        match self.dialogue {
            Some(protocol) => Some(dialogue_name(protocol)),
            None => search_name(self.originator.preamble, self.responder.preamble),
        }
    }

    /// Returns which sides have missing bytes, if any has.
    pub fn gap(&self) -> Option<&'static str>
        ensures { option_map (λ t. t.now) result
            ≡ gap_text (has_gap_of self.now.originator) (has_gap_of self.now.responder) }
    {
        match (self.originator.has_gap(), self.responder.has_gap()) {
            (true, true) => Some("both"),
            (true, false) => Some("orig"),
            (false, true) => Some("resp"),
            (false, false) => None,
        }
    }
}
