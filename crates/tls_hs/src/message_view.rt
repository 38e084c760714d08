//! The messages of records in place (RFC 5246, section 6.2.1). The body of a handshake message is
//! parsed on demand.
ghost use Rattle.std.specs.Prelude.{◌≡◌, ◌∷◌, []};
ghost use Rattle.layouts.specs.Answers.{Gives};
ghost use Rattle.tls_base.specs.Alert as alerts;
ghost use Rattle.tls_hs.specs.Message as message;
ghost use Rattle.tls_hs.specs.Message.{Message};
ghost use Rattle.tls_hs.specs.Messages.{view_raw, raw_messages, messages_of_type};

use crate::handshake_view::RawHandshake;
use crate::message::TlsMessageHeartbeat;
use layouts::{ErrorKind, IResult, InPlace, Items, block, number1, number2, parsed, refused};
use tls_base::{TlsHeartbeatMessageType, TlsMessageAlert, TlsRecordType};

/// ChangeCipherSpecs as items of a list (RFC 5246, section 7.1).
#[derive(Clone, Copy, Debug, PartialEq)]
pub struct ChangeCipherSpec;

impl<'a> InPlace<'a> for ChangeCipherSpec {
    type Read = Self;

    ghost Value = { Message };

    ghost view = { λ _. message.ChangeCipherSpec };

    ghost layout = { message.change_cipher_spec };

    #[tactic(auto, using(layouts::proofs::OneAnswerLemmas::read_allowed), unfolding(crate::specs::Message::change_cipher_spec))]
    #[inline(always)]
    fn read(i: &'a [u8]) -> IResult<&'a [u8], Self> {
        let (after, n) = parsed!(number1(i));
        if n != 1 {
            return refused(i, ErrorKind::Verify);
        }
        Ok((after, ChangeCipherSpec))
    }
}

/// Alerts as items of a list (RFC 5246, section 7.2).
#[derive(Clone, Copy)]
pub struct Alert;

impl<'a> InPlace<'a> for Alert {
    type Read = TlsMessageAlert;

    ghost Value = { Message };

    ghost view = { λ a. message.Alert (alerts.view_alert a) };

    ghost layout = { message.alert };

    #[tactic(auto, using(layouts::proofs::OneAnswerLemmas::read_allowed), unfolding(crate::specs::Message::alert))]
    #[inline(always)]
    fn read(i: &'a [u8]) -> IResult<&'a [u8], TlsMessageAlert> {
        let (i, alert) = parsed!(TlsMessageAlert::parse(i));
        Ok((i, alert))
    }
}

/// A message of a record, as [`crate::TlsMessage`], with the body of a handshake message unparsed.
#[derive(Debug, PartialEq, Drop)]
pub enum RawMessage<'a> {
    /// A handshake message (RFC 5246, section 7.4). [`RawHandshake::parse_body`] parses its body.
    Handshake(RawHandshake<'a>),
    /// The sender's next records use the new keys (RFC 5246, section 7.1).
    ChangeCipherSpec,
    /// An alert (RFC 5246, section 7.2).
    Alert(TlsMessageAlert),
    /// Application data (RFC 5246, section 10).
    ApplicationData(&'a [u8]),
    /// A Heartbeat message (RFC 6520, section 4).
    Heartbeat(TlsMessageHeartbeat<'a>),
}

/// Walks the messages of a record. Each is parsed when the walk reaches it.
///
/// The walk doesn't check the bodies of handshake messages. So it continues after one that
/// [`RawHandshake::parse_body`] refuses, where the calls that make lists end.
#[derive(Clone, Copy, Debug, PartialEq)]
pub struct Messages<'a> {
    record_type: TlsRecordType,
    // Whether the type is change_cipher_spec. A record has the most messages of that type. The test
    // gives the same result for each message, so the compiler makes a loop without a jump by type.
    is_change: bool,
    len: u16,
    bytes: &'a [u8],
}

/// The type of a record that has no messages, or no more.
const NOTHING: TlsRecordType = TlsRecordType(0);

impl<'a> Messages<'a> {
    /// Returns a walk over the messages in the fragment `bytes` of a record of this type, whose
    /// header has the length `len`.
    #[inline(always)]
    pub fn new(record_type: TlsRecordType, len: u16, bytes: &'a [u8]) -> Self
        ensures { raw_messages result ≡ messages_of_type record_type.0 len bytes.now }
    {
        Messages {
            record_type,
            is_change: record_type == TlsRecordType::ChangeCipherSpec,
            len,
            bytes,
        }
    }

    /// Returns the bytes that the walk hasn't reached yet.
    #[inline(always)]
    pub fn bytes(self) -> &'a [u8]
        ensures { result.now ≡ self.entry.bytes.now }
    {
        self.bytes
    }
}

impl<'a> Iterator for Messages<'a> {
    ghost use Rattle.std.specs.Iterator.{YieldsFirstBy, item_count};

    type Item = RawMessage<'a>;

    ghost next_gives = { YieldsFirstBy view_raw raw_messages };

    ghost remaining = { item_count raw_messages };

    #[inline(always)]
    fn next(&mut self) -> Option<RawMessage<'a>> {
        if self.is_change {
            let mut items: Items<ChangeCipherSpec> = Items::new(self.bytes);
            let _ = items.next()?;
            self.bytes = items.bytes();
            return Some(RawMessage::ChangeCipherSpec);
        }
        match self.record_type {
            TlsRecordType::Alert => {
                let mut items: Items<Alert> = Items::new(self.bytes);
                let alert = items.next()?;
                self.bytes = items.bytes();
                Some(RawMessage::Alert(alert))
            }
            TlsRecordType::Handshake => {
                let mut items: Items<RawHandshake> = Items::new(self.bytes);
                let message = items.next()?;
                self.bytes = items.bytes();
                Some(RawMessage::Handshake(message))
            }
            TlsRecordType::ApplicationData => {
                self.record_type = NOTHING;
                Some(RawMessage::ApplicationData(self.bytes))
            }
            TlsRecordType::Heartbeat => {
                self.record_type = NOTHING;
                match heartbeat(self.bytes, self.len) {
                    Ok((_, message)) => Some(RawMessage::Heartbeat(message)),
                    Err(_) => None,
                }
            }
            _ => None,
        }
    }
}

/// Reads a Heartbeat message in place. Gives the same answer as
/// [`crate::parse_tls_message_heartbeat`], but allocates nothing.
#[tactic(auto, using(layouts::proofs::OneAnswerLemmas::read_allowed), unfolding(crate::specs::Message::heartbeat))]
#[inline(always)]
pub fn heartbeat(i: &[u8], tls_plaintext_len: u16) -> IResult<&[u8], TlsMessageHeartbeat>
    ensures { Gives (λ h. message.Heartbeat (message.view_heartbeat h) ∷ [])
        (message.heartbeat tls_plaintext_len) i.now result }
{
    let (i, heartbeat_type) = parsed!(TlsHeartbeatMessageType::parse(i));
    let (i, payload_len) = parsed!(number2(i));
    if tls_plaintext_len < 3 {
        return refused(i, ErrorKind::Verify);
    }
    let (i, payload) = parsed!(block(i, payload_len as usize));
    let message = TlsMessageHeartbeat {
        heartbeat_type,
        payload_len,
        payload,
    };
    Ok((i, message))
}
