//! Handshake messages as JSON.
ghost use Rattle.std.specs.Prelude.{IfOk};
ghost use Rattle.serde_json.specs.Data.{Data};
ghost use Rattle.serde_json.specs.Events.{SendsValue};
ghost use Rattle.tls_json.specs.Views.{view};
ghost use Rattle.tls_json.specs.Outline.{Shows};
ghost use Rattle.tls_json.specs.Tables.{message_fields};

use crate::body::BodyJson;
use crate::json::Value;
use crate::negotiated::NegotiatedParameters;
use crate::suite::SuiteText;
use crate::table::Table;
use serde::{Described, Serialize, Serializer};
use std::alloc::{AllocError, Global};
use tls_base::TlsHandshakeType;
use tls_flow::HandshakeMessage;

/// A handshake message (RFC 5246, section 7.4; of DTLS RFC 6347, section 4.2.2): its type, the
/// type's name if it is registered, the length of its body, in DTLS its number, and the body.
#[derive(Drop)]
pub struct HandshakeJson {
    value: Value,
}

impl Described for HandshakeJson {
    ghost writes = { λ m. SendsValue (view m.value) };
}

impl Serialize for HandshakeJson {
    fn serialize<S: Serializer>(&self, out: &mut S) -> Result<(), S::Error> {
        self.value.serialize(out)
    }
}

/// Writes the fields of a message.
fn fields(
    alloc: Global,
    msg_type: TlsHandshakeType,
    name: Option<&'static str>,
    length: usize,
    message_seq: Option<u64>,
    content: BodyJson<'_>,
) -> Result<Value, AllocError>
    ensures { (d : Data) → IfOk content.entry.body (Shows d)
        → IfOk result
        (Shows (message_fields msg_type.0 name.entry length message_seq d
        content.entry.rest.now)) }
{
    Table::new(alloc)
        .decimal("msg_type", u64::from(msg_type.0))
        .some_name("name", name)
        .decimal("length", length as u64)
        .some_decimal("message_seq", message_seq)
        .add("body", content.body)
        .some_bytes("rest", content.rest)
        .finish()
}

impl HandshakeJson {
    /// Returns a parsed message of TLS (RFC 8446, section 4), with cipher suites as `suite_text`
    /// says. `negotiated` is from the last ServerHello before it: without that, key exchanges and
    /// CertificateVerify are written as bytes.
    ///
    /// `AllocError` if memory runs out.
    pub fn of(
        alloc: Global,
        suite_text: SuiteText,
        negotiated: Option<NegotiatedParameters>,
        message: &HandshakeMessage<'_>,
    ) -> Result<HandshakeJson, AllocError> {
        let content = BodyJson::new(alloc, suite_text, negotiated, message);
        HandshakeJson::with_content(alloc, message, None, content)
    }

    /// Parses a message of TLS, given with its header of 4 bytes; `None` if it isn't whole.
    /// `suite_text` and `negotiated` are as in [`HandshakeJson::of`].
    ///
    /// `AllocError` if memory runs out.
    pub fn new(
        alloc: Global,
        suite_text: SuiteText,
        negotiated: Option<NegotiatedParameters>,
        message: &[u8],
    ) -> Result<Option<HandshakeJson>, AllocError> {
        match HandshakeMessage::read(message) {
            Some(message) => Ok(Some(HandshakeJson::of(alloc, suite_text, negotiated, &message)?)),
            None => Ok(None),
        }
    }

    /// Returns a parsed message of DTLS, which was reassembled, with its number. `suite_text` and
    /// `negotiated` are as in [`HandshakeJson::of`].
    ///
    /// `AllocError` if memory runs out.
    pub fn of_datagram_message(
        alloc: Global,
        suite_text: SuiteText,
        negotiated: Option<NegotiatedParameters>,
        message_seq: u16,
        message: &HandshakeMessage<'_>,
    ) -> Result<HandshakeJson, AllocError> {
        let content = BodyJson::of_datagrams(alloc, suite_text, negotiated, message);
        HandshakeJson::with_content(alloc, message, Some(u64::from(message_seq)), content)
    }

    /// Parses a reassembled message of DTLS, given by type, number and body. `suite_text` and
    /// `negotiated` are as in [`HandshakeJson::of`].
    ///
    /// `AllocError` if memory runs out.
    pub fn of_datagrams(
        alloc: Global,
        suite_text: SuiteText,
        negotiated: Option<NegotiatedParameters>,
        msg_type: TlsHandshakeType,
        message_seq: u16,
        body: &[u8],
    ) -> Result<HandshakeJson, AllocError> {
        let message = HandshakeMessage::of_datagrams(msg_type, body);
        HandshakeJson::of_datagram_message(alloc, suite_text, negotiated, message_seq, &message)
    }

    fn with_content(
        alloc: Global,
        message: &HandshakeMessage<'_>,
        message_seq: Option<u64>,
        content: BodyJson<'_>,
    ) -> Result<HandshakeJson, AllocError> {
        let value = fields(
            alloc,
            message.msg_type,
            message.msg_type.registered_name(),
            message.body.len(),
            message_seq,
            content,
        )?;
        Ok(HandshakeJson { value })
    }
}
