//! Heartbeats as JSON.
ghost use Rattle.std.specs.Prelude.{IfOk};
ghost use Rattle.serde_json.specs.Events.{SendsValue};
ghost use Rattle.tls_json.specs.Views.{view};
ghost use Rattle.tls_json.specs.Outline.{Shows};
ghost use Rattle.tls_json.specs.Tables.{heartbeat_fields};

use crate::json::Value;
use crate::table::Table;
use crate::text::blob;
use serde::{Described, Serialize, Serializer};
use std::alloc::{AllocError, Global};
use tls_hs::TlsMessageHeartbeat;

/// A heartbeat (RFC 6520, section 4) by its fields, or its bytes in hexadecimal if its payload
/// isn't whole.
#[derive(Drop)]
pub struct HeartbeatJson {
    value: Value,
}

impl Described for HeartbeatJson {
    ghost writes = { λ h. SendsValue (view h.value) };
}

impl Serialize for HeartbeatJson {
    fn serialize<S: Serializer>(&self, out: &mut S) -> Result<(), S::Error> {
        self.value.serialize(out)
    }
}

fn fields(
    alloc: Global,
    message: &TlsMessageHeartbeat<'_>,
    padding: &[u8],
) -> Result<Value, AllocError>
    ensures { IfOk result (Shows (heartbeat_fields message.now padding.now)) }
{
    Table::new(alloc)
        .decimal("type", u64::from(message.heartbeat_type.0))
        .decimal("payload_length", u64::from(message.payload_len))
        .bytes("payload", message.payload)
        .bytes("padding", padding)
        .finish()
}

impl HeartbeatJson {
    /// Parses the fragment of a record as a heartbeat.
    ///
    /// `AllocError` if memory runs out.
    pub fn new(alloc: Global, fragment: &[u8]) -> Result<HeartbeatJson, AllocError> {
        if let Ok(length) = u16::try_from(fragment.len())
            && let Ok((padding, message)) = tls_hs::heartbeat(fragment, length)
        {
            let value = fields(alloc, &message, padding)?;
            return Ok(HeartbeatJson { value });
        }
        let value = blob(alloc, fragment)?;
        Ok(HeartbeatJson { value })
    }
}
