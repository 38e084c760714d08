//! ChangeCipherSpec as JSON.
ghost use Rattle.serde_json.specs.Events.{SendsValue};
ghost use Rattle.tls_json.specs.Tables.{change_fields};

use serde::{Described, Serialize, Serializer};

/// A ChangeCipherSpec (RFC 5246, section 7.1) by its field.
#[derive(Clone, Copy)]
pub struct ChangeCipherSpecJson {
    kind: u8,
}

impl Described for ChangeCipherSpecJson {
    ghost writes = { λ c. SendsValue (change_fields c.kind) };
}

impl Serialize for ChangeCipherSpecJson {
    fn serialize<S: Serializer>(&self, out: &mut S) -> Result<(), S::Error> {
        out.begin_map(Some(1))?;
        out.key("type")?;
        out.u64(u64::from(self.kind))?;
        out.end_map()
    }
}

impl ChangeCipherSpecJson {
    /// The only value that RFC 5246 defines: `change_cipher_spec(1)`.
    pub const ONLY: ChangeCipherSpecJson = ChangeCipherSpecJson { kind: 1 };
}
