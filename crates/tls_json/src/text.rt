//! Numbers and bytes as texts.
ghost use Rattle.std.specs.Prelude.{IfOk};
ghost use Rattle.hex.specs.Hex.{encode_lower};
ghost use Rattle.serde_json.specs.Data.{string, array, no_items};
ghost use Rattle.tls_json.specs.Outline.{Shows, number_text, bytes};
ghost use Rattle.tls_json.specs.Whole.{Is};

use crate::json::Value;
use crate::table::Values;
use layouts::{Counted2, Items};
use std::alloc::{AllocError, Global};

/// Writes bytes in hexadecimal.
pub fn blob(alloc: Global, bytes: &[u8]) -> Result<Value, AllocError>
    ensures shows { IfOk result (Shows (string (encode_lower bytes.now))) }
    ensures is { IfOk result (Is (string (encode_lower bytes.now))) }
{
    Ok(Value::Text(hex::encode(alloc, bytes)?))
}

/// Writes a number of 2 bytes in hexadecimal, as `0xc02f`.
pub fn code_text(alloc: Global, code: u16) -> Result<Value, AllocError>
    ensures { IfOk result (Shows (string (number_text code))) }
{
    let mut text = String::from_str(alloc, "0x")?;
    text.push_str(hex::encode(alloc, &code.to_be_bytes())?.as_str())?;
    Ok(Value::Text(text))
}

/// Lists byte strings in order, each in hexadecimal.
pub fn blobs(alloc: Global, list: Items<'_, Counted2>) -> Result<Value, AllocError>
    ensures { IfOk result (Shows (array no_items)) }
{
    let mut all = Values::new(alloc);
    for one in list {
        all = all.add(blob(alloc, one));
    }
    all.finish()
}

/// Lists the numbers of 2 bytes in `bytes` in order, each as `0xc02f`.
pub fn numbers(alloc: Global, bytes: &[u8]) -> Result<Value, AllocError>
    ensures { IfOk result (Shows (array no_items)) }
{
    let list: Items<u16> = Items::new(bytes);
    let mut all = Values::new(alloc);
    for one in list {
        all = all.add(code_text(alloc, one));
    }
    all.finish()
}

/// Lists codes of one byte in order, in decimal.
pub fn codes(alloc: Global, bytes: &[u8]) -> Result<Value, AllocError>
    ensures { IfOk result (Shows (array no_items)) }
{
    let mut all = Values::new(alloc);
    for code in bytes {
        all = all.add(Ok(Value::Number(u64::from(*code))));
    }
    all.finish()
}

/// Writes a name that a peer sent, in which bytes that aren't printable ASCII are escaped.
pub fn escaped(alloc: Global, bytes: &[u8]) -> Result<Value, AllocError> {
    Ok(Value::Text(format!(in alloc; "{}", bytes.escape_ascii())?))
}
