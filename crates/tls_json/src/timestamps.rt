//! Signed certificate timestamps (RFC 6962, section 3).
ghost use Rattle.std.specs.Prelude.{IfOk, ◌≡◌, ◌++◌, map};
ghost use Rattle.std.specs.Option.{option_map};
ghost use Rattle.layouts.specs.Items.{items_in, left_in};
ghost use Rattle.layouts.specs.Layout.{counted};
ghost use Rattle.serde_json.specs.Data.{array};
ghost use Rattle.tls_key_exchange.specs.Signature.{view_algorithm};
ghost use Rattle.tls_key_exchange.specs.Timestamp.{serialized_timestamp, view_timestamp};
ghost use Rattle.tls_json.specs.Views.{items_of};
ghost use Rattle.tls_json.specs.Outline.{Entries};
ghost use Rattle.tls_json.specs.Whole.{Is, HasMembers, IsRead, blobs_of};
ghost use Rattle.tls_json.specs.Timestamps.{algorithm_data, algorithm_entries, timestamp_data, parsed_entries, list_data, list_bytes};

use crate::json::{ParsedValue, Value};
use crate::object::ObjectBuilder;
use crate::text::blob;
use layouts::{Counted2, Items, counted2};
use std::alloc::{AllocError, Global};
use tls_key_exchange::{SignatureAndHashAlgorithm, SignedCertificateTimestamp};

/// Writes the algorithm of a signature by its hash and its signature (RFC 5246, section 7.4.1.4.1).
fn algorithm(alloc: Global, pair: &SignatureAndHashAlgorithm) -> Result<Value, AllocError>
    ensures { IfOk result (Is (algorithm_data (view_algorithm pair.now))) }
{
    ObjectBuilder::new(alloc)
        .decimal("hash", u64::from(pair.hash.0))
        .decimal("signature", u64::from(pair.sign.0))
        .finish()
}

/// Adds the algorithm, if there is one. A timestamp always has one.
fn with_algorithm(
    alloc: Global,
    object: ObjectBuilder,
    pair: &Option<SignatureAndHashAlgorithm>,
) -> ObjectBuilder
    ensures { (es : Entries) → HasMembers es object
        → HasMembers (es ++ algorithm_entries (option_map view_algorithm pair.now)) result }
{
    match pair {
        Some(pair) => object.add("algorithm", algorithm(alloc, pair)),
        None => object,
    }
}

/// Writes a SignedCertificateTimestamp (section 3.2).
fn timestamp(alloc: Global, signed: &SignedCertificateTimestamp<'_>) -> Result<Value, AllocError>
    ensures { IfOk result (Is (timestamp_data (view_timestamp signed.now))) }
{
    let key_id = signed.id.key_id;
    let front = ObjectBuilder::new(alloc)
        .decimal("sct_version", u64::from(signed.version.0))
        .bytes("id", key_id)
        .decimal("timestamp", signed.timestamp)
        .some_bytes("extensions", signed.extensions.0);
    with_algorithm(alloc, front, &signed.signature.alg)
        .bytes("signature", signed.signature.bytes)
        .finish()
}

/// Lists timestamps in order, up to the first that can't be read.
fn timestamps<'a>(alloc: Global, bytes: &'a [u8]) -> Result<Value, AllocError>
    ensures { IfOk result (Is (array (items_of (map timestamp_data
        (items_in serialized_timestamp bytes.now))))) }
{
    let list: Items<SignedCertificateTimestamp> = Items::new(bytes);
    let mut all = Vec::new(alloc);
    for signed in list {
        all.push(timestamp(alloc, &signed)?)?;
    }
    Ok(Value::List(all))
}

/// Returns the bytes from the first timestamp that can't be read.
fn rest<'a>(bytes: &'a [u8]) -> &'a [u8]
    ensures { result.now ≡ left_in serialized_timestamp bytes.now }
{
    let list: Items<SignedCertificateTimestamp> = Items::new(bytes);
    list.rest()
}

/// Lists byte strings in order, each in hexadecimal.
fn all_blobs<'a>(alloc: Global, bytes: &'a [u8]) -> Result<Value, AllocError>
    ensures { IfOk result (Is (array (items_of (blobs_of (items_in (counted 2) bytes.now))))) }
{
    let list: Items<Counted2> = Items::new(bytes);
    let mut all = Vec::new(alloc);
    for one in list {
        all.push(blob(alloc, one)?)?;
    }
    Ok(Value::List(all))
}

/// Adds the fields of a list's timestamps, if all can be read.
fn with_timestamps(alloc: Global, object: ObjectBuilder, bytes: &[u8]) -> ObjectBuilder
    ensures { (es : Entries) → HasMembers es object → HasMembers (es ++ parsed_entries
        (left_in serialized_timestamp bytes.now) (items_in serialized_timestamp bytes.now)) result }
{
    match rest(bytes) {
        [] => object.add("scts", timestamps(alloc, bytes)),
        _ => object,
    }
}

/// Writes a SignedCertificateTimestampList (section 3.3), from the bytes of its list.
fn list(alloc: Global, bytes: &[u8]) -> Result<Value, AllocError>
    ensures { IfOk result (Is (list_data bytes.now)) }
{
    let raw = ObjectBuilder::new(alloc).add("sct_list", all_blobs(alloc, bytes));
    with_timestamps(alloc, raw, bytes).finish()
}

/// Returns the bytes of the list in an extension's content; `None` if whole byte strings don't end
/// with it.
fn list_in<'a>(content: &'a [u8]) -> Option<&'a [u8]>
    ensures { option_map (λ b. b.now) result ≡ list_bytes content.now }
{
    let Ok(([], bytes)) = counted2(content) else {
        return None;
    };
    let raw: Items<Counted2> = Items::new(bytes);
    match raw.rest() {
        [] => Some(bytes),
        _ => None,
    }
}

/// Parses signed_certificate_timestamp (section 3.3).
pub fn timestamp_list(alloc: Global, content: &[u8]) -> ParsedValue
    ensures { IsRead (option_map list_data (list_bytes content.now)) result }
{
    let bytes = list_in(content)?;
    Some(list(alloc, bytes))
}
