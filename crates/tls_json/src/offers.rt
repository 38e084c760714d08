//! Contents of extensions that `tls_ext` leaves undivided, or has no name for.
ghost use Rattle.std.specs.Prelude.{IfOk, IfSome};
ghost use Rattle.tls_json.specs.Outline.{Shows, ReadsAs};
ghost use Rattle.tls_json.specs.Extensions.{identity_fields, suite_fields, encrypted_hello_fields};
ghost use Rattle.tls_json.specs.Extensions as names_of;

use crate::json::{ParsedValue, Value};
use crate::table::{Table, Values, single};
use crate::text::{blob, numbers};
use layouts::{Counted1, Items, counted1, counted2, number4};
use std::alloc::{AllocError, Global};

/// The type of an outer encrypted_client_hello (RFC 9849, section 5).
const OUTER: u8 = 0;

/// Writes a PskIdentity (RFC 8446, section 4.2.11).
fn identity_of(alloc: Global, identity: &[u8], age: u32) -> Result<Value, AllocError>
    ensures { IfOk result (Shows (identity_fields identity.now age)) }
{
    Table::new(alloc)
        .bytes("identity", identity)
        .decimal("obfuscated_ticket_age", u64::from(age))
        .finish()
}

/// Parses a list of PskIdentity (RFC 8446, section 4.2.11); `None` if it can't be parsed to its
/// end.
fn identities(alloc: Global, list: &[u8]) -> ParsedValue {
    let mut all = Values::new(alloc);
    let mut rest = list;
    for _ in 0..list.len() {
        if rest.is_empty() {
            break;
        }
        let Ok((i, identity)) = counted2(rest) else {
            return None;
        };
        let Ok((i, age)) = number4(i) else {
            return None;
        };
        all = all.add(identity_of(alloc, identity, age));
        rest = i;
    }
    Some(all.finish())
}

/// Lists the binders of a client's pre_shared_key (RFC 8446, section 4.2.11).
fn binders(alloc: Global, list: Items<'_, Counted1>) -> Result<Value, AllocError> {
    let mut all = Values::new(alloc);
    for binder in list {
        all = all.add(blob(alloc, binder));
    }
    all.finish()
}

/// Parses a client's pre_shared_key: identities and binders (RFC 8446, section 4.2.11).
pub fn offered_psks(alloc: Global, content: &[u8]) -> ParsedValue
    ensures { IfSome result (ReadsAs names_of.offered_psks) }
{
    let Ok((i, list)) = counted2(content) else {
        return None;
    };
    let Ok(([], binder_list)) = counted2(i) else {
        return None;
    };
    let all_binders: Items<Counted1> = Items::new(binder_list);
    if !all_binders.rest().is_empty() {
        return None;
    }
    let identities = identities(alloc, list)?;
    Some(
        Table::new(alloc)
            .add("identities", identities)
            .add("binders", binders(alloc, all_binders))
            .finish(),
    )
}

/// Parses a server's pre_shared_key: the identity that it selected (RFC 8446, section 4.2.11).
pub fn selected_psk(alloc: Global, content: &[u8]) -> ParsedValue
    ensures { IfSome result (ReadsAs names_of.selected_identity) }
{
    let [upper, lower] = content else {
        return None;
    };
    let identity = u16::from_be_bytes([*upper, *lower]);
    Some(single(
        alloc,
        "selected_identity",
        Ok(Value::Number(u64::from(identity))),
    ))
}

/// Parses compress_certificate (RFC 8879, section 3).
pub fn compressions(alloc: Global, content: &[u8]) -> ParsedValue
    ensures { IfSome result (ReadsAs names_of.compress_certificate) }
{
    let Ok(([], list)) = counted1(content) else {
        return None;
    };
    if list.len() % 2 != 0 {
        return None;
    }
    let list: Items<u16> = Items::new(list);
    let mut algorithms = Values::new(alloc);
    for algorithm in list {
        algorithms = algorithms.add(Ok(Value::Number(u64::from(algorithm))));
    }
    Some(single(alloc, "algorithms", algorithms.finish()))
}

/// Parses use_srtp (RFC 5764, section 4.1.1).
pub fn srtp_profiles(alloc: Global, content: &[u8]) -> ParsedValue
    ensures { IfSome result (ReadsAs names_of.use_srtp) }
{
    let Ok((i, list)) = counted2(content) else {
        return None;
    };
    let Ok(([], srtp_mki)) = counted1(i) else {
        return None;
    };
    if list.len() % 2 != 0 {
        return None;
    }
    Some(
        Table::new(alloc)
            .add("SRTPProtectionProfiles", numbers(alloc, list))
            .bytes("srtp_mki", srtp_mki)
            .finish(),
    )
}

/// Parses connection_id (RFC 9146, section 3).
pub fn connection_id(alloc: Global, content: &[u8]) -> ParsedValue
    ensures { IfSome result (ReadsAs names_of.connection_id) }
{
    let Ok(([], cid)) = counted1(content) else {
        return None;
    };
    Some(single(alloc, "cid", blob(alloc, cid)))
}

/// Writes an HpkeSymmetricCipherSuite (RFC 9849, section 4).
fn suite_of(alloc: Global, kdf_id: u16, aead_id: u16) -> Result<Value, AllocError>
    ensures { IfOk result (Shows (suite_fields kdf_id aead_id)) }
{
    Table::new(alloc)
        .hexadecimal("kdf_id", kdf_id)
        .hexadecimal("aead_id", aead_id)
        .finish()
}

/// The fields of an outer encrypted_client_hello after its type.
#[derive(Drop)]
struct Outer<'a> {
    kdf_id: u16,
    aead_id: u16,
    config_id: u8,
    enc: &'a [u8],
    payload: &'a [u8],
}

/// Writes an outer encrypted_client_hello (RFC 9849, section 5).
fn outer_fields(alloc: Global, parts: &Outer<'_>) -> Result<Value, AllocError>
    ensures { IfOk result (Shows (encrypted_hello_fields parts.now)) }
{
    Table::new(alloc)
        .decimal("type", u64::from(OUTER))
        .add("cipher_suite", suite_of(alloc, parts.kdf_id, parts.aead_id))
        .decimal("config_id", u64::from(parts.config_id))
        .bytes("enc", parts.enc)
        .bytes("payload", parts.payload)
        .finish()
}

/// Parses an outer encrypted_client_hello (RFC 9849, section 5).
pub fn encrypted_hello(alloc: Global, content: &[u8]) -> ParsedValue
    ensures { IfSome result (ReadsAs names_of.encrypted_client_hello) }
{
    let [
        OUTER,
        kdf_upper,
        kdf_lower,
        aead_upper,
        aead_lower,
        config_id,
        i @ ..,
    ] = content
    else {
        return None;
    };
    let Ok((i, enc)) = counted2(i) else {
        return None;
    };
    let Ok(([], payload)) = counted2(i) else {
        return None;
    };
    let parts = Outer {
        kdf_id: u16::from_be_bytes([*kdf_upper, *kdf_lower]),
        aead_id: u16::from_be_bytes([*aead_upper, *aead_lower]),
        config_id: *config_id,
        enc,
        payload,
    };
    Some(outer_fields(alloc, &parts))
}
