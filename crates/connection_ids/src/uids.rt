//! Identifiers of a connection in a log.
ghost use Rattle.std.specs.Prelude.{◌≡◌, ◌<◌, ◌%◌, ◌∷◌, ◌++◌, [], List, ℕ, IfOk, OnOk, drop, take};
ghost use Rattle.std.specs.Int.{w64, w128, from_be_bytes};
ghost use Rattle.std.specs.String.{string_bytes};
ghost use Rattle.sha2.specs.Hashers.{Holds256};
ghost use Rattle.sha2.specs.Sha256.{sha256};
ghost use Rattle.connection_ids.specs.FiveTuple.{address_bytes};
ghost use Rattle.connection_ids.specs.Uid.{base62, digit as digit_of, ends_bytes, flow_id_of, uid_bytes, uid_key, uid_of};

use crate::five_tuple::protocol_number;
use connections::{End, Protocol};
use sha2::{Digest, Sha256};
use std::alloc::{AllocError, Global};
use std::net::IpAddr;

/// How many of an identifier's digits come from the lower of two 64-bit numbers, and how many from
/// the upper. A 128-bit division for each digit would take several times as long.
const LOWER_DIGITS: u32 = 10;

const UPPER_DIGITS: u32 = 7;

/// 62 to the power of [`LOWER_DIGITS`].
const LOWER: u128 = 839_299_365_868_340_224;

const UPPER: u128 = 3_521_614_606_208;

/// The length of an identifier, in bytes.
const UID_LEN: usize = 18;

/// Adds an address to the hash.
fn add_address(hasher: &mut Sha256, address: IpAddr)
    ensures { (m : List ℕ) → Holds256 hasher.old m
        → Holds256 hasher.new (m ++ address_bytes address) }
{
    match address {
        IpAddr::V4(four) => hasher.update(four.octets()),
        IpAddr::V6(sixteen) => hasher.update(sixteen.octets()),
    }
}

/// Adds the protocol and both ends to the hash.
fn add_ends(hasher: &mut Sha256, protocol: Protocol, originator: End, responder: End)
    ensures { (m : List ℕ) → Holds256 hasher.old m
        → Holds256 hasher.new (m ++ ends_bytes protocol originator responder) }
{
    add_address(hasher, originator.address);
    add_address(hasher, responder.address);
    hasher.update([protocol_number(protocol)]);
    hasher.update(originator.port.to_be_bytes());
    hasher.update(responder.port.to_be_bytes());
}

/// Returns a hash that begins with the key.
#[tactic(auto, unfolding(crate::specs::Uid::uid_key))]
fn keyed() -> Sha256
    ensures { Holds256 result uid_key }
{
    let mut hasher = Sha256::new();
    hasher.update(b"wispuddera uid 1");
    hasher
}

/// Returns the SHA-256 of both ends and the time of the first packet.
fn digest(protocol: Protocol, originator: End, responder: End, microseconds: u64) -> [u8; 32]
    ensures { result ≡ sha256 (uid_bytes protocol originator responder microseconds) }
{
    let mut hasher = keyed();
    add_ends(&mut hasher, protocol, originator, responder);
    hasher.update(microseconds.to_be_bytes());
    hasher.finalize()
}

/// Returns the number in the first 16 bytes, big-endian.
fn front_number(digest: &[u8; 32]) -> u128
    ensures { result ≡ from_be_bytes w128 (take 16 digest.now) }
{
    match digest.split_first_chunk::<16>() {
        Some((front, _)) => u128::from_be_bytes(*front),
        None => unreachable!(),
    }
}

/// Returns a digit of base 62, in Zeek's order.
fn digit(n: u8) -> char
    requires { n < 62 }
    ensures is { result ≡ digit_of n }
    ensures ascii { result < 128 }
{
    if n < 10 {
        char::from(b'0' + n)
    } else if n < 36 {
        char::from(b'a' + (n - 10))
    } else {
        char::from(b'A' + (n - 36))
    }
}

/// Appends the lowest digit of a number in base 62.
fn add_digit(text: &mut String, n: u64) -> Result<(), AllocError>
    ensures { OnOk result
        (string_bytes text.new ≡ string_bytes text.old ++ digit_of (n % 62) ∷ []) }
{
    text.push(digit((n % 62) as u8))
}

/// Appends the `count` lowest digits of a number in base 62, lowest first.
fn add_digits(text: &mut String, count: u32, n: u64) -> Result<(), AllocError>
    ensures { OnOk result (string_bytes text.new ≡ string_bytes text.old ++ base62 count n) }
{
    if count == 0 {
        return Ok(());
    }
    add_digit(text, n)?;
    add_digits(text, count - 1, n / 62)
}

/// Appends the 17 lowest digits of a number in base 62, lowest first.
fn add_number(text: &mut String, n: u128) -> Result<(), AllocError>
    ensures { OnOk result (string_bytes text.new ≡ string_bytes text.old ++ base62 17 n) }
{
    add_digits(text, LOWER_DIGITS, (n % LOWER) as u64)?;
    add_digits(text, UPPER_DIGITS, (n / LOWER % UPPER) as u64)
}

/// Returns the identifier of the connection between these ends whose first packet was captured
/// `microseconds` after 1970-01-01 00:00 UTC: `C` and 17 digits and letters, such as
/// `CKc5sAsfNpAhXmkqpf`.
///
/// `AllocError` if there is no memory for it.
pub fn uid(
    alloc: Global,
    protocol: Protocol,
    originator: End,
    responder: End,
    microseconds: u64,
) -> Result<String, AllocError>
    ensures { IfOk result
        (λ text. string_bytes text ≡ uid_of protocol originator responder microseconds) }
{
    let digest = digest(protocol, originator, responder, microseconds);
    let mut text = String::with_capacity(alloc, UID_LEN)?;
    text.push('C')?;
    add_number(&mut text, front_number(&digest))?;
    Ok(text)
}

/// Returns the number in the next 8 bytes, big-endian.
fn next_number(digest: &[u8; 32]) -> u64
    ensures { result ≡ from_be_bytes w64 (take 8 (drop 16 digest.now)) }
{
    let (_, behind) = digest.split_at(16);
    match behind.split_first_chunk::<8>() {
        Some((front, _)) => u64::from_be_bytes(*front),
        None => unreachable!(),
    }
}

/// Returns the `flow_id` for a connection's Suricata events. It is below 2^52, so that every JSON
/// reader has it exactly.
pub fn flow_id(protocol: Protocol, originator: End, responder: End, microseconds: u64) -> u64
    ensures { result ≡ flow_id_of protocol originator responder microseconds }
{
    next_number(&digest(protocol, originator, responder, microseconds)) / 4096
}
