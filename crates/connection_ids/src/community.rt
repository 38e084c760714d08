//! The Community ID, version 1.
ghost use Rattle.std.specs.Prelude.{◌≡◌, ◌++◌, List, ℕ, IfOk};
ghost use Rattle.std.specs.String.{string_bytes};
ghost use Rattle.sha1.specs.Sha1.{sha1, Holds};
ghost use Rattle.connections.specs.FiveTuple.{address_number};
ghost use Rattle.connection_ids.specs.FiveTuple.{address_bytes};
ghost use Rattle.connection_ids.specs.CommunityId.{community_bytes, community_id_of, is_first as is_first_of, ordered_bytes};

use crate::five_tuple::protocol_number;
use base64::engine::general_purpose::STANDARD;
use connections::{End, Protocol};
use sha1::Sha1;
use std::alloc::{AllocError, Global};
use std::net::IpAddr;

/// The length of an identifier, in bytes.
const ID_LEN: usize = 30;

/// Returns an address as a number.
fn address_bits(address: IpAddr) -> u128
    ensures { result ≡ address_number address }
{
    match address {
        IpAddr::V4(four) => u128::from(four.to_bits()),
        IpAddr::V6(sixteen) => sixteen.to_bits(),
    }
}

/// Returns whether one end comes first: the one with the smaller address, or with the smaller port
/// if the addresses are equal.
fn is_first(one: End, other: End) -> bool
    ensures { result ≡ is_first_of one other }
{
    let (low, high) = (address_bits(one.address), address_bits(other.address));
    low < high || (low == high && one.port <= other.port)
}

/// Adds an address to the hash.
fn add_address(hasher: &mut Sha1, address: IpAddr)
    ensures { (m : List ℕ) → Holds hasher.old m → Holds hasher.new (m ++ address_bytes address) }
{
    match address {
        IpAddr::V4(four) => hasher.update(&four.octets()),
        IpAddr::V6(sixteen) => hasher.update(&sixteen.octets()),
    }
}

/// Returns the SHA-1 of both ends in this order.
fn ordered_digest(protocol: Protocol, first: End, second: End) -> [u8; 20]
    ensures { result ≡ sha1 (ordered_bytes protocol first second) }
{
    let mut hasher = Sha1::new();
    hasher.update(&[0, 0]);
    add_address(&mut hasher, first.address);
    add_address(&mut hasher, second.address);
    hasher.update(&[protocol_number(protocol), 0]);
    hasher.update(&first.port.to_be_bytes());
    hasher.update(&second.port.to_be_bytes());
    hasher.finalize()
}

/// Returns the SHA-1 of both ends, in either order.
fn digest(protocol: Protocol, one: End, other: End) -> [u8; 20]
    ensures { result ≡ sha1 (community_bytes protocol one other) }
{
    if is_first(one, other) {
        ordered_digest(protocol, one, other)
    } else {
        ordered_digest(protocol, other, one)
    }
}

/// Returns the Community ID of the packets between two ends, version 1 with a seed of 0, such as
/// `1:kVUbhKrwzAjFcntAEO6zYYEnNiI=`. It is the same for both directions.
///
/// `AllocError` if there is no memory for it.
pub fn community_id(
    alloc: Global,
    protocol: Protocol,
    one: End,
    other: End,
) -> Result<String, AllocError>
    ensures { IfOk result (λ text. string_bytes text ≡ community_id_of protocol one other) }
{
    let digits = STANDARD.encode(alloc, &digest(protocol, one, other))?;
    let mut text = String::with_capacity(alloc, ID_LEN)?;
    text.push_str("1:")?;
    text.push_str(digits.as_str())?;
    Ok(text)
}
