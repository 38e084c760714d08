//! The words of a five-tuple that are hashed.
ghost use Rattle.std.specs.Prelude.{◌≡◌};
ghost use Rattle.connections.specs.FiveTuple.{address_number, block_number, both_numbers, ports_number};

use crate::five_tuple::Protocol;
use std::net::IpAddr;

/// Returns an address as a big-endian number.
pub(crate) fn address_bits(address: IpAddr) -> u128
    ensures { result ≡ address_number address }
{
    match address {
        IpAddr::V4(four) => u128::from(four.to_bits()),
        IpAddr::V6(sixteen) => sixteen.to_bits(),
    }
}

/// Joins two numbers of 32 bits.
pub(crate) fn both_bits(upper: u32, lower: u32) -> u64
    ensures { result ≡ both_numbers upper lower }
{
    u64::from(upper) * 0x1_0000_0000 + u64::from(lower)
}

/// Joins two ports and a protocol.
pub(crate) fn port_bits(one: u16, other: u16, protocol: Protocol) -> u64
    ensures { result ≡ ports_number one other protocol }
{
    let ports = u64::from(one) * 0x1_0000 + u64::from(other);
    match protocol {
        Protocol::Tcp => ports * 2,
        Protocol::Udp => ports * 2 + 1,
    }
}

/// Joins two numbers of 64 bits.
pub(crate) fn block(upper: u64, lower: u64) -> u128
    ensures { result ≡ block_number upper lower }
{
    u128::from(upper) * 0x1_0000_0000_0000_0000 + u128::from(lower)
}
