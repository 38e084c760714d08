//! Parsers for capture files and for the headers of their packets: pcap, pcapng, link headers, VLAN
//! tags, IPv4 and IPv6, fragments, TCP and UDP, checksums.
//!
//! Each call parses one structure at the front of `i` and allocates nothing. Promise: it returns
//! what a layout in `specs/` allows there, and nothing else. That is the value and the exact rest,
//! the kind of the broken rule, or the exact count of missing bytes. The layouts are in `Pcap`,
//! `Pcapng`, `Link`, `Vlan`, `Ip`, `Jumbo`, `IpFragment`, `Transport`, `Options` and `Checksum`.
#![tactic(auto, using(layouts::proofs::OneAnswerLemmas::read_allowed))]

mod block_packet;
mod checksum;
mod fragment;
mod interface;
mod ip;
mod jumbo;
mod link;
mod links;
mod options;
mod order;
mod pcap;
mod pcapng;
mod transport;
mod vlan;

pub use block_packet::{
    BlockPacket, parse_enhanced_packet, parse_obsolete_packet, parse_simple_packet,
};
pub use checksum::Checksum;
pub use fragment::{IpFragment, parse_fragment_v4, parse_fragment_v6, parse_joined};
pub use interface::{Interface, parse_interface};
pub use ip::{Address, IpDatagram, parse_ipv4, parse_ipv6};
pub use link::{parse_link, parse_packet};
pub use options::{maximum_segment_size, option_of, timestamp, window_scale};
pub use order::{Order, number2_by, number4_by, number8_by};
pub use pcap::{
    Captured, Format, MAX_PACKET_LEN, PcapHeader, Unit, parse_pcap_header, parse_pcap_packet,
};
pub use pcapng::{
    Block, ENHANCED_PACKET, INTERFACE_DESCRIPTION, MAX_BLOCK_LEN, OBSOLETE_PACKET, SECTION_HEADER,
    SIMPLE_PACKET, parse_block,
};
pub use transport::{Content, TcpSegment, UdpDatagram, parse_tcp, parse_udp};
pub use vlan::{MAX_VLAN_TAGS, VlanTags};
