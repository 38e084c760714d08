//! Finds the segment or datagram of each packet.
ghost use Rattle.std.specs.Prelude.{◌≡◌, true, if◌then◌else◌, is_some, IfNone, IfOk, IfSome, None, OnErr, Some};
ghost use Rattle.capture.specs.Ip.{view_datagram};
ghost use Rattle.capture.specs.Vlan.{found_in};
ghost use Rattle.capture.specs.Transport.{view_segment, view_datagram as view_user_datagram};
ghost use Rattle.capture.specs.Transport as content;
ghost use Rattle.packets.specs.Section.{view_packet};
ghost use Rattle.tunnels.specs.Walk.{view_inside, Held};
ghost use Rattle.arrivals.specs.Arrival.{is_logged, time_of};
ghost use Rattle.arrivals.specs.Counts.{with_other_part, with_packet_counted};
ghost use Rattle.arrivals.specs.Reader.{has_network as has_network_by, vlans_in, IsNetwork, IsNew, IsNumberOf, IsNumbered, Reads, ReadsContent, ReadsInside};

use crate::arrival::{Arrival, Checksums, checksum_of, datagram_of, end, segment_of};
use crate::counts::{Counts, add_one};
use capture::{Content, TcpSegment, UdpDatagram, VlanTags};
use connection_parts::Part;
use connections::{End, Protocol};
use ip_fragments::FragmentTable;
use networks::{Network, Networks};
use packets::Packet;
use std::alloc::{AllocError, Global};
use std::hash::RandomState;
use tunnels::{Inside, Tunnels, innermost_into, plain_segment, vlan_tags};

/// Finds the segment or datagram of each packet of a capture, and reassembles fragments.
#[derive(Drop)]
pub struct ArrivalReader {
    // The datagrams in reassembly, and whether the last packet held a fragment.
    pub(crate) fragments: FragmentTable,
    pub(crate) is_cut: bool,
    pub(crate) checksums: Checksums,
    // The part whose connections are logged, if not all are.
    part: Option<Part>,
    // The numbers of networks, if these are told apart, and whether VLANs count.
    networks: Option<Networks>,
    counts_vlans: bool,
    /// The tunnels of the last packet.
    pub tunnels: Tunnels,
    /// Counts of what was read, and of what was left out.
    pub counts: Counts,
}

impl ArrivalReader {
    /// Returns a reader for a new capture. `keys` keys the hashes of its tables. Connections with
    /// the same ends in different tunnels are separate.
    pub fn new(alloc: Global, keys: RandomState) -> Result<ArrivalReader, AllocError>
        ensures { IfOk result (λ reader. IsNew reader) }
    {
        Ok(ArrivalReader {
            fragments: FragmentTable::new(alloc, keys)?,
            is_cut: false,
            checksums: Checksums::Auto,
            part: None,
            networks: Some(Networks::new(alloc, keys)?),
            counts_vlans: false,
            tunnels: Tunnels::new(),
            counts: Counts::new(),
        })
    }

    /// Sets which checksums count. The default is [`Checksums::Auto`].
    pub fn set_checksums(&mut self, checksums: Checksums)
        ensures { self.new ≡ record self.old { checksums = checksums } }
    {
        self.checksums = checksums;
    }

    /// Returns only arrivals of connections of this part. The default is all.
    pub fn set_part(&mut self, part: Part)
        ensures { self.new ≡ record self.old { part = Some part } }
    {
        self.part = Some(part);
    }

    /// Separates connections with the same ends also by VLANs, and by each identifier of their
    /// tunnels.
    pub fn separate_by_vlans(&mut self)
        ensures { self.new ≡ record self.old { counts_vlans = true } }
    {
        self.counts_vlans = true;
    }

    /// Doesn't separate connections with the same ends by networks.
    pub fn merge_networks(&mut self)
        ensures { self.new ≡ record self.old { networks = None } }
    {
        self.networks = None;
    }

    /// Returns whether the last packet has a network.
    #[inline(always)]
    fn has_network(&self) -> bool
        ensures { result ≡ has_network_by self.now.tunnels self.now.counts_vlans }
    {
        self.counts_vlans || !self.tunnels.is_empty()
    }

    /// Returns the last packet's network, by these VLANs.
    fn network_in(&self, vlans: VlanTags) -> Network
        ensures { IsNetwork (found_in vlans) self.now.tunnels self.now.counts_vlans result }
    {
        if !self.counts_vlans {
            return Network::of_tunnels(&self.tunnels);
        }
        Network {
            vlans,
            tunnels: self.tunnels,
        }
    }

    /// Returns the last packet's network.
    fn network_of(&self, packet: Packet<'_>) -> Network
        ensures { IsNetwork (vlans_in (view_packet packet.entry)) self.now.tunnels
            self.now.counts_vlans result }
    {
        if !self.counts_vlans {
            return Network::of_tunnels(&self.tunnels);
        }
        self.network_in(vlan_tags(packet.bytes, packet.link_type))
    }

    /// Returns the number of the last packet's network; 0 if it has none, as most packets, or
    /// networks aren't told apart.
    #[tactic(auto, using(crate::proofs::NetworkLemmas::without))]
    #[inline(always)]
    fn network(&mut self, packet: Packet<'_>) -> Result<u64, AllocError>
        ensures number { IfOk result (IsNumbered (vlans_in (view_packet packet.entry))
            self.old.tunnels self.old.counts_vlans self.old.networks self.new.networks) }
        ensures same { self.new ≡ record self.old { networks = self.new.networks } }
        ensures err { OnErr result (self.new ≡ self.old) }
        ensures fails { OnErr result (is_some self.old.networks ≡ true) }
    {
        if !self.has_network() || self.networks.is_none() {
            return Ok(0);
        }
        self.number_of_network(packet)
    }

    /// Returns the number of the last packet's network, which it has.
    #[tactic(auto, using(crate::proofs::NetworkLemmas::numbered))]
    fn number_of_network(&mut self, packet: Packet<'_>) -> Result<u64, AllocError>
        requires { has_network_by self.old.tunnels self.old.counts_vlans ≡ true }
        ensures number { IfOk result (IsNumbered (vlans_in (view_packet packet.entry))
            self.old.tunnels self.old.counts_vlans self.old.networks self.new.networks) }
        ensures same { self.new ≡ record self.old { networks = self.new.networks } }
        ensures err { OnErr result (self.new ≡ self.old) }
        ensures fails { OnErr result (is_some self.old.networks ≡ true) }
    {
        let network = self.network_of(packet);
        self.number_of(network)
    }

    /// Returns the number of the last packet's network, by these VLANs; 0 if it has none, or
    /// networks aren't told apart.
    #[tactic(auto, using(crate::proofs::NetworkLemmas::without, crate::proofs::NetworkLemmas::numbered))]
    pub(crate) fn network_by_vlans(&mut self, vlans: VlanTags) -> Result<u64, AllocError>
        ensures number { IfOk result (IsNumbered (found_in vlans) self.old.tunnels
            self.old.counts_vlans self.old.networks self.new.networks) }
        ensures same { self.new ≡ record self.old { networks = self.new.networks } }
        ensures err { OnErr result (self.new ≡ self.old) }
        ensures fails { OnErr result (is_some self.old.networks ≡ true) }
    {
        if !self.has_network() {
            return Ok(0);
        }
        let network = self.network_in(vlans);
        self.number_of(network)
    }

    /// Returns the number of a network; 0 if networks aren't told apart.
    fn number_of(&mut self, network: Network) -> Result<u64, AllocError>
        ensures number { IfOk result
            (IsNumberOf network self.old.networks self.new.networks) }
        ensures same { self.new ≡ record self.old { networks = self.new.networks } }
        ensures err { OnErr result (self.new ≡ self.old) }
        ensures fails { OnErr result (is_some self.old.networks ≡ true) }
    {
        match &mut self.networks {
            Some(networks) => networks.number(network),
            None => Ok(0),
        }
    }

    /// Returns whether connections between these ends are logged. Counts a packet of others.
    fn is_of_part(&mut self, protocol: Protocol, source: End, destination: End) -> bool
        ensures is { result ≡ is_logged self.old.part protocol source destination }
        ensures counts { self.new ≡ (if result then self.old
            else record self.old { counts = with_other_part self.old.counts }) }
        ensures tunnels { self.new.tunnels ≡ self.old.tunnels }
    {
        let is_logged = match &self.part {
            Some(part) => part.has(protocol, source, destination),
            None => true,
        };
        if is_logged {
            return true;
        }
        add_one(&mut self.counts.other_parts);
        false
    }

    /// Returns what arrives with a packet's innermost content. `None` if that is no datagram, which
    /// is counted.
    #[inline(always)]
    pub(crate) fn arrival_inside<'a>(
        &mut self,
        packet: Packet<'_>,
        inside: &Inside<'a>,
    ) -> Result<Option<Arrival<'a>>, AllocError>
        ensures reads { IfOk result
            (ReadsInside (view_packet packet.entry) (view_inside inside.now) self.old self.new) }
        ensures time { IfOk result
            (λ arrival. IfSome arrival (λ a. time_of a ≡ packet.entry.time)) }
        ensures err { OnErr result (self.new ≡ self.old) }
        ensures fails { OnErr result (is_some self.old.networks ≡ true) }
        ensures tunnels { self.new.tunnels ≡ self.old.tunnels }
    {
        match inside {
            Inside::Datagram(datagram) => return self.arrival_of(packet, datagram),
            Inside::Other => add_one(&mut self.counts.other_protocols),
            Inside::Unread => self.counts.add_unread(packet.link_type),
            Inside::Deeper => add_one(&mut self.counts.in_too_many_tunnels),
        }
        Ok(None)
    }

    /// Returns a packet's TCP segment, or counts it if it belongs to another part.
    #[inline(always)]
    fn segment<'a>(
        &mut self,
        packet: Packet<'_>,
        datagram: &capture::IpDatagram<'a>,
        tcp: &TcpSegment<'a>,
    ) -> Result<Option<Arrival<'a>>, AllocError>
        ensures reads { IfOk result
            (ReadsContent (view_packet packet.entry) (view_datagram datagram.now)
            (content.Tcp (view_segment tcp.now)) self.old self.new) }
        ensures time { IfOk result
            (λ arrival. IfSome arrival (λ a. time_of a ≡ packet.entry.time)) }
        ensures err { OnErr result (self.new ≡ self.old) }
        ensures fails { OnErr result (is_some self.old.networks ≡ true) }
        ensures tunnels { self.new.tunnels ≡ self.old.tunnels }
    {
        let source = end(datagram.source, tcp.source);
        let destination = end(datagram.destination, tcp.destination);
        if !self.is_of_part(Protocol::Tcp, source, destination) {
            return Ok(None);
        }
        let network = self.network(packet)?;
        let checksum = checksum_of(datagram, self.checksums);
        let segment = segment_of(packet.time, network, source, destination, tcp, checksum);
        Ok(Some(Arrival::Segment(segment)))
    }

    /// Returns a packet's UDP datagram, or counts it if it belongs to another part.
    fn user_datagram<'a>(
        &mut self,
        packet: Packet<'_>,
        datagram: &capture::IpDatagram<'a>,
        udp: &UdpDatagram<'a>,
    ) -> Result<Option<Arrival<'a>>, AllocError>
        ensures reads { IfOk result
            (ReadsContent (view_packet packet.entry) (view_datagram datagram.now)
            (content.Udp (view_user_datagram udp.now)) self.old self.new) }
        ensures time { IfOk result
            (λ arrival. IfSome arrival (λ a. time_of a ≡ packet.entry.time)) }
        ensures err { OnErr result (self.new ≡ self.old) }
        ensures fails { OnErr result (is_some self.old.networks ≡ true) }
        ensures tunnels { self.new.tunnels ≡ self.old.tunnels }
    {
        let source = end(datagram.source, udp.source);
        let destination = end(datagram.destination, udp.destination);
        if !self.is_of_part(Protocol::Udp, source, destination) {
            return Ok(None);
        }
        let network = self.network(packet)?;
        let checksum = checksum_of(datagram, self.checksums);
        let arrived = datagram_of(packet.time, network, source, destination, udp, checksum);
        Ok(Some(Arrival::Datagram(arrived)))
    }

    /// Returns the TCP segment or UDP datagram of a packet. `None` if it has none that can be
    /// parsed or it belongs to another part, which is counted, or if it holds a fragment:
    /// [`ArrivalReader::join`] takes those.
    ///
    /// `AllocError` if networks are told apart and there is no memory for another one.
    pub fn arrival<'a>(&mut self, packet: Packet<'a>) -> Result<Option<Arrival<'a>>, AllocError>
        ensures reads { IfOk result (Reads (view_packet packet.entry) self.old self.new) }
        ensures time { IfOk result
            (λ arrival. IfSome arrival (λ a. time_of a ≡ packet.entry.time)) }
        ensures err { OnErr result (self.new ≡ record self.old {
          counts = with_packet_counted self.old.counts;
          tunnels = self.new.tunnels;
        }) }
        ensures fails { OnErr result (is_some self.old.networks ≡ true) }
    {
        add_one(&mut self.counts.packets);
        let inside = innermost_into(packet.bytes, packet.link_type, &mut self.tunnels);
        self.arrival_inside(packet, &inside)
    }

    /// Returns the TCP segment of a packet by a fast path for most packets: in no tunnel, with all
    /// connections logged and VLANs not counted. For any other packet it returns `None` and
    /// counts nothing, and [`ArrivalReader::arrival`] has the answer.
    #[inline(always)]
    pub fn plain_arrival<'a>(&mut self, packet: Packet<'a>) -> Option<Arrival<'a>>
        ensures reads { IfSome result
            (λ arrival. Reads (view_packet packet.entry) self.old self.new (Some arrival)) }
        ensures time { IfSome result (λ arrival. time_of arrival ≡ packet.entry.time) }
        ensures none { IfNone result
            (self.new ≡ record self.old { tunnels = self.new.tunnels }) }
    {
        if self.part.is_some() || self.counts_vlans {
            return None;
        }
        let Some(datagram) = plain_segment(packet.bytes, packet.link_type, &mut self.tunnels) else {
            return None;
        };
        let Content::Tcp(tcp) = datagram.content else {
            return None;
        };
        add_one(&mut self.counts.packets);
        // (field by field: the checksum reads the datagram from memory, and the segment is built
        // from one in registers)
        let looked_at = capture::IpDatagram { ..datagram };
        let source = end(datagram.source, tcp.source);
        let destination = end(datagram.destination, tcp.destination);
        let checksum = checksum_of(&looked_at, self.checksums);
        let segment = segment_of(packet.time, 0, source, destination, &tcp, checksum);
        Some(Arrival::Segment(segment))
    }

    /// Returns what arrives with a packet that holds this datagram.
    #[inline(always)]
    fn arrival_of<'a>(
        &mut self,
        packet: Packet<'_>,
        datagram: &capture::IpDatagram<'a>,
    ) -> Result<Option<Arrival<'a>>, AllocError>
        ensures reads { IfOk result
            (ReadsInside (view_packet packet.entry) (Held (view_datagram datagram.now)) self.old
            self.new) }
        ensures time { IfOk result
            (λ arrival. IfSome arrival (λ a. time_of a ≡ packet.entry.time)) }
        ensures err { OnErr result (self.new ≡ self.old) }
        ensures fails { OnErr result (is_some self.old.networks ≡ true) }
        ensures tunnels { self.new.tunnels ≡ self.old.tunnels }
    {
        match &datagram.content {
            Content::Tcp(tcp) => return self.segment(packet, datagram, tcp),
            Content::Udp(udp) => return self.user_datagram(packet, datagram, udp),
            Content::Other(_, _) => add_one(&mut self.counts.other_protocols),
            Content::Fragment => self.is_cut = true,
        }
        Ok(None)
    }
}
