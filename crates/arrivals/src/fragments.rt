//! Reassembly of fragmented datagrams.
ghost use Rattle.std.specs.Prelude.{◌≡◌, true, is_some, IfOk, IfSome, OnErr};
ghost use Rattle.std.specs.Option.{option_map};
ghost use Rattle.capture.specs.Fragment.{view_fragment};
ghost use Rattle.capture.specs.Ip.{view_datagram};
ghost use Rattle.packets.specs.Section.{view_packet};
ghost use Rattle.arrivals.specs.Arrival.{time_of};
ghost use Rattle.arrivals.specs.Fragments.{counting_cut, datagram_of as datagram_of_whole, fragment_in as fragment_in_packet, fragment_inside, header_counted as header_counted_by, inner_fragment, Joins, JoinsOne, LeavesOutFound, LeavesOutOne, ReadsWhole};

use crate::arrival::{Arrival, Checksums};
use crate::counts::add_one;
use crate::reader::ArrivalReader;
use capture::{IpDatagram, IpFragment, VlanTags, parse_joined};
use ip_fragments::{FragmentOutcome, ReassembledDatagram};
use packets::Packet;
use std::alloc::AllocError;
use std::mem;
use tunnels::{Inside, Tunnels, fragment_in, innermost_fragment, inside_of, vlan_tags};

/// A reassembled datagram.
#[derive(Drop)]
pub struct CompletedDatagram {
    whole: ReassembledDatagram,
    // The capture time of its last fragment, the VLANs of that one's packet, and the tunnels around
    // it.
    time: u64,
    vlans: VlanTags,
    tunnels: Tunnels,
}

impl CompletedDatagram {
    /// Parses the datagram; `None` if its content is malformed.
    fn datagram(&self) -> Option<IpDatagram<'_>>
        ensures { option_map view_datagram result ≡ datagram_of_whole self.now }
    {
        let whole = &self.whole;
        let read = parse_joined(
            &whole.payload,
            whole.source,
            whole.destination,
            whole.protocol,
            whole.is_header_right,
        );
        match read {
            Ok((_, datagram)) => Some(datagram),
            Err(_) => None,
        }
    }

    /// Returns the fragment in the datagram, behind a tunnel; `None` if there is none.
    fn fragment(&self) -> Option<IpFragment<'_>>
        ensures { option_map view_fragment result ≡ inner_fragment self.now }
    {
        match self.datagram() {
            Some(datagram) => fragment_in(datagram, &self.tunnels),
            None => None,
        }
    }

    /// Returns how many bytes arrived again with another value; the first ones stay.
    pub fn disagreeing(&self) -> u64
        ensures { result ≡ self.now.whole.disagreeing }
    {
        self.whole.disagreeing as u64
    }
}

/// Returns a fragment whose header's checksum is correct if checksums don't count.
fn header_counted<'a>(checksums: Checksums, fragment: &IpFragment<'a>) -> IpFragment<'a>
    ensures { result ≡ header_counted_by checksums fragment.now }
{
    let is_header_right = fragment.is_header_right || checksums == Checksums::Ignore;
    IpFragment {
        is_header_right,
        ..*fragment
    }
}

impl ArrivalReader {
    /// Adds a fragment, captured at `time` in the last packet's tunnels and these VLANs, to its
    /// datagram. Returns the datagram once it is complete.
    fn join_fragment(
        &mut self,
        time: u64,
        vlans: VlanTags,
        fragment: &IpFragment<'_>,
    ) -> Result<Option<CompletedDatagram>, AllocError>
        ensures joins { IfOk result (JoinsOne time vlans fragment.now self.old self.new) }
        ensures err { OnErr result (LeavesOutOne time vlans fragment.now self.old self.new) }
    {
        let network = self.network_by_vlans(vlans)?;
        let counted = header_counted(self.checksums, fragment);
        match self.fragments.add(time, network, &counted)? {
            FragmentOutcome::Whole(whole) => Ok(Some(CompletedDatagram {
                whole,
                time,
                vlans,
                tunnels: self.tunnels,
            })),
            FragmentOutcome::Waits => Ok(None),
            FragmentOutcome::Refused(refusal) => {
                self.counts.add_refused(refusal);
                Ok(None)
            }
        }
    }

    /// Returns whether the last packet without an arrival holds a fragment.
    #[inline(always)]
    pub fn has_fragment(&self) -> bool
        ensures { result ≡ self.now.is_cut }
    {
        self.is_cut
    }

    /// Adds the fragment in a packet without an arrival to its datagram. Returns the datagram once
    /// it is complete, or `None` if the packet has no fragment.
    ///
    /// `AllocError` if there is no memory for the fragment, or for the number of its network. It is
    /// left out then.
    pub fn join(&mut self, packet: Packet<'_>) -> Result<Option<CompletedDatagram>, AllocError>
        ensures joins { IfOk result (Joins self.old.is_cut packet.entry.time
            (fragment_in_packet (view_packet packet.entry)) self.old self.new) }
        ensures err { OnErr result (LeavesOutFound packet.entry.time
            (fragment_in_packet (view_packet packet.entry)) self.old self.new) }
    {
        if !mem::replace(&mut self.is_cut, false) {
            return Ok(None);
        }
        match innermost_fragment(packet.bytes, packet.link_type) {
            Some(fragment) => {
                let vlans = vlan_tags(packet.bytes, packet.link_type);
                self.join_fragment(packet.time, vlans, &fragment)
            }
            None => {
                add_one(&mut self.counts.unread);
                Ok(None)
            }
        }
    }

    /// Returns the segment or datagram in a reassembled datagram, which `packet` completed. `None`
    /// if its content can't be parsed, which is counted, or if it holds a fragment.
    ///
    /// `AllocError` if networks are told apart and there is no memory for another one.
    pub fn arrival_in<'a>(
        &mut self,
        packet: Packet<'_>,
        joined: &'a CompletedDatagram,
    ) -> Result<Option<Arrival<'a>>, AllocError>
        ensures reads { IfOk result (ReadsWhole (view_packet packet.entry) joined.now.tunnels
            (datagram_of_whole joined.now) self.old self.new) }
        ensures time { IfOk result
            (λ arrival. IfSome arrival (λ a. time_of a ≡ packet.entry.time)) }
        ensures err { OnErr result (self.new ≡ record self.old { tunnels = self.new.tunnels }) }
        ensures fails { OnErr result (is_some self.old.networks ≡ true) }
    {
        let Some(datagram) = joined.datagram() else {
            add_one(&mut self.counts.unread);
            return Ok(None);
        };
        let unwrapped = inside_of(datagram, &joined.tunnels);
        self.tunnels = unwrapped.tunnels;
        self.arrival_inside(packet, &unwrapped.inside)
    }

    /// Adds the fragment in a reassembled datagram without an arrival to its own datagram. Returns
    /// that once it is complete, or `None` if there is no fragment.
    ///
    /// `AllocError` as in [`ArrivalReader::join`].
    pub fn join_inner(
        &mut self,
        joined: &CompletedDatagram,
    ) -> Result<Option<CompletedDatagram>, AllocError>
        ensures joins { IfOk result (Joins self.old.is_cut joined.now.time
            (fragment_inside joined.now) self.old self.new) }
        ensures err { OnErr result (LeavesOutFound joined.now.time
            (fragment_inside joined.now) self.old self.new) }
    {
        if !mem::replace(&mut self.is_cut, false) {
            return Ok(None);
        }
        match joined.fragment() {
            Some(fragment) => self.join_fragment(joined.time, joined.vlans, &fragment),
            None => {
                add_one(&mut self.counts.unread);
                Ok(None)
            }
        }
    }

    /// Counts the datagrams that were dropped, and those in reassembly at the end of the capture.
    pub fn count_cut(&mut self)
        ensures { self.new ≡ counting_cut self.old }
    {
        self.counts.late = self.fragments.late();
        self.counts.evicted = self.fragments.evicted();
        self.counts.cut_short = self.fragments.len() as u64;
    }
}
