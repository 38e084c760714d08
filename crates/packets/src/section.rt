//! A section of a pcapng file (draft-ietf-opsawg-pcapng).
ghost use Rattle.std.specs.Prelude.{◌≡◌, slice_get, Option, Some, None};
ghost use Rattle.std.specs.Option.{option_map};
ghost use Rattle.layouts.specs.Reading.{reading};
ghost use Rattle.capture.specs.Pcapng.{
  enhanced_packet,
  interface as interface_layout,
  obsolete_packet,
  view_block,
  view_interface,
  view_packet as view_block_packet,
};
ghost use Rattle.packets.specs.Front.{Answers, AnswersPacket};
ghost use Rattle.packets.specs.Section.{
  beginning,
  begun,
  described,
  block_result,
  result_by_kind,
  simple,
  timed,
  timed_of,
  view_packet,
  view_section,
};

use crate::reader::{CaptureError, Packet};
use capture::{
    Block, BlockPacket, ENHANCED_PACKET, INTERFACE_DESCRIPTION, Interface, OBSOLETE_PACKET, Order,
    SECTION_HEADER, SIMPLE_PACKET, parse_enhanced_packet, parse_interface, parse_obsolete_packet,
    parse_simple_packet,
};
use std::alloc::Global;

/// What the blocks of a section have described so far.
#[derive(Drop)]
pub(crate) struct Section {
    pub(crate) order: Order,
    interfaces: Vec<Interface>,
    // The time of the last packet that had one.
    time: u64,
}

/// Returns a packet of an interface, captured at `time`.
fn packet_of<'a>(interface: Interface, packet: BlockPacket<'a>, time: u64) -> Packet<'a>
    ensures { result ≡ record {
      time = time;
      link_type = interface.link_type;
      original_length =
          packet.entry.original_length;
      bytes = packet.entry.bytes;
    } }
{
    Packet {
        time,
        link_type: interface.link_type,
        original_length: packet.original_length,
        bytes: packet.bytes,
    }
}

impl Section {
    /// Returns the state before the first section. It allocates nothing.
    pub(crate) fn new(alloc: Global) -> Section
        ensures { view_section result ≡ beginning }
    {
        Section {
            order: Order::Big,
            interfaces: Vec::new(alloc),
            time: 0,
        }
    }

    /// Adds the interface that a block describes.
    fn describe(&mut self, block: Block<'_>) -> Result<(), CaptureError>
        ensures { let s = view_section self.old in
            Answers (λ _. None)
            (described s (reading (interface_layout block.entry.order) block.entry.body.now)) s
            result (view_section self.new) }
    {
        let Ok((_, interface)) = parse_interface(block.body, block.order) else {
            return Err(CaptureError::Broken);
        };
        match self.interfaces.push(interface) {
            Ok(()) => Ok(()),
            Err(_) => Err(CaptureError::OutOfMemory),
        }
    }

    /// Returns a packet with its time converted from the units of its interface.
    fn timed<'a>(&mut self, packet: BlockPacket<'a>) -> Result<Packet<'a>, CaptureError>
        ensures { let s = view_section self.old in
            let expected = timed_of s (view_block_packet packet.entry)
            (slice_get s.interfaces packet.entry.interface) in
            AnswersPacket expected s result (view_section self.new) }
    {
        let Some(interface) = self.interfaces.get(packet.interface as usize).copied() else {
            return Err(CaptureError::Broken);
        };
        let Some(time) = interface.nanoseconds(packet.units) else {
            return Err(CaptureError::Broken);
        };
        self.time = time;
        Ok(packet_of(interface, packet, time))
    }

    /// Returns the packet of an Enhanced Packet Block.
    fn enhanced<'a>(&mut self, block: Block<'a>) -> Result<Packet<'a>, CaptureError>
        ensures { let s = view_section self.old in
            AnswersPacket
            (timed s (reading (enhanced_packet block.entry.order) block.entry.body.now)) s
            result (view_section self.new) }
    {
        match parse_enhanced_packet(block.body, block.order) {
            Ok((_, packet)) => self.timed(packet),
            Err(_) => Err(CaptureError::Broken),
        }
    }

    /// Returns the packet of a Packet Block.
    fn obsolete<'a>(&mut self, block: Block<'a>) -> Result<Packet<'a>, CaptureError>
        ensures { let s = view_section self.old in
            AnswersPacket
            (timed s (reading (obsolete_packet block.entry.order) block.entry.body.now)) s
            result (view_section self.new) }
    {
        match parse_obsolete_packet(block.body, block.order) {
            Ok((_, packet)) => self.timed(packet),
            Err(_) => Err(CaptureError::Broken),
        }
    }

    /// Returns the packet of a Simple Packet Block. It has the time of the packet before it.
    fn simple<'a>(&self, block: Block<'a>) -> Result<Packet<'a>, CaptureError>
        ensures { let s = view_section self.now in
            AnswersPacket
            (simple s block.entry.order block.entry.body.now (slice_get s.interfaces 0))
            s result s }
    {
        let Some(interface) = self.interfaces.first().copied() else {
            return Err(CaptureError::Broken);
        };
        match parse_simple_packet(block.body, block.order, interface.snap_length) {
            Ok((_, packet)) => Ok(packet_of(interface, packet, self.time)),
            Err(_) => Err(CaptureError::Broken),
        }
    }

    /// Processes a block by its type: returns its packet, or notes what it describes.
    fn process_by_kind<'a>(&mut self, block: Block<'a>) -> Result<Option<Packet<'a>>, CaptureError>
        ensures { Answers (option_map view_packet)
            (result_by_kind (view_section self.old) (view_block block.entry))
            (view_section self.old) result (view_section self.new) }
    {
        match block.kind {
            SECTION_HEADER => {
                self.interfaces.clear();
                Ok(None)
            }
            INTERFACE_DESCRIPTION => {
                self.describe(block)?;
                Ok(None)
            }
            OBSOLETE_PACKET => Ok(Some(self.obsolete(block)?)),
            SIMPLE_PACKET => Ok(Some(self.simple(block)?)),
            ENHANCED_PACKET => Ok(Some(self.enhanced(block)?)),
            _ => Ok(None),
        }
    }

    /// Processes a block. An error leaves the section as it was.
    pub(crate) fn process<'a>(
        &mut self,
        block: Block<'a>,
    ) -> Result<Option<Packet<'a>>, CaptureError>
        ensures { Answers (option_map view_packet)
            (block_result (view_section self.old) (view_block block.entry))
            (view_section self.old) result (view_section self.new) }
    {
        let packet = self.process_by_kind(block)?;
        self.order = block.order;
        Ok(packet)
    }
}
