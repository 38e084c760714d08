//! Parses the next packet at the front of a capture's bytes.
ghost use Rattle.std.specs.Prelude.{◌≡◌, ◌↔◌, ◌≢◌, true, Option, Some, None, Result, Ok, Err};
ghost use Rattle.layouts.specs.Layout.{number};
ghost use Rattle.layouts.specs.Reading.{reading};
ghost use Rattle.capture.specs.Pcap.{view_format};
ghost use Rattle.capture.specs.Pcapng.{next_block};
ghost use Rattle.packets.specs.Section.{view_section};
ghost use Rattle.packets.specs.Front.{
  Answers,
  Blocks,
  IsForm,
  Pcap,
  State,
  Unknown,
  block_front,
  form_front,
  front,
  view_form,
  view_step,
};

use crate::section::Section;
use capture::{Format, SECTION_HEADER, parse_block, parse_pcap_header, parse_pcap_packet};
use layouts::{Err, number4};
use std::alloc::Global;
use std::error::Error;
use std::fmt;
use std::marker::Model;

/// A captured packet.
#[derive(Clone, Copy, Debug, PartialEq)]
pub struct Packet<'a> {
    /// The capture time, in nanoseconds since 1970-01-01 00:00 UTC.
    pub time: u64,
    /// The packet's link type: a LINKTYPE value of tcpdump.org.
    pub link_type: u16,
    /// The packet's length on the wire, in bytes.
    pub original_length: u32,
    /// The captured bytes.
    pub bytes: &'a [u8],
}

/// The item at the front of a capture's bytes.
#[derive(Clone, Copy, Debug, PartialEq)]
pub enum CaptureStep<'a> {
    /// A packet, and the bytes behind it.
    Packet(Packet<'a>, &'a [u8]),
    /// An item without a packet, and the bytes behind it.
    Other(&'a [u8]),
    /// More bytes are needed.
    Wait,
}

/// Why no more packets can be read.
#[derive(Clone, Copy, Debug, PartialEq, Eq)]
pub enum CaptureError {
    /// The bytes are neither pcap nor pcapng.
    NoCapture,
    /// A header or a block breaks a rule.
    Broken,
    /// Memory ran out.
    OutOfMemory,
}

impl fmt::Display for CaptureError {
    fn fmt<W: fmt::Write>(&self, f: &mut fmt::Formatter<W>) -> fmt::Result {
        match self {
            CaptureError::NoCapture => write!(f, "this is no capture"),
            CaptureError::Broken => write!(f, "a header or a block breaks a rule"),
            CaptureError::OutOfMemory => write!(f, "memory ran out"),
        }
    }
}

impl Error for CaptureError {}

/// The format of a capture, as far as it was recognized.
#[derive(Drop)]
enum Form {
    Unknown,
    Pcap(Format, u16),
    Blocks(Section),
}

/// The reader of a capture's packets.
///
/// Its value in a contract is the state of its format.
#[derive(Drop)]
pub struct Capture {
    alloc: Global,
    form: Form,
}

impl Model for Capture {
    ghost Value = { State };

    ghost view = { λ c. view_form c.form };
}

/// Recognizes the format at the front of a capture; `None` if more bytes are needed.
fn form_of(alloc: Global, i: &[u8]) -> Result<Option<(Form, &[u8])>, CaptureError>
    ensures { IsForm (form_front (reading (number 4) i.now) i.now) result }
{
    match number4(i) {
        Ok((_, SECTION_HEADER)) => return Ok(Some((Form::Blocks(Section::new(alloc)), i))),
        Ok(_) => {}
        Err(_) => return Ok(None),
    }
    match parse_pcap_header(i) {
        Ok((rest, header)) => Ok(Some((Form::Pcap(header.format, header.link_type), rest))),
        Err(Err::Incomplete(_)) => Ok(None),
        Err(_) => Err(CaptureError::NoCapture),
    }
}

/// Parses a packet of a pcap file.
fn pcap_step(i: &[u8], format: Format, link_type: u16) -> Result<CaptureStep<'_>, CaptureError>
    ensures { let s = Pcap (view_format format) link_type in
        Answers view_step (front s i.now) s result s }
{
    match parse_pcap_packet(i, format) {
        Ok((rest, packet)) => Ok(CaptureStep::Packet(
            Packet {
                time: packet.time,
                link_type,
                original_length: packet.original_length,
                bytes: packet.bytes,
            },
            rest,
        )),
        Err(Err::Incomplete(_)) => Ok(CaptureStep::Wait),
        Err(_) => Err(CaptureError::Broken),
    }
}

/// Parses a block of a pcapng file.
fn block_step<'a>(section: &mut Section, i: &'a [u8]) -> Result<CaptureStep<'a>, CaptureError>
    ensures { let s = view_section section.old in
        Answers view_step (block_front s (reading (next_block s.order) i.now)) (Blocks s) result
        (Blocks (view_section section.new)) }
{
    match parse_block(i, section.order) {
        Ok((rest, block)) => match section.process(block)? {
            Some(packet) => Ok(CaptureStep::Packet(packet, rest)),
            None => Ok(CaptureStep::Other(rest)),
        },
        Err(Err::Incomplete(_)) => Ok(CaptureStep::Wait),
        Err(_) => Err(CaptureError::Broken),
    }
}

impl Capture {
    /// Returns a reader that has read nothing. It allocates nothing.
    pub fn new(alloc: Global) -> Capture
        ensures { result ≡ Unknown }
    {
        Capture {
            alloc,
            form: Form::Unknown,
        }
    }

    /// Returns whether the capture's format was recognized.
    pub fn is_known(&self) -> bool
        ensures { (result ≡ true) ↔ (self.now ≢ Unknown) }
    {
        !matches!(self.form, Form::Unknown)
    }

    /// Parses the item at the front of `i`, which are the bytes behind the previous item.
    ///
    /// - `NoCapture` if the first bytes have no known format, or are those of a pcap file whose
    ///   major version isn't 2.
    /// - `Broken` if a packet's header or a block breaks a rule of its layout, a block refers to an
    ///   interface that wasn't described, or a time is before 1970 or after the year 2554.
    /// - `OutOfMemory` if there is no memory for an interface.
    ///
    /// An error leaves the reader as it was.
    pub fn step<'a>(&mut self, i: &'a [u8]) -> Result<CaptureStep<'a>, CaptureError>
        ensures { Answers view_step (front self.old i.now) self.old result self.new }
    {
        match &mut self.form {
            Form::Unknown => match form_of(self.alloc, i)? {
                Some((form, rest)) => {
                    self.form = form;
                    Ok(CaptureStep::Other(rest))
                }
                None => Ok(CaptureStep::Wait),
            },
            Form::Pcap(format, link_type) => pcap_step(i, *format, *link_type),
            Form::Blocks(section) => block_step(section, i),
        }
    }
}
