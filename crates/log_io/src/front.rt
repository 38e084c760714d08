//! The first bytes of a source, and why they begin no capture.
ghost use Rattle.std.specs.Prelude.{◌≡◌, ◌+◌, ◌-◌, ◌^◌, length, min};

use std::fmt::{self, Display, Formatter};

/// How many of the first bytes are kept.
const KEPT: usize = 6;

/// How many of them identify a file format.
const FORM: usize = 4;

/// The first bytes of each format that is read, and the smallest length of its header: pcap in
/// either byte order, with micro- and nanoseconds (draft-ietf-opsawg-pcap, section 4), and pcapng
/// (draft-ietf-opsawg-pcapng, section 4.1).
static FORMS: [([u8; FORM], u64); 5] = [
    (*b"\xa1\xb2\xc3\xd4", 24),
    (*b"\xd4\xc3\xb2\xa1", 24),
    (*b"\xa1\xb2\x3c\x4d", 24),
    (*b"\x4d\x3c\xb2\xa1", 24),
    (*b"\x0a\x0d\x0d\x0a", 28),
];

/// The first bytes of compressed files (RFC 1952, section 2.3.1; the XZ file format, 2.1.1.1;
/// RFC 8878, section 3.1.1), and what to do with such a file.
static COMPRESSIONS: [(&[u8], &str); 3] = [
    (b"\x1f\x8b", "compressed: use zcat FILE | tlslog"),
    (b"\xfd7zXZ\0", "compressed: use xzcat FILE | tlslog"),
    (b"\x28\xb5\x2f\xfd", "compressed: use zstdcat FILE | tlslog"),
];

/// Why a source is no capture, or not a whole one.
#[derive(Clone, Copy)]
pub enum CaptureFault {
    /// It doesn't begin as a capture.
    NoCapture,
    /// It has no bytes.
    Empty,
    /// It ends in its header.
    CutHeader,
    /// It begins with these bytes (only this many are known), as neither pcap nor pcapng does.
    OtherForm([u8; KEPT], usize),
    /// It is a pcap file of another version than 2.
    OtherVersion,
    /// It is compressed; the text is what to do with it.
    Compressed(&'static str),
    /// A header or a block is malformed.
    Broken,
    /// It ends within a packet or a block.
    BrokenOff,
}

/// Writes bytes in hexadecimal.
fn write_digits<W: fmt::Write>(f: &mut Formatter<W>, bytes: &[u8]) -> fmt::Result {
    for byte in bytes {
        write!(f, "{byte:02x}")?;
    }
    Ok(())
}

impl Display for CaptureFault {
    fn fmt<W: fmt::Write>(&self, f: &mut Formatter<W>) -> fmt::Result {
        match self {
            CaptureFault::NoCapture => f.write_str("not a capture"),
            CaptureFault::Empty => f.write_str("not a capture: it is empty"),
            CaptureFault::CutHeader => f.write_str("not a capture: its header is truncated"),
            CaptureFault::OtherForm(bytes, len) => {
                f.write_str("not a capture: neither pcap nor pcapng, begins with ")?;
                write_digits(f, bytes.get(..*len).unwrap_or(&[]))
            }
            CaptureFault::OtherVersion => f.write_str("unsupported pcap version: only 2 is read"),
            CaptureFault::Compressed(hint) => f.write_str(hint),
            CaptureFault::Broken => f.write_str("malformed header or block"),
            CaptureFault::BrokenOff => f.write_str("the capture is truncated"),
        }
    }
}

/// The first bytes of a source, and how many were read in all.
#[derive(Clone, Copy)]
pub struct FirstBytes {
    bytes: [u8; KEPT],
    read: u64,
}

impl FirstBytes {
    /// Returns the first bytes of a source from which nothing was read.
    pub fn new() -> FirstBytes
        ensures { result.read ≡ 0 }
    {
        FirstBytes {
            bytes: [0; KEPT],
            read: 0,
        }
    }

    /// Returns how many bytes were read.
    pub fn read(&self) -> u64
        ensures { result ≡ self.now.read }
    {
        self.read
    }

    /// Returns how many of the first bytes are kept.
    fn kept(&self) -> usize {
        self.read.min(KEPT as u64) as usize
    }

    /// Returns the first bytes, as far as they were read.
    fn known(&self) -> &[u8] {
        self.bytes.get(..self.kept()).unwrap_or(&[])
    }

    /// Adds bytes that were read after the ones before.
    pub fn add(&mut self, bytes: &[u8])
        ensures { self.new.read ≡ min (self.old.read + length bytes.now) (2 ^ 64 - 1) }
    {
        let kept = self.kept();
        if kept < KEPT {
            for (place, byte) in self.bytes.iter_mut().skip(kept).zip(bytes) {
                *place = *byte;
            }
        }
        self.read = self.read.saturating_add(bytes.len() as u64);
    }

    /// Returns what to do with the source if it begins as a compressed file.
    fn compression(&self) -> Option<&'static str> {
        let known = self.known();
        let found = COMPRESSIONS.iter().find(|form| known.starts_with(form.0));
        found.map(|form| form.1)
    }

    /// Returns the smallest length of the header if the bytes begin a format that is read.
    fn header(&self) -> Option<u64> {
        let known = self.known();
        let form = known.get(..FORM).unwrap_or(known);
        let found = FORMS.iter().find(|row| row.0.starts_with(form));
        found.map(|row| row.1)
    }

    /// Returns why a source of these first bytes is no capture.
    fn fault(&self) -> CaptureFault {
        if self.read == 0 {
            return CaptureFault::Empty;
        }
        match self.header() {
            None => CaptureFault::OtherForm(self.bytes, self.kept().min(FORM)),
            Some(header) if self.read < header => CaptureFault::CutHeader,
            Some(_) => CaptureFault::OtherVersion,
        }
    }

    /// Whether a source that ends here ends in its header.
    fn is_header_cut(&self) -> bool {
        match self.header() {
            Some(header) => self.read < header,
            None => false,
        }
    }

    /// Returns the reader's fault, made more precise by the first bytes.
    pub fn explain(&self, fault: CaptureFault) -> CaptureFault {
        if let Some(hint) = self.compression() {
            return CaptureFault::Compressed(hint);
        }
        match fault {
            CaptureFault::NoCapture => self.fault(),
            CaptureFault::BrokenOff if self.is_header_cut() => CaptureFault::CutHeader,
            other => other,
        }
    }
}
