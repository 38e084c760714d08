//! TLS as the payload of TDS packets ([MS-TDS], section 2.2.6.5).
ghost use Rattle.std.specs.Prelude.{◌≡◌, IfOk, OnOk};
ghost use Rattle.preambles.specs.TdsPayload.{behind_header as position_behind_header, begun, is_tls as is_of_tls, next_position as position_behind, reader_at, taken_by, taken_from, with_byte, with_tls};

use std::alloc::{AllocError, Global};

/// The type of the packets that hold TLS, that of PRELOGIN.
const PRELOGIN: u8 = 18;

/// Where the next byte of a side is.
#[derive(Clone, Copy)]
pub(crate) enum Position {
    /// In a packet's header, behind this many bytes of it. The other numbers are the two bytes of
    /// the length, as far as they came.
    Header(u8, u8, u8),
    /// In a packet's payload, with this many bytes left.
    Payload(u32),
    /// In TLS behind all packets.
    Bare,
}

/// Takes TLS out of the TDS packets of a side. Until the handshake is over, SQL Server and its
/// clients send TLS as the payload of packets, and then without them.
#[derive(Clone, Copy)]
pub struct TdsReader {
    position: Position,
}

/// Returns the position behind the header of a packet of this length, which includes the header.
fn behind_header(length: u32) -> Position
    ensures { result ≡ position_behind_header length }
{
    if length <= 8 {
        Position::Header(0, 0, 0)
    } else {
        Position::Payload(length - 8)
    }
}

/// Returns the position behind a byte.
#[tactic(auto, unfolding(crate::specs::TdsPayload::next_position))]
fn next_position(position: Position, byte: u8) -> Position
    ensures { result ≡ position_behind position byte }
{
    match position {
        Position::Header(count, high, low) => {
            if count == 0 && byte != PRELOGIN {
                Position::Bare
            } else if count == 2 {
                Position::Header(3, byte, low)
            } else if count == 3 {
                Position::Header(4, high, byte)
            } else if count < 7 {
                Position::Header(count + 1, high, low)
            } else {
                behind_header(u32::from(high) * 256 + u32::from(low))
            }
        }
        Position::Payload(left) => {
            if left <= 1 {
                Position::Header(0, 0, 0)
            } else {
                Position::Payload(left - 1)
            }
        }
        Position::Bare => Position::Bare,
    }
}

/// Returns whether a byte is TLS's.
#[tactic(auto, unfolding(crate::specs::TdsPayload::is_tls))]
fn is_tls(position: Position, byte: u8) -> bool
    ensures { result ≡ is_of_tls position byte }
{
    match position {
        Position::Header(count, _, _) => count == 0 && byte != PRELOGIN,
        Position::Payload(_) | Position::Bare => true,
    }
}

/// Adds a byte to the TLS if it is TLS's.
fn add_if(is_tls: bool, byte: u8, tls: &mut Vec<u8>) -> Result<(), AllocError>
    ensures { OnOk result (tls.new.items ≡ with_tls is_tls byte tls.old.items) }
{
    if is_tls {
        tls.push(byte)?;
    }
    Ok(())
}

impl TdsReader {
    /// Returns a reader of a side whose TLS is about to begin.
    pub fn new() -> TdsReader
        ensures { result ≡ reader_at begun }
    {
        TdsReader {
            position: Position::Header(0, 0, 0),
        }
    }

    /// Reads a byte, and adds it to the TLS if it is TLS's.
    fn read_byte(&mut self, byte: u8, tls: &mut Vec<u8>) -> Result<(), AllocError>
        ensures { OnOk result
            (taken_by self.new tls.new.items ≡ with_byte (taken_by self.old tls.old.items) byte) }
    {
        add_if(is_tls(self.position, byte), byte, tls)?;
        self.position = next_position(self.position, byte);
        Ok(())
    }

    /// Returns the TLS in a side's next bytes, which may be cut anywhere.
    ///
    /// After `AllocError` there was no memory for it, and the reader can't be used any more.
    pub fn read(&mut self, alloc: Global, bytes: &[u8]) -> Result<Vec<u8>, AllocError>
        ensures tls { IfOk result
            (λ tls. tls.items ≡ (taken_from self.old.position bytes.now).tls) }
        ensures behind { OnOk result
            (self.new ≡ reader_at (taken_from self.old.position bytes.now).position) }
    {
        let mut tls = Vec::new(alloc);
        for byte in bytes {
            self.read_byte(*byte, &mut tls)?;
        }
        Ok(tls)
    }
}
