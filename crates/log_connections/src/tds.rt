//! TLS in packets, behind the dialogue of SQL Server.
ghost use Rattle.std.specs.Prelude.{◌≡◌, IfOk, OnErr};
ghost use Rattle.std.specs.Option.{option_map};
ghost use Rattle.log_connections.specs.Tds.{TakesTls, is_in_packets as comes_in_packets, packets_of, tls_of as tls_by, with_packets};

use crate::dialogue::Dialogue;
use crate::fronts::Preambles;
use connections::Side;
use preambles::{Protocol, TdsReader};
use std::alloc::{AllocError, Global};

/// Returns the TLS that was taken out of packets, or else what was sent.
pub(crate) fn tls_of<'a>(taken: &'a Option<Vec<u8>>, sent: &'a [u8]) -> &'a [u8]
    ensures { result.now ≡ tls_by (option_map (λ t. t.items) taken.now) sent.now }
{
    match taken {
        Some(tls) => tls.as_slice(),
        None => sent,
    }
}

impl Preambles {
    /// Returns whether TLS comes in packets.
    fn is_in_packets(&self) -> bool
        ensures { result ≡ comes_in_packets self.now.dialogue }
    {
        matches!(self.dialogue, Dialogue::Tls(Protocol::Tds))
    }

    /// Returns the reader of a side's packets.
    fn packets(&self, side: Side) -> TdsReader
        ensures { result ≡ packets_of side self.now }
    {
        match side {
            Side::Originator => self.packets_of_originator,
            Side::Responder => self.packets_of_responder,
        }
    }

    fn set_packets(&mut self, side: Side, packets: TdsReader)
        ensures { self.new ≡ with_packets side packets self.old }
    {
        match side {
            Side::Originator => self.packets_of_originator = packets,
            Side::Responder => self.packets_of_responder = packets,
        }
    }

    /// Takes TLS out of what a side sent next, if it comes in packets.
    pub(crate) fn take_tls(
        &mut self,
        side: Side,
        alloc: Global,
        sent: &[u8],
    ) -> Result<Option<Vec<u8>>, AllocError>
        ensures taken { IfOk result
            (λ taken. TakesTls side sent.now (option_map (λ t. t.items) taken) self.old self.new) }
        ensures err { OnErr result (self.new ≡ self.old) }
    {
        if !self.is_in_packets() {
            return Ok(None);
        }
        let mut packets = self.packets(side);
        let tls = packets.read(alloc, sent)?;
        self.set_packets(side, packets);
        Ok(Some(tls))
    }
}
