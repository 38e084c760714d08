//! Counts of what a side sent.
ghost use Rattle.std.specs.Prelude.{◌≡◌, length};
ghost use Rattle.connections.specs.Traffic.{nothing_sent, with_packet};

/// What one side sent, as it was captured. The counts saturate at 2^64 - 1.
#[derive(Clone, Copy, Debug, PartialEq, Eq)]
pub struct Traffic {
    /// The number of packets.
    pub packets: u64,
    /// The bytes of data in them, retransmitted ones included.
    pub bytes: u64,
}

impl Traffic {
    /// Returns the count of nothing.
    pub(crate) fn new() -> Traffic
        ensures { result ≡ nothing_sent }
    {
        Traffic {
            packets: 0,
            bytes: 0,
        }
    }

    /// Counts a packet with this data.
    pub(crate) fn add(&mut self, payload: &[u8])
        ensures { self.new ≡ with_packet (length payload.now) self.old }
    {
        self.packets = self.packets.saturating_add(1);
        self.bytes = self.bytes.saturating_add(payload.len() as u64);
    }
}
