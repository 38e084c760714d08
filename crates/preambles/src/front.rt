//! The first bytes of a line or packet.
ghost use Rattle.std.specs.Prelude.{◌≡◌, []};
ghost use Rattle.preambles.specs.Fronts.{bytes_of, pushed};

/// How many bytes of a line or packet are kept.
pub(crate) const KEPT: usize = 64;

/// The first bytes of the line or packet that is being read.
#[derive(Clone, Copy)]
pub(crate) struct Front {
    bytes: [u8; 64],
    len: usize,
}

impl Front {
    /// Returns a front without bytes.
    pub(crate) const fn new() -> Front
        ensures { bytes_of result ≡ [] }
    {
        Front {
            bytes: [0; 64],
            len: 0,
        }
    }

    /// Returns the bytes that are kept.
    pub(crate) fn bytes(&self) -> &[u8]
        ensures { result.now ≡ bytes_of self.now }
    {
        if self.len < KEPT {
            &self.bytes[..self.len]
        } else {
            &self.bytes
        }
    }

    /// Adds a byte, unless 64 are kept.
    pub(crate) fn push(&mut self, byte: u8)
        ensures { bytes_of self.new ≡ pushed (bytes_of self.old) byte }
    {
        if self.len < KEPT {
            self.bytes[self.len] = byte;
            self.len += 1;
        }
    }
}
