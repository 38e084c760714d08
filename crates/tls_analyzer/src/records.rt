//! Counts the records of a stream.
ghost use Rattle.std.specs.Prelude.{◌≡◌, ◌≤◌, ◌<◌};
ghost use Rattle.tls_analyzer.specs.Records.{no_records, with_byte, with_bytes};

use tls_detection::HEADER_LEN;

/// Counts the records of a stream, without buffering any.
#[derive(Clone, Copy, Debug, PartialEq, Eq)]
pub struct RecordCounter {
    count: u64,
    // How many bytes of a header have come, and the last of them.
    came: u8,
    last: u8,
    // How many bytes of a fragment are to come.
    left: u16,
}

impl RecordCounter {
    /// The count of a stream without bytes.
    pub fn new() -> RecordCounter
        ensures { result ≡ no_records }
    {
        RecordCounter {
            count: 0,
            came: 0,
            last: 0,
            left: 0,
        }
    }

    /// The number of records whose header has come.
    pub fn count(&self) -> u64
        ensures { result ≡ self.now.count }
    {
        self.count
    }

    /// Counts one byte of a header.
    fn add_to_header(&mut self, byte: u8)
        requires { self.old.left ≡ 0 }
        ensures { self.new ≡ with_byte byte self.old }
    {
        if usize::from(self.came) + 1 < HEADER_LEN {
            self.came += 1;
            self.last = byte;
            return;
        }
        self.count = self.count.saturating_add(1);
        self.left = u16::from(self.last) * 256 + u16::from(byte);
        self.came = 0;
        self.last = 0;
    }

    /// Counts the records whose headers end in these bytes.
    pub fn add(&mut self, bytes: &[u8])
        ensures { self.new ≡ with_bytes bytes.now self.old }
    {
        let mut i = 0;
        while i < bytes.len() {
            if self.left == 0 {
                self.add_to_header(bytes[i]);
                i += 1;
            } else {
                let passed = (bytes.len() - i).min(usize::from(self.left));
                self.left -= passed as u16;
                i += passed;
            }
        }
    }
}
