//! Counts the records of datagrams.
ghost use Rattle.std.specs.Prelude.{◌≡◌};
ghost use Rattle.raw_records.specs.RawDtlsRecord.{view_header};
ghost use Rattle.raw_records.specs.DatagramRecord.{view_datagram_record};
ghost use Rattle.dtls_analyzer.specs.DatagramRecords.{is_known as is_known_header, is_record as is_record_of, no_datagrams, with_datagram};

use raw_records::{DTLSRecordHeader, DatagramRecord, DatagramRecords};
use tls_detection::is_datagram_version;

/// The content type of acknowledgments (RFC 9147, section 7).
const ACK: u8 = 26;

/// Whether a header has a known content type and a version of DTLS.
pub(crate) fn is_known(header: &DTLSRecordHeader) -> bool
    ensures { result ≡ is_known_header (view_header header.now) }
{
    let kind = header.content_type.0;
    (kind >= 20 && kind <= 24 || kind == ACK) && is_datagram_version(header.version.0)
}

/// Whether a record counts. One in the form of DTLS 1.3 counts if that was negotiated.
fn is_record(record: &DatagramRecord<'_>, is_13: bool) -> bool
    ensures { result ≡ is_record_of is_13 (view_datagram_record record.now) }
{
    match record {
        DatagramRecord::Plaintext(record) => is_known(&record.header),
        DatagramRecord::ConnectionId(record) => is_datagram_version(record.header.fields.version.0),
        DatagramRecord::Ciphertext(_) => is_13,
    }
}

/// Counts the records in the datagrams of a side, without buffering any.
#[derive(Clone, Copy, Debug, PartialEq, Eq)]
pub struct DatagramRecordCounter {
    count: u64,
}

impl DatagramRecordCounter {
    /// A count of 0.
    pub fn new() -> DatagramRecordCounter
        ensures { result ≡ no_datagrams }
    {
        DatagramRecordCounter { count: 0 }
    }

    /// The number of records.
    pub fn count(&self) -> u64
        ensures { result ≡ self.now.count }
    {
        self.count
    }

    /// Counts the whole records at the beginning of a datagram, including encrypted ones; `is_13`
    /// is whether DTLS 1.3 was negotiated, which allows records in its form. `connection_id_len` is
    /// the length of their connection IDs, in bytes.
    pub fn add(&mut self, datagram: &[u8], connection_id_len: usize, is_13: bool)
        ensures { self.new ≡ with_datagram is_13 connection_id_len datagram.now self.old }
    {
        for record in DatagramRecords::new(datagram, connection_id_len) {
            if !is_record(&record, is_13) {
                return;
            }
            self.count = self.count.saturating_add(1);
        }
    }
}
