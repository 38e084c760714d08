//! An iterator over the records of a datagram.
ghost use Rattle.std.specs.Prelude.{◌≡◌};

use crate::datagram_record::{DatagramRecord, read_datagram_record};

/// The records of a datagram (RFC 9147, section 4), each parsed by [`read_datagram_record`] when
/// the iterator reaches it. It ends at the first that isn't parsed.
///
/// Nothing is checked across records. Receivers drop the rest of a datagram from the first record
/// that has the connection ID of another association (RFC 9147, section 4).
#[derive(Clone, Copy, Debug, PartialEq)]
pub struct DatagramRecords<'a> {
    left: &'a [u8],
    connection_id_len: usize,
}

impl<'a> DatagramRecords<'a> {
    /// The records of `datagram`, which must be whole. `connection_id_len` is the length of the
    /// connection IDs that its receiver asked for in its hello, 0 if there are none.
    pub fn new(datagram: &'a [u8], connection_id_len: usize) -> Self
        ensures datagram { result.left.now ≡ datagram.now }
        ensures connection_id_len { result.connection_id_len ≡ connection_id_len }
    {
        DatagramRecords {
            left: datagram,
            connection_id_len,
        }
    }

    /// The bytes that weren't iterated yet. At the end they are empty, or [`read_datagram_record`]
    /// refuses them and gives the reason.
    pub fn left(self) -> &'a [u8]
        ensures { result.now ≡ self.entry.left.now }
    {
        self.left
    }
}

impl<'a> Iterator for DatagramRecords<'a> {
    ghost use Rattle.std.specs.Iterator.{YieldsFirstBy, item_count};
    ghost use Rattle.layouts.specs.Items.{items_in};
    ghost use Rattle.raw_records.specs.DatagramRecord.{datagram_record13, view_datagram_record};

    type Item = DatagramRecord<'a>;

    ghost next_gives = { YieldsFirstBy view_datagram_record
        (λ s. items_in (datagram_record13 s.connection_id_len) s.left.now) };

    ghost remaining = { item_count
        (λ s. items_in (datagram_record13 s.connection_id_len) s.left.now) };

    #[tactic(auto, using(layouts::proofs::ItemsLemmas::items_first, layouts::proofs::ItemsLemmas::items_none, layouts::proofs::ItemsLemmas::items_still, layouts::proofs::ItemsLemmas::items_shorter))]
    fn next(&mut self) -> Option<DatagramRecord<'a>> {
        match read_datagram_record(self.left, self.connection_id_len) {
            Ok((left, record)) if left.len() < self.left.len() => {
                self.left = left;
                Some(record)
            }
            _ => None,
        }
    }
}
