//! Acknowledgments of DTLS 1.3 (RFC 9147, section 7).
ghost use Rattle.layouts.specs.Answers.{Gives};
ghost use Rattle.layouts.specs.Items.{items_in};
ghost use Rattle.dtls_stream.specs.Ack.{RecordNumber as Numbered, ack, record_number, view_record_number};

use layouts::{ErrorKind, IResult, InPlace, Items, block, number2, number8, parsed, refused};

/// The length of a record number in an ACK, in bytes.
const RECORD_NUMBER_LEN: u16 = 16;

/// The number of a record (RFC 9147, section 4).
#[derive(Clone, Copy, Debug, PartialEq, Eq)]
pub struct RecordNumber {
    /// The epoch, which selects the keys; 0 is unencrypted.
    pub epoch: u64,
    /// The record's number within its epoch.
    pub sequence_number: u64,
}

impl<'a> InPlace<'a> for RecordNumber {
    type Read = Self;

    ghost Value = { Numbered };

    ghost view = { view_record_number };

    ghost layout = { record_number };

    #[tactic(auto, using(layouts::proofs::OneAnswerLemmas::read_allowed), unfolding(crate::specs::Ack::record_number))]
    #[inline(always)]
    fn read(i: &'a [u8]) -> IResult<&'a [u8], Self> {
        let (i, epoch) = parsed!(number8(i));
        let (i, sequence_number) = parsed!(number8(i));
        let number = RecordNumber {
            epoch,
            sequence_number,
        };
        Ok((i, number))
    }
}

/// Parses an ACK (RFC 9147, section 7), the content of a record of type 26: 2 bytes of length, and
/// within that many bytes record numbers of 8 bytes of epoch and 8 of sequence number. All numbers
/// are big-endian.
///
/// The list may be empty. Bytes after it are the rest, which the caller judges.
///
/// - `Incomplete` with the count of bytes missing of the length, or else of the list.
/// - `Error` of kind `LengthValue` if the length is no multiple of 16, even if the list isn't there
///   yet.
#[tactic(auto, using(layouts::proofs::OneAnswerLemmas::read_allowed), unfolding(crate::specs::Ack::ack))]
pub fn parse_dtls13_ack(i: &[u8]) -> IResult<&[u8], Items<RecordNumber>>
    ensures { Gives (λ v. items_in record_number v.bytes.now) ack i.now result }
{
    let (i, n) = parsed!(number2(i));
    if n % RECORD_NUMBER_LEN != 0 {
        return refused(i, ErrorKind::LengthValue);
    }
    let (i, window) = parsed!(block(i, n as usize));
    Ok((i, Items::new(window)))
}
