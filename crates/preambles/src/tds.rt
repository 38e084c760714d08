//! TDS, the protocol of SQL Server, up to the answer to PRELOGIN.
ghost use Rattle.std.specs.Prelude.{◌≡◌};
ghost use Rattle.preambles.specs.Tds.{answer_header as behind_answer_header, behind_encryption as by_encryption, byte_at as byte_of, encryption_place as place_of_encryption, options as behind_options, prelogin_header as behind_header, tds_frame as frame_of_tds, tds_next as tds, tds_reads as tds_side};

use crate::phase::{Frame, Outcome, Phase, Protocol, Side, TdsPhase};

/// The value of the option ENCRYPTION of a server that has no TLS.
const NOT_SUPPORTED: u8 = 2;

/// The side that a phase of TDS reads.
#[tactic(auto, unfolding(crate::specs::Tds::tds_reads))]
pub(crate) fn tds_reads(phase: TdsPhase) -> Side
    ensures { result ≡ tds_side phase }
{
    match phase {
        TdsPhase::Header | TdsPhase::Options(_) => Side::Client,
        TdsPhase::AnswerHeader | TdsPhase::Answer(_) => Side::Server,
    }
}

/// How far a phase of TDS reads.
#[tactic(auto, unfolding(crate::specs::Tds::tds_frame))]
pub(crate) fn tds_frame(phase: TdsPhase) -> Frame
    ensures { result ≡ frame_of_tds phase }
{
    match phase {
        TdsPhase::Header => Frame::Count(7),
        TdsPhase::AnswerHeader => Frame::Count(8),
        TdsPhase::Options(length) | TdsPhase::Answer(length) => Frame::Count(length),
    }
}

/// The phase behind the rest of PRELOGIN's header.
#[tactic(auto, unfolding(crate::specs::Tds::prelogin_header))]
fn prelogin_header(front: &[u8]) -> Phase
    ensures { result ≡ behind_header front.now }
{
    match front {
        [1, high, low, ..] => {
            let length = u32::from(*high) * 256 + u32::from(*low);
            if length <= 8 {
                Phase::Over(Outcome::Unknown)
            } else {
                Phase::Tds(TdsPhase::Options(length - 8))
            }
        }
        _ => Phase::Over(Outcome::Unknown),
    }
}

/// The phase behind the client's options. The first of them is VERSION.
#[tactic(auto, unfolding(crate::specs::Tds::options))]
fn options(front: &[u8]) -> Phase
    ensures { result ≡ behind_options front.now }
{
    match front {
        [0, ..] => Phase::Tds(TdsPhase::AnswerHeader),
        _ => Phase::Over(Outcome::Unknown),
    }
}

/// The phase behind the header of the server's answer.
#[tactic(auto, unfolding(crate::specs::Tds::answer_header))]
fn answer_header(front: &[u8]) -> Phase
    ensures { result ≡ behind_answer_header front.now }
{
    match front {
        [4, 1, high, low, ..] => {
            let length = u32::from(*high) * 256 + u32::from(*low);
            if length <= 8 {
                Phase::Over(Outcome::Unknown)
            } else {
                Phase::Tds(TdsPhase::Answer(length - 8))
            }
        }
        _ => Phase::Over(Outcome::Unknown),
    }
}

/// Where the value of ENCRYPTION is, which follows VERSION.
#[tactic(auto, unfolding(crate::specs::Tds::encryption_place))]
fn encryption_place(front: &[u8]) -> Option<usize>
    ensures { result ≡ place_of_encryption front.now }
{
    match front {
        [0, _, _, _, _, 1, high, low, ..] => { Some(usize::from(*high) * 256 + usize::from(*low)) }
        _ => None,
    }
}

/// The byte at a place.
fn byte_at(front: &[u8], place: Option<usize>) -> Option<u8>
    ensures { result ≡ byte_of front.now place }
{
    match place {
        Some(place) if place < front.len() => Some(front[place]),
        _ => None,
    }
}

/// The phase behind the server's options, by the value of ENCRYPTION.
#[tactic(auto, unfolding(crate::specs::Tds::behind_encryption))]
fn behind_encryption(value: Option<u8>) -> Phase
    ensures { result ≡ by_encryption value }
{
    match value {
        None => Phase::Over(Outcome::Unknown),
        Some(value) => {
            if value == NOT_SUPPORTED {
                Phase::Over(Outcome::Plain)
            } else {
                Phase::Over(Outcome::Tls(Protocol::Tds))
            }
        }
    }
}

/// What follows a phase of TDS.
#[tactic(auto, unfolding(crate::specs::Tds::tds_next))]
pub(crate) fn tds_next(phase: TdsPhase, front: &[u8]) -> Phase
    ensures { result ≡ tds phase front.now }
{
    match phase {
        TdsPhase::Header => prelogin_header(front),
        TdsPhase::Options(_) => options(front),
        TdsPhase::AnswerHeader => answer_header(front),
        TdsPhase::Answer(_) => behind_encryption(byte_at(front, encryption_place(front))),
    }
}
