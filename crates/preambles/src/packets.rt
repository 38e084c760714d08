//! The protocols of packets: PostgreSQL, MySQL and RDP.
ghost use Rattle.std.specs.Prelude.{◌≡◌};
ghost use Rattle.preambles.specs.Packets.{mysql_frame as frame_of_mysql, mysql_greeting as greeting_of_mysql, mysql_next as mysql, mysql_reads as mysql_side, mysql_request as request_of_mysql, postgres_frame as frame_of_postgres, postgres_next as postgres, postgres_reads as postgres_side, rdp_confirm as confirm_of_rdp, rdp_frame as frame_of_rdp, rdp_header as header_of_rdp, rdp_next as rdp, rdp_reads as rdp_side};

use crate::phase::{Frame, MysqlPhase, Outcome, Phase, PostgresPhase, Protocol, RdpPhase, Side};
use crate::words::begins;

/// The side that a phase of PostgreSQL reads.
#[tactic(auto, unfolding(crate::specs::Packets::postgres_reads))]
pub(crate) fn postgres_reads(phase: PostgresPhase) -> Side
    ensures { result ≡ postgres_side phase }
{
    match phase {
        PostgresPhase::Request | PostgresPhase::Again => Side::Client,
        PostgresPhase::Answer | PostgresPhase::GssAnswer => Side::Server,
    }
}

/// How far a phase of PostgreSQL reads.
#[tactic(auto, unfolding(crate::specs::Packets::postgres_frame))]
pub(crate) fn postgres_frame(phase: PostgresPhase) -> Frame
    ensures { result ≡ frame_of_postgres phase }
{
    match phase {
        PostgresPhase::Request => Frame::Count(7),
        PostgresPhase::Answer | PostgresPhase::GssAnswer => Frame::Count(1),
        PostgresPhase::Again => Frame::Count(8),
    }
}

/// What follows a phase of PostgreSQL.
#[tactic(auto, unfolding(crate::specs::Packets::postgres_next))]
pub(crate) fn postgres_next(phase: PostgresPhase, front: &[u8]) -> Phase
    ensures { result ≡ postgres phase front.now }
{
    match phase {
        PostgresPhase::Request => {
            if begins(front, b"\x00\x00\x08\x04\xd2\x16\x2f") {
                Phase::Postgres(PostgresPhase::Answer)
            } else if begins(front, b"\x00\x00\x08\x04\xd2\x16\x30") {
                Phase::Postgres(PostgresPhase::GssAnswer)
            } else {
                Phase::Over(Outcome::Unknown)
            }
        }
        PostgresPhase::Answer => {
            if begins(front, b"S") {
                Phase::Over(Outcome::Tls(Protocol::Postgres))
            } else {
                Phase::Over(Outcome::Plain)
            }
        }
        PostgresPhase::GssAnswer => {
            if begins(front, b"N") {
                Phase::Postgres(PostgresPhase::Again)
            } else {
                Phase::Over(Outcome::Plain)
            }
        }
        PostgresPhase::Again => {
            if begins(front, b"\x00\x00\x00\x08\x04\xd2\x16\x2f") {
                Phase::Postgres(PostgresPhase::Answer)
            } else {
                Phase::Over(Outcome::Plain)
            }
        }
    }
}

/// The side that a phase of MySQL reads.
#[tactic(auto, unfolding(crate::specs::Packets::mysql_reads))]
pub(crate) fn mysql_reads(phase: MysqlPhase) -> Side
    ensures { result ≡ mysql_side phase }
{
    match phase {
        MysqlPhase::Request => Side::Client,
        MysqlPhase::Greeting | MysqlPhase::Rest(_) => Side::Server,
    }
}

/// How far a phase of MySQL reads.
#[tactic(auto, unfolding(crate::specs::Packets::mysql_frame))]
pub(crate) fn mysql_frame(phase: MysqlPhase) -> Frame
    ensures { result ≡ frame_of_mysql phase }
{
    match phase {
        MysqlPhase::Request => Frame::Count(35),
        MysqlPhase::Greeting => Frame::Count(5),
        MysqlPhase::Rest(length) => Frame::Count(length),
    }
}

/// The phase behind the rest of SSLRequest.
#[tactic(auto, unfolding(crate::specs::Packets::mysql_request))]
fn mysql_request(front: &[u8]) -> Phase
    ensures { result ≡ request_of_mysql front.now }
{
    match front {
        [0, 0, 1, _, flags, ..] if *flags / 8 % 2 == 1 => Phase::Mysql(MysqlPhase::Greeting),
        _ => Phase::Over(Outcome::Unknown),
    }
}

/// The phase behind the header of the greeting, and its version.
#[tactic(auto, unfolding(crate::specs::Packets::mysql_greeting))]
fn mysql_greeting(front: &[u8]) -> Phase
    ensures { result ≡ greeting_of_mysql front.now }
{
    match front {
        [low, middle, high, 0, 10, ..] => {
            let length = u32::from(*low) + u32::from(*middle) * 256 + u32::from(*high) * 65_536;
            if length < 2 {
                Phase::Over(Outcome::Unknown)
            } else {
                Phase::Mysql(MysqlPhase::Rest(length - 1))
            }
        }
        _ => Phase::Over(Outcome::Unknown),
    }
}

/// What follows a phase of MySQL.
#[tactic(auto, unfolding(crate::specs::Packets::mysql_next))]
pub(crate) fn mysql_next(phase: MysqlPhase, front: &[u8]) -> Phase
    ensures { result ≡ mysql phase front.now }
{
    match phase {
        MysqlPhase::Request => mysql_request(front),
        MysqlPhase::Greeting => mysql_greeting(front),
        MysqlPhase::Rest(_) => Phase::Over(Outcome::Tls(Protocol::Mysql)),
    }
}

/// The side that a phase of RDP reads.
#[tactic(auto, unfolding(crate::specs::Packets::rdp_reads))]
pub(crate) fn rdp_reads(phase: RdpPhase) -> Side
    ensures { result ≡ rdp_side phase }
{
    match phase {
        RdpPhase::Header | RdpPhase::Request(_) => Side::Client,
        RdpPhase::Answer | RdpPhase::Confirm => Side::Server,
    }
}

/// How far a phase of RDP reads.
#[tactic(auto, unfolding(crate::specs::Packets::rdp_frame))]
pub(crate) fn rdp_frame(phase: RdpPhase) -> Frame
    ensures { result ≡ frame_of_rdp phase }
{
    match phase {
        RdpPhase::Header => Frame::Count(3),
        RdpPhase::Request(length) => Frame::Count(length),
        RdpPhase::Answer => Frame::Count(4),
        RdpPhase::Confirm => Frame::Count(15),
    }
}

/// The phase behind the client's TPKT header.
#[tactic(auto, unfolding(crate::specs::Packets::rdp_header))]
fn rdp_header(front: &[u8]) -> Phase
    ensures { result ≡ header_of_rdp front.now }
{
    match front {
        [0, high, low, ..] => {
            let length = u32::from(*high) * 256 + u32::from(*low);
            if length < 11 {
                Phase::Over(Outcome::Unknown)
            } else {
                Phase::Rdp(RdpPhase::Request(length - 4))
            }
        }
        _ => Phase::Over(Outcome::Unknown),
    }
}

/// The phase behind the server's connection confirm.
#[tactic(auto, unfolding(crate::specs::Packets::rdp_confirm))]
fn rdp_confirm(front: &[u8]) -> Phase
    ensures { result ≡ confirm_of_rdp front.now }
{
    match front {
        [14, 208, _, _, _, _, _, 2, _, 8, 0, chosen, ..] if *chosen != 0 => {
            Phase::Over(Outcome::Tls(Protocol::Rdp))
        }
        _ => Phase::Over(Outcome::Plain),
    }
}

/// What follows a phase of RDP.
#[tactic(auto, unfolding(crate::specs::Packets::rdp_next))]
pub(crate) fn rdp_next(phase: RdpPhase, front: &[u8]) -> Phase
    ensures { result ≡ rdp phase front.now }
{
    match phase {
        RdpPhase::Header => rdp_header(front),
        RdpPhase::Request(_) => Phase::Rdp(RdpPhase::Answer),
        RdpPhase::Answer => {
            if begins(front, b"\x03\x00\x00\x13") {
                Phase::Rdp(RdpPhase::Confirm)
            } else {
                Phase::Over(Outcome::Plain)
            }
        }
        RdpPhase::Confirm => rdp_confirm(front),
    }
}
