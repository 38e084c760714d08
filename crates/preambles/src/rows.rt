//! Each phase's row: which side it reads, how far, and what follows.
ghost use Rattle.std.specs.Prelude.{◌≡◌};
ghost use Rattle.preambles.specs.Rows.{first_byte as behind_first_byte, packet_next as behind_packet, packet_reads as side_of_packet, first_line as first_line_of, first_unit, frame_of as frame, irc_command as behind_irc_command, is_plain_http as is_http, is_webdav as is_of_webdav, is_text as text, next as next_of, outcome_of as outcome, reads as side_of, recognizes as recognized, value as value_of};

use crate::ldap::{ldap_frame, ldap_next, ldap_reads};
use crate::lines::{answer, behind_answer, greeting, greeting_rest, irc_answer};
use crate::packets::{
    mysql_frame, mysql_next, mysql_reads, postgres_frame, postgres_next, postgres_reads, rdp_frame,
    rdp_next, rdp_reads,
};
use crate::phase::{
    Command, ConnectPhase, Frame, LdapPhase, LoginPhase, MysqlPhase, Outcome, Phase, PostgresPhase,
    Protocol, ProxyPhase, RdpPhase, Role, Side, Socks4Phase, TdsPhase, Word, XmppPhase,
};
use crate::tds::{tds_frame, tds_next, tds_reads};
use crate::tunnels::{
    connect_frame, connect_next, connect_reads, login_frame, login_next, login_reads, proxy_frame,
    proxy_next, socks4_frame, socks4_next, socks4_reads, socks5_frame, socks5_next, socks5_reads,
};
use crate::words::{begins, command_of};
use crate::xmpp::{xmpp_next, xmpp_reads};

/// Whether a client's first byte is the beginning of a line.
#[tactic(auto, unfolding(crate::specs::Rows::is_text))]
pub(crate) fn is_text(byte: u8) -> bool
    ensures { result ≡ text byte }
{
    byte >= b'A' && byte <= b'Z'
        || byte >= b'a' && byte <= b'z'
        || byte >= b'1' && byte <= b'9'
        || byte == b'.'
}

/// The side that a phase reads; `None` at the end.
#[tactic(auto, unfolding(crate::specs::Rows::reads))]
pub(crate) fn reads(phase: Phase) -> Option<Side>
    ensures { result ≡ side_of phase }
{
    match phase {
        Phase::Opening | Phase::Command(_) | Phase::Value(_) | Phase::IrcCommand => {
            Some(Side::Client)
        }
        Phase::Greeting(_)
        | Phase::GreetingRest(_, _)
        | Phase::Reply(_, _)
        | Phase::Listing(_)
        | Phase::IrcReply => Some(Side::Server),
        Phase::Over(_) => None,
        _ => Some(packet_reads(phase)),
    }
}

/// The side that a phase of tunnels and packets reads.
#[tactic(auto, unfolding(crate::specs::Rows::packet_reads))]
fn packet_reads(phase: Phase) -> Side
    ensures { result ≡ side_of_packet phase }
{
    match phase {
        Phase::Connect(part) => connect_reads(part),
        Phase::Socks4(part) => socks4_reads(part),
        Phase::Login(part) => login_reads(part),
        Phase::Socks5(part) => socks5_reads(part),
        Phase::Postgres(part) => postgres_reads(part),
        Phase::Mysql(part) => mysql_reads(part),
        Phase::Rdp(part) => rdp_reads(part),
        Phase::Tds(part) => tds_reads(part),
        Phase::Ldap(role, _) => ldap_reads(role),
        Phase::Xmpp(part) => xmpp_reads(part),
        _ => Side::Client,
    }
}

/// How far a phase reads.
#[tactic(auto, unfolding(crate::specs::Rows::frame_of))]
pub(crate) fn frame_of(phase: Phase) -> Frame
    ensures { result ≡ frame phase }
{
    match phase {
        Phase::Opening => Frame::Opening,
        Phase::Connect(part) => connect_frame(part),
        Phase::Socks4(part) => socks4_frame(part),
        Phase::Login(part) => login_frame(part),
        Phase::Socks5(part) => socks5_frame(part),
        Phase::Proxy(part) => proxy_frame(part),
        Phase::Postgres(part) => postgres_frame(part),
        Phase::Mysql(part) => mysql_frame(part),
        Phase::Rdp(part) => rdp_frame(part),
        Phase::Tds(part) => tds_frame(part),
        Phase::Ldap(_, part) => ldap_frame(part),
        Phase::Xmpp(_) => Frame::Until(b'>'),
        _ => Frame::Until(b'\n'),
    }
}

/// Whether a line is a request of WebDAV.
#[tactic(auto, unfolding(crate::specs::Rows::is_webdav))]
fn is_webdav(line: &[u8]) -> bool
    ensures { result ≡ is_of_webdav line.now }
{
    begins(line, b"PROPFIND ")
        || begins(line, b"PROPPATCH ")
        || begins(line, b"MKCOL ")
        || begins(line, b"COPY ")
        || begins(line, b"MOVE ")
        || begins(line, b"LOCK ")
        || begins(line, b"UNLOCK ")
        || begins(line, b"REPORT ")
        || begins(line, b"SEARCH ")
}

/// Whether a line is an HTTP request other than CONNECT.
#[tactic(auto, unfolding(crate::specs::Rows::is_plain_http))]
fn is_plain_http(line: &[u8]) -> bool
    ensures { result ≡ is_http line.now }
{
    begins(line, b"GET ")
        || begins(line, b"POST ")
        || begins(line, b"PUT ")
        || begins(line, b"HEAD ")
        || begins(line, b"OPTIONS ")
        || begins(line, b"DELETE ")
        || begins(line, b"PATCH ")
        || begins(line, b"TRACE ")
        || begins(line, b"PRI * HTTP/2.0")
        || is_webdav(line)
}

/// The phase behind the client's first line.
#[tactic(auto, unfolding(crate::specs::Rows::first_line))]
fn first_line(line: &[u8]) -> Phase
    ensures { result ≡ first_line_of line.now }
{
    if is_plain_http(line) {
        Phase::Over(Outcome::Plain)
    } else if begins(line, b"CONNECT ") {
        Phase::Connect(ConnectPhase::Header)
    } else if begins(line, b"PROXY ") {
        Phase::Over(Outcome::Tls(Protocol::Proxy))
    } else if begins(line, b"CAP ") || begins(line, b"NICK ") {
        Phase::IrcCommand
    } else {
        Phase::Greeting(command_of(line))
    }
}

/// The phase behind the client's first byte, which isn't text.
#[tactic(auto, unfolding(crate::specs::Rows::first_byte))]
fn first_byte(byte: u8) -> Phase
    ensures { result ≡ behind_first_byte byte }
{
    match byte {
        0 => Phase::Postgres(PostgresPhase::Request),
        3 => Phase::Rdp(RdpPhase::Header),
        4 => Phase::Socks4(Socks4Phase::Request),
        5 => Phase::Login(LoginPhase::Count),
        b'\r' => Phase::Proxy(ProxyPhase::Header),
        18 => Phase::Tds(TdsPhase::Header),
        b' ' => Phase::Mysql(MysqlPhase::Request),
        b'0' => Phase::Ldap(Role::Request, LdapPhase::Length),
        b'<' => Phase::Xmpp(XmppPhase::First),
        _ => Phase::Over(Outcome::Unknown),
    }
}

/// The phase behind the client's first line or byte.
#[tactic(auto, unfolding(crate::specs::Rows::first_unit))]
fn opening(front: &[u8]) -> Phase
    ensures { result ≡ first_unit front.now }
{
    match front {
        [first, ..] if is_text(*first) => first_line(front),
        [first, ..] => first_byte(*first),
        [] => Phase::Over(Outcome::Unknown),
    }
}

/// The phase that follows, by the first bytes of what was read.
#[tactic(auto, unfolding(crate::specs::Rows::next))]
pub(crate) fn next(phase: Phase, front: &[u8]) -> Phase
    ensures { result ≡ next_of phase front.now }
{
    match phase {
        Phase::Opening => opening(front),
        Phase::Greeting(command) => greeting(command, front),
        Phase::GreetingRest(dialect, command) => greeting_rest(dialect, command, front),
        Phase::Command(dialect) => Phase::Reply(dialect, command_of(front)),
        Phase::Value(dialect) => Phase::Reply(dialect, value()),
        Phase::Reply(dialect, command) => {
            behind_answer(dialect, command, answer(dialect, command, front))
        }
        Phase::Listing(dialect) => {
            if front == b".\r".as_slice() || front == b".".as_slice() {
                Phase::Command(dialect)
            } else {
                Phase::Listing(dialect)
            }
        }
        Phase::IrcCommand => irc_command(front),
        Phase::IrcReply => irc_answer(front),
        Phase::Over(outcome) => Phase::Over(outcome),
        _ => packet_next(phase, front),
    }
}

/// What follows a phase of tunnels and packets.
#[tactic(auto, unfolding(crate::specs::Rows::packet_next))]
fn packet_next(phase: Phase, front: &[u8]) -> Phase
    ensures { result ≡ behind_packet phase front.now }
{
    match phase {
        Phase::Connect(part) => connect_next(part, front),
        Phase::Socks4(part) => socks4_next(part, front),
        Phase::Login(part) => login_next(part, front),
        Phase::Socks5(part) => socks5_next(part, front),
        Phase::Proxy(part) => proxy_next(part, front),
        Phase::Postgres(part) => postgres_next(part, front),
        Phase::Mysql(part) => mysql_next(part, front),
        Phase::Rdp(part) => rdp_next(part, front),
        Phase::Tds(part) => tds_next(part, front),
        Phase::Ldap(role, part) => ldap_next(role, part, front),
        Phase::Xmpp(part) => xmpp_next(part, front),
        _ => Phase::Over(Outcome::Unknown),
    }
}

/// A value isn't a command: a positive answer to it ends a login.
pub(crate) fn value() -> Command
    ensures { result ≡ value_of }
{
    Command {
        first: Word::Authenticate,
        second: Word::Authenticate,
    }
}

/// The phase behind a line of an IRC client.
#[tactic(auto, unfolding(crate::specs::Rows::irc_command))]
fn irc_command(line: &[u8]) -> Phase
    ensures { result ≡ behind_irc_command line.now }
{
    if matches!(command_of(line).first, Word::Starttls) {
        Phase::IrcReply
    } else {
        Phase::IrcCommand
    }
}

/// What a phase says of where TLS begins.
#[tactic(auto, unfolding(crate::specs::Rows::outcome_of))]
pub(crate) fn outcome_of(phase: Phase) -> Outcome
    ensures { result ≡ outcome phase }
{
    match phase {
        Phase::Over(outcome) => outcome,
        _ => Outcome::Undecided,
    }
}

/// Whether the bytes in front of a phase have shown which protocol it is. Any number of lines may
/// follow.
#[tactic(auto, unfolding(crate::specs::Rows::recognizes))]
pub(crate) fn recognizes(phase: Phase) -> bool
    ensures { result ≡ recognized phase }
{
    match phase {
        Phase::GreetingRest(_, _)
        | Phase::Command(_)
        | Phase::Value(_)
        | Phase::Reply(_, _)
        | Phase::Listing(_)
        | Phase::IrcCommand
        | Phase::IrcReply => true,
        Phase::Connect(_) => true,
        _ => false,
    }
}
