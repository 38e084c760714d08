//! The protocols of tunnels: HTTP's CONNECT, SOCKS 4, 4A and 5, the PROXY protocol's version 2.
ghost use Rattle.std.specs.Prelude.{◌≡◌};
ghost use Rattle.preambles.specs.Tunnels.{again as again_of, bound as bound_of, chosen as chosen_of, connect_frame as frame_of_connect, connect_next as connect, connect_reads as connect_side, host_of as host, is_blank as blank, login_frame as frame_of_login, login_next as login, login_reads as login_side, name_of as name, proxy_frame as frame_of_proxy, proxy_header as header_of_proxy, proxy_next as proxy, refused_line as line_of_refused, requested as requested_of, socks4_frame as frame_of_socks4, socks4_next as socks4, socks4_reads as socks4_side, socks4_request as request_of_socks4, socks5_frame as frame_of_socks5, socks5_next as socks5, socks5_reads as socks5_side, status_line as status};

use crate::phase::{
    ConnectPhase, Frame, LoginPhase, Outcome, Phase, Protocol, ProxyPhase, Side, Socks4Phase,
    Socks5Phase,
};
use crate::words::{begins, code_of, number_in, split_word};

/// Whether a line ends a header: it is blank.
#[tactic(auto, unfolding(crate::specs::Tunnels::is_blank))]
fn is_blank(line: &[u8]) -> bool
    ensures { result ≡ blank line.now }
{
    match line {
        [] => true,
        [b'\r'] => true,
        _ => false,
    }
}

/// The side that a phase of CONNECT reads.
#[tactic(auto, unfolding(crate::specs::Tunnels::connect_reads))]
pub(crate) fn connect_reads(phase: ConnectPhase) -> Side
    ensures { result ≡ connect_side phase }
{
    match phase {
        ConnectPhase::Header | ConnectPhase::Again => Side::Client,
        _ => Side::Server,
    }
}

/// The phase behind a status line.
#[tactic(auto, unfolding(crate::specs::Tunnels::status_line))]
fn status_line(line: &[u8]) -> Phase
    ensures { result ≡ status line.now }
{
    let (_, rest) = split_word(line);
    let code = code_of(rest);
    if !begins(line, b"HTTP/1.") || code < 100 {
        Phase::Over(Outcome::Unknown)
    } else if code < 200 {
        Phase::Connect(ConnectPhase::Interim)
    } else if code < 300 {
        Phase::Connect(ConnectPhase::Accepted)
    } else {
        Phase::Connect(ConnectPhase::Refused(0))
    }
}

/// The phase behind a line in the header of a response that refuses.
#[tactic(auto, unfolding(crate::specs::Tunnels::refused_line))]
fn refused_line(length: u32, line: &[u8]) -> Phase
    ensures { result ≡ line_of_refused length line.now }
{
    if is_blank(line) {
        if length == 0 {
            Phase::Connect(ConnectPhase::Again)
        } else {
            Phase::Connect(ConnectPhase::Body(length))
        }
    } else if begins(line, b"CONTENT-LENGTH:") {
        Phase::Connect(ConnectPhase::Refused(number_in(line)))
    } else if begins(line, b"TRANSFER-ENCODING:") {
        Phase::Over(Outcome::Plain)
    } else {
        Phase::Connect(ConnectPhase::Refused(length))
    }
}

/// The phase behind the line of a further request.
#[tactic(auto, unfolding(crate::specs::Tunnels::again))]
fn again(line: &[u8]) -> Phase
    ensures { result ≡ again_of line.now }
{
    if begins(line, b"CONNECT ") {
        Phase::Connect(ConnectPhase::Header)
    } else {
        Phase::Over(Outcome::Plain)
    }
}

/// What follows a phase of CONNECT.
#[tactic(auto, unfolding(crate::specs::Tunnels::connect_next))]
pub(crate) fn connect_next(phase: ConnectPhase, line: &[u8]) -> Phase
    ensures { result ≡ connect phase line.now }
{
    match phase {
        ConnectPhase::Header => {
            if is_blank(line) {
                Phase::Connect(ConnectPhase::Status)
            } else {
                Phase::Connect(ConnectPhase::Header)
            }
        }
        ConnectPhase::Status => status_line(line),
        ConnectPhase::Accepted => {
            if is_blank(line) {
                Phase::Over(Outcome::Tls(Protocol::HttpConnect))
            } else {
                Phase::Connect(ConnectPhase::Accepted)
            }
        }
        ConnectPhase::Interim => {
            if is_blank(line) {
                Phase::Connect(ConnectPhase::Status)
            } else {
                Phase::Connect(ConnectPhase::Interim)
            }
        }
        ConnectPhase::Refused(length) => refused_line(length, line),
        ConnectPhase::Body(_) => Phase::Connect(ConnectPhase::Again),
        ConnectPhase::Again => again(line),
    }
}

/// How far a phase of CONNECT reads.
#[tactic(auto, unfolding(crate::specs::Tunnels::connect_frame))]
pub(crate) fn connect_frame(phase: ConnectPhase) -> Frame
    ensures { result ≡ frame_of_connect phase }
{
    match phase {
        ConnectPhase::Body(length) => Frame::Count(length),
        _ => Frame::Until(b'\n'),
    }
}

/// The side that a phase of SOCKS 4 reads.
#[tactic(auto, unfolding(crate::specs::Tunnels::socks4_reads))]
pub(crate) fn socks4_reads(phase: Socks4Phase) -> Side
    ensures { result ≡ socks4_side phase }
{
    match phase {
        Socks4Phase::Reply => Side::Server,
        _ => Side::Client,
    }
}

/// How far a phase of SOCKS 4 reads.
#[tactic(auto, unfolding(crate::specs::Tunnels::socks4_frame))]
pub(crate) fn socks4_frame(phase: Socks4Phase) -> Frame
    ensures { result ≡ frame_of_socks4 phase }
{
    match phase {
        Socks4Phase::Request => Frame::Count(7),
        Socks4Phase::User(_) | Socks4Phase::Host => Frame::Until(0),
        Socks4Phase::Reply => Frame::Count(8),
    }
}

/// The phase behind command, port and address of SOCKS 4.
#[tactic(auto, unfolding(crate::specs::Tunnels::socks4_request))]
fn socks4_request(front: &[u8]) -> Phase
    ensures { result ≡ request_of_socks4 front.now }
{
    match front {
        [1, _, _, a, b, c, d, ..] => {
            Phase::Socks4(Socks4Phase::User(*a == 0 && *b == 0 && *c == 0 && *d != 0))
        }
        _ => Phase::Over(Outcome::Unknown),
    }
}

/// What follows a phase of SOCKS 4.
#[tactic(auto, unfolding(crate::specs::Tunnels::socks4_next))]
pub(crate) fn socks4_next(phase: Socks4Phase, front: &[u8]) -> Phase
    ensures { result ≡ socks4 phase front.now }
{
    match phase {
        Socks4Phase::Request => socks4_request(front),
        Socks4Phase::User(true) => Phase::Socks4(Socks4Phase::Host),
        Socks4Phase::User(false) | Socks4Phase::Host => Phase::Socks4(Socks4Phase::Reply),
        Socks4Phase::Reply => match front {
            [0, 90, ..] => Phase::Over(Outcome::Tls(Protocol::Socks4)),
            _ => Phase::Over(Outcome::Plain),
        },
    }
}

/// The side that a phase of authentication reads.
#[tactic(auto, unfolding(crate::specs::Tunnels::login_reads))]
pub(crate) fn login_reads(phase: LoginPhase) -> Side
    ensures { result ≡ login_side phase }
{
    match phase {
        LoginPhase::Choice | LoginPhase::Status => Side::Server,
        _ => Side::Client,
    }
}

/// How far a phase of authentication reads.
#[tactic(auto, unfolding(crate::specs::Tunnels::login_frame))]
pub(crate) fn login_frame(phase: LoginPhase) -> Frame
    ensures { result ≡ frame_of_login phase }
{
    match phase {
        LoginPhase::Count | LoginPhase::PasswordLength => Frame::Count(1),
        LoginPhase::Choice | LoginPhase::User | LoginPhase::Status => Frame::Count(2),
        LoginPhase::Methods(count) => Frame::Count(u32::from(count)),
        LoginPhase::Name(length) => Frame::Count(u32::from(length)),
        LoginPhase::Password(length) => Frame::Count(u32::from(length)),
    }
}

/// The phase behind the server's choice of a method.
#[tactic(auto, unfolding(crate::specs::Tunnels::chosen))]
fn chosen(front: &[u8]) -> Phase
    ensures { result ≡ chosen_of front.now }
{
    match front {
        [5, 0, ..] => Phase::Socks5(Socks5Phase::Request),
        [5, 2, ..] => Phase::Login(LoginPhase::User),
        [5, 255, ..] => Phase::Over(Outcome::Plain),
        _ => Phase::Over(Outcome::Unknown),
    }
}

/// The phase behind the length of the user's name.
#[tactic(auto, unfolding(crate::specs::Tunnels::name_of))]
fn name_of(front: &[u8]) -> Phase
    ensures { result ≡ name front.now }
{
    match front {
        [1, 0, ..] => Phase::Login(LoginPhase::PasswordLength),
        [1, length, ..] => Phase::Login(LoginPhase::Name(*length)),
        _ => Phase::Over(Outcome::Unknown),
    }
}

/// What follows a phase of authentication.
#[tactic(auto, unfolding(crate::specs::Tunnels::login_next))]
pub(crate) fn login_next(phase: LoginPhase, front: &[u8]) -> Phase
    ensures { result ≡ login phase front.now }
{
    match phase {
        LoginPhase::Count => match front {
            [0, ..] => Phase::Over(Outcome::Unknown),
            [count, ..] => Phase::Login(LoginPhase::Methods(*count)),
            [] => Phase::Over(Outcome::Unknown),
        },
        LoginPhase::Methods(_) => Phase::Login(LoginPhase::Choice),
        LoginPhase::Choice => chosen(front),
        LoginPhase::User => name_of(front),
        LoginPhase::Name(_) => Phase::Login(LoginPhase::PasswordLength),
        LoginPhase::PasswordLength => match front {
            [0, ..] => Phase::Login(LoginPhase::Status),
            [length, ..] => Phase::Login(LoginPhase::Password(*length)),
            [] => Phase::Over(Outcome::Unknown),
        },
        LoginPhase::Password(_) => Phase::Login(LoginPhase::Status),
        LoginPhase::Status => match front {
            [1, 0, ..] => Phase::Socks5(Socks5Phase::Request),
            _ => Phase::Over(Outcome::Plain),
        },
    }
}

/// The side that a phase of SOCKS 5 reads.
#[tactic(auto, unfolding(crate::specs::Tunnels::socks5_reads))]
pub(crate) fn socks5_reads(phase: Socks5Phase) -> Side
    ensures { result ≡ socks5_side phase }
{
    match phase {
        Socks5Phase::Request | Socks5Phase::HostLength | Socks5Phase::Address(_) => Side::Client,
        Socks5Phase::Reply | Socks5Phase::BoundLength | Socks5Phase::Bound(_) => Side::Server,
    }
}

/// How far a phase of SOCKS 5 reads.
#[tactic(auto, unfolding(crate::specs::Tunnels::socks5_frame))]
pub(crate) fn socks5_frame(phase: Socks5Phase) -> Frame
    ensures { result ≡ frame_of_socks5 phase }
{
    match phase {
        Socks5Phase::Request | Socks5Phase::Reply => Frame::Count(4),
        Socks5Phase::HostLength | Socks5Phase::BoundLength => Frame::Count(1),
        Socks5Phase::Address(length) => Frame::Count(length),
        Socks5Phase::Bound(length) => Frame::Count(length),
    }
}

/// The phase behind a request up to the type of its address.
#[tactic(auto, unfolding(crate::specs::Tunnels::requested))]
fn requested(front: &[u8]) -> Phase
    ensures { result ≡ requested_of front.now }
{
    match front {
        [5, 1, _, 1, ..] => Phase::Socks5(Socks5Phase::Address(6)),
        [5, 1, _, 3, ..] => Phase::Socks5(Socks5Phase::HostLength),
        [5, 1, _, 4, ..] => Phase::Socks5(Socks5Phase::Address(18)),
        _ => Phase::Over(Outcome::Unknown),
    }
}

/// The phase behind a reply up to the type of its address.
#[tactic(auto, unfolding(crate::specs::Tunnels::bound))]
fn bound(front: &[u8]) -> Phase
    ensures { result ≡ bound_of front.now }
{
    match front {
        [5, 0, _, 1, ..] => Phase::Socks5(Socks5Phase::Bound(6)),
        [5, 0, _, 3, ..] => Phase::Socks5(Socks5Phase::BoundLength),
        [5, 0, _, 4, ..] => Phase::Socks5(Socks5Phase::Bound(18)),
        _ => Phase::Over(Outcome::Plain),
    }
}

/// The length of a host's name and a port.
#[tactic(auto, unfolding(crate::specs::Tunnels::host_of))]
fn host_of(front: &[u8]) -> u32
    ensures { result ≡ host front.now }
{
    match front {
        [length, ..] => u32::from(*length) + 2,
        [] => 2,
    }
}

/// What follows a phase of SOCKS 5.
#[tactic(auto, unfolding(crate::specs::Tunnels::socks5_next))]
pub(crate) fn socks5_next(phase: Socks5Phase, front: &[u8]) -> Phase
    ensures { result ≡ socks5 phase front.now }
{
    match phase {
        Socks5Phase::Request => requested(front),
        Socks5Phase::HostLength => Phase::Socks5(Socks5Phase::Address(host_of(front))),
        Socks5Phase::Address(_) => Phase::Socks5(Socks5Phase::Reply),
        Socks5Phase::Reply => bound(front),
        Socks5Phase::BoundLength => Phase::Socks5(Socks5Phase::Bound(host_of(front))),
        Socks5Phase::Bound(_) => Phase::Over(Outcome::Tls(Protocol::Socks5)),
    }
}

/// How far a phase of the PROXY protocol reads.
#[tactic(auto, unfolding(crate::specs::Tunnels::proxy_frame))]
pub(crate) fn proxy_frame(phase: ProxyPhase) -> Frame
    ensures { result ≡ frame_of_proxy phase }
{
    match phase {
        ProxyPhase::Header => Frame::Count(15),
        ProxyPhase::Addresses(length) => Frame::Count(length),
    }
}

/// The phase behind the first 16 bytes of the PROXY protocol's version 2.
#[tactic(auto, unfolding(crate::specs::Tunnels::proxy_header))]
fn proxy_header(front: &[u8]) -> Phase
    ensures { result ≡ header_of_proxy front.now }
{
    if !begins(front, b"\n\r\n\x00\r\nQUIT\n") {
        return Phase::Over(Outcome::Unknown);
    }
    match front {
        [_, _, _, _, _, _, _, _, _, _, _, version, _, high, low, ..] => {
            let length = u32::from(*high) * 256 + u32::from(*low);
            if *version / 16 != 2 {
                Phase::Over(Outcome::Unknown)
            } else if length == 0 {
                Phase::Over(Outcome::Tls(Protocol::Proxy))
            } else {
                Phase::Proxy(ProxyPhase::Addresses(length))
            }
        }
        _ => Phase::Over(Outcome::Unknown),
    }
}

/// What follows a phase of the PROXY protocol.
#[tactic(auto, unfolding(crate::specs::Tunnels::proxy_next))]
pub(crate) fn proxy_next(phase: ProxyPhase, front: &[u8]) -> Phase
    ensures { result ≡ proxy phase front.now }
{
    match phase {
        ProxyPhase::Header => proxy_header(front),
        ProxyPhase::Addresses(_) => Phase::Over(Outcome::Tls(Protocol::Proxy)),
    }
}
