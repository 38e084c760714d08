//! The names that are printed.
ghost use Rattle.std.specs.Prelude.{◌≡◌};
ghost use Rattle.log_fields.specs.Names.{kind_text, outcome_text, reason_text, sender_text};
ghost use Rattle.log_fields.specs.Names.{dialogue_text, fault_text, search_text, tunnel_text};
ghost use Rattle.std.specs.Option.{option_map};
ghost use Rattle.std.specs.Prelude.{◌==◌};

use connections::DropReason;
use log_certificates::error_name;
use preambles::Protocol;
use tls_flow::{Direction, Kind, Outcome};
use tls_summary::CertificateFault;
use tunnels::TunnelKind;

/// Returns the name of a handshake's outcome.
pub fn outcome_name(outcome: Outcome) -> &'static str
    ensures { result.now ≡ outcome_text outcome }
{
    match outcome {
        Outcome::Waiting => "waiting",
        Outcome::Full => "full",
        Outcome::Resumed => "resumed",
        Outcome::Tls13 { .. } => "tls13",
        Outcome::BrokenOff => "broken_off",
        Outcome::Unknown => "unknown",
        Outcome::NoHandshake => "no_handshake",
    }
}

/// Returns the name of a protocol in front of TLS.
pub fn dialogue_name(protocol: Protocol) -> &'static str
    ensures { result.now ≡ dialogue_text protocol }
{
    match protocol {
        Protocol::Smtp => "smtp",
        Protocol::Lmtp => "lmtp",
        Protocol::Ftp => "ftp",
        Protocol::Pop3 => "pop3",
        Protocol::Imap => "imap",
        Protocol::Sieve => "sieve",
        Protocol::Nntp => "nntp",
        Protocol::Irc => "irc",
        Protocol::Proxy => "proxy",
        Protocol::HttpConnect => "http_connect",
        Protocol::Socks4 => "socks4",
        Protocol::Socks5 => "socks5",
        Protocol::Postgres => "postgresql",
        Protocol::Mysql => "mysql",
        Protocol::Rdp => "rdp",
        Protocol::Tds => "tds",
        Protocol::Ldap => "ldap",
        Protocol::Xmpp => "xmpp",
    }
}

/// Returns the name of the search, if a side sent bytes before TLS: the arguments count those.
pub fn search_name(originator: u64, responder: u64) -> Option<&'static str>
    ensures { option_map (λ t. t.now) result ≡ search_text (originator == 0) (responder == 0) }
{
    match (originator == 0, responder == 0) {
        (true, true) => None,
        (true, false) | (false, _) => Some("search"),
    }
}

/// Returns the name of a message's sender.
pub fn sender_name(direction: Direction) -> &'static str
    ensures { result.now ≡ sender_text direction }
{
    match direction {
        Direction::ToServer => "client",
        Direction::FromServer => "server",
    }
}

/// Returns the name of a kind of message.
pub fn kind_name(kind: Kind) -> &'static str
    ensures { result.now ≡ kind_text kind }
{
    match kind {
        Kind::HelloRequest => "hello_request",
        Kind::ClientHello => "client_hello",
        Kind::HelloVerifyRequest => "hello_verify_request",
        Kind::ServerHello | Kind::ServerHello13 => "server_hello",
        Kind::HelloRetryRequest => "hello_retry_request",
        Kind::NewSessionTicket => "new_session_ticket",
        Kind::Certificate => "certificate",
        Kind::ServerKeyExchange => "server_key_exchange",
        Kind::CertificateRequest => "certificate_request",
        Kind::ServerDone => "server_hello_done",
        Kind::CertificateVerify => "certificate_verify",
        Kind::ClientKeyExchange => "client_key_exchange",
        Kind::CertificateStatus => "certificate_status",
        Kind::ChangeCipherSpec => "change_cipher_spec",
        Kind::Encrypted => "encrypted",
        Kind::Warning | Kind::NoCertificate | Kind::Fatal => "alert",
        Kind::Heartbeat => "heartbeat",
        Kind::Unknown => "unknown",
        Kind::Other => "other",
    }
}

/// Returns the name of the reason why a certificate can't be parsed.
pub fn fault_name(fault: CertificateFault) -> &'static str
    ensures { result.now ≡ fault_text fault }
{
    match fault {
        CertificateFault::Incomplete => "incomplete",
        CertificateFault::Trailing => "trailing",
        CertificateFault::Broken(kind) => error_name(kind),
    }
}

/// Returns the name of a tunnel's protocol.
pub fn tunnel_name(kind: TunnelKind) -> &'static str
    ensures { result.now ≡ tunnel_text kind }
{
    match kind {
        TunnelKind::Ipv4 => "ipv4",
        TunnelKind::Ipv6 => "ipv6",
        TunnelKind::Gre => "gre",
        TunnelKind::Erspan => "erspan",
        TunnelKind::Mpls => "mpls",
        TunnelKind::Vxlan => "vxlan",
        TunnelKind::Geneve => "geneve",
        TunnelKind::GtpU => "gtp",
        TunnelKind::Teredo => "teredo",
        TunnelKind::Backbone => "pbb",
    }
}

/// Why a receiver drops a packet, in the order in which the reasons are printed.
pub static REASONS: [DropReason; 9] = [
    DropReason::Checksum,
    DropReason::NoAck,
    DropReason::Acknowledgment,
    DropReason::Window,
    DropReason::Clock,
    DropReason::Signature,
    DropReason::Syn,
    DropReason::Reset,
    DropReason::Fin,
];

/// Returns the name of a reason.
pub fn reason_name(reason: DropReason) -> &'static str
    ensures { result.now ≡ reason_text reason }
{
    match reason {
        DropReason::Checksum => "checksum",
        DropReason::NoAck => "no_ack",
        DropReason::Acknowledgment => "ack",
        DropReason::Window => "window",
        DropReason::Clock => "paws",
        DropReason::Signature => "signature",
        DropReason::Syn => "syn",
        DropReason::Reset => "rst",
        DropReason::Fin => "fin",
    }
}
