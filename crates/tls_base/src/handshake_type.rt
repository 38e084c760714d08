//! Types of handshake messages.
ghost use Rattle.std.specs.Prelude.{Some, codes, ◌≡◌};
ghost use Rattle.layouts.specs.Layout.{number};
ghost use Rattle.layouts.specs.Answers.{Gives};
ghost use Rattle.std.specs.Option.{option_map};
ghost use Rattle.tls_base.specs.Names.{look_up, name};
ghost use Rattle.tls_base.specs.Registered.{registered_handshake_types};
ghost use Rattle.tls_base.specs.Constants.{handshake_types};

use crate::name::{find_name, names, registered, write_name};
use layouts::{IResult, number1, parsed};
use std::fmt;

/// The type of a handshake message: the HandshakeType of RFC 5246, section 7.4, and RFC 8446,
/// section 4.
#[derive(Clone, Copy, Debug, PartialEq, Eq)]
pub struct TlsHandshakeType(pub u8);

impl TlsHandshakeType {
    /// `hello_request` (RFC 5246, section 7.4.1.1).
    pub const HelloRequest: TlsHandshakeType = TlsHandshakeType(0);

    /// `client_hello` (RFC 8446, section 4.1.2).
    pub const ClientHello: TlsHandshakeType = TlsHandshakeType(1);

    /// `server_hello` (RFC 8446, section 4.1.3).
    pub const ServerHello: TlsHandshakeType = TlsHandshakeType(2);

    /// `hello_verify_request` of DTLS alone (RFC 6347, section 4.2.1).
    pub const HelloVerifyRequest: TlsHandshakeType = TlsHandshakeType(3);

    /// `new_session_ticket` (RFC 5077, section 3.3, and RFC 8446, section 4.6.1).
    pub const NewSessionTicket: TlsHandshakeType = TlsHandshakeType(4);

    /// `end_of_early_data` of TLS 1.3 (RFC 8446, section 4.5).
    pub const EndOfEarlyData: TlsHandshakeType = TlsHandshakeType(5);

    /// `hello_retry_request` of drafts of TLS 1.3. In RFC 8446, section 4.1.4, it is a ServerHello.
    pub const HelloRetryRequest: TlsHandshakeType = TlsHandshakeType(6);

    /// `encrypted_extensions` of TLS 1.3 (RFC 8446, section 4.3.1).
    pub const EncryptedExtensions: TlsHandshakeType = TlsHandshakeType(8);

    /// `certificate` (RFC 5246, section 7.4.2, and RFC 8446, section 4.4.2).
    pub const Certificate: TlsHandshakeType = TlsHandshakeType(11);

    /// `server_key_exchange` (RFC 5246, section 7.4.3).
    pub const ServerKeyExchange: TlsHandshakeType = TlsHandshakeType(12);

    /// `certificate_request` (RFC 5246, section 7.4.4, and RFC 8446, section 4.3.2).
    pub const CertificateRequest: TlsHandshakeType = TlsHandshakeType(13);

    /// `server_hello_done` (RFC 5246, section 7.4.5).
    pub const ServerDone: TlsHandshakeType = TlsHandshakeType(14);

    /// `certificate_verify` (RFC 5246, section 7.4.8, and RFC 8446, section 4.4.3).
    pub const CertificateVerify: TlsHandshakeType = TlsHandshakeType(15);

    /// `client_key_exchange` (RFC 5246, section 7.4.7).
    pub const ClientKeyExchange: TlsHandshakeType = TlsHandshakeType(16);

    /// `finished` (RFC 5246, section 7.4.9, and RFC 8446, section 4.4.4).
    pub const Finished: TlsHandshakeType = TlsHandshakeType(20);

    /// `certificate_url` (RFC 6066, section 5): where to fetch the client's certificate.
    pub const CertificateURL: TlsHandshakeType = TlsHandshakeType(21);

    /// `certificate_status` (RFC 6066, section 8): the status of the server's certificate.
    pub const CertificateStatus: TlsHandshakeType = TlsHandshakeType(22);

    /// `key_update` of TLS 1.3 (RFC 8446, section 4.6.3).
    pub const KeyUpdate: TlsHandshakeType = TlsHandshakeType(24);

    /// `next_protocol` (draft-agl-tls-nextprotoneg).
    pub const NextProtocol: TlsHandshakeType = TlsHandshakeType(67);

    /// Returns the number's name in IANA's registry of handshake types, without the remark that it
    /// is reserved; `None` if it has none.
    pub fn registered_name(self) -> Option<&'static str>
        ensures { option_map (λ t. t.now) result ≡ look_up registered_handshake_types self.0 }
    {
        find_name(REGISTERED, self.0 as u16)
    }

    /// Reads 1 byte. `Incomplete(1)` if there is none.
    pub fn parse(i: &[u8]) -> IResult<&[u8], Self>
        ensures { Gives (λ v. v.0) (number 1) i.now result }
    {
        let (i, n) = parsed!(number1(i));
        Ok((i, TlsHandshakeType(n)))
    }
}

/// The registry of handshake types, in increasing order: a row for each number with a constant or a
/// registered name.
macro_rules! rows {
    ($column:ident) => {
        $column! {
            TlsHandshakeType:
            HelloRequest = "hello_request";
            ClientHello = "client_hello";
            ServerHello = "server_hello";
            HelloVerifyRequest = "hello_verify_request";
            NewSessionTicket = "new_session_ticket";
            EndOfEarlyData = "end_of_early_data";
            HelloRetryRequest = "hello_retry_request";
            EncryptedExtensions = "encrypted_extensions";
            9 = "request_connection_id"; // RFC 9147, section 9
            10 = "new_connection_id"; // RFC 9147, section 9
            Certificate = "certificate";
            ServerKeyExchange = "server_key_exchange";
            CertificateRequest = "certificate_request";
            ServerDone = "server_hello_done";
            CertificateVerify = "certificate_verify";
            ClientKeyExchange = "client_key_exchange";
            17 = "client_certificate_request"; // RFC 9261, section 4
            Finished = "finished";
            CertificateURL = "certificate_url";
            CertificateStatus = "certificate_status";
            23 = "supplemental_data"; // RFC 4680, section 3
            KeyUpdate = "key_update";
            25 = "compressed_certificate"; // RFC 8879, section 4
            26 = "ekt_key"; // RFC 8870, section 5.2.2
            NextProtocol = "next_protocol";
            254 = "message_hash"; // RFC 8446, section 4.4.1
        }
    };
}

/// The constants, each as its number and its name.
static NAMES: &[(u16, &str)] = rows!(names);

/// The registry's names, each after its number.
static REGISTERED: &[(u16, &str)] = rows!(registered);

impl fmt::Display for TlsHandshakeType {
    ghost output = { λ v. Some (name (codes "TlsHandshakeType") handshake_types v.0) };

    fn fmt<W: fmt::Write>(&self, f: &mut fmt::Formatter<W>) -> fmt::Result {
        write_name(f, "TlsHandshakeType", NAMES, self.0 as u16)
    }
}

impl From<TlsHandshakeType> for u8 {
    ghost from_gives = { λ v n. n ≡ v.0 };

    fn from(v: TlsHandshakeType) -> u8 {
        v.0
    }
}
