//! States of a handshake.
ghost use Rattle.std.specs.Prelude.{◌≡◌, Contains, Some};
ghost use Rattle.tls_states.specs.States.{state_name, IsOncePlaced};

use std::fmt;

/// The state of a handshake, by the messages that may come next (RFC 5246, section 7.3).
///
/// Besides these, alerts may come in each state, and HelloRequests in each but [`TlsState::None`];
/// [`crate::tls_state_transition`] describes their effect. CertificateStatus is the message of RFC
/// 6066, section 8, and NewSessionTicket that of RFC 5077, section 3.3.
#[derive(Clone, Copy, Debug, PartialEq)]
pub enum TlsState {
    /// No message so far. Waits for the client's ClientHello.
    None,
    /// After a ClientHello without a session id. Waits for a ServerHello, or for that of draft 18
    /// of TLS 1.3.
    ClientHello,
    /// After a ClientHello with a session id. Waits for a ServerHello. Before it the client may
    /// send ChangeCipherSpecs, which keep this state.
    AskResumeSession,
    /// After the ServerHello to a client that offered a session. Waits for a ChangeCipherSpec of
    /// either side, if the session is resumed, or else for the server's Certificate.
    ResumeSession,
    /// After the ServerHello of a new session. Waits for the server's Certificate, or for its
    /// ServerKeyExchange if it has no certificate.
    ServerHello,
    /// After the server's Certificate. Waits for its ServerKeyExchange, CertificateStatus,
    /// CertificateRequest or ServerHelloDone.
    Certificate,
    /// After a CertificateStatus. Waits for the ServerKeyExchange.
    CertificateSt,
    /// After a ServerKeyExchange that followed a Certificate. Waits for a CertificateRequest or the
    /// ServerHelloDone.
    ServerKeyExchange,
    /// After the ServerHelloDone of a server with a certificate and a key exchange. Waits for the
    /// ClientKeyExchange.
    ServerHelloDone,
    /// After the ClientKeyExchange that follows `ServerHelloDone`. Waits for a ChangeCipherSpec of
    /// either side.
    ClientKeyExchange,
    /// After the first ChangeCipherSpec, of either side, or a ServerHello of draft 18. Waits for
    /// the server's ChangeCipherSpec, before which NewSessionTickets may come.
    ClientChangeCipherSpec,
    /// After a CertificateRequest. Waits for the ServerHelloDone.
    CRCertRequest,
    /// After the ServerHelloDone that follows `CRCertRequest`. Waits for the client's Certificate.
    CRHelloDone,
    /// After the client's Certificate. Waits for the ClientKeyExchange.
    CRCert,
    /// After the ClientKeyExchange that follows `CRCert`. Waits for a CertificateVerify, or for a
    /// ChangeCipherSpec, each of either side.
    CRClientKeyExchange,
    /// After a CertificateVerify. Waits for a ChangeCipherSpec of either side.
    CRCertVerify,
    /// After a ServerKeyExchange without a Certificate. Waits for the ServerHelloDone.
    NoCertSKE,
    /// After the ServerHelloDone that follows `NoCertSKE`. Waits for the ClientKeyExchange.
    NoCertHelloDone,
    /// After the ClientKeyExchange that follows `NoCertHelloDone`. Waits for a ChangeCipherSpec of
    /// either side.
    NoCertCKE,
    /// After a ServerHelloDone that directly followed the server's Certificate. Waits for the
    /// ClientKeyExchange.
    PskHelloDone,
    /// After the ClientKeyExchange that follows `PskHelloDone`. Waits for a ChangeCipherSpec of
    /// either side.
    PskCKE,
    /// After the server's ChangeCipherSpec that ends a handshake; the one before it may be the
    /// server's too. Waits for nothing, and every message keeps it.
    SessionEncrypted,
    /// No message leads here. Waits for nothing.
    Alert,
    /// After a fatal alert. Waits for nothing: every message leads to [`TlsState::Invalid`].
    Finished,
    /// After an unexpected message, or any message after a fatal alert. Waits for nothing, and
    /// every message keeps it.
    Invalid,
}

/// All states. Passes them to the macro `$then`, after the given words.
macro_rules! states {
    ($then:ident $($words:tt)*) => {
        $then! {
            [$($words)*]
            None, ClientHello, AskResumeSession, ResumeSession, ServerHello, Certificate,
                CertificateSt,
            ServerKeyExchange, ServerHelloDone, ClientKeyExchange, ClientChangeCipherSpec,
                CRCertRequest,
            CRHelloDone, CRCert, CRClientKeyExchange, CRCertVerify, NoCertSKE,
                NoCertHelloDone, NoCertCKE,
            PskHelloDone, PskCKE, SessionEncrypted, Alert, Finished, Invalid
        }
    };
}

/// Expands to 1 for each state.
macro_rules! one {
    ($state:ident) => {
        1
    };
}

/// Expands to the number of states.
macro_rules! count {
    ([] $($state:ident),*) => {
        0 $(+ one!($state))*
    };
}

/// Expands to an array of the states.
macro_rules! all {
    ([] $($state:ident),*) => {
        [$(TlsState::$state),*]
    };
}

/// Expands to the name of a state.
macro_rules! name {
    ([$of:ident] $($state:ident),*) => {
        match $of {
            $(TlsState::$state => stringify!($state),)*
        }
    };
}

const COUNT: usize = states!(count);

static STATES: [TlsState; COUNT] = states!(all);

impl TlsState {
    /// Returns all states, in the order of their declaration.
    pub fn all() -> &'static [TlsState]
        ensures each { (q : TlsState) → Contains result.now q }
        ensures once { IsOncePlaced result.now }
    {
        &STATES
    }

    /// Returns the name of the state, which is that of its variant.
    pub fn name(self) -> &'static str
        ensures { result.now ≡ state_name self }
    {
        let state = self;
        states!(name state)
    }
}

impl fmt::Display for TlsState {
    ghost output = { λ q. Some (state_name q) };

    fn fmt<W: fmt::Write>(&self, f: &mut fmt::Formatter<W>) -> fmt::Result {
        f.write_str(self.name())
    }
}

/// Why there is no transition for a message.
#[derive(Debug, PartialEq, Eq, Drop)]
pub enum StateChangeError {
    /// The state doesn't wait for this message in this direction.
    InvalidTransition,
    /// Never returned: messages are parsed before they are followed.
    ParseError,
}
