//! The states of a handshake, and their outcomes.

/// How a conversation ended, or that it hasn't.
#[derive(Clone, Copy, Debug, PartialEq)]
pub enum Outcome {
    /// A handshake is under way, or nothing was sent yet.
    Waiting,
    /// A full handshake completed.
    Full,
    /// A session was resumed.
    Resumed,
    /// TLS 1.3 was negotiated; the handshake is followed up to its ServerHello.
    Tls13 {
        /// The server sent a HelloRetryRequest, which asks for a second ClientHello.
        retried: bool,
        /// The client sent encrypted records before the ServerHello. Whether the server accepted
        /// them isn't visible.
        early_data: bool,
    },
    /// A fatal alert broke off a handshake that was under way.
    BrokenOff,
    /// An unknown message came while a handshake was under way.
    Unknown,
    /// The messages are no handshake and can't become one.
    NoHandshake,
}

/// The state of a handshake. The table of transitions gives the messages that each state waits for.
#[derive(Clone, Copy, Debug, PartialEq)]
pub enum State {
    /// Nothing was sent yet.
    Start,
    /// After the first ClientHello.
    Hello,
    /// After a HelloVerifyRequest.
    Verify,
    /// After a ClientHello with a cookie.
    VerifiedHello,
    /// After a ClientHello and a ChangeCipherSpec: only TLS 1.3 can come.
    ChangedHello,
    /// After a ClientHello and early data.
    EarlyHello,
    /// After a HelloRetryRequest.
    Retry,
    /// After a HelloRetryRequest, with early data.
    EarlyRetry,
    /// After the ClientHello that follows a HelloRetryRequest.
    SecondHello,
    /// After the ClientHello that follows a HelloRetryRequest, with early data.
    EarlySecondHello,
    /// After a ServerHello below TLS 1.3.
    ServerHello,
    /// After the server's Certificate.
    Certificate,
    /// After the server's CertificateStatus.
    CertificateStatus,
    /// After a ServerKeyExchange that follows a Certificate.
    CertifiedKeys,
    /// After a ServerKeyExchange without a Certificate.
    Keys,
    /// After a CertificateRequest.
    Request,
    /// After the ServerHelloDone that follows a CertificateRequest.
    RequestDone,
    /// After the client's Certificate.
    ClientCertificate,
    /// After the ClientKeyExchange that follows the client's Certificate.
    ClientKeys,
    /// After a ServerHelloDone without a CertificateRequest.
    Done,
    /// After the client's last message before its ChangeCipherSpec.
    ClientDone,
    /// After the client's ChangeCipherSpec in a full handshake.
    ClientChange,
    /// After the NewSessionTicket of a full handshake.
    Ticket,
    /// After the NewSessionTicket of a resumption.
    ResumedTicket,
    /// After the server's ChangeCipherSpec in a resumption.
    ServerChange,
    /// A full handshake completed.
    Full,
    /// A session was resumed.
    Resumed,
    /// TLS 1.3 was negotiated.
    Tls13,
    /// TLS 1.3 was negotiated, with early data.
    EarlyTls13,
    /// TLS 1.3 was negotiated after a HelloRetryRequest.
    RetriedTls13,
    /// TLS 1.3 was negotiated after a HelloRetryRequest, with early data.
    EarlyRetriedTls13,
    /// A fatal alert broke off the handshake.
    BrokenOff,
    /// An unknown message came.
    Unknown,
    /// The messages are no handshake.
    NoHandshake,
}
