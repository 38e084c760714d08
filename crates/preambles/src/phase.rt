//! The phases of a dialogue.

/// A side of a connection.
#[derive(Clone, Copy, Debug, PartialEq, Eq)]
pub enum Side {
    /// The side that connected.
    Client,
    /// The side that was connected to.
    Server,
}

/// A protocol that hands a connection over to TLS.
#[derive(Clone, Copy, Debug, PartialEq, Eq)]
pub enum Protocol {
    /// SMTP's STARTTLS (RFC 3207).
    Smtp,
    /// LMTP's STARTTLS (RFC 3207, over RFC 2033).
    Lmtp,
    /// FTP's AUTH TLS (RFC 4217).
    Ftp,
    /// POP3's STLS (RFC 2595).
    Pop3,
    /// IMAP's STARTTLS (RFC 9051, section 6.2.1).
    Imap,
    /// ManageSieve's STARTTLS (RFC 5804, section 2.2).
    Sieve,
    /// NNTP's STARTTLS (RFC 4642).
    Nntp,
    /// IRC's STARTTLS, with the answer 670 (IRCv3, tls-3.1).
    Irc,
    /// The PROXY protocol, versions 1 and 2.
    Proxy,
    /// HTTP's CONNECT (RFC 9110, section 9.3.6).
    HttpConnect,
    /// SOCKS 4 and 4A.
    Socks4,
    /// SOCKS 5 (RFC 1928 and RFC 1929).
    Socks5,
    /// PostgreSQL's SSLRequest.
    Postgres,
    /// MySQL's SSLRequest.
    Mysql,
    /// RDP's negotiation (MS-RDPBCGR, section 2.2.1).
    Rdp,
    /// SQL Server's PRELOGIN (MS-TDS, section 2.2.6.5). TLS comes in the packets behind it, and
    /// [`TdsReader`](crate::TdsReader) takes it out of them.
    Tds,
    /// LDAP's StartTLS (RFC 4511, section 4.14).
    Ldap,
    /// XMPP's STARTTLS (RFC 6120, section 5).
    Xmpp,
}

/// What is known of where TLS begins.
#[derive(Clone, Copy, Debug, PartialEq, Eq)]
pub enum Outcome {
    /// The dialogue goes on.
    Undecided,
    /// TLS, or another preamble, begins with the next byte of each side.
    Tls(Protocol),
    /// A known protocol goes on without TLS.
    Plain,
    /// The bytes begin no dialogue that is followed.
    Unknown,
}

/// The line protocols by how they begin. SMTP and FTP have the same greeting; what the client asks
/// for tells them apart.
#[derive(Clone, Copy)]
pub(crate) enum Dialect {
    /// SMTP or FTP.
    Codes,
    Lmtp,
    Pop3,
    Imap,
    Sieve,
    Nntp,
}

/// A word of a command or answer.
#[derive(Clone, Copy)]
pub(crate) enum Word {
    Starttls,
    Stls,
    Auth,
    Tls,
    Lhlo,
    Capa,
    /// A command that logs in, if the answer is positive.
    Login,
    /// A command that logs in with values that the server asks for.
    Authenticate,
    Other,
}

/// The first two words of a command.
#[derive(Clone, Copy)]
pub(crate) struct Command {
    pub(crate) first: Word,
    pub(crate) second: Word,
}

/// What a line of the server means to the command that it answers.
#[derive(Clone, Copy)]
pub(crate) enum Answer {
    /// Another line of the answer follows.
    More,
    /// The answer is over; the next command follows.
    Done,
    /// The server asks for a value, such as a password.
    Asks,
    /// A list follows, to a line of one dot.
    Lists,
    /// TLS begins.
    Accepts(Protocol),
    /// The protocol goes on without TLS.
    Ends,
    /// No answer of this protocol.
    Foreign,
}

/// What comes next in a dialogue.
#[derive(Clone, Copy)]
pub(crate) enum Phase {
    /// The client's first line, or its first byte if that isn't text.
    Opening,
    /// The first line of the server's greeting. The client's first command was sent.
    Greeting(Command),
    /// Further lines of the greeting.
    GreetingRest(Dialect, Command),
    /// A line of the client: a command.
    Command(Dialect),
    /// A line of the client: the value that the server asked for.
    Value(Dialect),
    /// A line of the server, which answers a command.
    Reply(Dialect, Command),
    /// A line of the server in a list that ends with a line of one dot.
    Listing(Dialect),
    /// A line of an IRC client.
    IrcCommand,
    /// A line of an IRC server, after STARTTLS.
    IrcReply,
    /// HTTP's CONNECT.
    Connect(ConnectPhase),
    /// SOCKS 4 or 4A.
    Socks4(Socks4Phase),
    /// The authentication of SOCKS 5.
    Login(LoginPhase),
    /// The request of SOCKS 5.
    Socks5(Socks5Phase),
    /// The PROXY protocol's version 2.
    Proxy(ProxyPhase),
    /// PostgreSQL.
    Postgres(PostgresPhase),
    /// MySQL.
    Mysql(MysqlPhase),
    /// RDP.
    Rdp(RdpPhase),
    /// TDS, of SQL Server.
    Tds(TdsPhase),
    /// LDAP.
    Ldap(Role, LdapPhase),
    /// XMPP.
    Xmpp(XmppPhase),
    /// The end.
    Over(Outcome),
}

/// HTTP's CONNECT (RFC 9110, section 9.3.6).
#[derive(Clone, Copy)]
pub(crate) enum ConnectPhase {
    /// A line of the request's header.
    Header,
    /// The status line of the server.
    Status,
    /// A line of the header of a 2xx response.
    Accepted,
    /// A line of the header of a 1xx response.
    Interim,
    /// A line of the header of another response; how long its body is.
    Refused(u32),
    /// The body of that response.
    Body(u32),
    /// The line of the next request.
    Again,
}

/// SOCKS 4 and 4A, behind the version.
#[derive(Clone, Copy)]
pub(crate) enum Socks4Phase {
    /// Command, port and address.
    Request,
    /// The user's name; whether a host's name follows.
    User(bool),
    /// The host's name.
    Host,
    /// The server's reply.
    Reply,
}

/// The authentication of SOCKS 5 (RFC 1928, section 3; RFC 1929), behind the version.
#[derive(Clone, Copy)]
pub(crate) enum LoginPhase {
    /// How many methods the client has.
    Count,
    /// Its methods.
    Methods(u8),
    /// The server's choice.
    Choice,
    /// The version of RFC 1929, and the length of the user's name.
    User,
    /// The user's name.
    Name(u8),
    /// The length of the password.
    PasswordLength,
    /// The password.
    Password(u8),
    /// The server's answer.
    Status,
}

/// The request of SOCKS 5 (RFC 1928, sections 4 to 6).
#[derive(Clone, Copy)]
pub(crate) enum Socks5Phase {
    /// Up to the type of the address.
    Request,
    /// The length of the host's name.
    HostLength,
    /// The rest of address and port.
    Address(u32),
    /// The server's reply, up to the type of the address.
    Reply,
    /// The length of the name in the reply.
    BoundLength,
    /// The rest of address and port in the reply.
    Bound(u32),
}

/// The PROXY protocol, version 2, behind the first byte.
#[derive(Clone, Copy)]
pub(crate) enum ProxyPhase {
    /// The rest of the first 16 bytes.
    Header,
    /// Addresses and TLVs.
    Addresses(u32),
}

/// PostgreSQL, behind the first byte.
#[derive(Clone, Copy)]
pub(crate) enum PostgresPhase {
    /// The rest of a request for encryption.
    Request,
    /// The answer to SSLRequest.
    Answer,
    /// The answer to GSSENCRequest.
    GssAnswer,
    /// The request behind a refused GSSENCRequest.
    Again,
}

/// MySQL, behind the client's first byte.
#[derive(Clone, Copy)]
pub(crate) enum MysqlPhase {
    /// The rest of SSLRequest.
    Request,
    /// The header of the server's greeting, and its version.
    Greeting,
    /// The rest of the greeting.
    Rest(u32),
}

/// RDP, behind the client's first byte.
#[derive(Clone, Copy)]
pub(crate) enum RdpPhase {
    /// The rest of the TPKT header.
    Header,
    /// The connection request.
    Request(u32),
    /// The TPKT header of the server.
    Answer,
    /// The connection confirm.
    Confirm,
}

/// TDS, behind the client's first byte.
#[derive(Clone, Copy)]
pub(crate) enum TdsPhase {
    /// The rest of the header of PRELOGIN.
    Header,
    /// The client's options.
    Options(u32),
    /// The header of the server's answer.
    AnswerHeader,
    /// The server's options.
    Answer(u32),
}

/// Whose message of LDAP this is.
#[derive(Clone, Copy)]
pub(crate) enum Role {
    /// The client's.
    Request,
    /// The server's; whether StartTLS was asked for.
    Answer(bool),
}

/// A message of LDAP.
#[derive(Clone, Copy)]
pub(crate) enum LdapPhase {
    /// Its tag.
    Tag,
    /// Its length, or how many bytes that has.
    Length,
    /// The bytes of its length.
    LongLength(u8),
    /// Its content.
    Content(u32),
}

/// XMPP, behind the client's first byte. Each phase reads to the end of a tag.
#[derive(Clone, Copy)]
pub(crate) enum XmppPhase {
    /// The client's first tag.
    First,
    /// A tag of the client.
    Client,
    /// The end tag of starttls.
    StarttlsEnd,
    /// A tag of the server, after starttls.
    Server,
    /// The end tag of proceed.
    ProceedEnd,
}

/// How far the bytes of a phase reach.
#[derive(Clone, Copy)]
pub(crate) enum Frame {
    /// To the end of a line if the first byte is text, else one byte.
    Opening,
    /// To this byte.
    Until(u8),
    /// This many bytes, at least one.
    Count(u32),
}
