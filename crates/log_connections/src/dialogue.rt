//! The dialogue in front of TLS.
ghost use Rattle.std.specs.Prelude.{◌≡◌, ◌-◌, None, length, drop};
ghost use Rattle.std.specs.Option.{option_map};
ghost use Rattle.preambles.specs.Walk.{begun as begun_place, view as place_of};
ghost use Rattle.log_connections.specs.Dialogue.{GoesOn, are_too_many as are_many, begins_record as begins_one, begun_by, behind_tunnel as behind_its_tunnel, Resumes, are_too_many_behind as are_many_behind, awaits, behind_missing as behind_missing_in, goes_on, is_followed as goes_on_in, is_tunnel as leads_on, protocol_in, reached, reading_on, staying, unread_of, view_reader, state_of, stepped, stepped_by, unknown_behind, view_step, without_more as without};
ghost use Rattle.preambles.specs.Rows.{outcome_of};

use crate::analysis::behind;
use preambles::{Outcome, Preamble, Protocol, Side};
use tls_detection::place_behind;

/// How many bytes of a side may wait for the other side's.
const UNREAD_LIMIT: usize = 65_536;

/// How many bytes of a side may wait behind missing ones.
const RESUMED_LIMIT: usize = 8_192;

/// The type of handshake records (RFC 8446, section 5.1), with which no dialogue begins.
pub(crate) const HANDSHAKE: u8 = 22;

/// How far the dialogue in front of TLS is.
#[derive(Clone, Copy)]
pub(crate) enum Dialogue {
    /// Nothing was read.
    New,
    /// It goes on.
    GoesOn(Followed),
    /// It goes on behind missing bytes: of its line or packet a part was missing, or all.
    Resumes(Followed, Followed),
    /// TLS begins with the next byte of each side.
    Tls(Protocol),
    /// It goes on without TLS.
    Plain,
    /// No dialogue is known.
    Unknown,
}

/// A dialogue that goes on.
#[derive(Clone, Copy)]
pub(crate) struct Followed {
    // The tunnel behind which it began.
    tunnel: Option<Protocol>,
    preamble: Preamble,
    // How many of the next bytes of client and server were read. They aren't skipped, since they
    // may be of no dialogue.
    client: usize,
    server: usize,
}

/// What the next bytes of both sides lead to.
#[derive(Clone, Copy)]
pub(crate) struct Step {
    pub(crate) dialogue: Dialogue,
    /// How many bytes of the client and of the server are skipped.
    pub(crate) client: usize,
    pub(crate) server: usize,
}

/// Returns whether another dialogue may follow behind that of a protocol.
fn is_tunnel(protocol: Protocol) -> bool
    ensures { result ≡ leads_on protocol }
{
    matches!(
        protocol,
        Protocol::Proxy | Protocol::HttpConnect | Protocol::Socks4 | Protocol::Socks5
    )
}

/// Returns a dialogue that is unknown. Behind a tunnel TLS begins at once.
fn behind_tunnel(tunnel: Option<Protocol>) -> Dialogue
    ensures value { result ≡ behind_its_tunnel tunnel }
    ensures state { state_of result ≡ unknown_behind tunnel }
{
    match tunnel {
        Some(protocol) => Dialogue::Tls(protocol),
        None => Dialogue::Unknown,
    }
}

/// Returns the dialogue behind that of a protocol.
fn behind_protocol(protocol: Protocol) -> Dialogue
    ensures { state_of result ≡ begun_by protocol }
{
    if is_tunnel(protocol) {
        return Dialogue::GoesOn(Followed {
            tunnel: Some(protocol),
            preamble: Preamble::new(),
            client: 0,
            server: 0,
        });
    }
    Dialogue::Tls(protocol)
}

/// Returns a step that skips no bytes.
fn stay(dialogue: Dialogue) -> Step
    ensures { view_step result ≡ staying (state_of dialogue) }
{
    Step {
        dialogue,
        client: 0,
        server: 0,
    }
}

/// Returns whether too many bytes of a side wait for the other side's.
fn are_too_many(client: &[u8], server: &[u8]) -> bool
    ensures { result ≡ are_many client.now server.now }
{
    client.len() > UNREAD_LIMIT || server.len() > UNREAD_LIMIT
}

/// Returns how many of these bytes were read, if this many were behind the first `n`.
fn read_of(bytes: &[u8], n: usize, more: usize) -> usize
    ensures { result ≡ length bytes.now - length (drop more (drop n bytes.now)) }
{
    let unread = behind(behind(bytes, n), more).len();
    bytes.len().saturating_sub(unread)
}

impl Followed {
    /// Returns the step of a dialogue that goes on. What was read is skipped once it shows the
    /// protocol.
    fn go_on(self) -> Step
        ensures { view_step result ≡ goes_on self.tunnel (place_of self.preamble) self.client
            self.server }
    {
        if !self.preamble.is_recognized() {
            return stay(Dialogue::GoesOn(self));
        }
        Step {
            dialogue: Dialogue::GoesOn(Followed {
                tunnel: None,
                preamble: self.preamble,
                client: 0,
                server: 0,
            }),
            client: self.client,
            server: self.server,
        }
    }

    /// Returns what the bytes that were read lead to.
    fn lead(self) -> Step
        ensures { view_step result ≡ stepped_by (outcome_of (place_of self.preamble).phase)
            self.tunnel (place_of self.preamble) self.client self.server }
    {
        match self.preamble.outcome() {
            Outcome::Undecided => self.go_on(),
            Outcome::Tls(protocol) => Step {
                dialogue: behind_protocol(protocol),
                client: self.client,
                server: self.server,
            },
            Outcome::Plain => stay(Dialogue::Plain),
            Outcome::Unknown => stay(behind_tunnel(self.tunnel)),
        }
    }

    /// Reads the next bytes of both sides on.
    fn read_on(self, client: &[u8], server: &[u8]) -> Followed
        ensures { view_reader result ≡ reading_on (view_reader self) client.now server.now }
    {
        let mut preamble = self.preamble;
        let (of_client, of_server) = preamble.read_both(
            behind(client, self.client),
            behind(server, self.server),
        );
        Followed {
            tunnel: None,
            preamble,
            client: read_of(client, self.client, of_client),
            server: read_of(server, self.server, of_server),
        }
    }

    /// Reads the next bytes of both sides, and returns what they lead to.
    fn step(self, client: &[u8], server: &[u8]) -> Step
        ensures { view_step result ≡ stepped
            (GoesOn self.tunnel (place_of self.preamble) self.client self.server) client.now
            server.now }
    {
        if are_too_many(client, server) {
            return stay(behind_tunnel(self.tunnel));
        }
        let read = self.read_on(client, server);
        let read = Followed {
            tunnel: self.tunnel,
            ..read
        };
        read.lead()
    }
}

/// Returns whether too many bytes of a side wait behind missing ones.
fn are_too_many_behind(client: &[u8], server: &[u8]) -> bool
    ensures { result ≡ are_many_behind client.now server.now }
{
    client.len() > RESUMED_LIMIT || server.len() > RESUMED_LIMIT
}

impl Followed {
    /// Returns the step to TLS, if what was read leads there.
    fn reached(self) -> Option<Step>
        ensures { option_map view_step result ≡ reached (view_reader self) }
    {
        match self.preamble.outcome() {
            Outcome::Tls(protocol) => Some(Step {
                dialogue: behind_protocol(protocol),
                client: self.client,
                server: self.server,
            }),
            _ => None,
        }
    }

    /// Returns it with no bytes of a side read.
    fn unread(self, side: Side) -> Followed
        ensures reader { view_reader result ≡ unread_of side (view_reader self) }
    {
        match side {
            Side::Client => Followed { client: 0, ..self },
            Side::Server => Followed { server: 0, ..self },
        }
    }

    /// Returns it at another place.
    fn at(self, preamble: Preamble) -> Followed
        ensures { view_reader result ≡ record (view_reader self) { place = place_of preamble } }
    {
        Followed {
            tunnel: None,
            preamble,
            client: self.client,
            server: self.server,
        }
    }

    /// Returns whether it reads a side next, and isn't behind a tunnel, where TLS may begin.
    fn awaits(&self, side: Side) -> bool
        ensures { result ≡ awaits side (GoesOn self.now.tunnel (place_of self.now.preamble)
            self.now.client self.now.server) }
    {
        if self.tunnel.is_some() {
            return false;
        }
        self.preamble.is_due(side)
    }

    /// Returns the dialogue behind missing bytes of a side.
    fn behind_missing(self, side: Side) -> Dialogue
        ensures { state_of result ≡ behind_missing_in side
            (GoesOn self.tunnel (place_of self.preamble) self.client self.server) }
    {
        if self.tunnel.is_some() {
            return Dialogue::GoesOn(self);
        }
        let again = self.at(self.preamble.again());
        let passed = self.at(self.preamble.passed());
        Dialogue::Resumes(again.unread(side), passed.unread(side))
    }
}

/// Returns what the next bytes lead to behind missing ones, where a part of a line or packet was
/// missing, or all of it.
#[tactic(auto, unfolding(crate::specs::Dialogue::stepped))]
fn resume(again: Followed, passed: Followed, client: &[u8], server: &[u8]) -> Step
    ensures { view_step result ≡ stepped (Resumes (view_reader again) (view_reader passed))
        client.now server.now }
{
    if are_too_many_behind(client, server) {
        return stay(Dialogue::Unknown);
    }
    let again = again.read_on(client, server);
    let passed = passed.read_on(client, server);
    if let Some(step) = again.reached() {
        return step;
    }
    if let Some(step) = passed.reached() {
        return step;
    }
    if place_behind(client, false).is_some() {
        return stay(Dialogue::Unknown);
    }
    stay(Dialogue::Resumes(again, passed))
}

/// Returns whether bytes begin with a handshake record.
fn begins_record(bytes: &[u8]) -> bool
    ensures { result ≡ begins_one bytes.now }
{
    match bytes {
        [first, ..] => *first == HANDSHAKE,
        [] => false,
    }
}

/// Returns the dialogue of which nothing was read.
fn begun() -> Followed
    ensures tunnel { result.tunnel ≡ None }
    ensures place { place_of result.preamble ≡ begun_place }
    ensures client { result.client ≡ 0 }
    ensures server { result.server ≡ 0 }
{
    Followed {
        tunnel: None,
        preamble: Preamble::new(),
        client: 0,
        server: 0,
    }
}

/// Returns what the first bytes of client and server lead to. (Most connections begin with TLS.)
fn begin(client: &[u8], server: &[u8]) -> Step
    ensures { view_step result ≡ stepped (GoesOn None begun_place 0 0) client.now server.now }
{
    if begins_record(client) {
        return stay(Dialogue::Unknown);
    }
    begun().step(client, server)
}

impl Dialogue {
    /// Returns whether it goes on.
    pub(crate) fn is_followed(&self) -> bool
        ensures { result ≡ goes_on_in self.now }
    {
        matches!(
            self,
            Dialogue::New | Dialogue::GoesOn(_) | Dialogue::Resumes(_, _)
        )
    }

    /// Returns the protocol of the dialogue behind which TLS begins.
    pub(crate) fn protocol(&self) -> Option<Protocol>
        ensures { result ≡ protocol_in self.now }
    {
        match self {
            Dialogue::Tls(protocol) => Some(*protocol),
            _ => None,
        }
    }

    /// Returns the dialogue if no more bytes come.
    pub(crate) fn without_more(&self) -> Dialogue
        ensures { result ≡ without self.now }
    {
        match self {
            Dialogue::New => Dialogue::Unknown,
            Dialogue::GoesOn(followed) => behind_tunnel(followed.tunnel),
            Dialogue::Resumes(_, _) => Dialogue::Unknown,
            _ => *self,
        }
    }

    /// Returns what the next bytes of client and server lead to.
    #[tactic(auto, unfolding(crate::specs::Dialogue::stepped))]
    pub(crate) fn step(&self, client: &[u8], server: &[u8]) -> Step
        ensures { view_step result ≡ stepped (state_of self.now) client.now server.now }
    {
        match self {
            Dialogue::New => begin(client, server),
            Dialogue::GoesOn(followed) => (*followed).step(client, server),
            Dialogue::Resumes(again, passed) => resume(*again, *passed, client, server),
            Dialogue::Tls(protocol) => stay(Dialogue::Tls(*protocol)),
            Dialogue::Plain => stay(Dialogue::Plain),
            Dialogue::Unknown => stay(Dialogue::Unknown),
        }
    }

    /// Returns whether missing bytes of a side are skipped.
    pub(crate) fn awaits(&self, side: Side) -> bool
        ensures { result ≡ awaits side (state_of self.now) }
    {
        match self {
            Dialogue::New => begun().awaits(side),
            Dialogue::GoesOn(followed) => followed.awaits(side),
            Dialogue::Resumes(_, _) | Dialogue::Unknown => true,
            Dialogue::Tls(_) | Dialogue::Plain => false,
        }
    }

    /// Returns the dialogue behind missing bytes of a side.
    pub(crate) fn behind_missing(&self, side: Side) -> Dialogue
        ensures { state_of result ≡ behind_missing_in side (state_of self.now) }
    {
        match self {
            Dialogue::New => begun().behind_missing(side),
            Dialogue::GoesOn(followed) => (*followed).behind_missing(side),
            Dialogue::Resumes(again, passed) => {
                Dialogue::Resumes((*again).unread(side), (*passed).unread(side))
            }
            _ => *self,
        }
    }
}
