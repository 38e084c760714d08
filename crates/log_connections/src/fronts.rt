//! Where TLS begins in a side's stream: behind a dialogue that is known, or else by a search.
ghost use Rattle.std.specs.Prelude.{◌≡◌};
ghost use Rattle.log_connections.specs.Dialogue.{state_of};
ghost use Rattle.log_connections.specs.Fronts.{IsBehindMissing, IsFollowedBy, begins_there, beginning as begins, beginning_at_once, beginning_behind, beginning_by_search, beginning_in, found as found_in, is_hello_front as is_front_of_hello, is_waiting, lacks_first as lacks_first_of, may_begin as may_begin_in, no_preambles, passing, preamble as preamble_in, speaker_of, view_beginning, with_first as with_first_of, with_preamble, without_dialogue};

use crate::dialogue::{Dialogue, HANDSHAKE};
use connections::Side;
use preambles::TdsReader;
use ssl2_hello::{Ssl2ClientHello, begins_ssl2_hello, parse_ssl2_client_hello};
use tls_detection::{HEADER_LEN, HELLO_FRONT_LEN, begins_tls, place_behind};

/// How many bytes may come before TLS. Behind more it isn't looked for.
const PREAMBLE_LIMIT: u64 = 65_536;

/// How many bytes are held back because TLS may begin in them.
const WAITING_LEN: usize = HELLO_FRONT_LEN - 1;

/// How many bytes of each side were skipped before its TLS, and the dialogue in them.
#[derive(Clone, Copy)]
pub(crate) struct Preambles {
    originator: u64,
    responder: u64,
    pub(crate) dialogue: Dialogue,
    // Behind the dialogue of SQL Server, how far the packets are in which each side sends its TLS.
    pub(crate) packets_of_originator: TdsReader,
    pub(crate) packets_of_responder: TdsReader,
}

/// Where TLS begins on a side, by its next bytes.
#[derive(Clone, Copy)]
pub(crate) enum Beginning<'a> {
    /// Undecided: there are too few bytes.
    Waits,
    /// Not within this many bytes; too few follow them to decide.
    PassesOver(usize),
    /// After this many bytes, where it was found.
    At(usize),
    /// With a first byte that isn't in the stream, since it was taken for a keep-alive.
    BehindFirst,
    /// At once, with this ClientHello in the SSL 2.0 format, in a record of this many bytes.
    InSsl2(Ssl2ClientHello<'a>, usize),
    /// With the next byte, whatever that is, behind a dialogue; or it began before.
    Next,
    /// Nowhere: the side doesn't speak TLS.
    Nowhere,
}

/// Returns where TLS begins, if a search found a position behind the `skipped` bytes.
fn found<'a>(place: Option<usize>, are_last: bool, skipped: u64, len: usize) -> Beginning<'a>
    ensures { view_beginning result ≡ found_in place are_last skipped len }
{
    match place {
        Some(n) if skipped.saturating_add(n as u64) < PREAMBLE_LIMIT => Beginning::At(n),
        Some(_) => Beginning::Nowhere,
        None => {
            let n = len.saturating_sub(WAITING_LEN);
            if are_last || skipped.saturating_add(n as u64) >= PREAMBLE_LIMIT {
                return Beginning::Nowhere;
            }
            Beginning::PassesOver(n)
        }
    }
}

/// Returns whether a side begins with TLS. It takes 6 bytes to see whether it is the client or the
/// server.
fn begins_at_front(bytes: &[u8], are_last: bool) -> bool
    ensures { result ≡ begins_there bytes.now are_last }
{
    (bytes.len() > HEADER_LEN || are_last) && begins_tls(bytes)
}

/// Returns whether these are the first bytes of a handshake record with a hello.
fn is_hello_front(front: &[u8]) -> bool
    ensures { result ≡ is_front_of_hello front.now }
{
    place_behind(front, false).is_some() || place_behind(front, true).is_some()
}

/// Returns the first byte of a handshake record and the first 10 of these; `None` if there are fewer.
fn with_first(bytes: &[u8]) -> Option<[u8; HELLO_FRONT_LEN]>
    ensures { result ≡ with_first_of bytes.now }
{
    match bytes {
        [a, b, c, d, e, f, g, h, i, j, ..] => {
            Some([HANDSHAKE, *a, *b, *c, *d, *e, *f, *g, *h, *i, *j])
        }
        _ => None,
    }
}

/// Returns whether a stream lacks the first byte of a handshake record that begins with a hello.
fn lacks_first(bytes: &[u8]) -> bool
    ensures { result ≡ lacks_first_of bytes.now }
{
    match with_first(bytes) {
        Some(front) => is_hello_front(&front),
        None => false,
    }
}

/// Returns whether TLS may begin at the first of these bytes once more come: there are too few to
/// tell, or an SSL 2.0 hello isn't complete.
fn may_begin(skipped: u64, bytes: &[u8]) -> bool
    ensures { result ≡ may_begin_in skipped bytes.now }
{
    bytes.len() < HELLO_FRONT_LEN || skipped == 0 && begins_ssl2_hello(bytes)
}

/// Returns whether it is too early to tell: the side sent less than a record header in all, or more
/// bytes may come that tell.
fn waits(skipped: u64, bytes: &[u8], are_last: bool) -> bool
    ensures { result ≡ is_waiting skipped bytes.now are_last }
{
    skipped == 0 && bytes.len() < HEADER_LEN || !are_last && may_begin(skipped, bytes)
}

/// Returns where TLS begins on a side that doesn't begin with it.
fn begins_behind(answers: bool, are_last: bool, skipped: u64, bytes: &[u8]) -> Beginning<'_>
    ensures { view_beginning result ≡ beginning_behind answers are_last skipped bytes.now }
{
    if waits(skipped, bytes, are_last) {
        return Beginning::Waits;
    }
    found(place_behind(bytes, answers), are_last, skipped, bytes.len())
}

/// Returns where TLS begins on a side, if none of its bytes were skipped.
fn begins_at_once(answers: bool, are_last: bool, skipped: u64, bytes: &[u8]) -> Beginning<'_>
    ensures { view_beginning result ≡ beginning_at_once answers are_last skipped bytes.now }
{
    if begins_at_front(bytes, are_last) {
        return Beginning::At(0);
    }
    if lacks_first(bytes) {
        return Beginning::BehindFirst;
    }
    match parse_ssl2_client_hello(bytes) {
        Ok((rest, hello)) => Beginning::InSsl2(hello, bytes.len().saturating_sub(rest.len())),
        Err(_) => begins_behind(answers, are_last, skipped, bytes),
    }
}

/// Returns where a search finds a side's TLS, by the bytes behind those that were `skipped`.
fn begins_by_search(answers: bool, are_last: bool, skipped: u64, bytes: &[u8]) -> Beginning<'_>
    ensures { view_beginning result
        ≡ beginning_by_search answers are_last skipped bytes.now }
{
    if skipped == 0 {
        return begins_at_once(answers, are_last, skipped, bytes);
    }
    begins_behind(answers, are_last, skipped, bytes)
}

/// Returns where a side's TLS begins that is sought, by the dialogue in front of it.
fn begins_in<'a>(
    dialogue: &Dialogue,
    answers: bool,
    are_last: bool,
    skipped: u64,
    bytes: &'a [u8],
) -> Beginning<'a>
    ensures { view_beginning result
        ≡ beginning_in (state_of dialogue.now) answers are_last skipped bytes.now }
{
    match dialogue {
        Dialogue::New | Dialogue::GoesOn(_) | Dialogue::Resumes(_, _) => Beginning::Waits,
        // (the client may be either side)
        Dialogue::Tls(_) if bytes.len() <= HEADER_LEN && !are_last => Beginning::Waits,
        Dialogue::Tls(_) => Beginning::Next,
        Dialogue::Plain => Beginning::Nowhere,
        Dialogue::Unknown => begins_by_search(answers, are_last, skipped, bytes),
    }
}

/// Returns where a side's TLS begins, if it `is_sought`, by the dialogue and the bytes behind those
/// that were `skipped`, which are its last if they `are_last`. A side `answers` if the other's TLS
/// began.
pub(crate) fn begins_at<'a>(
    dialogue: &Dialogue,
    is_sought: bool,
    answers: bool,
    are_last: bool,
    skipped: u64,
    bytes: &'a [u8],
) -> Beginning<'a>
    ensures { view_beginning result
        ≡ begins (state_of dialogue.now) is_sought answers are_last skipped bytes.now }
{
    if !is_sought {
        return Beginning::Next;
    }
    begins_in(dialogue, answers, are_last, skipped, bytes)
}

/// Returns as which side of a dialogue a side speaks.
pub(crate) fn speaker(side: Side) -> preambles::Side
    ensures { result ≡ speaker_of side }
{
    match side {
        Side::Originator => preambles::Side::Client,
        Side::Responder => preambles::Side::Server,
    }
}

impl Preambles {
    /// Returns the state of a connection before any bytes: none is skipped.
    pub(crate) fn new() -> Preambles
        ensures { result ≡ no_preambles }
    {
        Preambles {
            originator: 0,
            responder: 0,
            dialogue: Dialogue::New,
            packets_of_originator: TdsReader::new(),
            packets_of_responder: TdsReader::new(),
        }
    }

    /// Returns how many bytes of a side were skipped.
    pub(crate) fn of(&self, side: Side) -> u64
        ensures { result ≡ preamble_in side self.now }
    {
        match side {
            Side::Originator => self.originator,
            Side::Responder => self.responder,
        }
    }

    fn set(&mut self, side: Side, skipped: u64)
        ensures { self.new ≡ with_preamble side skipped self.old }
    {
        match side {
            Side::Originator => self.originator = skipped,
            Side::Responder => self.responder = skipped,
        }
    }

    /// Skips bytes of a side.
    pub(crate) fn pass(&mut self, side: Side, n: usize)
        ensures { self.new ≡ passing side n self.old }
    {
        let skipped = self.of(side).saturating_add(n as u64);
        self.set(side, skipped);
    }

    /// Counts no bytes before a side that doesn't speak TLS.
    pub(crate) fn clear(&mut self, side: Side)
        ensures { self.new ≡ with_preamble side 0 self.old }
    {
        self.set(side, 0);
    }

    /// Follows the dialogue by the next bytes of the originator and of the responder, and skips
    /// those that it passed. Returns how many they are.
    pub(crate) fn follow(&mut self, originator: &[u8], responder: &[u8]) -> (usize, usize)
        ensures { IsFollowedBy originator.now responder.now self.old self.new result }
    {
        let step = self.dialogue.step(originator, responder);
        self.pass(Side::Originator, step.client);
        self.pass(Side::Responder, step.server);
        self.dialogue = step.dialogue;
        (step.client, step.server)
    }

    /// Skips bytes of a side, since some were missing.
    pub(crate) fn pass_missing(&mut self, side: Side, skipped: usize)
        ensures { IsBehindMissing side skipped self.old self.new }
    {
        self.pass(side, skipped);
        self.dialogue = self.dialogue.behind_missing(speaker(side));
    }

    /// Ends a dialogue that goes on, since no more bytes of it come.
    pub(crate) fn end_dialogue(&mut self)
        ensures { self.new ≡ without_dialogue self.old }
    {
        self.dialogue = self.dialogue.without_more();
    }
}
