//! What both sides send in front of TLS.
ghost use Rattle.std.specs.Prelude.{◌≡◌, ◌≤◌, ◌<◌, ℕ, List, drop, length, false};
ghost use Rattle.preambles.specs.Fronts.{bytes_of};
ghost use Rattle.preambles.specs.Walk.{begun, cased as cased_of, enter as begin, is_due as due, is_end as end, keeps as kept_in, kept_with as kept_bytes_with, left_in, read as read_of, step as step_of, view, walk_behind, IsNextDue};
ghost use Rattle.preambles.specs.Rows.{outcome_of as outcome, reads, recognizes as recognized};

use crate::front::Front;
use crate::phase::{Frame, Outcome, Phase, Side};
use crate::rows::{frame_of, is_text, next, outcome_of, reads as side_read, recognizes};

/// Whether a byte is the last of its line or packet; `is_first` says that none is kept before it.
#[tactic(auto, unfolding(crate::specs::Walk::is_end))]
fn is_end(frame: Frame, is_first: bool, left: u32, byte: u8) -> bool
    ensures { result ≡ end frame is_first left byte }
{
    match frame {
        Frame::Opening => {
            if is_first {
                !is_text(byte)
            } else {
                byte == b'\n'
            }
        }
        Frame::Until(last) => byte == last,
        Frame::Count(_) => left <= 1,
    }
}

/// Whether a byte is kept: the one that ends a line isn't.
#[tactic(auto, unfolding(crate::specs::Walk::keeps))]
fn keeps(frame: Frame, byte: u8) -> bool
    ensures { result ≡ kept_in frame byte }
{
    match frame {
        Frame::Opening => byte != b'\n',
        Frame::Until(last) => byte != last,
        Frame::Count(_) => true,
    }
}

/// A byte as it is kept: lines are in upper case.
#[tactic(auto, unfolding(crate::specs::Walk::cased))]
fn cased(frame: Frame, byte: u8) -> u8
    ensures { result ≡ cased_of frame byte }
{
    match frame {
        Frame::Count(_) => byte,
        _ => {
            if byte >= b'a' && byte <= b'z' {
                byte - 32
            } else {
                byte
            }
        }
    }
}

/// How many bytes a packet has; 0 for lines.
#[tactic(auto, unfolding(crate::specs::Walk::left_in))]
fn count_of(frame: Frame) -> u32
    ensures { result ≡ left_in frame }
{
    match frame {
        Frame::Count(count) => count,
        _ => 0,
    }
}

/// The first bytes of a line or packet with one more.
fn kept_with(frame: Frame, front: Front, byte: u8) -> Front
    ensures { bytes_of result ≡ kept_bytes_with frame (bytes_of front) byte }
{
    let mut kept = front;
    if keeps(frame, byte) {
        kept.push(cased(frame, byte));
    }
    kept
}

/// Follows both sides up to where TLS begins.
#[derive(Clone, Copy)]
pub struct Preamble {
    pub(crate) phase: Phase,
    front: Front,
    left: u32,
}

impl Preamble {
    /// Returns a preamble that hasn't read a byte.
    pub fn new() -> Preamble
        ensures { view result ≡ begun }
    {
        Preamble {
            phase: Phase::Opening,
            front: Front::new(),
            left: 0,
        }
    }

    /// Returns what is known of where TLS begins. With [`Outcome::Tls`] it begins with the first
    /// byte of each side that wasn't read.
    pub fn outcome(&self) -> Outcome
        ensures { result ≡ outcome (view self.now).phase }
    {
        outcome_of(self.phase)
    }

    /// Returns the side whose bytes are read next; `None` at the end.
    pub fn reads(&self) -> Option<Side>
        ensures { result ≡ reads (view self.now).phase }
    {
        side_read(self.phase)
    }

    /// Returns whether the bytes so far have shown which protocol it is. From then on they needn't
    /// be kept, however long the dialogue becomes. Before, they are a few lines or packets, which
    /// may still turn out to be of no dialogue.
    pub fn is_recognized(&self) -> bool
        ensures { result ≡ recognized (view self.now).phase }
    {
        recognizes(self.phase)
    }

    /// Returns whether the bytes of a side are read next.
    #[tactic(auto, unfolding(crate::specs::Walk::is_due))]
    pub fn is_due(&self, side: Side) -> bool
        ensures { result ≡ due side (view self.now) }
    {
        match (side, side_read(self.phase)) {
            (Side::Client, Some(Side::Client)) => true,
            (Side::Server, Some(Side::Server)) => true,
            _ => false,
        }
    }

    /// Returns the place at which a phase begins.
    pub(crate) fn enter(phase: Phase) -> Preamble
        ensures { view result ≡ begin phase }
    {
        Preamble {
            phase,
            front: Front::new(),
            left: count_of(frame_of(phase)),
        }
    }

    /// Reads a byte of the side that is read next.
    #[tactic(auto, unfolding(crate::specs::Walk::step))]
    fn step(&mut self, byte: u8)
        ensures { view self.new ≡ step_of (view self.old) byte }
    {
        let frame = frame_of(self.phase);
        let is_first = self.front.bytes().is_empty();
        let front = kept_with(frame, self.front, byte);
        if is_end(frame, is_first, self.left, byte) {
            *self = Preamble::enter(next(self.phase, front.bytes()));
        } else {
            self.front = front;
            self.left = self.left.saturating_sub(1);
        }
    }

    /// Reads the next bytes of a side, up to where the other side is read or the dialogue ends.
    /// Returns how many bytes were read. The others are to be passed again, before later bytes of
    /// the side, once [`Preamble::reads`] names it.
    pub fn read(&mut self, side: Side, bytes: &[u8]) -> usize
        ensures within { result ≤ length bytes.now }
        ensures read { (client server : List ℕ)
            → walk_behind side bytes.now client server (view self.old)
            ≡ walk_behind side (drop result bytes.now) client server (view self.new) }
        ensures whole { result < length bytes.now → due side (view self.new) ≡ false }
    {
        let mut count = 0;
        while count < bytes.len() && self.is_due(side) {
            self.step(bytes[count]);
            count += 1;
        }
        count
    }

    /// Returns the side whose byte is read next, by how many more bytes each has; `None` if that
    /// side has none.
    fn next_due(&self, client_left: usize, server_left: usize) -> Option<Side>
        ensures { IsNextDue result client_left server_left (view self.now) }
    {
        if client_left > 0 && self.is_due(Side::Client) {
            return Some(Side::Client);
        }
        if server_left > 0 && self.is_due(Side::Server) {
            return Some(Side::Server);
        }
        None
    }

    /// Reads the next bytes of both sides, as far as the dialogue leads. Returns how many bytes of
    /// the client and of the server were read. The others are to be passed again, before later
    /// bytes of their side.
    pub fn read_both(&mut self, client: &[u8], server: &[u8]) -> (usize, usize)
        ensures within { (result.0 ≤ length client.now) × (result.1 ≤ length server.now) }
        ensures read { read_of client.now server.now (view self.old)
            ≡ record {
              place = view self.new;
              client = drop result.0 client.now;
              server = drop result.1 server.now;
            } }
    {
        let mut of_client = 0;
        let mut of_server = 0;
        while let Some(side) = self.next_due(client.len() - of_client, server.len() - of_server) {
            match side {
                Side::Client => {
                    self.step(client[of_client]);
                    of_client += 1;
                }
                Side::Server => {
                    self.step(server[of_server]);
                    of_server += 1;
                }
            }
        }
        (of_client, of_server)
    }
}
