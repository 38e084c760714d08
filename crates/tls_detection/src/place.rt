//! Where TLS begins after other bytes.
ghost use Rattle.std.specs.Prelude.{◌≡◌, length};
ghost use Rattle.tls_detection.specs.Place.{begins_behind as begins, is_alert as alert, is_answer as answer, is_hello as hello, place_behind as place_of};

/// How many bytes decide that TLS begins: the header of a record, the header of a handshake
/// message, and the version in a hello (RFC 8446, sections 4 and 5.1).
pub const HELLO_FRONT_LEN: usize = 11;

/// The types of the messages that begin a handshake (RFC 8446, section 4).
const CLIENT_HELLO: u8 = 1;

const SERVER_HELLO: u8 = 2;

/// Whether these are the first bytes of a record that begins with a hello of this type.
#[tactic(auto, unfolding(crate::specs::Place::is_hello))]
fn is_hello(msg_type: u8, front: &[u8]) -> bool
    requires { length front.now ≡ 11 }
    ensures { result ≡ hello msg_type front.now }
{
    let length = u16::from(front[3]) * 256 + u16::from(front[4]);
    front[0] == 22
        && front[1] == 3
        && length >= 4
        && length <= 16_384
        && front[5] == msg_type
        && front[9] == 3
        && front[10] <= 3
}

/// Whether these are the first bytes of a record with an alert in the clear.
#[tactic(auto, unfolding(crate::specs::Place::is_alert))]
fn is_alert(front: &[u8]) -> bool
    requires { length front.now ≡ 11 }
    ensures { result ≡ alert front.now }
{
    front[0] == 21
        && front[1] == 3
        && front[3] == 0
        && front[4] == 2
        && (front[5] == 1 || front[5] == 2)
}

/// Whether these are the first bytes of a server's answer.
#[tactic(auto, unfolding(crate::specs::Place::is_answer))]
fn is_answer(front: &[u8]) -> bool
    requires { length front.now ≡ 11 }
    ensures { result ≡ answer front.now }
{
    is_hello(SERVER_HELLO, front) || is_alert(front)
}

/// Whether TLS begins here: with a ClientHello, or if the side `answers`, with a ServerHello or an
/// alert.
#[tactic(auto, unfolding(crate::specs::Place::begins_behind))]
fn begins_behind(bytes: &[u8], answers: bool) -> bool
    ensures { result ≡ begins answers bytes.now }
{
    if bytes.len() < HELLO_FRONT_LEN {
        return false;
    }
    let front = &bytes[..HELLO_FRONT_LEN];
    if answers {
        is_answer(front)
    } else {
        is_hello(CLIENT_HELLO, front)
    }
}

/// The first place where TLS begins in a side's bytes, whatever precedes it. For a client, a
/// record's header and a ClientHello's (RFC 8446, sections 4.1.2 and 5.1); for a side that
/// `answers`, those of a ServerHello or of an alert of 2 bytes. With `None`, TLS may still begin in
/// the last 10 bytes, but not before them.
pub fn place_behind(bytes: &[u8], answers: bool) -> Option<usize>
    ensures { result ≡ place_of answers bytes.now }
{
    let mut place = 0;
    while place < bytes.len() {
        if begins_behind(&bytes[place..], answers) {
            return Some(place);
        }
        place += 1;
    }
    None
}
