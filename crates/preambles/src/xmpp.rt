//! XMPP's STARTTLS (RFC 6120, section 5), tag by tag.
ghost use Rattle.std.specs.Prelude.{◌≡◌};
ghost use Rattle.preambles.specs.Xmpp.{client_tag as of_client, first_tag as first, is_closed as closed, server_tag as of_server, tag_in as tag, xmpp_next as xmpp, xmpp_reads as xmpp_side};

use crate::phase::{Outcome, Phase, Protocol, Side, XmppPhase};
use crate::words::begins;

/// The side that a phase of XMPP reads.
#[tactic(auto, unfolding(crate::specs::Xmpp::xmpp_reads))]
pub(crate) fn xmpp_reads(phase: XmppPhase) -> Side
    ensures { result ≡ xmpp_side phase }
{
    match phase {
        XmppPhase::First | XmppPhase::Client | XmppPhase::StarttlsEnd => Side::Client,
        XmppPhase::Server | XmppPhase::ProceedEnd => Side::Server,
    }
}

/// A tag behind its `<`, without the text in front of it.
fn tag_in(front: &[u8]) -> &[u8]
    ensures { result.now ≡ tag front.now }
{
    let mut place = 0;
    while place < front.len() {
        if front[place] == b'<' {
            return &front[place + 1..];
        }
        place += 1;
    }
    &[]
}

/// Whether a tag is that of an element without content.
#[tactic(auto, unfolding(crate::specs::Xmpp::is_closed))]
fn is_closed(tag: &[u8]) -> bool
    ensures { result ≡ closed tag.now }
{
    !tag.is_empty() && tag[tag.len() - 1] == b'/'
}

/// The phase behind the client's first tag: the XML declaration or the stream's.
#[tactic(auto, unfolding(crate::specs::Xmpp::first_tag))]
fn first_tag(front: &[u8]) -> Phase
    ensures { result ≡ first front.now }
{
    if begins(front, b"?XML ") || begins(front, b"STREAM:STREAM") {
        Phase::Xmpp(XmppPhase::Client)
    } else {
        Phase::Over(Outcome::Unknown)
    }
}

/// The phase behind a tag of the client.
#[tactic(auto, unfolding(crate::specs::Xmpp::client_tag))]
fn client_tag(tag: &[u8]) -> Phase
    ensures { result ≡ of_client tag.now }
{
    if !begins(tag, b"STARTTLS") {
        Phase::Xmpp(XmppPhase::Client)
    } else if is_closed(tag) {
        Phase::Xmpp(XmppPhase::Server)
    } else {
        Phase::Xmpp(XmppPhase::StarttlsEnd)
    }
}

/// The phase behind a tag of the server, after starttls.
#[tactic(auto, unfolding(crate::specs::Xmpp::server_tag))]
fn server_tag(tag: &[u8]) -> Phase
    ensures { result ≡ of_server tag.now }
{
    if begins(tag, b"FAILURE") {
        Phase::Over(Outcome::Plain)
    } else if !begins(tag, b"PROCEED") {
        Phase::Xmpp(XmppPhase::Server)
    } else if is_closed(tag) {
        Phase::Over(Outcome::Tls(Protocol::Xmpp))
    } else {
        Phase::Xmpp(XmppPhase::ProceedEnd)
    }
}

/// What follows a phase of XMPP.
#[tactic(auto, unfolding(crate::specs::Xmpp::xmpp_next))]
pub(crate) fn xmpp_next(phase: XmppPhase, front: &[u8]) -> Phase
    ensures { result ≡ xmpp phase front.now }
{
    match phase {
        XmppPhase::First => first_tag(front),
        XmppPhase::Client => client_tag(tag_in(front)),
        XmppPhase::StarttlsEnd => Phase::Xmpp(XmppPhase::Server),
        XmppPhase::Server => server_tag(tag_in(front)),
        XmppPhase::ProceedEnd => Phase::Over(Outcome::Tls(Protocol::Xmpp)),
    }
}
