//! How a dialogue goes on behind missing bytes of the side that it reads.
ghost use Rattle.std.specs.Prelude.{◌≡◌};
ghost use Rattle.preambles.specs.Gaps.{any_command as any, again as again_at, passed as passed_at, phase_behind as behind};
ghost use Rattle.preambles.specs.Walk.{view};

use crate::phase::{Command, Outcome, Phase, Protocol, TdsPhase, Word, XmppPhase};
use crate::preamble::Preamble;
use crate::rows::value;

/// A command without a known word.
fn any_command() -> Command
    ensures { result ≡ any }
{
    Command {
        first: Word::Other,
        second: Word::Other,
    }
}

/// Returns the phase behind one of which all is missing.
#[tactic(auto, unfolding(crate::specs::Gaps::phase_behind))]
fn phase_behind(phase: Phase) -> Phase
    ensures { result ≡ behind phase }
{
    match phase {
        Phase::Opening => Phase::Greeting(any_command()),
        Phase::GreetingRest(dialect, command) => Phase::Reply(dialect, command),
        Phase::Command(dialect) => Phase::Reply(dialect, any_command()),
        Phase::Value(dialect) => Phase::Reply(dialect, value()),
        Phase::Reply(dialect, _) | Phase::Listing(dialect) => Phase::Command(dialect),
        Phase::IrcCommand => Phase::IrcReply,
        Phase::Xmpp(XmppPhase::Client) => Phase::Xmpp(XmppPhase::Server),
        Phase::Tds(TdsPhase::AnswerHeader) => Phase::Over(Outcome::Tls(Protocol::Tds)),
        _ => phase,
    }
}

impl Preamble {
    /// Returns the preamble behind missing bytes of the side that it reads, if a part of the line
    /// or packet that it reads is missing: the next one begins.
    pub fn again(&self) -> Preamble
        ensures { view result ≡ again_at (view self.now) }
    {
        Preamble::enter(self.phase)
    }

    /// Returns the preamble behind missing bytes of the side that it reads, if all that it reads is
    /// missing, such as a command or the whole answer to one.
    pub fn passed(&self) -> Preamble
        ensures { view result ≡ passed_at (view self.now) }
    {
        Preamble::enter(phase_behind(self.phase))
    }
}
