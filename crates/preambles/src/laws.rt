//! Laws about dialogues and the packets behind one. Each is the contract of a function with an
//! empty body.
ghost use Rattle.std.specs.Prelude.{◌≡◌, ◌++◌, Bool, List, ℕ};
ghost use Rattle.preambles.specs.Pieces.{read_on};
ghost use Rattle.preambles.specs.Dialogues.{Keeps, ended};
ghost use Rattle.preambles.specs.TdsPayload.{Holds, begun as first_position, taken_behind, taken_from};
ghost use Rattle.preambles.specs.Values.{IsBlind, SeesCommandsAlone};
ghost use Rattle.preambles.specs.Walk.{Place, begun, read};
ghost use Rattle.preambles.specs.declared.phase.Dialect.{Dialect};
ghost use Rattle.preambles.specs.declared.phase.LoginPhase.TheVariants as login;
ghost use Rattle.preambles.specs.declared.phase.Outcome.{Outcome};
ghost use Rattle.preambles.specs.declared.phase.Phase.TheVariants.{Command, Login, Opening, Over, Proxy, Socks4, Socks5, Value};
ghost use Rattle.preambles.specs.declared.phase.ProxyPhase.TheVariants as proxy;
ghost use Rattle.preambles.specs.declared.phase.Socks4Phase.TheVariants as socks4;
ghost use Rattle.preambles.specs.declared.phase.Socks5Phase.TheVariants as socks5;
ghost use Rattle.preambles.specs.declared.tds_payload.Position.{Position};

/// However the bytes of both sides are cut, reading comes to the same place: what a first part left
/// unread is read in front of the rest.
#[tactic(auto, using(crate::proofs::PieceLemmas::pieces))]
pub fn cuts_change_nothing()
    ensures { (client more_client server more_server : List ℕ) (place : Place)
        → read (client ++ more_client) (server ++ more_server) place
        ≡ read_on (read client server place) more_client more_server }
{}

/// A dialogue that keeps to the grammar is read whole, and no byte behind it, whatever follows and
/// whatever values the dialogue holds: TLS begins exactly there.
#[tactic(auto, using(crate::proofs::DialogueLemmas::begins_behind_dialogue))]
pub fn tls_begins_behind_the_dialogue()
    ensures { (client server more_client more_server : List ℕ) (outcome : Outcome)
        → Keeps Opening client server (Over outcome)
        → read (client ++ more_client) (server ++ more_server) begun
        ≡ ended outcome more_client more_server }
{}

/// What values hold has no influence on where TLS begins: names, passwords and addresses, and of a
/// command what is behind its first two words.
pub fn values_have_no_influence()
    ensures value { (dialect : Dialect) → IsBlind (Value dialect) }
    ensures arguments { (dialect : Dialect) → SeesCommandsAlone (Command dialect) }
    ensures name { (count : ℕ) → IsBlind (Login (login.Name count)) }
    ensures password { (count : ℕ) → IsBlind (Login (login.Password count)) }
    ensures user { (is_4a : Bool) → IsBlind (Socks4 (socks4.User is_4a)) }
    ensures host { IsBlind (Socks4 socks4.Host) }
    ensures address { (count : ℕ) → IsBlind (Socks5 (socks5.Address count)) }
    ensures addresses { (count : ℕ) → IsBlind (Proxy (proxy.Addresses count)) }
{}

/// However the bytes of a side's TDS packets are cut, the same TLS is taken out of them.
#[tactic(auto, using(crate::proofs::TdsLemmas::cut))]
pub fn cuts_of_packets_change_nothing()
    ensures { (position : Position) (bytes more : List ℕ)
        → taken_from position (bytes ++ more)
        ≡ taken_behind (taken_from position bytes) more }
{}

/// What is taken out of TDS packets, and behind these, is the TLS that was sent in them.
#[tactic(auto, using(crate::proofs::TdsLemmas::held))]
pub fn tls_in_packets_is_taken_out()
    ensures { (bytes tls : List ℕ) → Holds bytes tls
        → (taken_from first_position bytes).tls ≡ tls }
{}
