//! Laws about where TLS begins. Each is the contract of a function with an empty body.
ghost use Rattle.std.specs.Prelude.{◌≡◌, ◌≤◌, ◌++◌, None, length};
ghost use Rattle.layouts.specs.Bytes.{Bytes};
ghost use Rattle.preambles.specs.Dialogues.{Keeps};
ghost use Rattle.preambles.specs.Walk.{begun};
ghost use Rattle.preambles.specs.declared.phase.Outcome.TheVariants.{Tls};
ghost use Rattle.preambles.specs.declared.phase.Phase.TheVariants.{Opening, Over};
ghost use Rattle.preambles.specs.declared.phase.Protocol.{Protocol};
ghost use Rattle.log_connections.specs.Dialogue.{GoesOn, begun_by, stepped};

/// Of the first 65,536 bytes of both sides, a dialogue that keeps to the grammar is passed whole, and
/// no byte behind it, whatever follows: there TLS begins, or the dialogue behind a tunnel.
#[tactic(auto, using(crate::proofs::DialogueLemmas::heard))]
pub fn tls_is_heard_behind_the_dialogue()
    ensures { (client server more_client more_server : Bytes) (protocol : Protocol)
        → Keeps Opening client server (Over (Tls protocol))
        → length (client ++ more_client) ≤ 65536 → length (server ++ more_server) ≤ 65536
        → stepped (GoesOn None begun 0 0) (client ++ more_client) (server ++ more_server)
        ≡ record { state = begun_by protocol; client = length client; server = length server } }
{}
