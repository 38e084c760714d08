//! Laws about the analyzer, whatever it reads. Each is the contract of a function with an empty
//! body.
ghost use Rattle.std.specs.Prelude.{◌≡◌, ◌≤◌, [], length, take, true};
ghost use Rattle.layouts.specs.Bytes.{Bytes};
ghost use Rattle.tls_detection.specs.Front.{begins_tls};
ghost use Rattle.tls_flow.specs.declared.symbol.Direction.{Direction as Side};
ghost use Rattle.tls_summary.specs.HandshakeSummary.{KeepsHellos, view_summary};
ghost use Rattle.tls_analyzer.specs.Analyzers.{IsReadOn, is_unknown, known_as_tls, waiting};
ghost use Rattle.tls_analyzer.specs.declared.analyzer.Analyzer.{Analyzer as AnalyzerState};

/// After the client's ClientHello no message of the client changes it, unless the server asks for
/// another; and no message of the server ever does. The same holds for the ServerHello, with the
/// sides exchanged.
pub fn hellos_stand()
    ensures { (t u : AnalyzerState) (side : Side) (b : Bytes) → IsReadOn t side b u
        → KeepsHellos side (view_summary t.conversation_state.handshake)
        (view_summary u.conversation_state.handshake) }
{}

/// A side whose first 5 bytes are the header of a record is read alike whether the analyzer looks
/// at them or its caller did, and called [`Analyzer::begin_tls`](crate::Analyzer::begin_tls).
pub fn found_tls_is_read_alike()
    ensures { (t u : AnalyzerState) (side : Side) (b : Bytes) → is_unknown t side ≡ true
        → (waiting t side).items ≡ [] → 5 ≤ length b → begins_tls (take 5 b) ≡ true
        → IsReadOn (known_as_tls t side) side b u → IsReadOn t side b u }
{}
