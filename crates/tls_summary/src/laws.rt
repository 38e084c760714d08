//! Laws about hellos, whatever follows. They are the contract of a function with an empty body.
ghost use Rattle.std.specs.Prelude.{ℕ};
ghost use Rattle.layouts.specs.Bytes.{Bytes};
ghost use Rattle.ssl2_hello.specs.ClientHello.{ClientHello as Ssl2ClientHello};
ghost use Rattle.tls_flow.specs.declared.symbol.Direction.{Direction as Side};
ghost use Rattle.tls_summary.specs.HandshakeSummary.{HandshakeSummary as Known, KeepsHellos, asked_in_ssl2, of_bytes, of_datagram_message};

/// After the client's ClientHello no message of the client changes it, unless the server asks for
/// another; and no message of the server ever does. The same holds for the ServerHello, with the
/// sides exchanged.
pub fn hellos_stand()
    ensures messages { (side : Side) (b : Bytes) (f : Known)
        → KeepsHellos side f (of_bytes side b f) }
    ensures ssl2_hellos { (side : Side) (h : Ssl2ClientHello) (f : Known)
        → KeepsHellos side f (asked_in_ssl2 side h f) }
    ensures datagram_messages { (side : Side) (n : ℕ) (b : Bytes) (f : Known)
        → KeepsHellos side f (of_datagram_message side n b f) }
{}
