//! Laws about symbols. Each is the contract of a function with an empty body.
ghost use Rattle.layouts.specs.Bytes.{Bytes};
ghost use Rattle.tls_hs.specs.Message.{Message};
ghost use Rattle.tls_flow.specs.Read.{IsSameKind};

/// If a whole handshake message parses, its kind by bytes equals its kind as parsed.
pub fn bytes_and_message_give_one_kind()
    ensures { (b : Bytes) (m : Message) → IsSameKind b m }
{}
