//! The state of a conversation, as far as it was read.
ghost use Rattle.std.specs.Prelude.{◌≡◌, [], false};
ghost use Rattle.tlsview.specs.Out.{silence};

use std::alloc::Global;
use tls_states::ParseContext;
use tls_stream::Reassembler;

/// One direction of a conversation.
#[derive(Drop)]
pub struct ViewedSide {
    /// The bytes that are still to be read.
    pub stream: Reassembler,
    /// Whether it has sent its ChangeCipherSpec, so that its further records are encrypted.
    pub is_encrypted: bool,
}

/// Both directions, and the state of the handshake.
#[derive(Drop)]
pub struct ViewedConversation {
    pub to_server: ViewedSide,
    pub from_server: ViewedSide,
    pub context: ParseContext,
}

impl ViewedSide {
    fn new(alloc: Global) -> ViewedSide
        ensures stream { result.stream ≡ [] }
        ensures plain { result.is_encrypted ≡ false }
    {
        ViewedSide {
            stream: Reassembler::new(alloc),
            is_encrypted: false,
        }
    }
}

impl ViewedConversation {
    /// A conversation before its first byte.
    pub fn new(alloc: Global) -> ViewedConversation
        ensures { result ≡ silence }
    {
        ViewedConversation {
            to_server: ViewedSide::new(alloc),
            from_server: ViewedSide::new(alloc),
            context: ParseContext::new(),
        }
    }
}
