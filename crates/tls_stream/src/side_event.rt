//! The next event of one side of a conversation.
use crate::event::Event;
use crate::fault::Fault;

/// The next event of one side of a conversation.
#[derive(Clone, Debug, PartialEq, Drop)]
pub enum SideEvent<'a> {
    /// A handshake message, or a record that has none.
    Event(Event<'a>),
    /// A fault, which ends the side: nothing after it is read. The flow follows it as an unknown
    /// message.
    Fault(Fault),
}
