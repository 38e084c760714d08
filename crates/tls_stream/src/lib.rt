//! Reads TLS from streams that arrive in pieces: the records and handshake messages of a stream,
//! the events of one direction, and both directions joined.
//!
//! A [`Frame`] is a record or handshake message with its header. An [`EventReader`] takes the
//! pieces of a TCP stream and returns [`Event`]s in order: handshake messages, reassembled from
//! their records, and the other records.
//!
//! A [`Conversation`] takes the pieces of both directions in order of arrival. It returns what each
//! side sends event by event, and a [`tls_flow::Flow`] follows them to an outcome. A caller that
//! needs more than the outcome parses each message once with [`stream_message`] and removes it with
//! [`Conversation::take_front_as`]. One that follows the events itself takes them from a
//! [`ConversationReader`], which has no flow.
//!
//! Its promise: the events depend only on the bytes, and not on how these are cut into pieces or
//! how messages are cut into records. `specs/Stream.antt`, `specs/Events.antt`,
//! `specs/Readers.antt` and `specs/Conversations.antt` define them; [`laws`] states the promise.
#![tactic(auto)]

mod conversation;
mod conversation_reader;
mod event;
mod event_reader;
mod fault;
mod flow_event;
mod frame;
mod item;
pub mod laws;
mod reassembler;
mod side_event;
mod side_reader;
mod split;
mod stream;
mod stream_buffer;
mod taken;
mod view;

pub use conversation::{Conversation, outcome_of};
pub use conversation_reader::ConversationReader;
pub use event::Event;
pub use event_reader::{DEFAULT_LIMIT, EventReader};
pub use fault::Fault;
pub use flow_event::{chooses_tls13, stream_event_with, stream_message, tls_event};
pub use frame::{Frame, MessageFrame, RecordFrame, frame_in_front, is_too_large};
pub use reassembler::{FeedError, Frames, Joiner, Reassembler};
pub use side_event::SideEvent;
pub use split::{join_messages, split_frames, split_pieces};
pub use taken::{join_pieces, take_messages};
pub use view::{Next, Source, StreamView};
