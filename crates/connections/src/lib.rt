//! Tracks TCP connections and UDP exchanges, from the packets of a capture.
//!
//! [`Connections`] is a table by protocol and both ends. Each [`Segment`] goes to its connection,
//! where it is reassembled in its direction's stream ([`Stream`]) as its receiver would. In-order
//! data can be read, and a caller's value ([`Attachment`]) goes with the connection. A TCP
//! connection ends by both sides' FINs, an RST, a new SYN, after [`IDLE_LIMIT`] without packets, or
//! with the capture. A [`Datagram`] goes to the exchange between its ends, which ends after
//! [`IDLE_LIMIT`] without packets, or with the capture. [`Traffic`] and [`Dropped`] count what each
//! side sent.
//!
//! Promise: `Receiver.judge` in `specs/` defines what a receiver does with a segment, `Stream`
//! which bytes a stream has, `Connection` and `Table` what each call changes, `Ending` which
//! pending segments count once a connection is over, and `Memory` how the memory is accounted.
//! [`laws`] holds what follows from the definitions alone.
#![tactic(auto)]

mod accepting;
mod boxed;
mod by_five_tuple;
mod connection;
mod datagram;
mod dropped;
mod ending;
mod exchange;
mod five_tuple;
mod hash_keys;
mod host;
mod laws;
mod lost;
mod memory;
mod numbers;
mod pending;
mod receiver;
mod segment;
mod stream;
mod table;
mod traffic;
mod waiting;
mod words;

pub use connection::{Attachment, CONNECTION_COST, Connection, Side, Verdict};
pub use datagram::Datagram;
pub use dropped::Dropped;
pub use five_tuple::{End, FiveTuple, Protocol};
pub use host::Host;
pub use laws::{
    both_directions_have_the_same_ends, dropped_packets_change_nothing_that_is_read,
    no_other_packets_have_these_ends, the_next_number_is_that_of_what_is_held,
    what_stands_under_other_ends_stays,
};
pub use pending::{MAX_PENDING, PendingOutcome, PendingSegment};
pub use receiver::{DropReason, Judgement, judge};
pub use segment::{Checksum, Options, Segment};
pub use stream::{Front, HELD_LIMIT, Stream};
pub use table::{CLOSED_COST, CLOSED_SHARE, Connections, IDLE_LIMIT, MAX_CONNECTIONS};
pub use traffic::Traffic;
