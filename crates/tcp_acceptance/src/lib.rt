//! The waiting room of a TCP connection: segments that their receiver may have dropped.
//!
//! A segment is *doubtful* if there is a reason why its receiver may have dropped it, such as a
//! wrong checksum or a number beyond the window. A capture that lost packets, or that was made
//! before the network card wrote the checksums, has such segments too, and their receiver took
//! them. So a doubtful segment waits in a [`WaitingRoom`], and doesn't count as sent, until what is
//! certain decides:
//!
//! - [`WaitingRoom::wait`] lets a segment enter. If the room is full, the one that is the least
//!   likely to be taken goes out.
//! - [`WaitingRoom::contradicted_by`] drops what the certain bytes of its sender refute or replace.
//! - [`WaitingRoom::take_acknowledged`] gives what a certain acknowledgement over missing bytes
//!   takes.
//! - [`WaitingRoom::open`] judges again what came before anything of the receiver;
//!   [`WaitingRoom::take_certain`] gives those without a reason.
//! - [`WaitingRoom::take_at_end`] gives what counts as taken once the connection is over;
//!   [`WaitingRoom::drop_all`] drops the others.
//!
//! The promise: `specs/Doubtful.antt` and `Known` define what is asked of one segment;
//! `Room`, `Taking` and `Ending` what each call does to those that wait.
#![tactic(auto)]

mod ending;
mod known;
mod laws;
mod numbers;
mod room;
mod segment;
mod tally;

pub use known::{Certain, Claim, Denial, Heard, Known, SideKnown};
pub use laws::{
    a_full_room_decides_nothing, a_segment_is_refuted_where_a_byte_differs,
    others_do_not_change_what_is_taken, what_came_for_certain_takes_nothing,
};
pub use room::{MAX_BYTES, MAX_SEGMENTS, WaitingRoom};
pub use segment::{Arrived, DoubtfulSegment, Fields, Reasons, Side};
pub use tally::{Counts, Tally};
