//! What the analyzers of TLS and DTLS connections share: the [`Observer`] that receives each event
//! that counts, the history with a letter for each, up to [`HISTORY_LIMIT`], how a handshake ended,
//! and the memory of its summary.
//!
//! `specs/History.antt`, `Noting`, `Ends` and `Capacity` define these.
#![tactic(auto)]

mod capacity;
pub mod ends;
pub mod history;
mod observer;

pub use capacity::of_handshake;
pub use history::HISTORY_LIMIT;
pub use observer::{NoObserver, Observer};
