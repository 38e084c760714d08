//! The summary of a connection, which its lines are made of.
//!
//! [`summary`] computes it from a connection whose value is an [`Analysis`]. That keeps
//! [`CollectedPieces`] until they are printed: [`take_messages`] and [`take_certificates`] hand
//! these out, and [`piece_count`] counts them.
#![tactic(auto)]

mod analysis;

pub use analysis::{
    Analysis, CollectedPieces, piece_count, summary, take_certificates, take_messages,
};
