//! Identifiers of a connection, by which its lines in several logs are found.
//!
//! [`community_id`] follows Corelight's definition, which other monitors print too: it is the same
//! for all connections between the same two ends. [`uid`] has the form of Zeek's uid, and differs
//! for connections between the same ends by their start times. [`flow_id`] is the corresponding
//! number for Suricata's events. All depend only on the packets, so they are the same in each run.
//!
//! Promise: `CommunityId.community_id_of`, `Uid.uid_of` and `Uid.flow_id_of` in `specs/` define the
//! identifiers.
#![tactic(auto)]

mod community;
mod five_tuple;
mod uids;

pub use community::community_id;
pub use uids::{flow_id, uid};
