//! `--format suricata`: [`line`] writes a connection as an event of Suricata's eve.json.
#![tactic(auto)]

mod event;

pub use event::line;
