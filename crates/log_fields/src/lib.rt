//! The fields of a log of TLS connections, and how each is computed.
//!
//! [`FIELDS`](fields::FIELDS) are those of a connection: [`compute`](connection::compute) computes
//! them from its [`Summary`](summary::Summary). [`MESSAGE_FIELDS`](columns::MESSAGE_FIELDS) are
//! those of a message, and [`CERTIFICATE_FIELDS`](columns::CERTIFICATE_FIELDS) those of a
//! certificate. Fields have the names in Zeek's logs where these have them.
//!
//! Clauses give the fields' values by the definitions of the crates below (`specs/Values.antt`),
//! as a function of what is known of the connection (`specs/Known.antt`). Some fields of
//! certificates have no definition yet, and are only tested.
#![tactic(auto)]

mod chains;
pub mod columns;
pub mod connection;
pub mod context;
pub mod fields;
mod fingerprints;
mod hellos;
pub mod joined_lists;
pub mod names;
mod responses;
mod row_macros;
pub mod summary;
pub mod timestamps;
