//! JSON objects that are written member by member. A clause says which text they have: that of the
//! members' names and [`Data`](to_json::ToJson), or of text that is JSON already.
#![tactic(auto)]

pub mod laws;
pub mod lists;
pub mod object;
pub mod seconds;
pub mod to_json;
