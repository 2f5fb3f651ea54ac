//! The hub: connections, requests and replies over pages that each reader sees their part of. Its events, their outcomes and refusals
//! are those of `doc_hub_events`, and stand under this crate's name too.
#![tactic(auto)]

mod connection;
mod connections;
pub mod hub;
pub mod laws;
mod media_to_set;
mod telling;

pub use doc_hub_events::{event, outcome, refusal};
pub use doc_hub_replies::{edit, method};
