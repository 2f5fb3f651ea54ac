//! The reply to each request, and the edit that goes with it: who asks, and what is asked. A request is one in which media have a part; or
//! with settings for people one for their style sheet, one that edits by these settings, or one for people; or another.
//!
//! What a known reader gets at a route is of `doc_hub_answers`, whose answers and edits these are; who asks is of `doc_hub_asking`, what
//! people get of `doc_hub_people`, and what media have a part in of `doc_hub_media`. This is a crate of its own, since the gate's edits of
//! who asks and of what is refused prove it once more, and as a part of another they would prove that one.
#![tactic(auto)]

mod asked;
mod beside;
pub mod laws;
pub mod serving;
mod taking;

pub use doc_hub_media::{Shelf, answer, edit, method};
