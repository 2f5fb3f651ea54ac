//! What a request is answered, as definitions (`specs/Replies`), and the answer at a route to a reader who is known.
//!
//! An answer is a reply as it is sent, and the edit that goes with it, which is made. GET and HEAD read a page or a list as the
//! reader sees it; PUT and DELETE edit a page, for owners alone. `doc_hub_replies` finds who asks, and for what. The shelf that is asked
//! stands under this crate's name, too.
#![tactic(auto)]

pub mod answer;
pub mod edit;
mod edits;
pub mod exchange;
pub mod goals;
mod lists;
pub mod method;
mod reading;
pub mod routes;

pub use doc_shelf::Shelf;
