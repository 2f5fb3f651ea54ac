//! What requests for people are answered, as definitions (`specs/PeopleAnswers`), and the answer to a request for people.
//!
//! It is made of the view of who asks, through `doc_people::viewed::Viewed`, and of nothing else of the site. Which requests are for
//! people, and what the others are answered, is of `doc_hub_replies`.
#![tactic(auto)]

pub mod laws;
mod lists;
mod pages;
pub mod people;
pub mod visit;

pub use doc_hub_answers::{Shelf, answer, edit, exchange, goals, method, routes};
