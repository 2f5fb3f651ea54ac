//! What requests that edit are answered, as definitions (`specs/EditAnswers`), and the answers to them: the source of a page with its tag
//! and its groups, puts, removals, changes of groups and moves under conditions (RFC 9110, section 13), the form that edits a page in a
//! browser, and previews.
//!
//! Owners alone edit. An answer is written whole before its edit is made, since an edit that was made could not be taken back where the
//! answer then found no memory. What the others are answered here is of `doc_hub_editing_refusals`. Which requests come here, and what all
//! the rest are answered, is of `doc_hub_replies`.
#![tactic(auto)]

mod conditions;
pub mod desk;
pub mod edit_request;
pub mod editing;
mod forms;
pub mod laws;
mod making;
mod moves;
mod names;
mod previews;
mod puts;
mod regroups;
mod removals;
mod sources;

pub use doc_hub_people::{Shelf, answer, edit, exchange, method, people, routes, visit};
