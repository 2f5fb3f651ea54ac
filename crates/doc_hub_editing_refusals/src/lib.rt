//! What those who are no owners are answered where they ask to edit, as definitions (`specs/EditRefusals`) and as code: by the route and
//! the method alone, before anything is looked up.
//!
//! This is a crate of its own, since the gate's edit of it proves it once more, and as a part of `doc_hub_editing`, which it serves, it
//! would prove that one. What a refusal is as a reply, and what owners are answered, is of `doc_hub_editing`.
#![tactic(auto)]

pub mod edit_request;
pub mod refusal;
