//! The pages for editing: the one that a text is edited on, the one that asks for a new path, and the preview.
//!
//! Each writer adds to the end of a buffer, where after a refusal part of it may stand. The functions of `laws` are empty: their contracts
//! are laws of the definitions.
#![tactic(auto)]

pub mod edit_page;
mod form;
pub mod laws;
pub mod new_page;
pub mod policies;
pub mod preview;
pub mod script;
mod sections;
#[cfg(test)]
mod tests;
