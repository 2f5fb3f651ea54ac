//! The pages of a site by their paths, as `doc_store` keeps them: moved with a new stamp, and seen by a reader. They are a crate of their
//! own, since the gate's edits of them prove it once more, and not all of the store.
#![tactic(auto)]

pub mod pages;
