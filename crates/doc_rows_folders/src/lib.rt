//! What stands in a folder for a reader, found by looks into the rows of theirs: no page that is hidden from them is walked over.
#![tactic(auto)]

mod found;
mod keys;
mod starts;

pub use keys::{keys_before, keys_from};
