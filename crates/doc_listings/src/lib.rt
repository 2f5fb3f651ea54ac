//! The lists that a server answers, as text: contents, backlinks, what a search found, and broken links.
//!
//! Each writer adds to the end of a buffer, where after a refusal part of it may stand. It reserves room first, and takes memory besides
//! for a number and an address, once a list.
#![tactic(auto)]

mod backlinks;
mod contents;
mod hits;
mod number;
mod report;

pub use backlinks::push_backlinks;
pub use contents::{CONTENTS_END, CONTENTS_FRONT, push_contents, push_entry_lines};
pub use hits::push_hits;
pub use report::push_report;
