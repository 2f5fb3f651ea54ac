//! Documents of pages, as one reader sees each: found in the cache of a shelf, or else made from what is kept of the page.
//!
//! `specs/Shelves` says what is kept beside the store of a shelf, `specs/Documents` what a reader is sent of a page. What a call answers
//! depends on the store and the reader's view alone, whatever is kept.
#![tactic(auto)]

mod body;
mod documents;

pub use documents::{Writing, reply_with_page};
