//! The links of pages: which of them are broken, which pages link to a page, and what pages there are.
//!
//! An index holds of each page, under a path and a stamp, what its links lead to and its headings. It is asked by what a reader sees:
//! of the pages that the reader doesn't see nothing is told, and a link to one of them is as a link to none. Which pages are seen, and what
//! of them is broken, is of `doc_links_seen`; each of the two has an edit in the gate, which proves its crate once more.
#![tactic(auto)]

mod entries;
mod link_index;
mod numbering;
mod places;
mod sources;
mod tally;
mod written;

pub use doc_links_pages::answers::{Broken, Entry, Reason};
pub use doc_links_pages::page_links::PageLinks;
pub use doc_links_seen::seen::SeenPage;
pub use link_index::LinkIndex;
