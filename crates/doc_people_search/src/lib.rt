//! The page for people that searches: what a query asks for, the pages that it finds, and a piece of each page that is shown.
//!
//! `search` has the page and the code of its reply. Each text is read in time linear in its length, and of a page's texts the first
//! 65,536 bytes at most. A writer adds to the end of a buffer, where after a refusal part of it may stand.
#![tactic(auto)]

pub mod asking;
mod best;
mod hits;
mod main_part;
mod parts;
mod places;
pub mod search;
pub mod snippets;
pub mod terms;
