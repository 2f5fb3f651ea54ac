//! What a reader sees of a shelf, part by part, as the pages for people ask for it.
//!
//! Each answer is of the reader's view alone, by the definitions of the pages for people, whatever else the store has. It is made of what
//! is kept of the pages, and renders nothing. `pages` looks up single pages, `links` lists what leads to a page and what leads nowhere; it
//! walks along rows, so over what the reader sees alone (`sources`, `stamped`).
#![tactic(auto)]

pub mod links;
pub mod pages;
mod sources;
mod stamped;
