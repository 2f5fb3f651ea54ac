//! What a search for people finds on a shelf, by the definitions of the pages for people.
//!
//! The search goes once over the paths that the reader sees, by the reader's own rows, and takes of each page how many of its words each
//! term meets (`counting`), and whether it is named (`naming`): these are its `candidates`. From them come how rare the terms are and the
//! scores of the pages (`scoring`), and from these the hits in their order (`finding`). A page that is hidden from the reader is not walked
//! over.
#![tactic(auto)]

mod candidates;
mod counting;
mod finding;
pub mod hits;
mod naming;
mod scoring;
