//! What the pages for people have in common, written: links and their addresses, and what pages and folders are called. Each writer adds
//! to the end of a buffer, where after a refusal part of it may stand.
#![tactic(auto)]

pub mod addresses;
pub mod lines;
pub mod links;
pub mod number;
pub mod texts;
pub mod titles;
