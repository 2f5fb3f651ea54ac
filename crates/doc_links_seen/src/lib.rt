//! The pages of an index that a reader sees, by a sight, and what is told of them: their headings, and which of their links are broken.
//!
//! Of a page that isn't seen nothing is told, and a link to it is as a link to none.
#![tactic(auto)]

pub(crate) mod memo;
pub mod named;
pub mod report;
pub mod seen;
pub(crate) mod stands;
pub mod teller;
