//! The pages for people that were made last, kept for the next who asks for the same with the same row.
#![tactic(auto)]

pub mod bodies;
pub mod body;
mod table;

pub use bodies::Bodies;
