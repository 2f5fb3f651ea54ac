//! The anchors of a page's headings: names made of their texts, each one free of those before it (this project's choice).
#![tactic(auto)]

mod headings;
mod names;
mod numbers;
mod used;

pub use headings::anchors_of;
pub use used::Anchors;
