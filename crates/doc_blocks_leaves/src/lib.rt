//! Leaf blocks of a document that is read line by line (CommonMark 0.31.2, sections 4 and 5): the open leaf with the text that is
//! gathered for it, and the leaf that a line begins.
#![tactic(auto)]

pub mod closed;
mod gathered;
pub mod laws;
pub mod leaf;
pub mod line;
mod paragraph;
pub mod start;
mod strip;
