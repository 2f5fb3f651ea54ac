//! The front of a text, which is cut before the text is read as CommonMark (this project's choice): a byte order mark, and front matter,
//! whose title may become a heading.
#![tactic(auto)]

mod escaping;
mod fences;
pub mod fronted;
mod fronting;
mod headings;
pub mod laws;
mod lines;
pub mod rules;
mod titles;
mod values;

pub use fronting::front_of;
