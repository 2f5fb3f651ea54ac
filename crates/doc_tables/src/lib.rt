//! Tables in the text of a paragraph (GitHub Flavored Markdown 0.29, section 4.10): the cells of a line, and where a table begins.
#![tactic(auto)]

pub mod alignment;
pub mod cells;
pub mod columns;
pub mod laws;
pub mod lines;
mod parts;
pub mod table;
#[cfg(test)]
mod tests;
pub mod unescaping;
