//! The words that every crate of the server shares: those of `doc_page_parts`, which stand under this crate's name too, and what makes
//! pages of texts.
#![tactic(auto)]

pub mod laws;
pub mod plain;
pub mod renderer;

pub use doc_page_parts::{
    bytes, count, escaping, failure, filling, lines, linker, list, path, rendered, sight, text,
    token, trimming,
};
