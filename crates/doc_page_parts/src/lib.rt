//! What pages are made of: the heap, texts and lists that contracts see by their contents, what is read off a text (its lines, whether it
//! is a path or a token, how HTML escapes it), rendered pages, and their links as a reader sees them. All of it stands under the name of
//! `doc_page` too.
#![tactic(auto)]

pub mod bytes;
pub mod count;
pub mod escaping;
pub mod failure;
pub mod filling;
pub mod heap;
pub mod lines;
pub mod linker;
pub mod list;
pub mod path;
pub mod rendered;
pub mod sight;
pub mod text;
pub mod token;
pub mod trimming;
