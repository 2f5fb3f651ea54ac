//! What CommonMark says of characters and lines (CommonMark 0.31.2, sections 2 and 6): lines, classes of characters, columns
//! and tabs, character references, escapes, tags, and scanners for what stands at the front of a text.
#![tactic(auto)]

pub mod characters;
pub mod cursor;
pub mod entities;
mod escapes;
pub mod lines;
pub mod options;
pub mod pushing;
pub mod scan;
mod tags;

pub use escapes::{character_reference, unescape};
pub use tags::html_tag;
