//! Pages held under a path and a stamp, each with a value and keys with counts, and asked by key.
//!
//! Each page stands in a slot, whose number is free again once the page goes. The slots stand in a list in the order of their
//! pages' paths and stamps, which is halved to find a page. A table (of `doc_index_tables`) leads from a key to each slot whose
//! page has it, with the count there. To add a page, to copy one and to let one go cost its keys, each times a logarithm of what
//! is held, and a move of the list's part behind it. A query by key costs one look-up, and then its answer. To let a page go
//! takes no memory.
#![tactic(auto)]

pub mod counts;
pub mod held;
pub mod index;
mod order;

pub use doc_index_tables::{row, table};
