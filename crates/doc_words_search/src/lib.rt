//! What a word of a text is, how the words of texts and queries are read and counted, and the search for pages by words, among pages
//! in slots of an index.
//!
//! A word is a run of letters, marks and numbers with its case folded. A page's words are those of its texts, each once with its
//! count; a query has 1 to 16 different ones. The pages that have one of the words are marked, or each page has a flag that tells
//! whether it is seen. Then the words are weighed by how rare they are among the pages that are seen, and of the pages that have each
//! word the first 100 are answered, by score falling and then by path: where they come in the order of their paths, by place.
#![tactic(auto)]

pub mod characters;
pub mod counter;
pub mod flagging;
pub mod hit;
pub mod in_order;
mod key;
pub mod marking;
mod plain;
pub mod query;
pub mod ranking;
pub mod search;
mod tally;
mod weighing;
pub mod word;
pub mod words;
