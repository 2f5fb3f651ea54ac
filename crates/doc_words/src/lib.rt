//! An index of words: pages held under a path and a stamp with the counts of their words, and the search for those that hold each
//! word of a query, among the pages that a reader sees.
//!
//! What a word is, how words are read and the search itself stand in `doc_words_search`; hits, queries and words can be named here
//! too. The gate's edits of the search prove this crate once more, which is why it is one of its own.
#![tactic(auto)]

pub mod index;

pub use doc_words_search::{hit, query, word, words};
