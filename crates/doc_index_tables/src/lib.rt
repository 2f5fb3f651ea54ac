//! Numbers by text and number, as a row for each text, in the order of its numbers; values by text, in which short texts are numbers;
//! and texts with numbers, packed one after another. The tables of `doc_index` are made of them.
#![tactic(auto)]

pub mod block;
pub mod block_entries;
pub mod blocks;
pub mod entries;
pub mod packed;
pub mod pairs;
pub mod row;
pub mod single;
pub mod table;
pub mod text_table;
