//! What a server that keeps its edits does at its start: the edits of its journal happen again.
//!
//! A compaction writes a journal of the edits that lead from one site to another; restored, it gives that site.
#![tactic(auto)]

pub mod compact;
pub mod compact_fault;
pub mod edits;
pub mod fault;
pub mod laws;
pub mod record;
pub mod restore;
mod writer;
