//! What is wrong with a table of a configuration, by row and key; what each key has to hold, and which one may be meant by a key that none
//! is; and the line in which a row begins. Each row stands by itself: what is compared with rows before it is of `doc_server_lint`.
//!
//! This is a crate of its own, since the gate's edits of it prove it once more, and as a part of `doc_server_lint`, which it serves, they
//! would prove that one.
#![tactic(auto)]

pub mod digest_text;
pub mod finding;
pub mod folder_faults;
mod group_name;
pub mod page_faults;
pub mod place;
pub mod row_line;
pub mod rule;
pub mod table_faults;
pub mod tables;
pub mod unknown;
pub mod value_fault;
pub mod what;
