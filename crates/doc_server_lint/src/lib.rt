//! What is wrong with a configuration, and what in it may be meant otherwise: each fault and each warning with its row, its key and,
//! where it can be told, its line.
//!
//! What a document tells is a definition. A document of which no fault is told is taken by all that reads it, and the line that is told
//! of a row is the row's. What files tell no contract can say: whoever reads them adds findings of the same type. That type, and what is
//! wrong with a table by itself, are of `doc_server_lint_faults`.
#![tactic(auto)]

mod digests;
mod faults;
pub mod findings;
mod held_groups;
mod known_readers;
pub mod laws;
pub mod line;
pub mod order;
mod page_warnings;
mod printed;
mod reader_faults;
mod reader_warnings;
pub mod report;
mod rows;
pub mod sources;
pub mod syntax;
mod what_text;
