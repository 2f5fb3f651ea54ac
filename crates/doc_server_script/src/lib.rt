//! The script of a server: a line of it as an event, an outcome as a line, and edits of pages as the lines that give them.
//!
//! A line is given and written without its line feed. Its fields stand between single spaces:
//!
//! - `connect`
//! - `push ID BYTES`, `step ID`, `disconnect ID`
//! - `put PATH GROUPS TEXT`, `remove PATH`, `move FROM TO`
//! - `reader TOKEN owner GROUPS`, `reader TOKEN plain GROUPS`, `unreader TOKEN`
//!
//! The last field takes the rest of the line; it may be empty, but the space before it stands. ID is the digits of a number below
//! 2^64. GROUPS are names joined by commas, or `-` for none. In BYTES, PATH, FROM, TO and TEXT a backslash begins an escape: `\r`, `\n`,
//! `\\`, or `\x` and two hexadecimal digits. A TOKEN stands as it is.
//!
//! Compaction stands on these lines: the edits that lead from one site to another.
#![tactic(auto)]

pub mod bytes;
mod command;
pub mod compaction_laws;
pub mod edit;
mod escaping;
mod field_error;
mod fields;
pub mod laws;
pub mod line;
pub mod outcome;
pub mod page_lines;
pub mod script;
mod unescaping;
