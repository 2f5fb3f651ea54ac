//! Lines of the log of requests, in two forms: plain, six fields with a space between, and JSON, an object a line (RFC 8259).
//!
//! A line is made of an `Entry` alone: of a request's head it has the method and the target, and of who asked a name of the
//! configuration. So no other field of a head, and no token in one, can reach a line.
#![tactic(auto)]

pub mod date;
pub mod entry;
pub mod json_line;
pub mod laws;
pub mod moment;
pub mod plain_line;
pub mod reader;
pub mod request_line;
