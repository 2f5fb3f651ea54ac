//! How the body of a request is framed, and where it ends (RFC 9112, sections 6 and 7): read as its bytes come,
//! without a second look at those that came before.
#![tactic(auto)]

pub mod blanks;
mod coding;
mod digits;
mod extent;
pub mod fault;
pub mod fields;
pub mod finding;
pub mod framing;
mod gathering;
pub mod laws;
mod length;
pub mod names;
pub mod reader;
mod size_line;
pub mod slices;
mod stage;
mod trailer;
