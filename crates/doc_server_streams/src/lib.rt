//! Bytes that come in and go out, with what contracts see of them: what is left to read, what was written and flushed, and how many
//! calls failed. So a contract can say that a command gives up only where a call failed.
//!
//! Beside inputs and outputs stand streams of a peer: one that is read and written, over memory and over TCP. Contracts see what is left
//! to read, what was written, and how many calls failed.
//!
//! `whole_input` and `whole_output` are how the commands of the program read and write, and `fault` is what stops them.
#![tactic(auto)]

pub mod fault;
pub mod input;
pub mod memory_stream;
pub mod output;
pub mod read_from;
pub mod sending;
pub mod stream;
pub mod stream_fault;
pub mod tcp_link;
pub mod whole_input;
pub mod whole_output;
pub mod write_to;
