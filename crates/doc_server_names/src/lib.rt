//! Names of readers, which the log tells in place of tokens.
#![tactic(auto)]

pub mod reader_name;
