//! The lines of a log, with who asks: the readers of a configuration by the digests of their tokens. No token in clear stays here, and a
//! name is one that the configuration gives.
#![tactic(auto)]

pub mod answered;
mod asking;
mod digest;
pub mod lines;
pub mod listed;
pub mod names;
