//! Bytes in a queue. It is a crate of its own, since the gate's edit of it proves it once more, and not all that reads requests.
#![tactic(auto)]

pub mod queue;
