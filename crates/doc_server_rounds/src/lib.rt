//! Rounds over links: each pass takes what the peers sent to the hub and writes its replies. One link's fault closes that link alone.
//!
//! The peers of a listener are served so: their connections are accepted first, served in one round, and dropped.
#![tactic(auto)]

mod accepting;
mod dropping;
pub mod fault;
pub mod link;
mod phase;
pub mod round;
mod sending;
pub mod serving;
