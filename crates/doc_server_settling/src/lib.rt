//! The room that a journal keeps for turns to come, so that no turn lacks it, and why a turn ends a server.
#![tactic(auto)]

pub mod fault;
pub mod laws;
pub mod reserve;
