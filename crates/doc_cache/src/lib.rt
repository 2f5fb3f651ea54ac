//! Texts of pages as readers were sent them, kept for the next reader who decides alike.
#![tactic(auto)]

pub mod cache;
pub mod failure;
pub mod key;
pub mod laws;
