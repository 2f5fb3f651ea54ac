//! The pages for people that say no more than a status. They are a crate of their own, since the gate's edit of one proves it once more,
//! and not the templates that they stand in.
#![tactic(auto)]

pub mod statuses;
