//! Who asks, as definitions (`specs/Asking`) and read of a request. It is a crate of its own, since the gate's edit of it proves it once
//! more, and not all that people are answered.
#![tactic(auto)]

pub mod asking;
