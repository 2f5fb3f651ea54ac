//! The parts of link reference definitions (CommonMark 0.31.2, sections 4.7 and 6.3): scanners for labels, destinations, titles and
//! whole definitions, what a destination and a title mean, and laws of what definitions name.
#![tactic(auto)]

pub mod laws;
mod lengths;
pub mod scan;
pub mod target;

pub use lengths::{destination, title};
