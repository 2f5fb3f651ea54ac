//! The conditions of a request: what its If-Match and If-None-Match fields name, and whether a page that stands meets them
//! (RFC 9110, sections 8.8.3, 13.1.1, 13.1.2 and 13.2.2). All of it borrows from the text of the fields and takes no memory.
#![tactic(auto)]

pub mod comparison;
pub mod conditions;
mod elements;
mod entity_tag;
pub mod laws;
pub mod named;
mod stripping;
pub mod tags;
pub mod verdict;
