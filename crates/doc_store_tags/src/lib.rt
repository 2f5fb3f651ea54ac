//! The tags of pages: strong entity tags (RFC 9110, section 8.8.3) of their groups and their texts and of nothing else. Two
//! pages have the same tag exactly where both are the same, but for a collision of SHA-256, which is trusted not to be found.
#![tactic(auto)]

mod digest;
pub mod laws;
pub mod page_tag;
#[cfg(test)]
mod tests;
