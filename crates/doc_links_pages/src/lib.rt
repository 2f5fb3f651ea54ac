//! What is known of a page for the sake of links: what each of its links leads to, its headings with their anchors, and the paths that
//! its links write.
//!
//! The definitions say of any list of such pages which links are broken, which pages link to one of them, and what pages there are;
//! the types of these answers stand beside.
#![tactic(auto)]

pub mod answers;
pub mod keys;
pub mod known;
pub mod page_links;
pub mod reference;
