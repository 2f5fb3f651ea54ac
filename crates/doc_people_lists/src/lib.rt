//! The pages for people that list what a reader sees: the contents of a folder, the pages that link to one, and broken links.
//!
//! Each writer adds to the end of a buffer, where after a refusal part of it may stand.
#![tactic(auto)]

mod backlinks;
mod broken;
mod contents;
mod fronts;
mod groups;
mod parts;

pub use backlinks::backlinks_body;
pub use broken::broken_body;
pub use contents::{contents_body, sees_folder};
