//! Rows by link: for each path that links write, the rows of the pages that write it. So which pages that a reader sees link to a page is
//! found by looks into the rows of theirs, and no page that is hidden from them is walked over.
//!
//! A page is set in two steps, as in `doc_rows`: before the edit the rows are widened, and after it they are narrowed to the new page, or
//! back where it was refused. What takes a page out takes no memory.
#![tactic(auto)]

pub mod link_rows;
pub mod targets;
