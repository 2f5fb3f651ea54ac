//! A page as it is held.

use crate::counts::Counts;
use doc_page_parts::path::Path;

/// A page as it is held: under a path and a stamp, with a value and the counts of its keys.
#[derive(Drop)]
pub struct Held<T> {
    pub path: Path,
    pub stamp: u64,
    pub value: T,
    pub counts: Counts,
}
