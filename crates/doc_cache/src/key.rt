//! What a text is kept under.

use doc_page_parts::list::List;
use doc_page_parts::path::Path;

/// What a text is kept under: the page at one revision, and where its links lead one reader.
#[derive(PartialEq, Eq, Hash, Drop)]
pub struct Key {
    /// The stamp of the page.
    pub stamp: u64,
    /// For each link of the page the page that it leads to, in the order of the links.
    pub decisions: List<Option<Path>>,
}
