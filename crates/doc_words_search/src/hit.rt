//! What a search finds.

use doc_page_parts::path::Path;

/// A page that a search found, with its score.
#[derive(Drop)]
pub struct Hit {
    pub path: Path,
    pub score: u64,
}
