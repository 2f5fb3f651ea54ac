//! What a link leads to.

use doc_page_parts::path::Path;
use doc_page_parts::text::Text;

/// What a link leads to, by its destination alone. Whether there is such a page is not asked.
#[derive(Debug, Drop)]
pub enum LinkKind {
    /// Out of the site: a destination with a scheme or an authority.
    External,
    /// To the page at a path, and there to the heading with an anchor.
    Page { path: Path, anchor: Option<Text> },
    /// To no page that can be: the path of the URI writes no path of a page.
    Nowhere,
}
