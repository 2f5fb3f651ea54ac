//! Edits of a site.

use doc_page_parts::path::Path;
use doc_page_parts::text::Text;
use doc_store_readers::groups::Groups;

/// An edit of a site, with all that it takes.
#[derive(Debug, Drop)]
pub enum SiteEdit {
    /// The page's path, the groups that it is for, and its text.
    Put(Path, Groups, Text),
    /// The page of this path is removed, with its aliases.
    Remove(Path),
    /// From the first path to the second.
    Move(Path, Path),
}
