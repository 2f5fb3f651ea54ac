//! Edits that requests ask for.

use doc_page_parts::path::Path;
use doc_store::groups::Groups;

/// An edit of the site that a request asks for.
#[derive(Drop)]
pub enum Edit {
    /// The body of the request becomes the page of this path, for these groups.
    Put(Path, Groups),
    /// The page of this path is for these groups; its text stays.
    Regroup(Path, Groups),
    /// The page of the first path goes to the second, and leaves the first as an alias.
    Move(Path, Path),
    /// The page of this path is removed.
    Remove(Path),
}
