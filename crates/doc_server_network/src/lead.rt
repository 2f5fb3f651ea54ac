//! What is left to do for a reload of pages.

use doc_page_parts::list::List;
use doc_store::site_edit::SiteEdit;

/// The edits that lead a hub to the site that a start would serve, in the order in which they are to be made, and how many records of the
/// journal that site holds, on the configuration's pages.
#[derive(Drop)]
pub struct Lead {
    pub edits: List<SiteEdit>,
    pub records: usize,
}
