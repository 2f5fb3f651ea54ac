//! The pages with their headings.

ghost use Rattle.std.specs.Prelude.{◌≡◌, IfOk};
ghost use Rattle.doc_links_pages.specs.Links.{contents, entry_of};
ghost use Rattle.doc_links_seen.specs.SeenPages.{seen_page, seen_pages};

use doc_links_pages::answers::Entry;
use doc_links_pages::page_links::copy_of_headings;
use doc_links_seen::seen::SeenPage;
use doc_page_parts::failure::Memory;
use doc_page_parts::heap::{Heap, Vec};
use doc_page_parts::list::List;

/// Copies of the pages' paths and headings.
pub fn entries_of(heap: Heap, pages: &[SeenPage]) -> Result<List<Entry>, Memory>
    ensures { IfOk result (λ all. all ≡ contents (seen_pages pages.now)) }
{
    let mut all = Vec::with_capacity(heap, pages.len())?;
    for page in pages {
        all.push(entry(heap, page)?)?;
    }
    Ok(List::new(all))
}

/// A copy of the path and the headings.
fn entry(heap: Heap, page: &SeenPage) -> Result<Entry, Memory>
    ensures { IfOk result (λ entry. entry ≡ entry_of (seen_page page.now)) }
{
    Ok(Entry {
        path: page.path().copy(heap)?,
        headings: copy_of_headings(heap, page.headings())?,
    })
}
