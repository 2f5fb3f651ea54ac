//! What a search for people finds.

ghost use Rattle.std.specs.Prelude.{◌≡◌, IfOk, length, take};
ghost use Rattle.doc_people.specs.Hits.{hits};
ghost use Rattle.doc_rows.specs.Rows.{IsRows};
ghost use Rattle.doc_shelf_pages.specs.Shelves.{IsKept};
ghost use Rattle.doc_shelf_pages.specs.ViewLaws.{seen_in};
ghost use Rattle.doc_shelf_pages.specs.Views.{Renders, rendered_pages};

use crate::candidates::candidates;
use crate::finding::found_among;
use doc_page_parts::failure::Memory;
use doc_page_parts::heap::Heap;
use doc_people::term::Term;
use doc_people::viewed::Found;
use doc_rows::rows::Rows;
use doc_shelf_pages::KeptPages;
use doc_store::reader::Reader;
use doc_store::store::Store;

/// What these terms find among the pages that the reader sees, and of that the first so many. It takes a step for each page that the
/// reader sees and for each of its words; a page that is hidden from them is not walked over.
pub fn hits(
    heap: Heap,
    store: &Store,
    kept: &KeptPages,
    rows: &Rows,
    reader: &Reader,
    terms: &[Term],
    most: usize,
) -> Result<Found, Memory>
    ensures count { (render : Renders) → IsKept render store.now kept.now
        → IsRows store.now.site.pages rows.now
        → IfOk result (λ found. found.count ≡ length
        (hits (rendered_pages render (seen_in store.now reader.now)) terms.now)) }
    ensures best { (render : Renders) → IsKept render store.now kept.now
        → IsRows store.now.site.pages rows.now
        → IfOk result (λ found. found.best ≡ take most
        (hits (rendered_pages render (seen_in store.now reader.now)) terms.now)) }
{
    let candidates = candidates(heap, store, kept, rows, reader, terms)?;
    found_among(heap, &candidates, terms, most)
}
