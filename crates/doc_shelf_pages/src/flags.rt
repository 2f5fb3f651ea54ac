//! Which pages of a store a reader sees, told by one walk over it.

ghost use Rattle.std.specs.Prelude.{◌≡◌, IfOk, Some, map as mapped};
ghost use Rattle.std.specs.FinMap as map;
ghost use Rattle.doc_store_readers.specs.Sites.{may_see};

use doc_page_parts::failure::Memory;
use doc_page_parts::heap::{Heap, Vec};
use doc_store::reader::Reader;
use doc_store::store::Store;

/// Of each page, in the order of the paths, whether the reader sees it.
pub fn flags_of(heap: Heap, store: &Store, reader: &Reader) -> Result<Vec<bool>, Memory>
    ensures { IfOk result (λ flags. flags.items ≡ mapped (λ page. may_see (Some reader.now) page.1)
        (map.entries store.now.site.pages)) }
{
    store.flags(heap, reader)
}
