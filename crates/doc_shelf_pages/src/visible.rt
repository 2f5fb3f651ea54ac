//! Pages that a reader sees.

ghost use Rattle.std.specs.Prelude.{◌≡◌, IfSome, Some, option_map};
ghost use Rattle.doc_shelf_pages.specs.EditLaws.{Stands};
ghost use Rattle.doc_store_readers.specs.Sites.{page_at, view_of};
ghost use Rattle.doc_store.specs.Store.{IsStore};

use doc_page_parts::path::Path;
use doc_store::page::Page;
use doc_store::reader::Reader;
use doc_store::store::Store;

/// The page at a path, where there is one that the reader may see.
pub fn visible_page<'a>(store: &'a Store, reader: &Reader, path: &Path) -> Option<&'a Page>
    ensures page { option_map (λ page. page.now.page) result
        ≡ page_at (view_of store.now.site (Some reader.now)).pages path.now }
    ensures stands { IfSome result
        (λ page. Stands store.now path.now page.now.stamp page.now.page) }
    ensures store { IfSome result (λ page. IsStore store.now) }
{
    let Some(page) = store.get(path) else {
        return None;
    };
    if !reader.may_see(page) {
        return None;
    }
    Some(page)
}
