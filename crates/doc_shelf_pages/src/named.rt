//! Texts that are the paths of pages.

ghost use Rattle.std.specs.Prelude.{◌≡◌, None, IfNone, IfOk, IfSome};
ghost use Rattle.std.specs.FinMap as map;

use doc_page_parts::failure::Memory;
use doc_page_parts::heap::Heap;
use doc_page_parts::path::{Path, PathError};
use doc_store::store::Store;

/// The path that a text is. Where there is none, no page of the store stands under it.
pub fn path_named(heap: Heap, store: &Store, text: &str) -> Result<Option<Path>, Memory>
    ensures is { IfOk result (λ path. IfSome path (λ path. path ≡ text.now)) }
    ensures none { IfOk result (λ path. IfNone path
        (map.get store.now.site.pages text.now ≡ None)) }
{
    match Path::new(heap, text) {
        Ok(path) => Ok(Some(path)),
        Err(PathError::Memory) => Err(Memory),
        Err(PathError::BadPath) => stored_path(heap, store, text),
    }
}

/// The path of the page that stands under a text. It goes over the pages, and is for texts that `Path` refuses: no page stands under one,
/// but the store's contracts don't say so.
fn stored_path(heap: Heap, store: &Store, text: &str) -> Result<Option<Path>, Memory>
    ensures is { IfOk result (λ path. IfSome path (λ path. path ≡ text.now)) }
    ensures none { IfOk result (λ path. IfNone path
        (map.get store.now.site.pages text.now ≡ None)) }
{
    'entries: for (path, _page) in store.pages() {
        if text == path.text() {
            return Ok(Some(path.copy(heap)?));
        }
    }
    Ok(None)
}
