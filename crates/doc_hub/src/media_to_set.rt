//! Media that are to be set.

ghost use Rattle.std.specs.Prelude.{◌≡◌, IfOk};
ghost use Rattle.std.specs.FinMap as map;
ghost use Rattle.doc_hub.specs.Worlds.{are_apart, are_no_names};

use doc_media::media::Media;
use doc_page_parts::failure::Memory;
use doc_page_parts::heap::Heap;
use doc_store::store::Store;

/// Whether no path of a medium is a page's or an alias.
pub(crate) fn are_apart(store: &Store, media: &Option<Media>) -> bool
    ensures { result ≡ are_apart store.now.site media.now }
{
    match media {
        Some(media) => have_no_names(store, media),
        None => true,
    }
}

fn have_no_names(store: &Store, media: &Media) -> bool
    ensures { result ≡ are_no_names store.now.site (map.keys media.now) }
{
    for path in media.paths() {
        if store.has_name(path) {
            return false;
        }
    }
    true
}

/// The same media, or none.
pub(crate) fn copy_of(heap: Heap, media: &Option<Media>) -> Result<Option<Media>, Memory>
    ensures { IfOk result (λ copy. copy ≡ media.now) }
{
    match media {
        Some(media) => Ok(Some(media.copy(heap)?)),
        None => Ok(None),
    }
}
