//! What a search finds among the pages that a reader sees.

ghost use Rattle.std.specs.Prelude.{◌≡◌, IfOk};
ghost use Rattle.doc_shelf_pages.specs.Shelves.{IsKept};
ghost use Rattle.doc_shelf_pages.specs.ViewLaws.{seen_in};
ghost use Rattle.doc_shelf_pages.specs.Views.{Renders, hits_in};
ghost use Rattle.doc_store.specs.Store.{IsStore};

use crate::KeptPages;
use crate::flags::flags_of;
use doc_page_parts::failure::Memory;
use doc_page_parts::heap::Heap;
use doc_page_parts::list::List;
use doc_store::reader::Reader;
use doc_store::store::Store;
use doc_words::hit::Hit;
use doc_words::word::Word;

/// All pages are walked over where more than one in so many may have one of the words.
const WALKED: usize = 8;

/// The best pages that have each word. Where many pages have one of them, one walk over all tells which are seen; else each page that has
/// one is asked for.
pub fn hits_of(
    heap: Heap,
    store: &Store,
    kept: &KeptPages,
    words: &[Word],
    reader: &Reader,
) -> Result<List<Hit>, Memory>
    requires kept { (render : Renders) × IsStore store.now × IsKept render store.now kept.now }
    ensures { (render : Renders) → IsKept render store.now kept.now → IfOk result
        (λ hits. hits ≡ hits_in render (seen_in store.now reader.now) words.now) }
{
    if kept.words().reach(words) > store.pages().len() / WALKED {
        return hits_by_flags(heap, store, kept, words, reader);
    }
    hits_by_sight(heap, store, kept, words, reader)
}

/// The hits by one walk over all pages.
fn hits_by_flags(
    heap: Heap,
    store: &Store,
    kept: &KeptPages,
    words: &[Word],
    reader: &Reader,
) -> Result<List<Hit>, Memory>
    ensures { (render : Renders) → IsStore store.now → IsKept render store.now kept.now
        → IfOk result (λ hits. hits ≡ hits_in render (seen_in store.now reader.now) words.now) }
{
    let flags = flags_of(heap, store, reader)?;
    kept.words().search_flagged(heap, words, &flags)
}

/// The hits by a look at each page that has one of the words.
fn hits_by_sight(
    heap: Heap,
    store: &Store,
    kept: &KeptPages,
    words: &[Word],
    reader: &Reader,
) -> Result<List<Hit>, Memory>
    requires kept { (render : Renders) × IsStore store.now × IsKept render store.now kept.now }
    ensures { (render : Renders) → IsKept render store.now kept.now → IfOk result
        (λ hits. hits ≡ hits_in render (seen_in store.now reader.now) words.now) }
{
    let count = store.count_seen(reader);
    let sight = store.sight(reader);
    kept.words().search_among(heap, words, &sight, count as u64)
}
