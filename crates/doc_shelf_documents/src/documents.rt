//! Documents of pages: found in the cache, or else made from what is kept of the page.

ghost use Rattle.std.specs.Prelude.{◌≡◌, ◌⊎◌, IfOk, Some, option_map};
ghost use Rattle.doc_cache.specs.Caches.{kept as kept_in_cache, looked, text_under};
ghost use Rattle.doc_http_replies.specs.Manners.{dress_of};
ghost use Rattle.doc_media.specs.Media.{beside_of};
ghost use Rattle.doc_shelf_documents.specs.Documents.{IsServed, document_beside, document_reply, made_of_kept};
ghost use Rattle.doc_shelf_pages.specs.Shelves.{HasDocuments};
ghost use Rattle.doc_shelf_pages.specs.Views.{Renders};
ghost use Rattle.doc_store_readers.specs.Pages.{Page};
ghost use Rattle.doc_store.specs.Store.{StoreState};

use crate::body::body;
use doc_cache::cache::PageCache;
use doc_cache::key::Key;
use doc_http::manner::Manner;
use doc_http::reply::write_content;
use doc_media::media::Media;
use doc_media_links::{BesideLinker, goals_beside, name_places};
use doc_page_parts::bytes::Bytes;
use doc_page_parts::failure::Memory;
use doc_page_parts::heap::Heap;
use doc_page_parts::linker::Linker;
use doc_page_parts::list::List;
use doc_page_parts::path::Path;
use doc_page_parts::sight::Sight;
use doc_page_parts::text::Text;
use doc_shelf_pages::KeptPages;
use doc_store_readers::reader::Reader;

/// How a reply is written, and with whose memory.
#[derive(Clone, Copy)]
pub struct Writing<'a> {
    pub heap: Heap,
    pub manner: Manner<'a>,
}

/// A document, and the reply with it.
struct Made {
    reply: Bytes,
    document: Text,
}

/// The reply that shows a page, which stands under a path with this stamp, by what its reader sees of pages and of media. There is none
/// where nothing is kept of the page. A document that was made is kept last, once its reply is made too, and by a call that can't refuse:
/// where there is no memory to keep it, the reply is the same. One with a link that names a place in a medium isn't kept: its key tells
/// where links lead, and such a link is shown otherwise than one to a page.
pub fn reply_with_page<S: Sight>(
    writing: Writing,
    kept: &KeptPages,
    cache: &mut PageCache,
    path: &Path,
    stamp: u64,
    sight: &S,
    media: &Option<Media>,
    reader: &Reader,
) -> Result<Option<Bytes>, Memory>
    ensures reply { (render : Renders) → (store : StoreState) → (page : Page)
        → IsServed render store kept.now cache.old path.now stamp page
        → IfOk result (λ reply. reply ≡ Some (document_reply (dress_of writing.entry.manner)
        writing.entry.manner.head_only writing.entry.manner.close
        (document_beside render (S.goals sight.now) (beside_of media.now (Some reader.now)) path.now
        page))) }
    ensures cache { (render : Renders) → (store : StoreState) → (page : Page)
        → IsServed render store kept.now cache.old path.now stamp page
        → HasDocuments render store cache.new }
{
    let Some(links) = kept.links().links_of(path, stamp) else {
        return Ok(None);
    };
    let linker = BesideLinker::new(path, sight, media, reader);
    if name_places(links, media, reader) {
        return reply_made_anew(writing, kept, path, stamp, &linker);
    }
    let key = Key {
        stamp,
        decisions: List::new(goals_beside(writing.heap, links, sight, media, reader)?),
    };
    let found = found_reply(writing, cache, &key)?;
    if found.is_some() {
        return Ok(found);
    }
    let Some(made) = make(writing, kept, path, stamp, &linker)? else {
        return Ok(None);
    };
    Ok(Some(keep_made(cache, key, made)))
}

/// The reply that shows a page with its links shown so, of a document that isn't kept. There is none where nothing is kept of the page.
fn reply_made_anew<L: Linker>(
    writing: Writing,
    kept: &KeptPages,
    path: &Path,
    stamp: u64,
    linker: &L,
) -> Result<Option<Bytes>, Memory>
    ensures { IfOk result (λ reply. reply ≡ option_map (λ made. made.reply)
        (made_of_kept (dress_of writing.entry.manner) writing.entry.manner.head_only
        writing.entry.manner.close kept.now (L.shown linker.now) path.now stamp)) }
{
    let Some(made) = make(writing, kept, path, stamp, linker)? else {
        return Ok(None);
    };
    let Made { reply, document: _ } = made;
    Ok(Some(reply))
}

/// The reply with the document that stands under a key, if one does.
fn found_reply(writing: Writing, cache: &mut PageCache, key: &Key) -> Result<Option<Bytes>, Memory>
    ensures reply { IfOk result (λ reply. reply
        ≡ option_map (document_reply (dress_of writing.entry.manner) writing.entry.manner.head_only
        writing.entry.manner.close)
        (text_under cache.old key.now)) }
    ensures cache { cache.new ≡ looked cache.old key.now }
{
    let Some(text) = cache.look(key) else {
        return Ok(None);
    };
    let reply = write_content(writing.heap, true, text.as_bytes(), writing.manner)?;
    Ok(Some(reply))
}

/// The reply that shows a page, and its document, made of what is kept of the page under a path and a stamp. There is none where
/// nothing is kept.
fn make<L: Linker>(
    writing: Writing,
    kept: &KeptPages,
    path: &Path,
    stamp: u64,
    linker: &L,
) -> Result<Option<Made>, Memory>
    ensures { IfOk result (λ made. made ≡ made_of_kept (dress_of writing.entry.manner)
        writing.entry.manner.head_only writing.entry.manner.close kept.now
        (L.shown linker.now) path.now stamp) }
{
    let Some(page) = kept.get(path, stamp) else {
        return Ok(None);
    };
    let document = body(writing.heap, path, page, linker)?;
    let content = document.get().as_bytes();
    let reply = write_content(writing.heap, true, content, writing.manner)?;
    Ok(Some(Made { reply, document }))
}

/// Keeps a document that was made, under a key, where there is memory to keep it; the reply that was made with it, either way.
fn keep_made(cache: &mut PageCache, key: Key, made: Made) -> Bytes
    ensures reply { result ≡ made.reply }
    ensures cache { (cache.new ≡ kept_in_cache cache.old key made.document)
        ⊎ (cache.new ≡ cache.old) }
{
    let Made { reply, document } = made;
    cache.keep(key, document);
    reply
}
