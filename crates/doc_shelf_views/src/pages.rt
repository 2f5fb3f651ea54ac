//! Single pages, as a reader sees them.

ghost use Rattle.std.specs.Prelude.{◌≡◌, true, IfOk, Some, is_some, option_copied, option_map};
ghost use Rattle.doc_page_parts.specs.Pages.{filled};
ghost use Rattle.doc_page_parts.specs.declared.rendered.Rendered.{Rendered};
ghost use Rattle.doc_people.specs.KeptPaths.{is_kept};
ghost use Rattle.doc_people.specs.Views.{rendered_at, sees};
ghost use Rattle.doc_media.specs.Media.{beside_of, medium_in};
ghost use Rattle.doc_media_links.specs.MediaLinks.{lead_to_media as leading, shown_beside};
ghost use Rattle.doc_resolve.specs.Links.{kinds};
ghost use Rattle.doc_shelf_pages.specs.KeptPages.{kept_of};
ghost use Rattle.doc_shelf_pages.specs.Shelves.{IsKept};
ghost use Rattle.doc_shelf_pages.specs.ViewLaws.{seen_in};
ghost use Rattle.doc_shelf_pages.specs.Views.{Renders};
ghost use Rattle.doc_store_readers.specs.Sites.{goal_in};

use doc_media::kind::MediaKind;
use doc_media::media::Media;
use doc_media_links::{BesideLinker, lead_to_media};
use doc_page_parts::failure::Memory;
use doc_page_parts::heap::{Heap, String};
use doc_page_parts::path::Path;
use doc_page_parts::rendered::Heading;
use doc_page_parts::text::Text;
use doc_resolve::LinkKind;
use doc_shelf_packed::PackedPage;
use doc_shelf_pages::KeptPages;
use doc_shelf_pages::named::path_named;
use doc_shelf_pages::visible::visible_page;
use doc_store::reader::Reader;
use doc_store::store::Store;

/// Whether the reader sees a page at a path. A text that is no path has none.
pub fn sees(heap: Heap, store: &Store, path: &str, reader: &Reader) -> Result<bool, Memory>
    ensures { IfOk result (λ seen. seen ≡ sees (seen_in store.now reader.now) path.now) }
{
    let Some(path) = path_named(heap, store, path)? else {
        return Ok(false);
    };
    Ok(has_page(store, &path, reader))
}

/// The headings of the page at a path, where the reader sees one there. A text that is no path has none.
pub fn headings<'a>(
    heap: Heap,
    store: &Store,
    kept: &'a KeptPages,
    path: &str,
    reader: &Reader,
) -> Result<Option<&'a [Heading]>, Memory>
    ensures { (render : Renders) → IsKept render store.now kept.now
        → IfOk result (λ headings. option_copied headings ≡ option_map (λ page. page.headings)
        (rendered_at render (seen_in store.now reader.now) path.now)) }
{
    let Some(path) = path_named(heap, store, path)? else {
        return Ok(None);
    };
    Ok(headings_at(store, kept, &path, reader))
}

fn headings_at<'a>(
    store: &Store,
    kept: &'a KeptPages,
    path: &Path,
    reader: &Reader,
) -> Option<&'a [Heading]>
    ensures { (render : Renders) → IsKept render store.now kept.now
        → option_copied result ≡ option_map (λ page. page.headings)
        (rendered_at render (seen_in store.now reader.now) path.now) }
{
    let Some(page) = rendering_at(store, kept, path, reader) else {
        return None;
    };
    Some(page.headings())
}

/// The HTML of the page at a path, where the reader sees one there, with its links as the reader sees them, to
/// pages and to media.
pub fn html(
    heap: Heap,
    store: &Store,
    kept: &KeptPages,
    path: &Path,
    reader: &Reader,
    media: &Option<Media>,
) -> Result<Option<Text>, Memory>
    ensures { (render : Renders) → IsKept render store.now kept.now
        → IfOk result (λ html. html ≡ option_map
        (filled (shown_beside (goal_in (seen_in store.now reader.now))
        (beside_of media.now (Some reader.now)) path.now))
        (rendered_at render (seen_in store.now reader.now) path.now)) }
{
    let Some(page) = rendering_at(store, kept, path, reader) else {
        return Ok(None);
    };
    let sight = store.sight(reader);
    let mut out = String::with_capacity(heap, page.room())?;
    page.push_filled(
        heap,
        &mut out,
        &BesideLinker::new(path, &sight, media, reader),
    )?;
    Ok(Some(Text::new(out)))
}

/// Whether one of the links of the page at a path leads to a medium that the reader sees. It takes no memory.
pub fn leads_to_media(
    store: &Store,
    kept: &KeptPages,
    path: &Path,
    reader: &Reader,
    media: &Option<Media>,
) -> bool
    ensures { (render : Renders) → (page : Rendered) → IsKept render store.now kept.now
        → rendered_at render (seen_in store.now reader.now) path.now ≡ Some page
        → result ≡ leading (beside_of media.now (Some reader.now)) (kinds path.now page.pieces) }
{
    if media.is_none() {
        return false;
    }
    let Some(links) = links_at(store, kept, path, reader) else {
        return false;
    };
    lead_to_media(links, media, reader)
}

/// Whether a path is kept for media: a medium that the reader sees stands there, or no page that they see does and the path's name is a
/// medium's. It takes no memory.
pub fn is_kept(store: &Store, path: &Path, reader: &Reader, media: &Option<Media>) -> bool
    ensures { result ≡ is_kept (seen_in store.now reader.now)
        (beside_of media.now (Some reader.now)) path.now }
{
    let Some(held) = media else {
        return false;
    };
    has_medium(held, path, reader)
        || (MediaKind::of(path).is_some() && !has_page(store, path, reader))
}

/// Whether a medium that the reader sees stands under a path.
fn has_medium(media: &Media, path: &Path, reader: &Reader) -> bool
    ensures { result
        ≡ is_some (medium_in (beside_of (Some media.now) (Some reader.now)) path.now) }
{
    media.seen(reader, path).is_some()
}

/// Whether a page that the reader sees does.
fn has_page(store: &Store, path: &Path, reader: &Reader) -> bool
    ensures { result ≡ sees (seen_in store.now reader.now) path.now }
{
    visible_page(store, reader, path).is_some()
}

/// What the links of the page at a path lead to, where the reader sees one there.
fn links_at<'a>(
    store: &Store,
    kept: &'a KeptPages,
    path: &Path,
    reader: &Reader,
) -> Option<&'a [LinkKind]>
    ensures { (render : Renders) → IsKept render store.now kept.now
        → option_copied result ≡ option_map (λ page. kinds path.now page.pieces)
        (rendered_at render (seen_in store.now reader.now) path.now) }
{
    match visible_page(store, reader, path) {
        Some(page) => kept.links().links_of(path, page.stamp()),
        None => None,
    }
}

/// The plain texts of the blocks of the page at a path, where the reader sees one there, of pages that are kept with their texts.
pub fn texts<'a>(
    store: &Store,
    kept: &'a KeptPages,
    path: &Path,
    reader: &Reader,
) -> Option<&'a [Text]>
    ensures { (render : Renders) → IsKept render store.now kept.now
        → kept.now.with_texts ≡ true
        → option_copied result ≡ option_map (λ page. page.texts)
        (rendered_at render (seen_in store.now reader.now) path.now) }
{
    let Some(page) = rendering_at(store, kept, path, reader) else {
        return None;
    };
    Some(page.texts())
}

/// The rendering of the page at a path, as it is kept, where the reader sees one there.
fn rendering_at<'a>(
    store: &Store,
    kept: &'a KeptPages,
    path: &Path,
    reader: &Reader,
) -> Option<&'a PackedPage>
    ensures { (render : Renders) → IsKept render store.now kept.now
        → option_copied result ≡ option_map (kept_of kept.now.with_texts)
        (rendered_at render (seen_in store.now reader.now) path.now) }
{
    let Some(page) = visible_page(store, reader, path) else {
        return None;
    };
    kept.get(path, page.stamp())
}
