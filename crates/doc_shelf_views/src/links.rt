//! Links, as a reader sees them: which pages link to one, and which links lead nowhere.

ghost use Rattle.std.specs.Prelude.{◌≡◌, not, IfOk, Some, filter, take};
ghost use Rattle.doc_media.specs.Media.{beside_of};
ghost use Rattle.doc_people.specs.Lists.{sources_from};
ghost use Rattle.doc_people.specs.Navigation.{is_before};
ghost use Rattle.doc_people.specs.Sources.{broken_links};
ghost use Rattle.doc_rows.specs.Rows.{IsRows};
ghost use Rattle.doc_rows_links.specs.LinkRows.{IsLinkRows};
ghost use Rattle.doc_shelf_pages.specs.Shelves.{IsKept};
ghost use Rattle.doc_shelf_pages.specs.ViewLaws.{seen_in};
ghost use Rattle.doc_shelf_pages.specs.Views.{Renders};
ghost use Rattle.doc_shelf_views.specs.Linking.{linking};
ghost use Rattle.doc_store.specs.Store.{IsStore};

use crate::sources::{Target, others_from};
use crate::stamped::{counted, stamped};
use doc_links_pages::answers::Broken;
use doc_media::media::Media;
use doc_media_links::unbroken;
use doc_page_parts::failure::Memory;
use doc_page_parts::heap::{Heap, Vec};
use doc_page_parts::list::List;
use doc_page_parts::path::Path;
use doc_rows::rows::Rows;
use doc_rows_links::link_rows::LinkRows;
use doc_shelf_pages::KeptPages;
use doc_shelf_pages::images::ImageTeller;
use doc_shelf_pages::visible::visible_page;
use doc_store::reader::Reader;
use doc_store::store::Store;

/// The other pages that link to a page, from a text on, in order, each with the number of its links: the first so many. To a page that the
/// reader doesn't see none does. It takes looks for what it answers, and for the page itself where that comes.
pub fn sources_from(
    heap: Heap,
    store: &Store,
    kept: &KeptPages,
    link_rows: &LinkRows,
    path: &Path,
    reader: &Reader,
    from: &str,
    most: usize,
) -> Result<List<(Path, u64)>, Memory>
    requires kept { (render : Renders) × IsStore store.now × IsKept render store.now kept.now }
    ensures { (render : Renders) → IsKept render store.now kept.now
        → IsLinkRows (linking render) store.now.site.pages link_rows.now
        → IfOk result (λ found. found ≡ take most
        (sources_from render (seen_in store.now reader.now) path.now from.now)) }
{
    if visible_page(store, reader, path).is_none() {
        return Ok(List::new(Vec::new(heap)));
    }
    let names = store.names_of(path)?;
    let target = Target {
        path,
        names: &names,
    };
    let texts = others_from(heap, link_rows, target, reader, from, most)?;
    let places = stamped(heap, store, &texts)?;
    let sight = store.sight(reader);
    let sources = counted(heap, kept.links(), &places, path, &sight)?;
    Ok(List::new(sources))
}

/// The broken links of the pages that the reader sees, beside the media that they see, and behind those of each page its images that show
/// nothing, from a text on, page by page.
pub fn broken_from(
    heap: Heap,
    store: &Store,
    kept: &KeptPages,
    rows: &Rows,
    reader: &Reader,
    media: &Option<Media>,
    from: &str,
) -> Result<List<Broken>, Memory>
    requires kept { (render : Renders) × IsStore store.now × IsKept render store.now kept.now }
    ensures { (render : Renders) → IsKept render store.now kept.now
        → IsRows store.now.site.pages rows.now
        → IfOk result (λ found. found ≡ filter (λ link. not (is_before link.source from.now))
        (broken_links render (seen_in store.now reader.now)
        (beside_of media.now (Some reader.now)))) }
{
    let texts = rows.paths_seen(heap, reader, "")?;
    let places = stamped(heap, store, texts.get())?;
    let images = ImageTeller {
        heap,
        kept,
        media,
        reader,
    };
    let broken = kept
        .links()
        .broken_at(&places, &store.sight(reader), &images)?;
    let mut links = unbroken(heap, broken, media, reader)?.into_inner();
    links.retain(|link| is_from(&link.source, from));
    Ok(List::new(links))
}

/// Whether a path is a text or comes after it.
fn is_from(path: &Path, from: &str) -> bool
    ensures { result ≡ not (is_before path.now from.now) }
{
    path.text() >= from
}
