//! The lists that readers are answered, from what is kept of the pages.

ghost use Rattle.std.specs.Prelude.{◌≡◌, IfOk, Some};
ghost use Rattle.doc_links_pages.specs.Links.{backlinks};
ghost use Rattle.doc_listings.specs.Listings.{contents_of_lines};
ghost use Rattle.doc_links_pages.specs.PageLinks.{pages_of};
ghost use Rattle.doc_media.specs.Media.{beside_of};
ghost use Rattle.doc_page_parts.specs.Sights.{seen};
ghost use Rattle.doc_shelf_pages.specs.RenderingSteps.{texts_of as lines_in};
ghost use Rattle.doc_shelf_pages.specs.Shelves.{IsKept};
ghost use Rattle.doc_shelf_pages.specs.ViewLaws.{seen_in};
ghost use Rattle.doc_shelf_pages.specs.Views.{Renders, backlinks_body, contents_body, report_body, search_body};
ghost use Rattle.doc_store_readers.specs.Pages.{Page};
ghost use Rattle.doc_store_readers.specs.Groups.{texts_of};
ghost use Rattle.doc_store_readers.specs.Sites.{goal_in, page_at};
ghost use Rattle.doc_store.specs.Names.{names_of};
ghost use Rattle.doc_store.specs.Store.{IsStore};

use crate::KeptPages;
use crate::flags::flags_of;
use crate::hits::hits_of;
use crate::images::ImageTeller;
use doc_listings::{push_backlinks, push_hits, push_report};
use doc_media::media::Media;
use doc_media_links::unbroken;
use doc_page_parts::failure::Memory;
use doc_page_parts::heap::{Heap, String, Vec};
use doc_page_parts::list::List;
use doc_page_parts::path::Path;
use doc_page_parts::text::Text;
use doc_store::reader::Reader;
use doc_store::store::Store;
use doc_words::word::Word;

/// All pages are walked over where more than one in so many may write a name of a page.
const WALKED: usize = 64;

/// The lines of the pages that a reader sees, each with its headings: what a page of contents is made of.
pub fn contents<'a>(
    heap: Heap,
    store: &Store,
    kept: &'a KeptPages,
    reader: &Reader,
) -> Result<Vec<&'a Text>, Memory>
    ensures { (render : Renders) → IsStore store.now → IsKept render store.now kept.now
        → IfOk result (λ lines. contents_of_lines (lines_in lines.items)
        ≡ contents_body render (seen_in store.now reader.now)) }
{
    let flags = flags_of(heap, store, reader)?;
    kept.lines_of(&flags)
}

/// The pages that a reader sees with links to a page that they see: a line for each.
pub fn backlinks(
    heap: Heap,
    store: &Store,
    kept: &KeptPages,
    path: &Path,
    reader: &Reader,
) -> Result<Text, Memory>
    requires kept { (render : Renders) × IsStore store.now × IsKept render store.now kept.now }
    requires page { (page : Page) × (page_at (seen_in store.now reader.now).pages path.now
        ≡ Some page) }
    ensures { (render : Renders) → IsKept render store.now kept.now
        → IfOk result (λ text. text
        ≡ backlinks_body render (seen_in store.now reader.now) path.now) }
{
    let names = store.names_of(path)?;
    let sources = sources_of(heap, store, kept, path, &names, reader)?;
    let mut out = String::new(heap);
    push_backlinks(heap, &mut out, sources.get())?;
    Ok(Text::new(out))
}

/// The pages that a reader sees with links to a page of these names, each with the number of these links. Where many pages write one of
/// the names, one walk over all tells which are seen; else each page that writes one is asked for.
fn sources_of(
    heap: Heap,
    store: &Store,
    kept: &KeptPages,
    path: &Path,
    names: &[&Path],
    reader: &Reader,
) -> Result<List<(Path, u64)>, Memory>
    requires kept { (render : Renders) × IsStore store.now × IsKept render store.now kept.now }
    requires page { (page : Page) × (page_at (seen_in store.now reader.now).pages path.now
        ≡ Some page) }
    requires names { texts_of names.now ≡ names_of store.now.site path.now }
    ensures { IfOk result (λ sources. sources
        ≡ backlinks (goal_in (seen_in store.now reader.now))
        (seen (goal_in (seen_in store.now reader.now)) (pages_of kept.now.links)) path.now) }
{
    let links = kept.links();
    let sight = store.sight(reader);
    if links.reach_of_names(names) <= store.pages().len() / WALKED {
        return links.backlinks_under(path, names, &sight);
    }
    let flags = flags_of(heap, store, reader)?;
    links.backlinks_flagged(path, names, &flags, &sight)
}

/// What a search for these words finds among the pages that a reader sees: a line for each.
pub fn search(
    heap: Heap,
    store: &Store,
    kept: &KeptPages,
    words: &[Word],
    reader: &Reader,
) -> Result<Text, Memory>
    requires kept { (render : Renders) × IsStore store.now × IsKept render store.now kept.now }
    ensures { (render : Renders) → IsKept render store.now kept.now
        → IfOk result (λ text. text
        ≡ search_body render (seen_in store.now reader.now) words.now) }
{
    let hits = hits_of(heap, store, kept, words, reader)?;
    let mut out = String::new(heap);
    push_hits(heap, &mut out, hits.get())?;
    Ok(Text::new(out))
}

/// The broken links of the pages that a reader sees, beside the media that they see, and behind those of each page its images that show
/// nothing: a line for each.
pub fn report(
    heap: Heap,
    store: &Store,
    kept: &KeptPages,
    media: &Option<Media>,
    reader: &Reader,
) -> Result<Text, Memory>
    requires kept { (render : Renders) × IsStore store.now × IsKept render store.now kept.now }
    ensures { (render : Renders) → IsKept render store.now kept.now
        → IfOk result (λ text. text ≡ report_body render (seen_in store.now reader.now)
        (beside_of media.now (Some reader.now))) }
{
    let flags = flags_of(heap, store, reader)?;
    let images = ImageTeller {
        heap,
        kept,
        media,
        reader,
    };
    let broken = kept
        .links()
        .broken_flagged(&flags, &store.sight(reader), &images)?;
    let told = unbroken(heap, broken, media, reader)?;
    let mut out = String::new(heap);
    push_report(heap, &mut out, told.get())?;
    Ok(Text::new(out))
}
