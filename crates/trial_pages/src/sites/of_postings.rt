//! The calls that look only at the pages which write a name or have a word. They answer as `backlinks` and `search` do.

ghost use Rattle.std.specs.Prelude.{◌≡◌, IfOk, length};
ghost use Rattle.doc_page_parts.specs.Sights.{seen};
ghost use Rattle.doc_links_pages.specs.PageLinks.{IsOnce};
ghost use Rattle.doc_store_readers.specs.Sites.{goal_in};
ghost use Rattle.doc_words_search.specs.Searches.{pages_of};

use crate::sites::counting::Counting;
use crate::sites::indexes::STAMP;
use crate::sites::of_answers::{hits_told, sources_told};
use crate::sites::of_site::Site;
use crate::sites::stop::Stop;
use doc_links::LinkIndex;
use doc_page_parts::heap::{Heap, String};
use doc_page_parts::list::List;
use doc_page_parts::path::Path;
use doc_page_parts::sight::Sight;
use doc_store::reader::Reader;
use doc_store::site_sight::SiteSight;
use doc_store::store::Store;
use doc_words::index::WordIndex;
use doc_words::word::Word;

/// The text of the pages with links to a page that is held and seen.
pub fn backlinks_to(
    heap: Heap,
    site: &Site,
    reader: &Reader,
    target: &Path,
) -> Result<String, Stop> {
    let all = sources(&site.store, site.indexes.links(), reader, target)?;
    let told = sources_told(heap, all.get());
    drop(all);
    Ok(told?)
}

fn sources(
    store: &Store,
    links: &LinkIndex,
    reader: &Reader,
    target: &Path,
) -> Result<List<(Path, u64)>, Stop>
    requires once { IsOnce links.now }
{
    let Some(_page) = store.get(target) else {
        return Err(Stop::NoCall);
    };
    let Some(_links) = links.links_of(target, STAMP) else {
        return Err(Stop::NoCall);
    };
    let sight = store.sight(reader);
    if !sight.sees(target) {
        return Err(Stop::NoCall);
    }
    let names = store.names_of(target)?;
    let all = links.backlinks_under(target, &names, &sight);
    drop(names);
    Ok(all?)
}

/// The text of the pages that have these words, of fewer than 100 that are seen.
pub fn search_among(
    heap: Heap,
    index: &WordIndex,
    sight: &Counting,
    words: &[Word],
) -> Result<String, Stop> {
    let count = count_seen(heap, index, sight.plain())?;
    let all = index.search_among(heap, words, sight, count)?;
    let told = hits_told(heap, all.get());
    drop(all);
    Ok(told?)
}

/// How many of the held pages are seen, if they are fewer than 100: a search for no words finds each of them.
fn count_seen(heap: Heap, index: &WordIndex, sight: &SiteSight) -> Result<u64, Stop>
    ensures { IfOk result (λ count.
        count ≡ length (seen (goal_in sight.now) (pages_of index.now))) }
{
    let all = index.search(heap, &[], sight)?;
    let count = all.get().len();
    drop(all);
    if count >= 100 {
        return Err(Stop::NoCall);
    }
    Ok(count as u64)
}
