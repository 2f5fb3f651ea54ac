//! Pages under their paths and stamps, and how many of their links lead to one.

ghost use Rattle.std.specs.Prelude.{◌≡◌, ◌++◌, IfOk, OnOk, map as mapped};
ghost use Rattle.std.specs.List.{flat_map};
ghost use Rattle.doc_shelf_views.specs.Sources.{counted_at, stamped_at};
ghost use Rattle.doc_store_readers.specs.Sites.{goal_in};

use doc_links::LinkIndex;
use doc_page_parts::failure::Memory;
use doc_page_parts::heap::{Heap, Vec};
use doc_page_parts::path::Path;
use doc_page_parts::text::Text;
use doc_shelf_pages::named::path_named;
use doc_store::site_sight::SiteSight;
use doc_store::store::Store;

/// Those of some texts that are the paths of pages, each with the stamp of its page.
pub(crate) fn stamped(heap: Heap, store: &Store, texts: &[Text]) -> Result<Vec<(Path, u64)>, Memory>
    ensures { IfOk result (λ places. places.items ≡ flat_map (stamped_at store.now) texts.now) }
{
    let mut places = Vec::new(heap);
    for text in texts {
        push_stamped(heap, &mut places, store, text.get())?;
    }
    Ok(places)
}

fn push_stamped(
    heap: Heap,
    places: &mut Vec<(Path, u64)>,
    store: &Store,
    text: &str,
) -> Result<(), Memory>
    ensures { OnOk result (places.new.items ≡ places.old.items ++ stamped_at store.now text.now) }
{
    let Some(path) = path_named(heap, store, text)? else {
        return Ok(());
    };
    let Some(page) = store.get(&path) else {
        return Ok(());
    };
    let stamp = page.stamp();
    places.push((path, stamp))?;
    Ok(())
}

/// Each of these pages with the number of its links that lead to a target.
pub(crate) fn counted(
    heap: Heap,
    index: &LinkIndex,
    places: &[(Path, u64)],
    target: &Path,
    sight: &SiteSight,
) -> Result<Vec<(Path, u64)>, Memory>
    ensures { IfOk result (λ sources. sources.items
        ≡ mapped (counted_at (goal_in sight.now) target.now index.now) places.now) }
{
    let mut sources = Vec::new(heap);
    for place in places {
        let count = index.links_to(&place.0, place.1, target, sight);
        sources.push((place.0.copy(heap)?, count))?;
    }
    Ok(sources)
}
