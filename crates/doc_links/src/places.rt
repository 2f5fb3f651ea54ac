//! The slots of pages by their places: each the path and the stamp that a page is held under.

ghost use Rattle.std.specs.Prelude.{◌≡◌, ◌++◌, IfOk, OnOk};
ghost use Rattle.std.specs.List.{flat_map};
ghost use Rattle.doc_links_seen.specs.SeenSteps.{pages_at};
ghost use Rattle.doc_links.specs.IndexSteps.{linked_at, without_counts};

use doc_index::index::Index;
use doc_links_pages::known::Known;
use doc_page_parts::failure::Memory;
use doc_page_parts::heap::{Heap, Vec};
use doc_page_parts::path::Path;

/// The slots of the pages that are held at these places, in this order.
pub(crate) fn slots_at(
    heap: Heap,
    pages: &Index<Known>,
    places: &[(Path, u64)],
) -> Result<Vec<u64>, Memory>
    ensures { IfOk result (λ slots. pages_at pages.now slots.items
        ≡ flat_map (linked_at (without_counts pages.now)) places.now) }
{
    let mut slots = Vec::with_capacity(heap, places.len())?;
    for place in places {
        push_slot(&mut slots, pages, &place.0, place.1)?;
    }
    Ok(slots)
}

/// Adds the slot of the page that is held under a path and a stamp, where there is one.
fn push_slot(
    slots: &mut Vec<u64>,
    pages: &Index<Known>,
    path: &Path,
    stamp: u64,
) -> Result<(), Memory>
    ensures { OnOk result (pages_at pages.now slots.new.items ≡ pages_at pages.now slots.old.items
        ++ linked_at (without_counts pages.now) (path.now, stamp)) }
{
    let _apart = pages.len();
    let Some(slot) = pages.slot_of(path, stamp) else {
        return Ok(());
    };
    slots.push(slot as u64)?;
    Ok(())
}
