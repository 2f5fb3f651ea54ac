//! The pages that write one of some paths, each with the number of its links that do, by slot.
//!
//! Each path leads by the keys of the index to the slots of the pages that write it, with the number of times. These numbers are
//! summed by slot, and then the slots of the pages that are seen are gone over in their order: nothing is looked up of a page that is
//! hidden.

ghost use Rattle.std.specs.Prelude.{◌≡◌, ◌++◌, ℕ, IfOk, OnOk, if◌then◌else◌, map as mapped, sum_by, unwrap_or};
ghost use Rattle.std.specs.FinMap as map;
ghost use Rattle.doc_index.specs.Held.{AreApart, slot_at};
ghost use Rattle.doc_index.specs.declared.held.Held.{Held as HeldPage};
ghost use Rattle.doc_index_tables.specs.TableSteps.{same_number};
ghost use Rattle.doc_links.specs.IndexSteps.{written_at};
ghost use Rattle.doc_links.specs.WrittenSteps.{HasMore, count_of, source_in, sources_at};
ghost use Rattle.doc_links_pages.specs.declared.page_links.PageLinks.{PageLinks};

use crate::sources::push_source;
use doc_index::index::Index;
use doc_index::row::Row;
use doc_links_pages::known::Known;
use doc_page_parts::failure::Memory;
use doc_page_parts::heap::{Heap, Vec};
use doc_page_parts::list::List;
use doc_page_parts::path::Path;

/// Of each slot how often its page writes one of these paths.
pub(crate) fn written_in(
    heap: Heap,
    pages: &Index<Known>,
    names: &[&Path],
) -> Result<Vec<u64>, Memory>
    ensures apart { AreApart pages.now }
    ensures counts { IfOk result (λ counts. (slot : ℕ) (page : HeldPage PageLinks)
        → slot_at pages.now slot ≡ Some page → count_of counts.items slot
        ≡ sum_by (λ name. written_at pages.now name slot) (mapped (λ name. name.now) names.now)) }
{
    let _apart = pages.len();
    let count = pages.last_slot().checked_add(1).ok_or(Memory)?;
    let mut counts = Vec::new(heap);
    counts.resize(count, 0)?;
    for name in names {
        add_named(&mut counts, pages, name)?;
    }
    Ok(counts)
}

/// Adds how often the page of each slot writes a path.
fn add_named(counts: &mut Vec<u64>, pages: &Index<Known>, name: &Path) -> Result<(), Memory>
    ensures { OnOk result (HasMore (λ slot. written_at pages.now name.now slot)
        counts.old.items counts.new.items) }
{
    let Some(row) = pages.of_key(name.text()) else {
        return Ok(());
    };
    add_row(counts, row)
}

/// Adds the numbers of a row.
fn add_row(counts: &mut Vec<u64>, row: &Row) -> Result<(), Memory>
    ensures { OnOk result (HasMore (λ slot. unwrap_or (map.get row.now slot) 0)
        counts.old.items counts.new.items) }
{
    for (slot, count) in row.iter() {
        add_count(counts, slot as usize, count)?;
    }
    Ok(())
}

/// Adds to the number of a slot. A sum past the last number is answered as want of memory.
fn add_count(counts: &mut Vec<u64>, slot: usize, count: u64) -> Result<(), Memory>
    ensures { OnOk result (HasMore (λ other. if same_number other slot then count else 0)
        counts.old.items counts.new.items) }
{
    if slot >= counts.len() {
        return Ok(());
    }
    let Some(sum) = counts[slot].checked_add(count) else {
        return Err(Memory);
    };
    counts[slot] = sum;
    Ok(())
}

/// The pages in these slots whose numbers aren't 0, each with its number.
pub(crate) fn sources_at(
    heap: Heap,
    pages: &Index<Known>,
    slots: &[u64],
    counts: &[u64],
) -> Result<List<(Path, u64)>, Memory>
    ensures { IfOk result (λ all. all ≡ sources_at pages.now counts.now slots.now) }
{
    let mut all = Vec::new(heap);
    for slot in slots {
        push_slot(heap, &mut all, pages, counts, *slot as usize)?;
    }
    Ok(List::new(all))
}

/// Adds the page of a slot, where its number isn't 0.
fn push_slot(
    heap: Heap,
    all: &mut Vec<(Path, u64)>,
    pages: &Index<Known>,
    counts: &[u64],
    slot: usize,
) -> Result<(), Memory>
    ensures { OnOk result (all.new.items ≡ all.old.items
        ++ source_in (slot_at pages.now slot) (count_of counts.now slot)) }
{
    let count = count_at(counts, slot);
    if count == 0 {
        return Ok(());
    }
    let Some(page) = pages.slot(slot) else {
        return Ok(());
    };
    push_source(heap, all, &page.path, count)
}

/// The number of a slot.
fn count_at(counts: &[u64], slot: usize) -> u64
    ensures { result ≡ count_of counts.now slot }
{
    let Some(count) = counts.get(slot) else {
        return 0;
    };
    *count
}
