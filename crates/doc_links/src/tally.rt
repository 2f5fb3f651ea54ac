//! The pages that write one of some paths, each with the number of its links that do.
//!
//! Each path leads by the keys of the index to the slots of the pages that write it, with the number of times. These numbers are
//! summed by the paths of the pages that are seen, so that the pages stand in the order of their paths.

ghost use Rattle.std.specs.Prelude.{◌≡◌, ◌+◌, ℕ, IfOk, OnOk, map as mapped, sum_by};
ghost use Rattle.std.specs.BTreeMap.{IsOrdered};
ghost use Rattle.std.specs.Cmp.Lexicographic.{slice_cmp};
ghost use Rattle.std.specs.FinMap as map;
ghost use Rattle.std.specs.Ordering.{nat_cmp};
ghost use Rattle.doc_links.specs.IndexSteps.{AreSingle, IsTally, with_count, with_page, with_row, without_counts, written_at};
ghost use Rattle.doc_links_pages.specs.KnownSteps.{count_at};
ghost use Rattle.doc_links_pages.specs.PageLinks.{IsOnce};
ghost use Rattle.doc_index.specs.Held.{slot_at};

use doc_index::index::Index;
use doc_index::row::Row;
use doc_links_pages::known::Known;
use doc_page_parts::failure::Memory;
use doc_page_parts::heap::{BTreeMap, Heap, Vec};
use doc_page_parts::list::List;
use doc_page_parts::path::Path;
use doc_page_parts::sight::Sight;
use std::marker::Model;

/// Paths of pages, each with a number that isn't 0. Contracts see the map.
#[derive(Drop)]
pub struct Tally {
    counts: BTreeMap<Path, u64>,
}

impl Model for Tally {
    ghost use Rattle.std.specs.Prelude.{ℕ};
    ghost use Rattle.std.specs.Coded.{coded_ℕ, coded_list};
    ghost use Rattle.std.specs.FinMap as map;
    ghost use Rattle.doc_index_tables.specs.Maps.{TextMap};

    ghost Value = { TextMap ℕ };

    ghost coded = { map.code (coded_list coded_ℕ) coded_ℕ };

    ghost view = { λ t. map.from_entries t.counts.entries };
}

impl Tally {
    fn new(heap: Heap) -> Tally
        ensures { result ≡ map.empty }
    {
        Tally {
            counts: BTreeMap::new(heap),
        }
    }

    fn get(&self, path: &Path) -> u64
        ensures { result ≡ count_at self.now path.now }
    {
        let Some(count) = self.counts.get(path) else {
            return 0;
        };
        *count
    }

    /// Adds to the number of a path. A sum past the last number is answered as want of memory.
    fn add(&mut self, heap: Heap, path: &Path, count: u64) -> Result<(), Memory>
        ensures { OnOk result (self.new ≡ with_count self.old path.now count) }
    {
        if count == 0 {
            return Ok(());
        }
        let Some(sum) = self.get(path).checked_add(count) else {
            return Err(Memory);
        };
        self.insert(path.copy(heap)?, sum)
    }

    fn insert(&mut self, path: Path, count: u64) -> Result<(), Memory>
        ensures { OnOk result (self.new ≡ map.insert self.old path count) }
    {
        self.counts.insert(path, count)?;
        Ok(())
    }

    /// The paths with their numbers, in their order.
    pub fn list(&self, heap: Heap) -> Result<List<(Path, u64)>, Memory>
        ensures { IfOk result (λ all. all ≡ map.entries self.now) }
    {
        entries_in(heap, &self.counts)
    }
}

/// The entries of a map.
fn entries_in(heap: Heap, counts: &BTreeMap<Path, u64>) -> Result<List<(Path, u64)>, Memory>
    ensures entries { IfOk result (λ all. all ≡ counts.now.entries) }
    ensures ordered { OnOk result (IsOrdered (slice_cmp nat_cmp) counts.now) }
{
    let mut all = Vec::with_capacity(heap, counts.len())?;
    for (path, count) in counts.iter() {
        all.push((path.copy(heap)?, *count))?;
    }
    Ok(List::new(all))
}

/// The pages that are seen and write one of these paths, each with the number of its links that do.
pub fn tally_of<S: Sight>(
    heap: Heap,
    pages: &Index<Known>,
    names: &[&Path],
    sight: &S,
) -> Result<Tally, Memory>
    requires { IsOnce (without_counts pages.now) }
    ensures { IfOk result (λ tally. IsTally pages.now (S.goals sight.now)
        (λ slot. sum_by (λ name. written_at pages.now name slot)
        (mapped (λ name. name.now) names.now)) tally) }
{
    let _apart = pages.len();
    let mut tally = Tally::new(heap);
    for name in names {
        add_named(heap, &mut tally, pages, name, sight)?;
    }
    Ok(tally)
}

/// Adds the pages that write a path.
fn add_named<S: Sight>(
    heap: Heap,
    tally: &mut Tally,
    pages: &Index<Known>,
    name: &Path,
    sight: &S,
) -> Result<(), Memory>
    requires { AreSingle pages.now }
    ensures { OnOk result ((number : ℕ → ℕ) → IsTally pages.now (S.goals sight.now) number tally.old
        → IsTally pages.now (S.goals sight.now)
        (λ slot. number slot + written_at pages.now name.now slot) tally.new) }
{
    let Some(row) = pages.of_key(name.text()) else {
        return Ok(());
    };
    add_row(heap, tally, pages, row, sight)
}

/// Adds the pages of a row.
fn add_row<S: Sight>(
    heap: Heap,
    tally: &mut Tally,
    pages: &Index<Known>,
    row: &Row,
    sight: &S,
) -> Result<(), Memory>
    ensures { OnOk result (tally.new
        ≡ with_row pages.now (S.goals sight.now) tally.old (map.entries row.now)) }
{
    for (slot, count) in row.iter() {
        add_slot(heap, tally, pages, slot, count, sight)?;
    }
    Ok(())
}

/// Adds the page of a slot, where there is one that is seen.
fn add_slot<S: Sight>(
    heap: Heap,
    tally: &mut Tally,
    pages: &Index<Known>,
    slot: u64,
    count: u64,
    sight: &S,
) -> Result<(), Memory>
    ensures { OnOk result (tally.new
        ≡ with_page (S.goals sight.now) tally.old (slot_at pages.now slot) count) }
{
    let Some(page) = pages.slot(slot as usize) else {
        return Ok(());
    };
    if !sight.sees(&page.path) {
        return Ok(());
    }
    tally.add(heap, &page.path, count)
}
