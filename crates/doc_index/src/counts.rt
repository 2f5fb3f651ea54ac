//! The keys of a page with their counts.

ghost use Rattle.std.specs.Prelude.{◌≡◌, List as Seq, ℕ, None, IfOk, OnOk, OnErr};
ghost use Rattle.std.specs.Cmp.Lexicographic.{slice_cmp};
ghost use Rattle.std.specs.FinMap as map;
ghost use Rattle.std.specs.List.Sorted.{IsStrictlySortedBy};
ghost use Rattle.std.specs.Map.{keys_of};
ghost use Rattle.std.specs.Ordering.{nat_cmp};
ghost use Rattle.doc_index_tables.specs.Maps.{shown, text_map};
ghost use Rattle.doc_index_tables.specs.TableSteps.{HasCounts, HasSame, LacksCounts, number_at};

use doc_index_tables::packed::Packed;
use doc_index_tables::table::Table;
use doc_page_parts::failure::Memory;
use doc_page_parts::heap::{BTreeMap, Heap, String};
use std::marker::Model;

/// The keys of a page, each with its count. Contracts see the map.
#[derive(Drop)]
pub struct Counts {
    entries: Packed,
}

impl Model for Counts {
    ghost use Rattle.std.specs.Prelude.{ℕ};
    ghost use Rattle.std.specs.Coded.{coded_ℕ, coded_list};
    ghost use Rattle.std.specs.FinMap as map;
    ghost use Rattle.doc_index_tables.specs.Maps.{TextMap};
    ghost use Rattle.std.specs.Cmp.Lexicographic.{slice_cmp};
    ghost use Rattle.std.specs.List.Sorted.{IsStrictlySortedBy};
    ghost use Rattle.std.specs.Map.{keys_of};
    ghost use Rattle.std.specs.Ordering.{nat_cmp};

    ghost Value = { TextMap ℕ };

    ghost coded = { map.code (coded_list coded_ℕ) coded_ℕ };

    ghost view = { λ c. map.from_entries c.entries };

    ghost invariant = { λ c. IsStrictlySortedBy (slice_cmp nat_cmp) (keys_of c.entries) };
}

impl Counts {
    pub(crate) fn none(heap: Heap) -> Counts
        ensures { result ≡ map.empty }
    {
        Counts {
            entries: Packed::new(heap),
        }
    }

    /// The counts of a map.
    pub(crate) fn copy_of(heap: Heap, keys: &BTreeMap<String, u64>) -> Result<Counts, Memory>
        ensures { IfOk result (λ counts. counts ≡ text_map keys.now) }
    {
        // what the number of keys tells besides: that they rise
        let _keys = keys.len();
        Ok(Counts {
            entries: Packed::copy_of(heap, keys)?,
        })
    }

    /// These keys with their counts. They stand in the order of their bytes, each once.
    pub fn of_entries(heap: Heap, entries: &[(&str, u64)]) -> Result<Counts, Memory>
        requires rising { IsStrictlySortedBy (slice_cmp nat_cmp) (keys_of (shown entries.now)) }
        ensures { IfOk result (λ counts. counts ≡ map.from_entries (shown entries.now)) }
    {
        Ok(Counts {
            entries: Packed::of_entries(heap, entries)?,
        })
    }

    /// The keys with their counts, in the order of their bytes.
    pub fn entries(&self) -> &Packed
        ensures { result.now ≡ map.entries self.now }
    {
        &self.entries
    }

    pub(crate) fn copy(&self, heap: Heap) -> Result<Counts, Memory>
        ensures { IfOk result (λ counts. counts ≡ self.now) }
    {
        Ok(Counts {
            entries: self.entries.copy(heap)?,
        })
    }

    /// Sets in a table the count of each key under a slot. A refusal leaves the table as it was.
    pub(crate) fn add_to(&self, heap: Heap, table: &mut Table, slot: u64) -> Result<(), Memory>
        requires { (text : Seq ℕ) → number_at table.old text slot ≡ None }
        ensures ok { OnOk result (HasCounts self.now slot table.old table.new) }
        ensures err { OnErr result (HasSame table.old table.new) }
    {
        let mut left = self.entries.len();
        while left > 0 {
            left -= 1;
            let (key, count) = self.entries.get(left);
            if table.set(heap, key, slot, count).is_err() {
                self.take_from(table, slot);
                return Err(Memory);
            }
        }
        Ok(())
    }

    /// Takes from a table what it has at each key under a slot. It takes no memory.
    pub(crate) fn take_from(&self, table: &mut Table, slot: u64)
        ensures { LacksCounts self.now slot table.old table.new }
    {
        let mut left = self.entries.len();
        while left > 0 {
            left -= 1;
            let (key, _) = self.entries.get(left);
            table.take(key, slot);
        }
    }
}
