//! The different sets of groups that pages have, each with how many pages have it.

ghost use Rattle.std.specs.Prelude.{◌≡◌, ◌≢◌, ◌<◌, ◌^◌, ℕ, List as Seq, false, Some, None, IfOk, OnOk, OnErr, slice_index_or, sum_by};
ghost use Rattle.std.specs.FinMap as map;
ghost use Rattle.doc_store.specs.GroupSets.{AreCounts, Keeps, groups_at, met_at, no_sets, number_met, one_more, sees_groups, slot_at};

use doc_page_parts::failure::Memory;
use doc_page_parts::heap::{BTreeMap, Heap, Vec};
use doc_page_parts::text::Text;
use doc_store_readers::groups::Groups;
use doc_store_readers::reader::Reader;
use slab::Slab;
use std::marker::Model;

/// A set of groups, and how many pages have it.
#[derive(Drop)]
pub struct GroupSet {
    groups: Groups,
    pages: usize,
}

impl GroupSet {
    /// How many of the pages with this set a reader of these groups sees.
    fn number_met(&self, groups: &Groups) -> usize
        ensures { result ≡ number_met groups.now self.now }
    {
        if groups.meets(&self.groups) {
            self.pages
        } else {
            0
        }
    }
}

/// The different sets of groups that pages have, each with how many pages have it, and with a number that it keeps for as long as one has.
/// A set that no page has doesn't stand. Contracts see the numbers by the names, and the sets by their numbers.
#[derive(Drop)]
pub struct GroupSets {
    numbers: BTreeMap<Vec<Text>, usize>,
    slots: Slab<GroupSet, Heap>,
}

impl Model for GroupSets {
    ghost use Rattle.std.specs.FinMap as map;
    ghost use Rattle.doc_store.specs.contracts.group_sets.GroupSet as one;
    ghost use Rattle.doc_store.specs.GroupSets.{NumberedSets, numbered_code, sets_shown};

    ghost Value = { NumberedSets };

    ghost coded = { numbered_code one.the_row.coded };

    ghost view = { λ s. record {
      numbers = map.from_entries (sets_shown s.numbers.entries);
      slots = s.slots.slots;
    } };
}

impl GroupSets {
    pub fn new(heap: Heap) -> GroupSets
        ensures { result ≡ no_sets }
    {
        GroupSets {
            numbers: BTreeMap::new(heap),
            slots: Slab::new(heap),
        }
    }

    /// How many of the pages a reader of these groups sees. It takes a step for each set.
    pub fn count_met(&self, groups: &Groups) -> usize
        requires { sum_by (λ number. met_at groups.now (slot_at self.now number))
            (map.values self.now.numbers) < 2 ^ 64 }
        ensures { result ≡ sum_by (λ number. met_at groups.now (slot_at self.now number))
            (map.values self.now.numbers) }
    {
        let mut count = 0;
        for number in self.numbers.values() {
            count += self.met_at(*number, groups);
        }
        count
    }

    /// How many of the pages with the set of this number a reader of these groups sees.
    fn met_at(&self, number: usize, groups: &Groups) -> usize
        ensures { result ≡ met_at groups.now (slot_at self.now number) }
    {
        match self.slots.get(number) {
            Some(set) => set.number_met(groups),
            None => 0,
        }
    }

    /// By the numbers of sets, whether the reader sees the pages with the set. It takes a step for each number that there is room for.
    pub fn seen(&self, heap: Heap, reader: &Reader) -> Result<Vec<bool>, Memory>
        ensures { IfOk result (λ seen. (number : ℕ) → slice_index_or seen.items number false
            ≡ sees_groups reader.now (groups_at self.now number)) }
    {
        let most = self.slots.capacity();
        let mut seen = Vec::with_capacity(heap, most)?;
        for number in 0..most {
            seen.push(self.sees(reader, number))?;
        }
        Ok(seen)
    }

    /// Whether the reader sees the pages with the set of this number.
    fn sees(&self, reader: &Reader, number: usize) -> bool
        ensures { result ≡ sees_groups reader.now (groups_at self.now number) }
    {
        match self.slots.get(number) {
            Some(set) => reader.owner || reader.groups.meets(&set.groups),
            None => false,
        }
    }

    /// Counts one page more with these groups, and answers the number of their set. It takes memory only for a set that no page has.
    pub fn add(&mut self, heap: Heap, groups: &Groups) -> Result<usize, Memory>
        ensures counts { OnOk result ((number : Seq (Seq ℕ) → ℕ) → AreCounts self.old number
            → AreCounts self.new (one_more groups.now number)) }
        ensures slot { IfOk result (λ slot. (number : Seq (Seq ℕ) → ℕ) → AreCounts self.old number
            → groups_at self.new slot ≡ Some groups.now) }
        ensures kept { OnOk result ((number : Seq (Seq ℕ) → ℕ) → Keeps self.old self.new number) }
        ensures err { OnErr result (self.new ≡ self.old) }
    {
        let Some(number) = self.numbers.get(groups.names()) else {
            return self.start(heap, groups);
        };
        let number = *number;
        // A number that is found is that of a set.
        let Some(set) = self.slots.get_mut(number) else {
            return Err(Memory);
        };
        // No memory holds so many pages that their number has no next one.
        let Some(pages) = set.pages.checked_add(1) else {
            return Err(Memory);
        };
        set.pages = pages;
        Ok(number)
    }

    /// Counts the first page with these groups.
    fn start(&mut self, heap: Heap, groups: &Groups) -> Result<usize, Memory>
        ensures vacant { IfOk result (λ slot. slot_at self.old slot ≡ None) }
        ensures numbers { IfOk result (λ slot.
            self.new.numbers ≡ map.insert self.old.numbers groups.now slot) }
        ensures set { IfOk result (λ slot. slot_at self.new slot
            ≡ Some (record { groups = groups.now; pages = 1 })) }
        ensures others { IfOk result (λ slot. (other : ℕ) → other ≢ slot
            → slot_at self.new other ≡ slot_at self.old other) }
        ensures err { OnErr result (self.new ≡ self.old) }
    {
        let names = copies_of(heap, groups.names())?;
        let groups = groups.copy(heap)?;
        self.slots.reserve(1)?;
        let number = self.slots.vacant_key();
        self.numbers.insert(names, number)?;
        self.slots.insert_reserved(GroupSet { groups, pages: 1 });
        Ok(number)
    }

    /// Counts one page less with these groups, and takes their set out behind the last one. It takes no memory.
    pub fn remove(&mut self, groups: &Groups)
        ensures counts { (number : Seq (Seq ℕ) → ℕ)
            → AreCounts self.old (one_more groups.now number) → AreCounts self.new number }
        ensures kept { (number : Seq (Seq ℕ) → ℕ)
            → AreCounts self.old (one_more groups.now number) → Keeps self.old self.new number }
    {
        let Some(number) = self.numbers.get(groups.names()) else {
            return;
        };
        let number = *number;
        let Some(set) = self.slots.get_mut(number) else {
            return;
        };
        if set.pages > 1 {
            set.pages -= 1;
            return;
        }
        self.slots.try_remove(number);
        self.numbers.remove(groups.names());
    }
}

/// Copies of these texts.
fn copies_of(heap: Heap, texts: &[Text]) -> Result<Vec<Text>, Memory>
    ensures { IfOk result (λ copies. copies.items ≡ texts.now) }
{
    let mut copies = Vec::with_capacity(heap, texts.len())?;
    for text in texts {
        copies.push(text.copy(heap)?)?;
    }
    Ok(copies)
}
