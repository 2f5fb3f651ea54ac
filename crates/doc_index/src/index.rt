//! Pages held under a path and a stamp, and asked by key.

ghost use Rattle.std.specs.Prelude.{◌≡◌, ◌<◌, ◌≤◌, ℕ, List as Seq, [], Some, None, IfOk, IfSome, OnOk, OnErr};
ghost use Rattle.std.specs.Prelude.{IsTrue, map as mapped, count_by, insert, is_some, length, option_copied, option_map};
ghost use Rattle.std.specs.List.{All};
ghost use Rattle.std.specs.FinMap as map;
ghost use Rattle.doc_index.specs.Held.{AreApart, count_in, counts_of, entries_of, held, known, known_as, slot_at};
ghost use Rattle.doc_index_tables.specs.Maps.{text_map};
ghost use Rattle.doc_index_tables.specs.TableSteps.{HasCounts, HasSame, number_at, number_in};

use crate::counts::Counts;
use crate::held::Held;
use crate::order::search;
use doc_index_tables::row::Row;
use doc_index_tables::table::Table;
use doc_page_parts::failure::Memory;
use doc_page_parts::heap::{BTreeMap, Heap, String, Vec};
use doc_page_parts::path::Path;
use slab::Slab;
use std::marker::Model;

/// Pages, each held under a path and a stamp in a slot of its own. Contracts see the slots.
pub struct Index<T> {
    heap: Heap,
    slots: Slab<Held<T>, Heap>,
    last: usize,
    order: Vec<u64>,
    postings: Table,
}

/// Written out, so that it is proved here once: what a derived drop does is proved wherever a value is let go.
impl<T: Drop> Drop for Index<T> {
    fn drop(self) {
        let Index {
            heap: _,
            slots: _,
            last: _,
            order: _,
            postings: _,
        } = self;
    }
}

impl<T> Model for Index<T> {
    ghost use Rattle.std.specs.Prelude.{List as Seq, Option as Maybe};
    ghost use Rattle.doc_index.specs.declared.held.Held.{Held as Page};
    ghost use Rattle.std.specs.Coded.{coded_list, coded_option};
    ghost use Rattle.doc_index.specs.Held.{held_code};

    ghost Value = { Seq (Maybe (Page T)) };

    ghost coded = { coded_list (coded_option (held_code T.code)) };

    ghost use Rattle.doc_index.specs.IndexSteps.{IsIndex};

    ghost view = { λ i. i.slots.slots };

    ghost invariant = { λ i. IsIndex i.last i.slots.slots i.order.items i.postings };
}

impl<T> Index<T> {
    /// An index that holds no page. It takes no memory.
    pub fn new(heap: Heap) -> Index<T>
        ensures { result ≡ [] }
    {
        Index {
            heap,
            slots: Slab::new(heap),
            last: 0,
            order: Vec::new(heap),
            postings: Table::new(heap),
        }
    }

    /// The page in a slot, which is the one held under its path and stamp.
    pub fn slot(&self, slot: usize) -> Option<&Held<T>>
        ensures page { option_copied result ≡ slot_at self.now slot }
        ensures held { IfSome result (λ page.
            map.get (held self.now) (page.now.path, page.now.stamp) ≡ Some (known page.now)) }
    {
        self.slots.get(slot)
    }

    /// How many pages are held: each in one slot.
    pub fn len(&self) -> usize
        ensures len { result ≡ count_by is_some self.now }
        ensures apart { AreApart self.now }
    {
        self.slots.len()
    }

    /// The slots of the pages by path and then by stamp: what their pages are known for is what is
    /// held, in its order.
    pub fn in_order(&self, heap: Heap) -> Result<Vec<u64>, Memory>
        ensures entries { IfOk result (λ slots.
            entries_of (mapped (slot_at self.now) slots.items) ≡ map.entries (held self.now)) }
        ensures present { IfOk result (λ slots.
            All (λ slot. IsTrue (is_some (slot_at self.now slot))) slots.items) }
    {
        Ok(Vec::from_slice(heap, &self.order)?)
    }

    /// The slot of the page under a path and a stamp, which it keeps until it goes.
    pub fn slot_of(&self, path: &Path, stamp: u64) -> Option<usize>
        ensures slot { IfSome result (λ slot. (page : Held T) × (slot_at self.now slot ≡ Some page)
            × (page.path ≡ path.now) × (page.stamp ≡ stamp)) }
        ensures held { is_some result ≡ map.contains_key (held self.now) (path.now, stamp) }
    {
        let Ok(at) = search(&self.slots, &self.order, path, stamp) else {
            return None;
        };
        Some(self.order[at] as usize)
    }

    /// A slot after which none has a page.
    pub fn last_slot(&self) -> usize
        ensures { (slot : ℕ) → result < slot → slot_at self.now slot ≡ None }
    {
        self.last
    }

    /// The value of the page under a path and a stamp.
    pub fn get(&self, path: &Path, stamp: u64) -> Option<&T>
        ensures { option_copied result
            ≡ option_map (λ page. page.value) (map.get (held self.now) (path.now, stamp)) }
    {
        let Some(page) = self.page(path, stamp) else {
            return None;
        };
        Some(&page.value)
    }

    /// The counts of the keys of the page under a path and a stamp.
    pub fn counts(&self, path: &Path, stamp: u64) -> Option<&Counts>
        ensures { option_copied result
            ≡ option_map (λ page. page.counts) (map.get (held self.now) (path.now, stamp)) }
    {
        let Some(page) = self.page(path, stamp) else {
            return None;
        };
        Some(&page.counts)
    }

    /// The page under a path and a stamp.
    fn page(&self, path: &Path, stamp: u64) -> Option<&Held<T>>
        ensures { option_map known (option_copied result)
            ≡ map.get (held self.now) (path.now, stamp) }
    {
        self.slot(self.slot_of(path, stamp)?)
    }

    /// The slots of the pages that have a key, each with the count of the key in its page.
    pub fn of_key(&self, key: &str) -> Option<&Row>
        ensures { (slot : ℕ)
            → number_in (option_copied result) slot ≡ count_in (slot_at self.now slot) key.now }
    {
        self.postings.row(key)
    }

    /// The slots of the pages that have a key, by keys, each with the count of the key in its page.
    pub fn postings(&self) -> &Table
        ensures { (key : Seq ℕ) (slot : ℕ)
            → number_at result.now key slot ≡ count_in (slot_at self.now slot) key }
    {
        &self.postings
    }

    /// Holds a page under a path and a stamp that none has. Those that are held keep their slots. A
    /// refusal leaves the index as it was.
    pub fn add(
        &mut self,
        path: &Path,
        stamp: u64,
        value: T,
        keys: &BTreeMap<String, u64>,
    ) -> Result<(), Memory>
    where
        T: Drop,
        requires free { map.get (held self.old) (path.now, stamp) ≡ None }
        ensures ok { OnOk result (held self.new
            ≡ map.insert (held self.old) (path.now, stamp) (known_as value (text_map keys.now))) }
        ensures err { OnErr result (self.new ≡ self.old) }
        ensures others { (i : ℕ) (page : Held T)
            → slot_at self.old i ≡ Some page → slot_at self.new i ≡ Some page }
    {
        let counts = Counts::copy_of(self.heap, keys)?;
        self.add_counts(path, stamp, value, counts)
    }

    /// As `add`, with the keys as they are counted.
    pub fn add_counts(
        &mut self,
        path: &Path,
        stamp: u64,
        value: T,
        counts: Counts,
    ) -> Result<(), Memory>
    where
        T: Drop,
        requires free { map.get (held self.old) (path.now, stamp) ≡ None }
        ensures ok { OnOk result (held self.new
            ≡ map.insert (held self.old) (path.now, stamp) (known_as value counts)) }
        ensures err { OnErr result (self.new ≡ self.old) }
        ensures others { (i : ℕ) (page : Held T)
            → slot_at self.old i ≡ Some page → slot_at self.new i ≡ Some page }
    {
        let path = path.copy(self.heap)?;
        self.enter(Held {
            path,
            stamp,
            value,
            counts,
        })
    }

    /// Holds a page under a path and a stamp that none has, with the keys of the page under another
    /// path and stamp. A refusal leaves the index as it was.
    pub fn add_copy(
        &mut self,
        from: &Path,
        from_stamp: u64,
        to: &Path,
        stamp: u64,
        value: T,
    ) -> Result<(), Memory>
    where
        T: Drop,
        requires free { map.get (held self.old) (to.now, stamp) ≡ None }
        ensures ok { OnOk result (held self.new ≡ map.insert (held self.old) (to.now, stamp)
            (known_as value (counts_of (map.get (held self.old) (from.now, from_stamp))))) }
        ensures err { OnErr result (self.new ≡ self.old) }
        ensures others { (i : ℕ) (page : Held T)
            → slot_at self.old i ≡ Some page → slot_at self.new i ≡ Some page }
    {
        let counts = self.counts_of(from, from_stamp)?;
        let path = to.copy(self.heap)?;
        self.enter(Held {
            path,
            stamp,
            value,
            counts,
        })
    }

    /// A copy of the counts of the page under a path and a stamp: none where no page is.
    fn counts_of(&self, path: &Path, stamp: u64) -> Result<Counts, Memory>
        ensures { IfOk result
            (λ counts. counts ≡ counts_of (map.get (held self.now) (path.now, stamp))) }
    {
        let Some(page) = self.page(path, stamp) else {
            return Ok(Counts::none(self.heap));
        };
        page.counts.copy(self.heap)
    }

    /// Holds a page whose path and stamp none has.
    fn enter(&mut self, page: Held<T>) -> Result<(), Memory>
    where
        T: Drop,
        requires free { map.get (held self.old) (page.path, page.stamp) ≡ None }
        ensures ok { OnOk result (held self.new
            ≡ map.insert (held self.old) (page.path, page.stamp) (known page)) }
        ensures err { OnErr result (self.new ≡ self.old) }
        ensures others { (i : ℕ) (other : Held T)
            → slot_at self.old i ≡ Some other → slot_at self.new i ≡ Some other }
    {
        self.slots.reserve(1)?;
        let slot = self.slots.vacant_key();
        let at = search(&self.slots, &self.order, &page.path, page.stamp).unwrap_or_else(|at| at);
        place(
            self.heap,
            &mut self.order,
            at,
            &mut self.postings,
            &page.counts,
            slot as u64,
        )?;
        self.last = later(self.last, slot);
        self.slots.insert_reserved(page);
        Ok(())
    }

    /// Lets the page under a path and a stamp go, and tells whether there was one. The others keep
    /// their slots. It takes no memory.
    pub fn drop_page(&mut self, path: &Path, stamp: u64) -> bool
    where
        T: Drop,
        ensures answer { result ≡ map.contains_key (held self.old) (path.now, stamp) }
        ensures rest { held self.new ≡ map.remove (held self.old) (path.now, stamp) }
        ensures others { (i : ℕ) (page : Held T)
            → slot_at self.new i ≡ Some page → slot_at self.old i ≡ Some page }
    {
        let Ok(at) = search(&self.slots, &self.order, path, stamp) else {
            return false;
        };
        let slot = self.order[at];
        let Some(page) = self.slots.try_remove(slot as usize) else {
            return false;
        };
        self.order.remove(at);
        page.counts.take_from(&mut self.postings, slot);
        true
    }
}

/// The later of two slots.
fn later(a: usize, b: usize) -> usize
    ensures first { a ≤ result }
    ensures second { b ≤ result }
{
    if a < b { b } else { a }
}

/// Leads a place in an order, and each key, to a slot. A refusal leaves the order and the postings as
/// they were.
fn place(
    heap: Heap,
    order: &mut Vec<u64>,
    at: usize,
    postings: &mut Table,
    counts: &Counts,
    slot: u64,
) -> Result<(), Memory>
    requires within { at ≤ length order.old.items }
    requires free { (text : Seq ℕ) → number_at postings.old text slot ≡ None }
    ensures order { OnOk result (order.new.items ≡ insert order.old.items at slot) }
    ensures postings { OnOk result (HasCounts counts.now slot postings.old postings.new) }
    ensures order_err { OnErr result (order.new.items ≡ order.old.items) }
    ensures postings_err { OnErr result (HasSame postings.old postings.new) }
{
    counts.add_to(heap, postings, slot)?;
    if order.insert(at, slot).is_err() {
        counts.take_from(postings, slot);
        return Err(Memory);
    }
    Ok(())
}
