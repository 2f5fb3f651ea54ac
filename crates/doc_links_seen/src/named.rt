//! Which page an anchor leads to, by its number.

ghost use Rattle.std.specs.Prelude.{◌≡◌, ◌≢◌, ◌+◌, ℕ, List as Seq, Option as Maybe, Some, true, IsTrue, slice_index_or};
ghost use Rattle.std.specs.FinMap as map;
ghost use Rattle.doc_links_seen.specs.Numbered.{AreNamed, numbers_at};

use doc_links_names::page_numbers::PageNumbers;
use doc_page_parts::heap::{Heap, Vec};

/// Of each number the slot of a page that has the anchor which has it, and 1; or 0. An anchor that several pages have leads to the one
/// that was entered last, and without memory to none: nothing rests on which.
#[derive(Drop)]
pub struct Named {
    pub slots: Vec<u64>,
}

impl Named {
    /// No anchor leads anywhere. It takes no memory.
    pub fn new(heap: Heap) -> Named
        ensures { (numbers : Seq (Maybe PageNumbers)) → AreNamed numbers result.slots.items }
    {
        Named {
            slots: Vec::new(heap),
        }
    }

    /// The anchors of the page with these numbers lead to its slot.
    pub fn enter(&mut self, slot: usize, page: &PageNumbers)
        ensures { (numbers : Seq (Maybe PageNumbers)) → numbers_at numbers slot ≡ Some page.now
            → AreNamed numbers self.old.slots.items → AreNamed numbers self.new.slots.items }
    {
        let Some(stand) = (slot as u64).checked_add(1) else {
            return;
        };
        for (number, _) in page.anchors.iter() {
            self.set(number as usize, stand);
        }
    }

    /// The anchors of the page with these numbers lead to its slot no longer. It takes no memory.
    pub fn leave(&mut self, slot: usize, page: &PageNumbers)
        ensures kept { (numbers : Seq (Maybe PageNumbers))
            → AreNamed numbers self.old.slots.items → AreNamed numbers self.new.slots.items }
        ensures gone { (n : ℕ) → map.contains_key page.now.anchors n ≡ true
            → slice_index_or self.new.slots.items n 0 ≢ slot + 1 }
    {
        for (number, _) in page.anchors.iter() {
            self.clear(number as usize, slot);
        }
    }

    /// Whether the anchor of this number and 1 leads to what stands here: a slot and 1.
    pub fn leads_to(&self, anchor: u64, stand: u64) -> bool
        ensures { IsTrue result → (n : ℕ) × (anchor ≡ n + 1)
            × (slice_index_or self.now.slots.items n 0 ≡ stand) }
    {
        let Some(number) = anchor.checked_sub(1) else {
            return false;
        };
        let Some(found) = self.slots.get(number as usize) else {
            return false;
        };
        *found == stand
    }

    /// An anchor of this number leads to what stands here. Without memory it leads where it led.
    fn set(&mut self, number: usize, stand: u64)
        ensures { (numbers : Seq (Maybe PageNumbers)) (slot : ℕ) (own : PageNumbers)
            → numbers_at numbers slot ≡ Some own → stand ≡ slot + 1
            → map.contains_key own.anchors number ≡ true → AreNamed numbers self.old.slots.items
            → AreNamed numbers self.new.slots.items }
    {
        self.make_room(number);
        if number < self.slots.len() {
            self.slots[number] = stand;
        }
    }

    /// Makes room for this number, where there is memory for it.
    fn make_room(&mut self, number: usize)
        ensures { (n : ℕ) → slice_index_or self.new.slots.items n 0 ≡ slice_index_or self.old.slots.items n 0 }
    {
        'room: while self.slots.len() <= number {
            if self.slots.push(0).is_err() {
                return;
            }
        }
    }

    /// An anchor of this number doesn't lead to a slot.
    fn clear(&mut self, number: usize, slot: usize)
        ensures kept { (n : ℕ) (stand : ℕ) → slice_index_or self.new.slots.items n 0 ≡ stand + 1
            → slice_index_or self.old.slots.items n 0 ≡ stand + 1 }
        ensures gone { slice_index_or self.new.slots.items number 0 ≢ slot + 1 }
    {
        let Some(stand) = self.slots.get(number) else {
            return;
        };
        let Some(found) = stand.checked_sub(1) else {
            return;
        };
        if found == slot as u64 {
            self.slots[number] = 0;
        }
    }
}
