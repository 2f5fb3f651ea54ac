//! The slots of the pages that have one of some words.

ghost use Rattle.std.specs.Prelude.{◌≡◌, ◌<◌, ℕ, IsTrue, IfOk, OnOk, is_some, length, option_copied, true};
ghost use Rattle.std.specs.FinMap as map;
ghost use Rattle.doc_index_tables.specs.TableSteps.{number_in};
ghost use Rattle.doc_words_search.specs.Held.{words_held};
ghost use Rattle.doc_words_search.specs.Searches.{pages_of};
ghost use Rattle.doc_words_search.specs.SearchSteps.{AgreeEach, AgreeFor, AreMarked, StayMarked, marked_at, pages_at};

use crate::word::Word;
use doc_index::index::Index;
use doc_index::row::Row;
use doc_page_parts::failure::Memory;
use doc_page_parts::heap::{Heap, Vec};

/// The slots of the pages that a search for these words needs, each once: those that have one of them, and all pages where the list
/// is empty.
pub fn slots_for(heap: Heap, pages: &Index<()>, words: &[Word]) -> Result<Vec<u64>, Memory>
    ensures { IfOk result (λ slots. AgreeFor words.now (pages_at pages.now slots.items)
        (pages_of (words_held pages.now))) }
{
    if words.is_empty() {
        return pages.in_order(heap);
    }
    slots_with(heap, pages, words)
}

/// The slots of the pages that have one of these words. Slots past the last number of the machine are answered as want of memory.
fn slots_with(heap: Heap, pages: &Index<()>, words: &[Word]) -> Result<Vec<u64>, Memory>
    ensures { IfOk result (λ slots. AgreeEach words.now (pages_at pages.now slots.items)
        (pages_of (words_held pages.now))) }
{
    let Some(count) = pages.last_slot().checked_add(1) else {
        return Err(Memory);
    };
    let mut marks = vec![in heap; false; count]?;
    let mut slots = Vec::with_capacity(heap, pages.len())?;
    for word in words {
        mark_word(&mut marks, &mut slots, pages.of_key(word.text()))?;
    }
    Ok(slots)
}

/// Marks the slots of a row, where there is one, and adds those that were not marked.
fn mark_word(marks: &mut Vec<bool>, slots: &mut Vec<u64>, row: Option<&Row>) -> Result<(), Memory>
    requires { AreMarked marks.old.items slots.old.items }
    ensures listed { OnOk result (AreMarked marks.new.items slots.new.items) }
    ensures stay { OnOk result (StayMarked marks.old.items marks.new.items) }
    ensures same { OnOk result (length marks.new.items ≡ length marks.old.items) }
    ensures all { OnOk result ((slot : ℕ) → slot < length marks.old.items
        → is_some (number_in (option_copied row.entry) slot) ≡ true
        → marked_at marks.new.items slot ≡ true) }
{
    let Some(row) = row else {
        return Ok(());
    };
    mark_row(marks, slots, row)
}

/// Marks the slots of a row and adds those that were not marked.
fn mark_row(marks: &mut Vec<bool>, slots: &mut Vec<u64>, row: &Row) -> Result<(), Memory>
    requires { AreMarked marks.old.items slots.old.items }
    ensures listed { OnOk result (AreMarked marks.new.items slots.new.items) }
    ensures stay { OnOk result (StayMarked marks.old.items marks.new.items) }
    ensures same { OnOk result (length marks.new.items ≡ length marks.old.items) }
    ensures all { OnOk result ((slot : ℕ) → slot < length marks.old.items
        → is_some (map.get row.now slot) ≡ true → marked_at marks.new.items slot ≡ true) }
{
    for (slot, _) in row.iter() {
        mark(marks, slots, slot)?;
    }
    Ok(())
}

/// Marks a slot, and adds it where it was not marked.
fn mark(marks: &mut Vec<bool>, slots: &mut Vec<u64>, slot: u64) -> Result<(), Memory>
    requires { AreMarked marks.old.items slots.old.items }
    ensures listed { OnOk result (AreMarked marks.new.items slots.new.items) }
    ensures stay { OnOk result (StayMarked marks.old.items marks.new.items) }
    ensures same { OnOk result (length marks.new.items ≡ length marks.old.items) }
    ensures one { OnOk result (slot < length marks.old.items
        → marked_at marks.new.items slot ≡ true) }
{
    let at = slot as usize;
    if at >= marks.len() {
        return Ok(());
    }
    if marks[at] {
        return Ok(());
    }
    slots.push(slot)?;
    marks[at] = true;
    Ok(())
}
