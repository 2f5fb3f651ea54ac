//! The words of a search, with the slots of the pages that have them.

ghost use Rattle.std.specs.Prelude.{◌≡◌, ◌<◌, ◌≤◌, ◌/◌, ℕ, Some, None, IfOk, count_by, if◌then◌else◌, is_some, length};
ghost use Rattle.std.specs.Prelude.{option_copied, slice_index_or, slice_set};
ghost use Rattle.std.specs.FinMap as map;
ghost use Rattle.doc_index.specs.Held.{count_in, slot_at};
ghost use Rattle.doc_index_tables.specs.TableSteps.{number_in};
ghost use Rattle.doc_words_search.specs.SearchSteps.{AreWeighed, IsWeighed, count_at, pages_at, rarity_in, score_at};

use crate::word::Word;
use doc_index::index::Index;
use doc_index::row::Row;
use doc_page_parts::failure::Memory;
use doc_page_parts::heap::{Heap, Vec};

/// The counts of a word in the pages that have it, by their slots: in its row, where each is searched
/// for, or each at its place in a list.
#[derive(Drop)]
pub enum Postings<'a> {
    InRow(Option<&'a Row>),
    AtPlaces(Vec<Option<u64>>),
}

impl Postings<'_> {
    fn get(&self, slot: u64) -> Option<u64>
        ensures { result ≡ count_at self.now slot }
    {
        match self {
            Postings::InRow(row) => (*row)?.get(slot),
            Postings::AtPlaces(counts) => *counts.get(slot as usize)?,
        }
    }
}

/// The counts of a word for a search among so many pages that are seen. To list them takes as long as the
/// slots are many, and then to find one takes a step: so it pays where many pages are seen.
fn postings_of<'a>(
    heap: Heap,
    pages: &'a Index<()>,
    seen: usize,
    word: &Word,
) -> Result<Postings<'a>, Memory>
    ensures { IfOk result (λ postings. (slot : ℕ)
        → count_at postings slot ≡ count_in (slot_at pages.now slot) word.now) }
{
    let row = pages.of_key(word.text());
    let Some(count) = pages.last_slot().checked_add(1) else {
        return Ok(Postings::InRow(row));
    };
    if seen < count / 8 {
        return Ok(Postings::InRow(row));
    }
    Ok(Postings::AtPlaces(counts_in(heap, row, count)?))
}

/// The first so many counts of a row, each at its place.
fn counts_in(heap: Heap, row: Option<&Row>, count: usize) -> Result<Vec<Option<u64>>, Memory>
    ensures each { IfOk result (λ counts. (slot : ℕ) → slot < count
        → slice_index_or counts.items slot None ≡ number_in (option_copied row.entry) slot) }
    ensures past { IfOk result (λ counts. (slot : ℕ) → count ≤ slot
        → slice_index_or counts.items slot None ≡ None) }
{
    let mut counts = vec![in heap; None; count]?;
    if let Some(row) = row {
        set_counts(&mut counts, row);
    }
    Ok(counts)
}

/// Sets the counts of a row, each at its place, where that is.
fn set_counts(counts: &mut [Option<u64>], row: &Row)
    requires { (slot : ℕ) → slice_index_or counts.old slot None ≡ None }
    ensures same { length counts.new ≡ length counts.old }
    ensures each { (slot : ℕ) → slot < length counts.old
        → slice_index_or counts.new slot None ≡ map.get row.now slot }
{
    for (slot, count) in row.iter() {
        set_count(counts, slot, count);
    }
}

/// Sets the count at a place, where that is.
fn set_count(counts: &mut [Option<u64>], slot: u64, count: u64)
    ensures { counts.new ≡ slice_set counts.old slot (Some count) }
{
    let at = slot as usize;
    if at >= counts.len() {
        return;
    }
    counts[at] = Some(count);
}

/// A word of a search, and how rare it is: all pages by those that have it.
#[derive(Drop)]
pub struct Weighed<'a> {
    pub postings: Postings<'a>,
    pub quotient: u64,
}

/// The words of a list, for a search among the pages in these slots, of which so many are seen in all.
pub fn weigh_all<'a>(
    heap: Heap,
    pages: &'a Index<()>,
    seen: &[u64],
    count: u64,
    words: &[Word],
) -> Result<Vec<Weighed<'a>>, Memory>
    ensures { IfOk result (λ all. AreWeighed pages.now
        (rarity_in count (pages_at pages.now seen.now)) words.now all.items) }
{
    let mut all = Vec::with_capacity(heap, words.len())?;
    for word in words {
        all.push(weigh(heap, pages, seen, count, word)?)?;
    }
    Ok(all)
}

fn weigh<'a>(
    heap: Heap,
    pages: &'a Index<()>,
    seen: &[u64],
    count: u64,
    word: &Word,
) -> Result<Weighed<'a>, Memory>
    ensures { IfOk result (λ weighed. IsWeighed pages.now
        (rarity_in count (pages_at pages.now seen.now)) word.now weighed) }
{
    let postings = postings_of(heap, pages, seen.len(), word)?;
    let quotient = quotient(count, holders(&postings, seen));
    Ok(Weighed { postings, quotient })
}

/// How many of these slots have a page with the word.
fn holders(postings: &Postings<'_>, seen: &[u64]) -> u64
    ensures { result ≡ count_by (λ slot. is_some (count_at postings.now slot)) seen.now }
{
    let mut count: u64 = 0;
    for slot in seen {
        count += one_if(postings.get(*slot).is_some());
    }
    count
}

/// 1 where it is true, else 0.
fn one_if(yes: bool) -> u64
    ensures { result ≡ (if yes then 1 else 0) }
{
    if yes { 1 } else { 0 }
}

/// All by some, the fraction dropped; 0 where there are none.
fn quotient(all: u64, some: u64) -> u64
    ensures { result ≡ all / some }
{
    if some == 0 {
        return 0;
    }
    all / some
}

/// The score of the page in a slot, where it has each word.
pub fn score_of(words: &[Weighed<'_>], slot: u64) -> Option<u64>
    ensures { result ≡ score_at words.now slot }
{
    let mut score: u64 = 0;
    for word in words {
        let count = word.postings.get(slot)?;
        score = score.saturating_add(count.saturating_mul(word.quotient));
    }
    Some(score)
}
