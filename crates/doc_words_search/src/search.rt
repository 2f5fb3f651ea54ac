//! A search among pages in slots.

ghost use Rattle.std.specs.Prelude.{◌≡◌, ◌∷◌, ◌++◌, [], IfOk, OnOk, if◌then◌else◌, map as mapped, take};
ghost use Rattle.std.specs.List.{filter, flat_map};
ghost use Rattle.doc_index.specs.Held.{slot_at};
ghost use Rattle.doc_words_search.specs.Searches.{ranked};
ghost use Rattle.doc_words_search.specs.SearchSteps.{hit_at, hit_in, hit_of, pages_at, search_by, sees_at};

use crate::hit::Hit;
use crate::weighing::{Weighed, score_of, weigh_all};
use crate::word::Word;
use doc_index::index::Index;
use doc_page_parts::failure::Memory;
use doc_page_parts::heap::{Heap, Vec};
use doc_page_parts::list::List;
use doc_page_parts::path::Path;
use doc_page_parts::sight::Sight;
use std::cmp::Reverse;

/// At most so many hits are answered.
pub(crate) const MOST: usize = 100;

/// A hit as it is found, ordered by score falling and then by path.
#[derive(PartialEq, Eq, PartialOrd, Ord, Drop)]
pub struct Found<'a> {
    pub score: Reverse<u64>,
    pub path: &'a Path,
}

/// Of these slots, those whose pages are seen. The sight is asked once a slot.
pub fn seen_among<S: Sight>(
    heap: Heap,
    pages: &Index<()>,
    slots: &[u64],
    sight: &S,
) -> Result<Vec<u64>, Memory>
    ensures { IfOk result (λ seen. seen.items
        ≡ filter (λ slot. sees_at (S.goals sight.now) (slot_at pages.now slot)) slots.now) }
{
    let mut seen = Vec::with_capacity(heap, slots.len())?;
    for slot in slots {
        push_seen(&mut seen, pages, *slot, sight)?;
    }
    Ok(seen)
}

fn push_seen<S: Sight>(
    seen: &mut Vec<u64>,
    pages: &Index<()>,
    slot: u64,
    sight: &S,
) -> Result<(), Memory>
    ensures { OnOk result (seen.new.items ≡ seen.old.items
        ++ (if sees_at (S.goals sight.now) (slot_at pages.now slot) then slot ∷ [] else [])) }
{
    if !sees(pages, slot, sight) {
        return Ok(());
    }
    Ok(seen.push(slot)?)
}

/// Whether the page in a slot is seen.
fn sees<S: Sight>(pages: &Index<()>, slot: u64, sight: &S) -> bool
    ensures { result ≡ sees_at (S.goals sight.now) (slot_at pages.now slot) }
{
    let Some(page) = pages.slot(slot as usize) else {
        return false;
    };
    sight.sees(&page.path)
}

/// The search among the pages in these slots, of which so many are seen in all.
pub fn search_in(
    heap: Heap,
    pages: &Index<()>,
    seen: &[u64],
    count: u64,
    words: &[Word],
) -> Result<List<Hit>, Memory>
    ensures { IfOk result (λ hits.
        hits ≡ search_by count (pages_at pages.now seen.now) words.now) }
{
    let weighed = weigh_all(heap, pages, seen, count, words)?;
    let found = found_among(heap, pages, seen, &weighed)?;
    best(heap, found)
}

/// The pages in these slots that have each word.
fn found_among<'a>(
    heap: Heap,
    pages: &'a Index<()>,
    seen: &[u64],
    words: &[Weighed<'_>],
) -> Result<Vec<Found<'a>>, Memory>
    ensures { IfOk result (λ found. mapped hit_of found.items
        ≡ flat_map (hit_at pages.now words.now) seen.now) }
{
    let mut found = Vec::with_capacity(heap, seen.len())?;
    for slot in seen {
        push_found(&mut found, pages, *slot, score_of(words, *slot))?;
    }
    Ok(found)
}

fn push_found<'a>(
    found: &mut Vec<Found<'a>>,
    pages: &'a Index<()>,
    slot: u64,
    score: Option<u64>,
) -> Result<(), Memory>
    ensures { OnOk result (mapped hit_of found.new.items
        ≡ mapped hit_of found.old.items ++ hit_in (slot_at pages.now slot) score) }
{
    let Some(page) = pages.slot(slot as usize) else {
        return Ok(());
    };
    let Some(score) = score else {
        return Ok(());
    };
    Ok(found.push(Found {
        score: Reverse(score),
        path: &page.path,
    })?)
}

/// The first of these hits, in their order. Only those that are answered are sorted.
fn best(heap: Heap, found: Vec<Found<'_>>) -> Result<List<Hit>, Memory>
    ensures { IfOk result (λ hits. hits ≡ take 100 (ranked (mapped hit_of found.entry.items))) }
{
    let mut found = found;
    if found.len() <= MOST {
        return in_order(heap, &mut found);
    }
    let (first, _next, _rest) = found.select_nth_unstable(MOST);
    in_order(heap, first)
}

/// These hits, in their order.
fn in_order(heap: Heap, found: &mut [Found<'_>]) -> Result<List<Hit>, Memory>
    ensures { IfOk result (λ hits. hits ≡ ranked (mapped hit_of found.old)) }
{
    found.sort_unstable();
    copied(heap, found)
}

fn copied(heap: Heap, found: &[Found<'_>]) -> Result<List<Hit>, Memory>
    ensures { IfOk result (λ hits. hits ≡ mapped hit_of found.now) }
{
    let mut hits = Vec::with_capacity(heap, found.len())?;
    for one in found {
        hits.push(Hit {
            path: one.path.copy(heap)?,
            score: one.score.0,
        })?;
    }
    Ok(List::new(hits))
}
