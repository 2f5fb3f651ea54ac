//! A search among pages in slots that come in the order of their paths.

ghost use Rattle.std.specs.Prelude.{◌≡◌, ◌<◌, ◌++◌, IfOk, OnOk, length, map as mapped, take};
ghost use Rattle.std.specs.List.{All};
ghost use Rattle.doc_words_search.specs.Searches.{ranked};
ghost use Rattle.doc_words_search.specs.SearchSteps.{AreInOrder, hit_placed, pages_at, scored, scored_among, search_by};

use crate::hit::Hit;
use crate::search::MOST;
use crate::weighing::{Weighed, score_of, weigh_all};
use crate::word::Word;
use doc_index::index::Index;
use doc_page_parts::failure::Memory;
use doc_page_parts::heap::{Heap, Vec};
use doc_page_parts::list::List;
use std::cmp::Reverse;

/// A page that has each word, by its place among the slots: ordered by score falling and then by place.
#[derive(PartialEq, Eq, PartialOrd, Ord, Drop)]
pub struct Scored {
    pub score: Reverse<u64>,
    pub place: usize,
}

/// As `search_in`, among slots that come in the order of their paths, so that pages with the same score are
/// ordered by their places. No page is looked at but those that are answered.
pub fn search_in_order(
    heap: Heap,
    pages: &Index<()>,
    seen: &[u64],
    count: u64,
    words: &[Word],
) -> Result<List<Hit>, Memory>
    requires { AreInOrder pages.now seen.now }
    ensures { IfOk result (λ hits.
        hits ≡ search_by count (pages_at pages.now seen.now) words.now) }
{
    let weighed = weigh_all(heap, pages, seen, count, words)?;
    let found = scored_among(heap, seen, &weighed)?;
    best(heap, pages, seen, found)
}

/// The slots whose pages have each word, by their places.
fn scored_among(heap: Heap, seen: &[u64], words: &[Weighed<'_>]) -> Result<Vec<Scored>, Memory>
    ensures { IfOk result (λ found. found.items ≡ scored_among words.now seen.now) }
{
    let mut found = Vec::with_capacity(heap, seen.len())?;
    for (place, slot) in seen.iter().enumerate() {
        push_scored(&mut found, place, score_of(words, *slot))?;
    }
    Ok(found)
}

fn push_scored(found: &mut Vec<Scored>, place: usize, score: Option<u64>) -> Result<(), Memory>
    ensures { OnOk result (found.new.items ≡ found.old.items ++ scored place score) }
{
    let Some(score) = score else {
        return Ok(());
    };
    Ok(found.push(Scored {
        score: Reverse(score),
        place,
    })?)
}

/// The hits of the first of these, in their order. Only those that are answered are sorted.
fn best(
    heap: Heap,
    pages: &Index<()>,
    seen: &[u64],
    found: Vec<Scored>,
) -> Result<List<Hit>, Memory>
    requires order { AreInOrder pages.now seen.now }
    requires within { All (λ one. one.place < length seen.now) found.items }
    ensures { IfOk result (λ hits.
        hits ≡ take 100 (ranked (mapped (hit_placed pages.now seen.now) found.items))) }
{
    let mut found = found;
    if found.len() <= MOST {
        return sorted(heap, pages, seen, &mut found);
    }
    let (first, _next, _rest) = found.select_nth_unstable(MOST);
    sorted(heap, pages, seen, first)
}

/// The hits of these, in their order.
fn sorted(
    heap: Heap,
    pages: &Index<()>,
    seen: &[u64],
    found: &mut [Scored],
) -> Result<List<Hit>, Memory>
    requires order { AreInOrder pages.now seen.now }
    requires within { All (λ one. one.place < length seen.now) found.old }
    ensures { IfOk result (λ hits.
        hits ≡ ranked (mapped (hit_placed pages.now seen.now) found.old)) }
{
    found.sort_unstable();
    copied(heap, pages, seen, found)
}

fn copied(
    heap: Heap,
    pages: &Index<()>,
    seen: &[u64],
    found: &[Scored],
) -> Result<List<Hit>, Memory>
    requires order { AreInOrder pages.now seen.now }
    requires within { All (λ one. one.place < length seen.now) found.now }
    ensures { IfOk result (λ hits. hits ≡ mapped (hit_placed pages.now seen.now) found.now) }
{
    let mut hits = Vec::with_capacity(heap, found.len())?;
    for one in found {
        hits.push(copy_of(heap, pages, seen, one)?)?;
    }
    Ok(List::new(hits))
}

fn copy_of(heap: Heap, pages: &Index<()>, seen: &[u64], one: &Scored) -> Result<Hit, Memory>
    requires order { AreInOrder pages.now seen.now }
    requires within { one.now.place < length seen.now }
    ensures { IfOk result (λ hit. hit ≡ hit_placed pages.now seen.now one.now) }
{
    let page = pages.slot(seen[one.place] as usize).unwrap();
    Ok(Hit {
        path: page.path.copy(heap)?,
        score: one.score.0,
    })
}
