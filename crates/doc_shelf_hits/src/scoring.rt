//! How rare terms are among pages, and what scores pages have by that.

ghost use Rattle.std.specs.Prelude.{◌≡◌, ◌/◌, ℕ, List as Seq, IfOk, count_by, length, map as mapped, nat_lt, slice_index_or, if◌then◌else◌};
ghost use Rattle.std.specs.List.{list_all};
ghost use Rattle.doc_page_parts.specs.declared.rendered.Rendered.{Rendered};
ghost use Rattle.doc_people.specs.Hits.{rarity};
ghost use Rattle.doc_words_search.specs.Words.{capped};
ghost use Rattle.doc_shelf_hits.specs.Candidates.{AreKnown, holds_at, is_hit, known_of, weighted};

use crate::candidates::Candidate;
use doc_page_parts::failure::Memory;
use doc_page_parts::heap::{Heap, Vec};
use doc_people::term::Term;

/// How rare each term is among these pages.
pub fn rarities(heap: Heap, candidates: &[Candidate], terms: &[Term]) -> Result<Vec<u64>, Memory>
    ensures { (pages : Seq (Seq ℕ × Rendered)) → AreKnown terms.now pages candidates.now
        → IfOk result (λ rarities. rarities.items ≡ mapped (rarity pages) terms.now) }
{
    let mut rarities = Vec::with_capacity(heap, terms.len())?;
    for at in 0..terms.len() {
        rarities.push(rarity_at(candidates, at))?;
    }
    Ok(rarities)
}

/// All pages by those that hold the term at this place, the fraction dropped; 0 where none does.
fn rarity_at(candidates: &[Candidate], at: usize) -> u64
    ensures { result ≡ length candidates.now
        / count_by (λ candidate. holds_at at (known_of candidate)) candidates.now }
{
    quotient(candidates.len() as u64, holders(candidates, at))
}

/// How many of the pages hold the term at this place.
fn holders(candidates: &[Candidate], at: usize) -> u64
    ensures { result
        ≡ count_by (λ candidate. holds_at at (known_of candidate)) candidates.now }
{
    let mut count: u64 = 0;
    for candidate in candidates {
        count += one_if(holds_at(&candidate.counts, at));
    }
    count
}

/// Whether the term at this place meets a word.
fn holds_at(counts: &[u64], at: usize) -> bool
    ensures { result ≡ nat_lt 0 (slice_index_or counts.now at 0) }
{
    let Some(count) = counts.get(at) else {
        return false;
    };
    *count > 0
}

/// All by some, the fraction dropped; 0 where there are none.
fn quotient(all: u64, some: u64) -> u64
    ensures { result ≡ all / some }
{
    if some == 0 {
        return 0;
    }
    all / some
}

/// 1 where it is true, else 0.
fn one_if(yes: bool) -> u64
    ensures { result ≡ (if yes then 1 else 0) }
{
    if yes { 1 } else { 0 }
}

/// The score of a page, by how rare the terms are.
pub fn score_of(counts: &[u64], rarities: &[u64]) -> u64
    ensures { result ≡ capped (weighted counts.now rarities.now) }
{
    let mut score: u64 = 0;
    for (at, count) in counts.iter().enumerate() {
        if at >= rarities.len() {
            return score;
        }
        score = score.saturating_add(count.saturating_mul(rarities[at]));
    }
    score
}

/// Whether each term meets a word of the page.
pub fn holds_each(counts: &[u64]) -> bool
    ensures { result ≡ list_all (nat_lt 0) counts.now }
{
    counts.iter().all(|count| *count > 0)
}

/// How many of the pages are found: they are named, or hold each term.
pub fn hit_count(candidates: &[Candidate]) -> u64
    ensures { result ≡ count_by (λ candidate. is_hit (known_of candidate)) candidates.now }
{
    let mut count: u64 = 0;
    for candidate in candidates {
        count += one_if(candidate.named || holds_each(&candidate.counts));
    }
    count
}
