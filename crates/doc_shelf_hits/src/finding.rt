//! The hits among the pages that a reader sees, in their order.

ghost use Rattle.std.specs.Prelude.{◌≡◌, ◌++◌, ◌-◌, ℕ, List as Seq, IfOk, OnOk, length, map as mapped, take};
ghost use Rattle.std.specs.List.{flat_map};
ghost use Rattle.doc_page_parts.specs.declared.rendered.Rendered.{Rendered};
ghost use Rattle.doc_people.specs.Hits.{hits};
ghost use Rattle.doc_words_search.specs.Searches.{ranked};
ghost use Rattle.doc_words_search.specs.SearchSteps.{hit_of};
ghost use Rattle.doc_shelf_hits.specs.Candidates.{AreKnown, hit_if, is_other, known_of};

use crate::candidates::Candidate;
use crate::scoring::{hit_count, holds_each, rarities, score_of};
use doc_page_parts::failure::Memory;
use doc_page_parts::heap::{Heap, Vec};
use doc_page_parts::list::List;
use doc_people::term::Term;
use doc_people::viewed::Found;
use doc_words_search::hit::Hit;
use doc_words_search::search::Found as Ranked;
use std::cmp::Reverse;

/// How many of these pages are found, and the first so many: the named ones by score falling and then by path, and behind them the others
/// that hold each term, in the same order.
pub fn found_among(
    heap: Heap,
    candidates: &[Candidate],
    terms: &[Term],
    most: usize,
) -> Result<Found, Memory>
    ensures count { (pages : Seq (Seq ℕ × Rendered)) → AreKnown terms.now pages candidates.now
        → IfOk result (λ found. found.count ≡ length (hits pages terms.now)) }
    ensures best { (pages : Seq (Seq ℕ × Rendered)) → AreKnown terms.now pages candidates.now
        → IfOk result (λ found. found.best ≡ take most (hits pages terms.now)) }
{
    Ok(Found {
        count: hit_count(candidates),
        best: best(heap, candidates, terms, most)?,
    })
}

fn best(
    heap: Heap,
    candidates: &[Candidate],
    terms: &[Term],
    most: usize,
) -> Result<List<Hit>, Memory>
    ensures { (pages : Seq (Seq ℕ × Rendered)) → AreKnown terms.now pages candidates.now
        → IfOk result (λ best. best ≡ take most (hits pages terms.now)) }
{
    let rarities = rarities(heap, candidates, terms)?;
    let mut named = named_among(heap, candidates, &rarities)?;
    let mut others = others_among(heap, candidates, &rarities)?;
    first_of_both(heap, &mut named, &mut others, most)
}

/// The pages that are named, with their scores.
fn named_among<'a>(
    heap: Heap,
    candidates: &'a [Candidate],
    rarities: &[u64],
) -> Result<Vec<Ranked<'a>>, Memory>
    ensures { IfOk result (λ found. mapped hit_of found.items ≡ flat_map
        (λ candidate. hit_if rarities.now candidate.named (known_of candidate))
        candidates.now) }
{
    let mut found = Vec::new(heap);
    for candidate in candidates {
        push_if(&mut found, candidate, rarities, candidate.named)?;
    }
    Ok(found)
}

/// The pages that aren't named, but hold each term, with their scores.
fn others_among<'a>(
    heap: Heap,
    candidates: &'a [Candidate],
    rarities: &[u64],
) -> Result<Vec<Ranked<'a>>, Memory>
    ensures { IfOk result (λ found. mapped hit_of found.items ≡ flat_map
        (λ candidate. hit_if rarities.now (is_other (known_of candidate)) (known_of candidate))
        candidates.now) }
{
    let mut found = Vec::new(heap);
    for candidate in candidates {
        push_if(&mut found, candidate, rarities, is_other(candidate))?;
    }
    Ok(found)
}

fn is_other(candidate: &Candidate) -> bool
    ensures { result ≡ is_other (known_of candidate.now) }
{
    holds_each(&candidate.counts) && !candidate.named
}

/// Adds a page with its score, where it is one of those that are wanted.
fn push_if<'a>(
    found: &mut Vec<Ranked<'a>>,
    candidate: &'a Candidate,
    rarities: &[u64],
    wanted: bool,
) -> Result<(), Memory>
    ensures { OnOk result (mapped hit_of found.new.items ≡ mapped hit_of found.old.items
        ++ hit_if rarities.now wanted (known_of candidate.now)) }
{
    if !wanted {
        return Ok(());
    }
    Ok(found.push(Ranked {
        score: Reverse(score_of(&candidate.counts, rarities)),
        path: &candidate.path,
    })?)
}

/// The first so many of these hits: those of the first list in their order, and behind them those of the second.
fn first_of_both(
    heap: Heap,
    named: &mut [Ranked<'_>],
    others: &mut [Ranked<'_>],
    most: usize,
) -> Result<List<Hit>, Memory>
    ensures { IfOk result (λ hits. hits ≡ take most
        (ranked (mapped hit_of named.old) ++ ranked (mapped hit_of others.old))) }
{
    let mut hits = Vec::new(heap);
    push_first(heap, &mut hits, named, most)?;
    let room = most.saturating_sub(named.len());
    push_first(heap, &mut hits, others, room)?;
    Ok(List::new(hits))
}

/// Adds the first so many of these hits in their order.
fn push_first(
    heap: Heap,
    hits: &mut Vec<Hit>,
    found: &mut [Ranked<'_>],
    most: usize,
) -> Result<(), Memory>
    ensures { OnOk result (hits.new.items ≡ hits.old.items
        ++ take most (ranked (mapped hit_of found.old))) }
{
    found.sort_unstable();
    push_copies(heap, hits, first_of(found, most))
}

/// The first so many.
fn first_of<'b, 'a>(found: &'b [Ranked<'a>], most: usize) -> &'b [Ranked<'a>]
    ensures { result.now ≡ take most found.now }
{
    if most >= found.len() {
        return found;
    }
    &found[..most]
}

fn push_copies(heap: Heap, hits: &mut Vec<Hit>, found: &[Ranked<'_>]) -> Result<(), Memory>
    ensures { OnOk result (hits.new.items ≡ hits.old.items ++ mapped hit_of found.now) }
{
    for one in found {
        hits.push(Hit {
            path: one.path.copy(heap)?,
            score: one.score.0,
        })?;
    }
    Ok(())
}
