//! How many words of a page terms meet.

ghost use Rattle.std.specs.Prelude.{◌≡◌, IfOk, map as mapped, if◌then◌else◌};
ghost use Rattle.doc_people.specs.Terms.{meets};
ghost use Rattle.doc_words_search.specs.Words.{capped};
ghost use Rattle.doc_shelf_hits.specs.Candidates.{met_of};

use doc_index_tables::packed::Packed;
use doc_page_parts::failure::Memory;
use doc_page_parts::heap::{Heap, Vec};
use doc_people::term::Term;

/// Whether a term meets a word that it stands for.
pub fn meets(term: &Term, word: &str) -> bool
    ensures { result ≡ meets term.now word.now }
{
    match term {
        Term::Exact(text) => text.text() == word,
        Term::Prefix(text) => word.starts_with(text.text()),
    }
}

/// How many of these words each term meets.
pub fn counts_of(heap: Heap, terms: &[Term], words: &Packed) -> Result<Vec<u64>, Memory>
    ensures { IfOk result (λ counts.
        counts.items ≡ mapped (λ term. capped (met_of term words.now)) terms.now) }
{
    let mut counts = Vec::with_capacity(heap, terms.len())?;
    for term in terms {
        counts.push(count_of(term, words))?;
    }
    Ok(counts)
}

/// How many of these words a term meets.
fn count_of(term: &Term, words: &Packed) -> u64
    ensures { result ≡ capped (met_of term.now words.now) }
{
    let mut met: u64 = 0;
    for at in 0..words.len() {
        let (word, count) = words.get(at);
        met = met.saturating_add(count_if(meets(term, word), count));
    }
    met
}

/// The count where it is wanted, else 0.
fn count_if(yes: bool, count: u64) -> u64
    ensures { result ≡ (if yes then count else 0) }
{
    if yes { count } else { 0 }
}
