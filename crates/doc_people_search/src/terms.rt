//! The terms of a query.

ghost use Rattle.std.specs.Prelude.{◌≡◌, ◌++◌, IfOk};
ghost use Rattle.doc_people.specs.Search.{asks_nothing};
ghost use Rattle.doc_people.specs.Terms.{exact_terms, meets, terms_of, terms_with};

use doc_page_parts::failure::Memory;
use doc_page_parts::heap::{Heap, Vec};
use doc_page_parts::list::List;
use doc_people::term::Term;
use doc_words_search::in_order::{different_words, words_in_order};
use doc_words_search::word::Word;

/// How many bytes the last word of a query has at least to stand for all words that begin with it.
const PREFIX_LEAST: usize = 3;

/// Whether a query is nothing, or spaces alone.
pub fn asks_nothing(query: &str) -> bool
    ensures { result ≡ asks_nothing query.now }
{
    query.as_bytes().iter().all(|byte| *byte == b' ')
}

/// Whether a term meets a word that it stands for.
pub fn meets(term: &Term, word: &str) -> bool
    ensures { result ≡ meets term.now word.now }
{
    match term {
        Term::Exact(text) => text.text() == word,
        Term::Prefix(text) => word.starts_with(text.text()),
    }
}

/// The terms of a query.
pub fn terms(heap: Heap, query: &str) -> Result<List<Term>, Memory>
    ensures { IfOk result (λ terms. terms ≡ terms_of query.now) }
{
    let mut words = words_in_order(heap, query)?.into_inner();
    let Some(last) = words.pop() else {
        return Ok(List::new(Vec::new(heap)));
    };
    terms_with(heap, words, last)
}

/// The terms of words and the one behind them.
fn terms_with(heap: Heap, mut words: Vec<Word>, last: Word) -> Result<List<Term>, Memory>
    ensures { IfOk result (λ terms. terms ≡ terms_with words.items last) }
{
    if last.text().len() < PREFIX_LEAST {
        words.push(last)?;
        return Ok(List::new(exact_terms(heap, words.as_slice())?));
    }
    let mut terms = exact_terms(heap, words.as_slice())?;
    terms.push(Term::Prefix(last))?;
    Ok(List::new(terms))
}

/// Each of the words once.
fn exact_terms(heap: Heap, words: &[Word]) -> Result<Vec<Term>, Memory>
    ensures { IfOk result (λ terms. terms.items ≡ exact_terms words.now) }
{
    let words = different_words(heap, words)?.into_inner();
    let mut terms = Vec::with_capacity(heap, words.len())?;
    for word in words {
        terms.push(Term::Exact(word))?;
    }
    Ok(terms)
}
