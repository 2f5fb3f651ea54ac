//! Calls of words and queries.

use crate::sites::page::{Kind, page_of};
use crate::sites::stop::{Stop, written};
use doc_page_parts::failure::Memory;
use doc_page_parts::heap::{Heap, String};
use doc_page_parts::rendered::Rendered;
use doc_words::query::{QueryError, query};
use doc_words::word::Word;
use doc_words::words::words;

/// `TEXT | TEXT ..`: the words of a page of these texts, each with its count.
pub fn words_told(heap: Heap, given: &str) -> Result<String, Stop> {
    let page = page_of(heap, Kind::Texts, given)?;
    let told = words_of(heap, &page);
    drop(page);
    Ok(told?)
}

fn words_of(heap: Heap, page: &Rendered) -> Result<String, Memory> {
    let counts = words(heap, page)?;
    let told = counts_told(heap, counts.get());
    drop(counts);
    told
}

fn counts_told(heap: Heap, counts: &[(Word, u64)]) -> Result<String, Memory> {
    let mut out = String::new(heap);
    push_counts(&mut out, counts)?;
    Ok(out)
}

fn push_counts(out: &mut String, counts: &[(Word, u64)]) -> Result<(), Memory> {
    for (word, count) in counts {
        push_word(out, word)?;
        write!(out, " {count}")?;
    }
    Ok(())
}

/// `TEXT`: the words of a query, or why it has none.
pub fn query_told(heap: Heap, given: &str) -> Result<String, Stop> {
    match query(heap, given) {
        Ok(words) => {
            let told = listed(heap, words.get());
            drop(words);
            Ok(told?)
        }
        Err(QueryError::Memory) => Err(Stop::Refused),
        Err(e) => written(heap, e),
    }
}

fn listed(heap: Heap, words: &[Word]) -> Result<String, Memory> {
    let mut out = String::new(heap);
    push_words(&mut out, words)?;
    Ok(out)
}

fn push_words(out: &mut String, words: &[Word]) -> Result<(), Memory> {
    for word in words {
        push_word(out, word)?;
    }
    Ok(())
}

/// Writes a word behind others.
fn push_word(out: &mut String, word: &Word) -> Result<(), Memory> {
    if !out.is_empty() {
        out.push_str(", ")?;
    }
    out.push_str(word.text())?;
    Ok(())
}
