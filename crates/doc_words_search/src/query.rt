//! The words of a query.

ghost use Rattle.std.specs.Prelude.{◌≡◌, ◌≢◌, Ok, Err, IfOk, IfErr};
ghost use Rattle.doc_words_search.specs.Words.{checked, different, query_of, words_of};

use crate::counter::{Counter, count_text};
use crate::word::Word;
use doc_page_parts::failure::Memory;
use doc_page_parts::heap::Heap;
use doc_page_parts::list::List;
use thiserror::Error;

/// Why a query has no words to search for.
#[derive(Clone, Copy, Debug, Error)]
pub enum QueryError {
    #[error("no word in the query")]
    NoWords,
    #[error("more than 16 different words in the query")]
    TooManyWords,
    #[error("{}", Memory)]
    Memory,
}

impl From<Memory> for QueryError {
    ghost use Rattle.std.specs.Prelude.{◌≡◌};
    ghost use Rattle.doc_words_search.specs.declared.query.QueryError.TheVariants as refusals;

    ghost from_gives = { λ _ e. e ≡ refusals.Memory };

    fn from(_e: Memory) -> QueryError {
        QueryError::Memory
    }
}

/// The different words of a query, in the order of their bytes. `NoWords` where it has none, and
/// `TooManyWords` where it has more than 16. Memory may run out before that is found.
pub fn query(heap: Heap, text: &str) -> Result<List<Word>, QueryError>
    ensures words { IfOk result (λ words. query_of text.now ≡ Ok words) }
    ensures refused { IfErr result (λ e. e ≢ QueryError.Memory → query_of text.now ≡ Err e) }
{
    let words = different(heap, text)?;
    check(words.get())?;
    Ok(words)
}

/// The different words of a text.
fn different(heap: Heap, text: &str) -> Result<List<Word>, Memory>
    ensures { IfOk result (λ words. words ≡ different (words_of text.now)) }
{
    let mut counter = Counter::new(heap);
    count_text(heap, &mut counter, text)?;
    counter.keys(heap)
}

/// Refuses a list of no words and one of more than 16.
fn check(words: &[Word]) -> Result<(), QueryError>
    ensures ok { IfOk result (λ _. checked words.now ≡ Ok words.now) }
    ensures refused { IfErr result (λ e. checked words.now ≡ Err e) }
{
    let count = words.len();
    if count == 0 {
        return Err(QueryError::NoWords);
    }
    if count > 16 {
        return Err(QueryError::TooManyWords);
    }
    Ok(())
}
