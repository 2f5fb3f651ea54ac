//! What a query asks for.

ghost use Rattle.std.specs.Prelude.{◌≡◌, IfOk};
ghost use Rattle.doc_people_search.specs.Asking.{asked, code_of};

use crate::terms::{asks_nothing, terms};
use doc_page_parts::failure::Memory;
use doc_page_parts::heap::Heap;
use doc_page_parts::list::List;
use doc_people::term::Term;
use doc_words_search::query::{QueryError, query};

/// What a query asks for.
#[derive(Drop)]
pub enum Asked {
    /// Nothing: the form alone is shown.
    Nothing,
    /// The pages that have these.
    For(List<Term>),
    /// What no search answers.
    Refused(QueryError),
}

/// Reads a query.
pub fn read_query(heap: Heap, text: &str) -> Result<Asked, Memory>
    ensures { IfOk result (λ what. what ≡ asked text.now) }
{
    if asks_nothing(text) {
        return Ok(Asked::Nothing);
    }
    match query(heap, text) {
        Ok(_words) => Ok(Asked::For(terms(heap, text)?)),
        Err(QueryError::Memory) => Err(Memory),
        Err(error) => Ok(Asked::Refused(error)),
    }
}

/// The code of the reply: 400 where no search answers the query.
pub fn code(asked: &Asked) -> u16
    ensures { result ≡ code_of asked.now }
{
    match asked {
        Asked::Nothing | Asked::For(_) => 200,
        Asked::Refused(_) => 400,
    }
}
