//! Pages that are named by the terms of a search.

ghost use Rattle.std.specs.Prelude.{◌≡◌, ◌++◌, IfOk};
ghost use Rattle.std.specs.List.{list_all, list_any};
ghost use Rattle.doc_people.specs.Terms.{meets};
ghost use Rattle.doc_shelf_hits.specs.Candidates.{is_named_by};

use crate::counting::meets;
use doc_page_parts::failure::Memory;
use doc_page_parts::heap::Heap;
use doc_page_parts::path::Path;
use doc_page_parts::rendered::Heading;
use doc_people::term::Term;
use doc_people_lines::titles::title;
use doc_words_search::in_order::words_in_order;
use doc_words_search::word::Word;

/// Whether each term meets a word of a page's title or of its path.
pub fn is_named(
    heap: Heap,
    terms: &[Term],
    path: &Path,
    headings: &[Heading],
) -> Result<bool, Memory>
    ensures { IfOk result (λ named. named ≡ is_named_by terms.now path.now headings.now) }
{
    let title = words_in_order(heap, title(path.text(), headings))?;
    let path = words_in_order(heap, path.text())?;
    Ok(all_meet(terms, title.get(), path.get()))
}

/// Whether each term meets one of these words.
fn all_meet(terms: &[Term], title: &[Word], path: &[Word]) -> bool
    ensures { result ≡ list_all
        (λ term. list_any (meets term) (title.now ++ path.now)) terms.now }
{
    terms.iter().all(|term| meets_either(term, title, path))
}

fn meets_either(term: &Term, title: &[Word], path: &[Word]) -> bool
    ensures { result ≡ list_any (meets term.now) (title.now ++ path.now) }
{
    if meets_any(term, title) {
        return true;
    }
    meets_any(term, path)
}

fn meets_any(term: &Term, words: &[Word]) -> bool
    ensures { result ≡ list_any (meets term.now) words.now }
{
    words.iter().any(|word| meets(term, word.text()))
}
