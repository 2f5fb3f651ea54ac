//! Which text of a page is shown of it.

ghost use Rattle.std.specs.Prelude.{◌≡◌, ◌≤◌, ◌&&◌, not, bytes_eq, filter, length, IfOk};
ghost use Rattle.std.specs.List.{list_any};
ghost use Rattle.doc_page_parts.specs.Pages.{is_empty};
ghost use Rattle.doc_people.specs.Limits.{read_limit};
ghost use Rattle.doc_people.specs.Snippets.{best_text, met_in, within};
ghost use Rattle.doc_people.specs.Terms.{meets, meets_in};
ghost use Rattle.doc_people_search.specs.Reading.{is_read, read_of};

use crate::terms::meets;
use doc_page_parts::failure::Memory;
use doc_page_parts::heap::Heap;
use doc_page_parts::text::Text;
use doc_people::term::Term;
use doc_words_search::in_order::words_in_order;
use doc_words_search::word::Word;

/// How many bytes of a page's texts are read.
const READ_LIMIT: usize = 65_536;

/// The first of the texts of a page with a title that most terms meet; nothing where no text is read.
pub fn best_text<'a>(
    heap: Heap,
    terms: &[Term],
    title: &str,
    texts: &'a [Text],
) -> Result<&'a str, Memory>
    ensures { IfOk result (λ best. best.now ≡ best_text terms.now (read_of title.now texts.now)) }
{
    let mut best = "";
    let mut least = 0;
    for text in within(texts) {
        let text = text.get();
        if !is_read(text, title) {
            continue;
        }
        let met = met_in(heap, terms, text)?;
        if met < least {
            continue;
        }
        best = text;
        least = met + 1;
    }
    Ok(best)
}

/// The texts that are read, by their bytes.
fn within(texts: &[Text]) -> &[Text]
    ensures { result.now ≡ within read_limit texts.now }
{
    let mut room = READ_LIMIT;
    for (i, text) in texts.iter().enumerate() {
        let length = text.get().len();
        if length > room {
            return &texts[..i];
        }
        room -= length;
    }
    texts
}

/// Whether a text isn't empty and isn't the title.
fn is_read(text: &str, title: &str) -> bool
    ensures { result ≡ is_read title.now text.now }
{
    !text.is_empty() && text != title
}

/// How many of the terms meet a word of a text.
fn met_in(heap: Heap, terms: &[Term], text: &str) -> Result<usize, Memory>
    ensures met { IfOk result (λ met. met ≡ met_in terms.now text.now) }
    ensures few { IfOk result (λ met. met ≤ length terms.now) }
{
    let words = words_in_order(heap, text)?;
    Ok(
        terms
            .iter()
            .filter(|term| meets_one(term, words.get()))
            .count(),
    )
}

/// Whether a term meets one of these words.
fn meets_one(term: &Term, words: &[Word]) -> bool
    ensures { result ≡ list_any (meets term.now) words.now }
{
    words.iter().any(|word| meets(term, word.text()))
}
