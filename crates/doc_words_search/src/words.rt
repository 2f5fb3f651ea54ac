//! The words of a page.

ghost use Rattle.std.specs.Prelude.{◌≡◌, IfOk};
ghost use Rattle.std.specs.FinMap as map;
ghost use Rattle.doc_words_search.specs.Words.{word_counts};

use crate::counter::{Counter, count_text};
use crate::word::Word;
use doc_index::counts::Counts;
use doc_page_parts::failure::Memory;
use doc_page_parts::heap::Heap;
use doc_page_parts::list::List;
use doc_page_parts::rendered::Rendered;

/// The words of a page, each once with its count, in the order of their bytes.
pub fn words(heap: Heap, page: &Rendered) -> Result<List<(Word, u64)>, Memory>
    ensures { IfOk result (λ words. words ≡ map.entries (word_counts page.now)) }
{
    let counter = gathered(heap, page)?;
    counter.words(heap)
}

/// The words of a page, counted.
pub fn counted(heap: Heap, page: &Rendered) -> Result<Counts, Memory>
    ensures { IfOk result (λ counts. counts ≡ word_counts page.now) }
{
    let counter = gathered(heap, page)?;
    counter.counts(heap)
}

/// The words of a page, to be counted.
fn gathered(heap: Heap, page: &Rendered) -> Result<Counter<'_>, Memory>
    ensures { IfOk result (λ counter. counter ≡ word_counts page.now) }
{
    let mut counter = Counter::new(heap);
    let texts = page.texts.get();
    for text in texts {
        count_text(heap, &mut counter, text.get())?;
    }
    Ok(counter)
}
