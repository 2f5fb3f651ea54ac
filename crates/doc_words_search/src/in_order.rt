//! Words as they stand in a text, one behind another.

ghost use Rattle.std.specs.Prelude.{◌≡◌, ◌∷◌, ◌++◌, [], ℕ, List as Seq, chars, string_bytes, IfOk, OnOk};
ghost use Rattle.doc_words_search.specs.Words.{different, words_of};
ghost use Rattle.doc_words_search.specs.WordSteps.{word_if, words_after};

use crate::characters::{folded, is_word_char, push_char};
use crate::counter::Counter;
use crate::word::Word;
use doc_page_parts::failure::Memory;
use doc_page_parts::heap::{Heap, String, Vec};
use doc_page_parts::list::List;
use doc_page_parts::text::Text;

/// The words of a text, as they stand there.
pub fn words_in_order(heap: Heap, text: &str) -> Result<List<Word>, Memory>
    ensures { IfOk result (λ words. words ≡ words_of text.now) }
{
    let mut words = Vec::new(heap);
    let mut run = String::with_capacity(heap, 32)?;
    'characters: for c in text.chars() {
        take_char(heap, &mut words, &mut run, c)?;
    }
    end_run(heap, &mut words, &mut run)?;
    Ok(List::new(words))
}

/// Goes on with a run by a character, or ends it there.
fn take_char(heap: Heap, words: &mut Vec<Word>, run: &mut String, c: char) -> Result<(), Memory>
    ensures { OnOk result ((rest : Seq ℕ)
        → words.new.items ++ words_after (chars (string_bytes run.new)) rest
        ≡ words.old.items ++ words_after (chars (string_bytes run.old)) (c ∷ rest)) }
{
    if is_word_char(c) {
        return push_char(run, c);
    }
    end_run(heap, words, run)
}

/// Adds the word of a run, if that isn't empty, and empties it.
fn end_run(heap: Heap, words: &mut Vec<Word>, run: &mut String) -> Result<(), Memory>
    ensures words { OnOk result
        (words.new.items ≡ words.old.items ++ word_if (chars (string_bytes run.old))) }
    ensures run { OnOk result (chars (string_bytes run.new) ≡ []) }
{
    if run.as_str().is_empty() {
        return Ok(());
    }
    let word = folded(heap, run.as_str())?;
    words.push(Word::new(Text::new(word)))?;
    run.clear();
    Ok(())
}

/// The different ones of words, in the order of their bytes.
pub fn different_words(heap: Heap, words: &[Word]) -> Result<List<Word>, Memory>
    ensures { IfOk result (λ found. found ≡ different words.now) }
{
    let mut counter = Counter::new(heap);
    for word in words {
        counter.add_plain(word.text())?;
    }
    counter.keys(heap)
}
