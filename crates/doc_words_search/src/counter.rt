//! Words that are counted.

ghost use Rattle.std.specs.Prelude.{◌≡◌, ◌∷◌, ◌++◌, ◌<◌, [], ℕ, List as Seq, IfOk, IsAscii, OnOk};
ghost use Rattle.std.specs.Prelude.{chars, length, string_bytes, map as mapped};
ghost use Rattle.std.specs.FinMap as map;
ghost use Rattle.doc_words_search.specs.Words.{folded, words_of};
ghost use Rattle.doc_words_search.specs.WordSteps.{counted, one_more, own_word, word_if};

use crate::characters::{folded, is_word_char, next_char, push_char};
use crate::key::Key;
use crate::plain::{ascii_run, plain_run};
use crate::tally::{sorted_keys, tallied};
use crate::word::Word;
use doc_index::counts::Counts;
use doc_index_tables::packed::Packed;
use doc_page_parts::failure::Memory;
use doc_page_parts::heap::{Heap, String, Vec};
use doc_page_parts::list::List;
use doc_page_parts::text::Text;
use std::marker::Model;

/// Words with their counts: those that stand in texts as they are, and the others. They are sorted and counted in the end.
/// Contracts see the map.
#[derive(Drop)]
pub struct Counter<'a> {
    plain: Vec<Key<'a>>,
    others: Vec<String>,
}

impl<'a> Model for Counter<'a> {
    ghost use Rattle.std.specs.Prelude.{◌++◌, ℕ, string_bytes, map as mapped};
    ghost use Rattle.std.specs.Coded.{coded_ℕ, coded_list};
    ghost use Rattle.std.specs.FinMap as map;
    ghost use Rattle.doc_index_tables.specs.Maps.{TextMap};
    ghost use Rattle.doc_words_search.specs.Words.{counts_of};

    ghost Value = { TextMap ℕ };

    ghost coded = { map.code (coded_list coded_ℕ) coded_ℕ };

    ghost view = { λ c. counts_of (c.plain.items ++ mapped string_bytes c.others.items) };
}

impl<'a> Counter<'a> {
    pub fn new(heap: Heap) -> Counter<'a>
        ensures { result ≡ map.empty }
    {
        Counter {
            plain: Vec::new(heap),
            others: Vec::new(heap),
        }
    }

    /// The words with their counts.
    pub fn counts(self, heap: Heap) -> Result<Counts, Memory>
        ensures { IfOk result (λ counts. counts ≡ self.entry) }
    {
        let Counter { plain, others } = self;
        let keys = sorted_keys(plain, &others)?;
        let entries = tallied(heap, &keys)?;
        Counts::of_entries(heap, &entries)
    }

    /// The words with their counts, in the order of their bytes.
    pub fn words(self, heap: Heap) -> Result<List<(Word, u64)>, Memory>
        ensures { IfOk result (λ words. words ≡ map.entries self.entry) }
    {
        let counts = self.counts(heap)?;
        words_in(heap, counts.entries())
    }

    /// The words, in the order of their bytes.
    pub fn keys(self, heap: Heap) -> Result<List<Word>, Memory>
        ensures { IfOk result (λ words. words ≡ map.keys self.entry) }
    {
        let counts = self.counts(heap)?;
        keys_in(heap, counts.entries())
    }

    /// Counts a word that stands somewhere.
    pub(crate) fn add_plain(&mut self, word: &'a str) -> Result<(), Memory>
        ensures { OnOk result (self.new ≡ one_more self.old word.now) }
    {
        Ok(self.plain.push(Key::new(word))?)
    }

    /// Counts the word that a plain run is, if that isn't empty.
    fn add_run(&mut self, run: &'a str) -> Result<(), Memory>
        ensures { OnOk result (self.new ≡ counted self.old (own_word run.now)) }
    {
        if run.is_empty() {
            return Ok(());
        }
        self.add_plain(run)
    }

    /// Counts the word of a run of ASCII, if that isn't empty.
    fn add_ascii(&mut self, heap: Heap, run: &str) -> Result<(), Memory>
        requires { IsAscii run.now }
        ensures { OnOk result (self.new ≡ counted self.old (word_if run.now)) }
    {
        if run.is_empty() {
            return Ok(());
        }
        let mut word = String::from_str(heap, run)?;
        word.make_ascii_lowercase();
        self.add(word)
    }

    /// Counts a word.
    fn add(&mut self, word: String) -> Result<(), Memory>
        ensures { OnOk result (self.new ≡ one_more self.old (string_bytes word)) }
    {
        Ok(self.others.push(word)?)
    }

    /// Counts a copy of a word.
    fn add_text(&mut self, heap: Heap, word: &str) -> Result<(), Memory>
        ensures { OnOk result (self.new ≡ one_more self.old word.now) }
    {
        self.add(String::from_str(heap, word)?)
    }
}

/// Counts the words of a text.
pub fn count_text<'a>(heap: Heap, counter: &mut Counter<'a>, text: &'a str) -> Result<(), Memory>
    ensures { OnOk result (counter.new ≡ counted counter.old (words_of text.now)) }
{
    let mut rest = text;
    'runs: while !rest.is_empty() {
        rest = count_first(heap, counter, rest)?;
    }
    Ok(())
}

/// Counts the word of the run that a text begins with, if there is one, and answers the text behind the character after it.
fn count_first<'a>(heap: Heap, counter: &mut Counter<'a>, text: &'a str) -> Result<&'a str, Memory>
    ensures words { IfOk result (λ rest. counted counter.new (words_of rest.now)
        ≡ counted counter.old (words_of text.now)) }
    ensures shorter { IfOk result (λ rest. 0 < length (chars text.now)
        → length (chars rest.now) < length (chars text.now)) }
{
    if let Some((run, rest)) = plain_run(text) {
        counter.add_run(run)?;
        return Ok(rest);
    }
    if let Some((run, rest)) = ascii_run(text) {
        counter.add_ascii(heap, run)?;
        return Ok(rest);
    }
    count_other(heap, counter, text)
}

/// The same of any run, which is gathered character by character.
fn count_other<'a>(heap: Heap, counter: &mut Counter<'_>, text: &'a str) -> Result<&'a str, Memory>
    ensures words { IfOk result (λ rest. counted counter.new (words_of rest.now)
        ≡ counted counter.old (words_of text.now)) }
    ensures shorter { IfOk result (λ rest. 0 < length (chars text.now)
        → length (chars rest.now) < length (chars text.now)) }
{
    let mut run = String::with_capacity(heap, 32)?;
    let mut rest = text;
    'characters: while let Some((c, behind)) = next_char(rest) {
        if !is_word_char(c) {
            end_run(heap, counter, &mut run)?;
            return Ok(behind);
        }
        push_char(&mut run, c)?;
        rest = behind;
    }
    end_run(heap, counter, &mut run)?;
    Ok("")
}

/// Counts the word of a run, if that isn't empty, and empties it.
fn end_run(heap: Heap, counter: &mut Counter<'_>, run: &mut String) -> Result<(), Memory>
    ensures counts { OnOk result (counter.new
        ≡ counted counter.old (word_if (chars (string_bytes run.old)))) }
    ensures run { OnOk result (chars (string_bytes run.new) ≡ []) }
{
    if run.as_str().is_empty() {
        return Ok(());
    }
    count_run(heap, counter, run)?;
    run.clear();
    Ok(())
}

/// Counts the word of a run. One of ASCII is folded where it stands.
fn count_run(heap: Heap, counter: &mut Counter<'_>, run: &mut String) -> Result<(), Memory>
    ensures { OnOk result (counter.new
        ≡ one_more counter.old (folded (chars (string_bytes run.old)))) }
{
    if run.as_str().is_ascii() {
        run.make_ascii_lowercase();
        return counter.add_text(heap, run.as_str());
    }
    counter.add(folded(heap, run.as_str())?)
}

/// Words with their counts, as a list.
fn words_in(heap: Heap, entries: &Packed) -> Result<List<(Word, u64)>, Memory>
    ensures { IfOk result (λ words. words ≡ entries.now) }
{
    let mut words = Vec::with_capacity(heap, entries.len())?;
    for at in 0..entries.len() {
        let (word, count) = entries.get(at);
        words.push((Word::new(Text::copy_of(heap, word)?), count))?;
    }
    Ok(List::new(words))
}

/// Words that have counts, as a list.
fn keys_in(heap: Heap, entries: &Packed) -> Result<List<Word>, Memory>
    ensures { IfOk result (λ words. words ≡ mapped (λ entry. entry.0) entries.now) }
{
    let mut words = Vec::with_capacity(heap, entries.len())?;
    for at in 0..entries.len() {
        words.push(Word::new(Text::copy_of(heap, entries.get(at).0)?))?;
    }
    Ok(List::new(words))
}
