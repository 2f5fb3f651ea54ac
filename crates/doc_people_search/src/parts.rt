//! The parts of a text: the longest runs of letters, marks and numbers, and each other character.

ghost use Rattle.std.specs.Prelude.{◌≡◌, ◌<◌, ◌++◌, ◌∷◌, [], ℕ, length, drop, take, chars, IfOk, MatchOption};
ghost use Rattle.std.specs.List.{list_any, prefix_len};
ghost use Rattle.doc_rules.specs.Rests.{IsRest};
ghost use Rattle.doc_words_search.specs.Words.{is_word_char};
ghost use Rattle.doc_people.specs.Snippets.{is_met, is_run, match_at, parts};
ghost use Rattle.doc_people.specs.Terms.{meets};

use crate::terms::meets;
use doc_lines::scan::character::next_char;
use doc_lines::scan::front::front;
use doc_page_parts::failure::Memory;
use doc_page_parts::heap::Heap;
use doc_people::term::Term;
use doc_words_search::characters::{folded, is_word_char};

/// The text behind its first so many characters.
fn behind(text: &str, count: usize) -> &str
    ensures characters { chars result.now ≡ drop count (chars text.now) }
    ensures end { IsRest (chars result.now) (chars text.now) }
{
    let mut rest = text;
    let mut left = count;
    while left > 0 {
        let Some((_, next)) = next_char(rest) else {
            return rest;
        };
        rest = next;
        left -= 1;
    }
    rest
}

/// The first so many characters of a text, and the text behind them.
pub fn split_at(text: &str, count: usize) -> (&str, &str)
    ensures front { chars result.0.now ≡ take count (chars text.now) }
    ensures behind { chars result.1.now ≡ drop count (chars text.now) }
{
    let rest = behind(text, count);
    (front(text, rest), rest)
}

/// The first part of a text, and the text behind it.
pub fn first_part(text: &str) -> Option<(&str, &str)>
    ensures none { MatchOption result (chars text.now ≡ [])
        (λ part. 0 < length (chars part.0.now)) }
    ensures whole { MatchOption result (chars text.now ≡ [])
        (λ part. chars text.now ≡ chars part.0.now ++ chars part.1.now) }
    ensures part { MatchOption result (chars text.now ≡ [])
        (λ part. parts (chars text.now) ≡ chars part.0.now ∷ parts (chars part.1.now)) }
{
    if text.is_empty() {
        return None;
    }
    let run = run_len(text);
    Some(split_at(text, run.max(1)))
}

/// How many characters a text has.
pub fn character_count(text: &str) -> usize
    ensures { result ≡ length (chars text.now) }
{
    text.chars().count()
}

/// How many letters, marks and numbers a text begins with.
fn run_len(text: &str) -> usize
    ensures { result ≡ prefix_len is_word_char (chars text.now) }
{
    text.chars().take_while(|c| is_word_char(*c)).count()
}

/// Whether a part is a word that a term meets.
pub fn is_met(heap: Heap, terms: &[Term], part: &str) -> Result<bool, Memory>
    ensures { IfOk result (λ met. met ≡ is_met terms.now (chars part.now)) }
{
    if !is_run(part) {
        return Ok(false);
    }
    let word = folded(heap, part)?;
    Ok(meet(terms, word.as_str()))
}

/// Whether one of the terms meets a word.
fn meet(terms: &[Term], word: &str) -> bool
    ensures { result ≡ list_any (λ term. meets term word.now) terms.now }
{
    terms.iter().any(|term| meets(term, word))
}

/// Whether a part is a run of letters, marks and numbers.
fn is_run(part: &str) -> bool
    ensures { result ≡ is_run (chars part.now) }
{
    match part.chars().next() {
        Some(c) => is_word_char(c),
        None => false,
    }
}

/// Where the first word that a term meets begins, in characters; at the start where there is none.
pub fn match_at(heap: Heap, terms: &[Term], text: &str) -> Result<usize, Memory>
    ensures { IfOk result (λ at. at ≡ match_at terms.now (chars text.now)) }
{
    let mut at = 0;
    let mut rest = text;
    while let Some((part, behind)) = first_part(rest) {
        let met = is_met(heap, terms, part)?;
        if met {
            return Ok(at);
        }
        at += character_count(part);
        rest = behind;
    }
    Ok(0)
}
