//! Calls of the scanners of `doc_lines`: what each answers is the text behind what it takes.

use crate::texts::of_starts;
use crate::texts::tools::Tools;
use doc_lines::scan::autolink::{mail, uri};
use doc_lines::scan::character::{is, last_char, next_char};
use doc_lines::scan::front::front;
use doc_lines::scan::run::{at_most, many, some};
use doc_lines::scan::white_space::{line_ending, some_spacing, spacing};
use doc_lines::scan::word::{through, word, word_in_any_case};
use doc_page_parts::failure::Memory;
use doc_page_parts::heap::{Heap, String};
use trial::answer::{char_and_text, no_call, number_and_text, shown, word_and_text};

/// What is printed for a call of this name.
pub fn called(tools: Tools<'_>, name: &str, given: &str) -> Result<String, Memory> {
    let heap = tools.heap;
    match name {
        "uri" => shown(heap, uri(given)),
        "mail" => shown(heap, mail(given)),
        "spacing" => shown(heap, spacing(given)),
        "some_spacing" => shown(heap, some_spacing(given)),
        "line_ending" => shown(heap, line_ending(given)),
        "next_char" => shown(heap, next_char(given)),
        "last_char" => shown(heap, last_char(given)),
        "word" | "word_in_any_case" | "through" => of_word(heap, name, given),
        "is" | "many" | "front" | "some" => of_char(heap, name, given),
        "at_most" => behind_at_most(heap, given),
        _ => of_starts::called(tools, name, given),
    }
}

/// `WORD TEXT`.
fn of_word(heap: Heap, name: &str, given: &str) -> Result<String, Memory> {
    let Some((letters, text)) = word_and_text(given) else {
        return no_call(heap);
    };
    let letters = letters.as_bytes();
    match name {
        "word" => shown(heap, word(text, letters)),
        "word_in_any_case" => shown(heap, word_in_any_case(text, letters)),
        _ => shown(heap, through(text, letters)),
    }
}

/// `C TEXT`: behind the character, behind a run of it, what stands before that, and behind a run that isn't empty.
fn of_char(heap: Heap, name: &str, given: &str) -> Result<String, Memory> {
    let Some((c, text)) = char_and_text(given) else {
        return no_call(heap);
    };
    match name {
        "is" => shown(heap, is(text, c)),
        "many" => shown(heap, many(text, |d| d == c)),
        "front" => shown(heap, front(text, many(text, |d| d == c))),
        _ => shown(heap, some(text, |d| d == c)),
    }
}

/// `N C TEXT`.
fn behind_at_most(heap: Heap, given: &str) -> Result<String, Memory> {
    let Some((most, rest)) = number_and_text(given) else {
        return no_call(heap);
    };
    match char_and_text(rest) {
        Some((c, text)) => shown(heap, at_most(text, most, |d| d == c)),
        None => no_call(heap),
    }
}
