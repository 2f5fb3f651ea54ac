//! What is printed for a call, and what a call is given.

use doc_page_parts::failure::Memory;
use doc_page_parts::heap::{Heap, String};
use std::fmt::Debug;

/// What is printed for a line that is no call.
pub fn no_call(heap: Heap) -> Result<String, Memory> {
    Ok(String::from_str(heap, "no call")?)
}

/// What is printed for a value.
pub fn shown<T: Debug + Drop>(heap: Heap, value: T) -> Result<String, Memory> {
    Ok(format!(in heap; "{value:?}")?)
}

/// What is printed for the value of a call, or for a line that is no call.
pub fn shown_if<T: Debug + Drop>(heap: Heap, value: Option<T>) -> Result<String, Memory> {
    match value {
        Some(value) => shown(heap, value),
        None => no_call(heap),
    }
}

/// The character that a text is.
pub fn only_char(text: &str) -> Option<char> {
    let mut characters = text.chars();
    let c = characters.next()?;
    match characters.next() {
        None => Some(c),
        Some(_) => None,
    }
}

/// A number, and the text behind its space.
pub fn number_and_text(given: &str) -> Option<(usize, &str)> {
    let (number, text) = given.split_once(' ')?;
    Some((number.parse::<usize>().ok()?, text))
}

/// A character, and the text behind its space.
pub fn char_and_text(given: &str) -> Option<(char, &str)> {
    let (c, text) = given.split_once(' ')?;
    Some((only_char(c)?, text))
}

/// A word, and the text behind its space.
pub fn word_and_text(given: &str) -> Option<(&str, &str)> {
    given.split_once(' ')
}

/// Two texts, or one and further ones.
pub fn two_texts(given: &str) -> Option<(&str, &str)> {
    given.split_once(" | ")
}
