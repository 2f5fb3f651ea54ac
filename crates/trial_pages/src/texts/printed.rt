//! How texts are printed, and where two of them differ.

use doc_page_parts::failure::Memory;
use doc_page_parts::heap::{Heap, String};
use doc_page_parts::text::Text;

/// The text as it would be written in the input, on one line, where memory did not run out for it.
pub fn printed_made(heap: Heap, made: Result<Text, Memory>) -> Result<String, Memory> {
    let text = made?;
    let told = printed(heap, text.get());
    drop(text);
    told
}

fn printed(heap: Heap, text: &str) -> Result<String, Memory> {
    let mut out = String::new(heap);
    match push_printed(&mut out, text) {
        Ok(()) => Ok(out),
        Err(Memory) => Err(Memory),
    }
}

fn push_printed(out: &mut String, text: &str) -> Result<(), Memory> {
    for c in text.chars() {
        match c {
            '\n' => out.push_str("\\n")?,
            '\r' => out.push_str("\\r")?,
            '\t' => out.push_str("\\t")?,
            '\\' => out.push_str("\\\\")?,
            _ => out.push(c)?,
        }
    }
    Ok(())
}

/// The first place where two texts differ, as a number of characters, and what each has there.
type Difference = (Option<char>, Option<char>, usize);

/// `same`, or where the texts differ.
pub fn compared(heap: Heap, found: &str, wanted: &str) -> Result<String, Memory> {
    if found == wanted {
        return Ok(String::from_str(heap, "same")?);
    }
    let (found, wanted, place) = difference(found, wanted);
    Ok(format!(in heap; "{found:?} and not {wanted:?} behind {place} characters")?)
}

fn difference(found: &str, wanted: &str) -> Difference {
    let mut others = wanted.chars();
    let mut place: usize = 0;
    for c in found.chars() {
        let other = others.next();
        if other != Some(c) {
            return (Some(c), other, place);
        }
        place = place.saturating_add(1);
    }
    (None, others.next(), place)
}
