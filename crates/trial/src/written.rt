//! Texts that are written with escapes.

use crate::answer::number_and_text;
use doc_page_parts::failure::Memory;
use doc_page_parts::heap::{Heap, String};

/// The text that is written so, or `None` where it is not written as the head of this crate says.
pub fn text_of(heap: Heap, written: &str) -> Result<Option<String>, Memory> {
    let mut out = String::with_capacity(heap, written.len())?;
    let mut rest = written;
    // Each part has a byte at least.
    for _ in 0..written.len() {
        if rest.is_empty() {
            break;
        }
        match push_part(heap, &mut out, rest)? {
            Some(behind) => rest = behind,
            None => return Ok(None),
        }
    }
    Ok(Some(out))
}

/// Adds what the front of a text is written for, and answers the text behind it.
fn push_part<'a>(
    heap: Heap,
    out: &mut String,
    written: &'a str,
) -> Result<Option<&'a str>, Memory> {
    match written.strip_prefix("\\{") {
        Some(repeated) => push_repetition(heap, out, repeated),
        None => push_one(out, written, 0),
    }
}

/// Adds a repetition, which stands here from its count on.
fn push_repetition<'a>(
    heap: Heap,
    out: &mut String,
    written: &'a str,
) -> Result<Option<&'a str>, Memory> {
    let Some((count, rest)) = number_and_text(written) else {
        return Ok(None);
    };
    let Some((repeated, behind)) = rest.split_once('}') else {
        return Ok(None);
    };
    let is_added = if repeated.contains("\\#") {
        push_numbered(out, repeated, count)?
    } else {
        push_equal(heap, out, repeated, count)?
    };
    Ok(if is_added { Some(behind) } else { None })
}

/// Adds a text so many times, each time with its number, and answers whether it is written so.
fn push_numbered(out: &mut String, written: &str, count: usize) -> Result<bool, Memory> {
    for number in 0..count {
        if !push_all(out, written, number)? {
            return Ok(false);
        }
    }
    Ok(true)
}

/// Adds a text without a number so many times, and answers whether it is written so.
fn push_equal(heap: Heap, out: &mut String, written: &str, count: usize) -> Result<bool, Memory> {
    let mut text = String::new(heap);
    let pushed = push_copies(out, &mut text, written, count);
    drop(text);
    pushed
}

/// The same, with an empty text for what is added each time.
fn push_copies(
    out: &mut String,
    text: &mut String,
    written: &str,
    count: usize,
) -> Result<bool, Memory> {
    let is_written = count == 0 || push_all(text, written, 0)?;
    for _ in 0..count {
        out.push_str(text)?;
    }
    Ok(is_written)
}

/// Adds a text without repetitions, and answers whether it is written so.
fn push_all(out: &mut String, written: &str, number: usize) -> Result<bool, Memory> {
    let mut rest = written;
    for _ in 0..written.len() {
        if rest.is_empty() {
            break;
        }
        match push_one(out, rest, number)? {
            Some(behind) => rest = behind,
            None => return Ok(false),
        }
    }
    Ok(true)
}

/// Adds one character or the number of the repetition, and answers the text behind it.
fn push_one<'a>(
    out: &mut String,
    written: &'a str,
    number: usize,
) -> Result<Option<&'a str>, Memory> {
    if let Some(behind) = written.strip_prefix("\\#") {
        write!(out, "{number}")?;
        return Ok(Some(behind));
    }
    let Some((c, behind)) = written_char(written) else {
        return Ok(None);
    };
    out.push(c)?;
    Ok(Some(behind))
}

/// The character that the front of a text is written for, and the text behind it.
fn written_char(written: &str) -> Option<(char, &str)> {
    let mut characters = written.chars();
    let first = characters.next()?;
    if first != '\\' {
        return Some((first, characters.as_str()));
    }
    let c = match characters.next()? {
        'n' => '\n',
        'r' => '\r',
        't' => '\t',
        '\\' => '\\',
        'u' => return numbered_char(characters.as_str()),
        _ => return None,
    };
    Some((c, characters.as_str()))
}

/// The character that a hexadecimal number between braces names, and the text behind it.
fn numbered_char(written: &str) -> Option<(char, &str)> {
    let (digits, behind) = written.strip_prefix("{")?.split_once('}')?;
    Some((char::from_u32(hexadecimal(digits)?)?, behind))
}

/// The number that hexadecimal digits write. (To read them by the standard library is much dearer to prove.)
pub fn hexadecimal(digits: &str) -> Option<u32> {
    if digits.is_empty() {
        return None;
    }
    let mut number: u32 = 0;
    for digit in digits.bytes() {
        number = number.checked_mul(16)?.checked_add(value_of(digit)?)?;
    }
    Some(number)
}

fn value_of(digit: u8) -> Option<u32> {
    match digit {
        b'0'..=b'9' => Some(u32::from(digit - b'0')),
        b'a'..=b'f' => Some(u32::from(digit - b'a') + 10),
        b'A'..=b'F' => Some(u32::from(digit - b'A') + 10),
        _ => None,
    }
}
