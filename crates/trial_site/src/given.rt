//! What calls are given.

use crate::stop::Stop;
use doc_hub::event::ConnId;
use doc_page_parts::heap::{Heap, Vec};
use doc_page_parts::path::Path;
use doc_page_parts::text::Text;
use doc_store::groups::Groups;
use doc_store::reader::Reader;
use trial::answer::{number_and_text, two_texts};
use trial::written::hexadecimal;

/// Two texts that a call is given, or one and further ones.
pub fn two(given: &str) -> Result<(&str, &str), Stop> {
    two_texts(given).ok_or(Stop::NoCall)
}

/// A number, and the text behind its space.
pub fn number_first(given: &str) -> Result<(u64, &str), Stop> {
    match number_and_text(given) {
        Some((number, text)) => Ok((number as u64, text)),
        None => Err(Stop::NoCall),
    }
}

/// The connection of a number.
pub fn connection(digits: &str) -> Result<ConnId, Stop> {
    match digits.parse::<u64>() {
        Ok(number) => Ok(ConnId(number)),
        Err(_) => Err(Stop::NoCall),
    }
}

/// `ID BYTES`.
pub fn id_and_bytes(heap: Heap, given: &str) -> Result<(ConnId, Vec<u8>), Stop> {
    let (id, text) = number_first(given)?;
    Ok((ConnId(id), bytes_of(heap, text)?))
}

/// Two values of which each may be refused.
pub fn both<A: Drop, B: Drop>(a: Result<A, Stop>, b: Result<B, Stop>) -> Result<(A, B), Stop> {
    Ok((a?, b?))
}

pub fn text_of(heap: Heap, given: &str) -> Result<Text, Stop> {
    Ok(Text::copy_of(heap, given)?)
}

pub fn path_of(heap: Heap, given: &str) -> Result<Path, Stop> {
    Ok(Path::new(heap, given)?)
}

pub fn groups_of(heap: Heap, given: &str) -> Result<Groups, Stop> {
    Ok(Groups::new(heap, given)?)
}

/// The reader that a text names: `owner`, or a reader of groups.
pub fn reader_of(heap: Heap, text: &str) -> Result<Reader, Stop> {
    let owner = text == "owner";
    let groups = groups_of(heap, if owner { "" } else { text })?;
    Ok(Reader { owner, groups })
}

/// The bytes of a text, in which `\xff` is one of that hexadecimal number.
pub fn bytes_of(heap: Heap, text: &str) -> Result<Vec<u8>, Stop> {
    let mut bytes = Vec::with_capacity(heap, text.len())?;
    match push_bytes(&mut bytes, text) {
        Ok(()) => Ok(bytes),
        Err(stop) => Err(stop),
    }
}

fn push_bytes(bytes: &mut Vec<u8>, text: &str) -> Result<(), Stop> {
    let mut parts = text.split("\\x");
    bytes.extend_from_slice(parts.next().unwrap_or("").as_bytes())?;
    for part in parts {
        push_numbered(bytes, part)?;
    }
    Ok(())
}

/// Adds the byte of the two hexadecimal digits that a text begins with, and the rest of the text.
fn push_numbered(bytes: &mut Vec<u8>, text: &str) -> Result<(), Stop> {
    let Some((digits, rest)) = text.split_at_checked(2) else {
        return Err(Stop::NoCall);
    };
    let Some(number) = hexadecimal(digits) else {
        return Err(Stop::NoCall);
    };
    let Ok(byte) = u8::try_from(number) else {
        return Err(Stop::NoCall);
    };
    bytes.push(byte)?;
    bytes.extend_from_slice(rest.as_bytes())?;
    Ok(())
}
