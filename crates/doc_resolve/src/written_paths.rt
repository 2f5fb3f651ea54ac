//! Paths of pages, as the paths of URIs write them.

ghost use Rattle.std.specs.Prelude.{◌≡◌, ◌≤◌, ◌++◌, ◌∷◌, length, map, drop, not, codes, option_map, IfOk, OnOk, if◌then◌else◌};
ghost use Rattle.percent_encoding.specs.Percent.{percent_decode};
ghost use Rattle.doc_page_parts.specs.Paths.{segments};
ghost use Rattle.doc_resolve.specs.WrittenPaths.{path_written, holds_slash};
ghost use Rattle.doc_resolve.specs.WrittenPathSteps.{decoded_segments, ends_empty, index_of, path_of_bytes};

use crate::dot_segments::push_segments;
use doc_page_parts::failure::Memory;
use doc_page_parts::heap::{Heap, Vec};
use doc_page_parts::path::{Path, PathError};
use percent_encoding::percent_decode;
use std::str::from_utf8;

const INDEX: &str = "index.md";

/// The most bytes that write a path: 200, each of them as `%XX`.
const LONGEST: usize = 600;

/// The most segments of a path.
const SEGMENTS: usize = 16;

/// The path of the page that a text writes as the path of a URI does behind its first `/`. Its segments, which `/` parts, are
/// percent-encoded (RFC 3986, section 2.1); a `%` that two hexadecimal digits don't follow stays as it is, and so breaks the path. An
/// empty text, or one that ends in `/`, writes the path of `index.md` there. Dot segments are not resolved. `None` where no path is
/// written: where a segment stands for bytes that aren't UTF-8 or that hold `/`, or where the whole is no path of a page.
pub fn written_path(heap: Heap, written: &str) -> Result<Option<Path>, Memory>
    ensures { IfOk result (λ path. path ≡ path_written (segments written.now)) }
{
    if written.len() > LONGEST {
        return Ok(None);
    }
    let mut parts = Vec::with_capacity(heap, SEGMENTS)?;
    push_segments(&mut parts, written)?;
    path_of_segments(heap, &parts)
}

/// The path of the page that these segments write.
pub fn path_of_segments(heap: Heap, parts: &[&str]) -> Result<Option<Path>, Memory>
    ensures { IfOk result (λ path. path ≡ path_written (map (λ s. s.now) parts.now)) }
{
    let Some(mut text) = decoded_segments(heap, parts)? else {
        return Ok(None);
    };
    add_index(&mut text, parts)?;
    path_after_slash(heap, &text)
}

/// The segments, decoded, each after a `/`; `None` where one of them holds a `/` then.
fn decoded_segments(heap: Heap, parts: &[&str]) -> Result<Option<Vec<u8>>, Memory>
    ensures { IfOk result
        (λ text. option_map (λ v. v.items) text ≡ decoded_segments (map (λ s. s.now) parts.now)) }
{
    let mut text = Vec::with_capacity(heap, room_of(parts))?;
    for segment in parts {
        if !push_segment(&mut text, segment)? {
            return Ok(None);
        }
    }
    Ok(Some(text))
}

/// How many bytes the segments take at most, each after a `/`, and the page of a folder: a guess, on which nothing rests.
fn room_of(parts: &[&str]) -> usize {
    let mut room = INDEX.len();
    for segment in parts {
        room = room.saturating_add(segment.len()).saturating_add(1);
    }
    room
}

/// Adds a `/` and the segment, decoded. False where that holds a `/`.
fn push_segment(text: &mut Vec<u8>, segment: &str) -> Result<bool, Memory>
    ensures good { IfOk result (λ good. good ≡ not (holds_slash (percent_decode segment.now))) }
    ensures text { OnOk result
        (text.new.items ≡ text.old.items ++ 47 ∷ percent_decode segment.now) }
{
    text.push(b'/')?;
    let start = text.len();
    percent_decode(segment.as_bytes()).append_to(text)?;
    Ok(!text[start..].contains(&b'/'))
}

/// Adds the page of a folder.
fn add_index(text: &mut Vec<u8>, parts: &[&str]) -> Result<(), Memory>
    ensures { OnOk result
        (text.new.items ≡ text.old.items ++ index_of (map (λ s. s.now) parts.now)) }
{
    if ends_empty(parts) {
        text.extend_from_slice(INDEX.as_bytes())?;
    }
    Ok(())
}

fn ends_empty(parts: &[&str]) -> bool
    ensures { result ≡ ends_empty (map (λ s. s.now) parts.now) }
{
    match parts.split_last() {
        Some((last, _)) => last.is_empty(),
        None => false,
    }
}

/// The path that the bytes after the first are.
fn path_after_slash(heap: Heap, rooted: &[u8]) -> Result<Option<Path>, Memory>
    ensures { IfOk result (λ path. path ≡ path_of_bytes (drop 1 rooted.now)) }
{
    let Some((_, bytes)) = rooted.split_first() else {
        return Ok(None);
    };
    let Ok(text) = from_utf8(bytes) else {
        return Ok(None);
    };
    match Path::new(heap, text) {
        Ok(path) => Ok(Some(path)),
        Err(PathError::BadPath) => Ok(None),
        Err(PathError::Memory) => Err(Memory),
    }
}
