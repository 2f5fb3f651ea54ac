//! Folders, as a request writes them.

ghost use Rattle.std.specs.Prelude.{◌≡◌, ◌++◌, ◌∷◌, [], ◌-◌, length, map, not, slice_get, IfOk, OnOk, option_map};
ghost use Rattle.std.specs.List.{slice_split};
ghost use Rattle.percent_encoding.specs.Percent.{percent_decode};
ghost use Rattle.doc_http_targets.specs.WrittenFolders.{folder_written, holds_slash, if_folder, is_slash, is_slash_at};
ghost use Rattle.doc_http_targets.specs.WrittenFolderSteps.{joined};

use doc_page_parts::failure::Memory;
use doc_page_parts::heap::{Heap, Vec};
use doc_page_parts::text::Text;
use percent_encoding::percent_decode;
use std::str::from_utf8;

/// The folder that a text writes as the path of a URI does: its parts, which `/` ends, are percent-encoded (RFC 3986, section 2.1). `None`
/// where it doesn't end in `/`, where a part stands for bytes that hold `/`, or where the whole is no UTF-8.
#[tactic(auto, unfolding(crate::specs::WrittenFolders::folder_written))]
pub fn written_folder(heap: Heap, written: &str) -> Result<Option<Text>, Memory>
    ensures { IfOk result (λ folder. folder ≡ folder_written written.now) }
{
    let parts = parts_of(heap, written)?;
    let Some(mut folder) = joined_parts(heap, &parts)? else {
        return Ok(None);
    };
    folder.truncate(folder.len().saturating_sub(1));
    folder_in(heap, folder.as_slice())
}

/// The parts between `/`.
fn parts_of(heap: Heap, written: &str) -> Result<Vec<&str>, Memory>
    ensures { IfOk result
        (λ parts. map (λ part. part.now) parts.items ≡ slice_split is_slash written.now) }
{
    Ok(written.split('/').collect(heap)?)
}

/// The parts, decoded, each with a `/` behind it; `None` where one of them holds a `/` then.
fn joined_parts(heap: Heap, parts: &[&str]) -> Result<Option<Vec<u8>>, Memory>
    ensures { IfOk result (λ text.
        option_map (λ v. v.items) text ≡ joined (map (λ part. part.now) parts.now)) }
{
    let mut text = Vec::new(heap);
    for part in parts {
        if !push_part(&mut text, part)? {
            return Ok(None);
        }
    }
    Ok(Some(text))
}

/// Adds a part, decoded, and a `/`. False where the part holds a `/` then.
fn push_part(text: &mut Vec<u8>, part: &str) -> Result<bool, Memory>
    ensures good { IfOk result (λ good. good ≡ not (holds_slash part.now)) }
    ensures text { OnOk result
        (text.new.items ≡ text.old.items ++ percent_decode part.now ++ 47 ∷ []) }
{
    let start = text.len();
    percent_decode(part.as_bytes()).append_to(text)?;
    let good = !text[start..].contains(&b'/');
    text.push(b'/')?;
    Ok(good)
}

/// The bytes as a folder, where they are one.
fn folder_in(heap: Heap, bytes: &[u8]) -> Result<Option<Text>, Memory>
    ensures { IfOk result (λ folder. folder ≡ if_folder bytes.now) }
{
    let Ok(text) = from_utf8(bytes) else {
        return Ok(None);
    };
    if !ends_in_slash(bytes) {
        return Ok(None);
    }
    Ok(Some(Text::copy_of(heap, text)?))
}

fn ends_in_slash(bytes: &[u8]) -> bool
    ensures { result ≡ is_slash_at (slice_get bytes.now (length bytes.now - 1)) }
{
    match bytes.last() {
        Some(byte) => *byte == b'/',
        None => false,
    }
}
