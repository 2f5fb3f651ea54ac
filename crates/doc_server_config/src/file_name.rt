//! The paths of pages that stand in files of a folder.

ghost use Rattle.std.specs.Prelude.{◌≡◌, IfOk, string_bytes};
ghost use Rattle.doc_server_config.specs.FileNames.{is_file_name, is_medium_name, is_page_name, is_prefix, is_shown, is_shown_part, joined, name_in_path, page_path, path_in_folder};

use crate::media_names::is_medium;
use crate::reason::{Reason, path_reason};
use doc_page_parts::failure::Memory;
use doc_page_parts::heap::{Heap, String};
use doc_page_parts::list::List;
use doc_page_parts::path::{Path, PathError};
use doc_page_parts::text::Text;
use unicode_normalization::to_nfc;

/// The path of the page or the medium in a file of a folder, of the folder's prefix and of the file's name in it, with `/` between a folder in the
/// folder and what stands there. The name is normalised where this is asked for. `None` says that the file is passed over: a part of its
/// name begins with `.`, or the name neither ends in `.md` nor has one of the extensions. A reason says that the name makes no path.
pub fn path_in_folder(
    heap: Heap,
    is_nfc: bool,
    media: &Option<List<Text>>,
    prefix: &str,
    name: &str,
) -> Result<Result<Option<Path>, Reason>, Memory>
    ensures { IfOk result (λ path. path ≡ path_in_folder is_nfc media.now prefix.now name.now) }
{
    if !is_file_name(media, name) {
        return Ok(Ok(None));
    }
    let name = name_in_path(heap, is_nfc, name)?;
    let text = joined(heap, prefix, name.as_str())?;
    page_path(heap, text.as_str())
}

/// The name of a file as it stands in a path.
fn name_in_path(heap: Heap, is_nfc: bool, name: &str) -> Result<String, Memory>
    ensures { IfOk result (λ text. string_bytes text ≡ name_in_path is_nfc name.now) }
{
    if !is_nfc {
        return Ok(String::from_str(heap, name)?);
    }
    Ok(to_nfc(heap, name)?)
}

/// A text as the path of a page.
fn page_path(heap: Heap, text: &str) -> Result<Result<Option<Path>, Reason>, Memory>
    ensures { IfOk result (λ path. path ≡ page_path text.now) }
{
    match Path::new(heap, text) {
        Ok(path) => Ok(Ok(Some(path))),
        Err(PathError::BadPath) => Ok(Err(path_reason(text))),
        Err(PathError::Memory) => Err(Memory),
    }
}

/// Whether a text can stand before names of files: with a slash and the shortest name it makes a path of a page.
pub fn is_prefix(heap: Heap, text: &str) -> Result<bool, Memory>
    ensures { IfOk result (λ good. good ≡ is_prefix text.now) }
{
    let path = joined(heap, text, "a.md")?;
    match Path::new(heap, path.as_str()) {
        Ok(_path) => Ok(true),
        Err(PathError::BadPath) => Ok(false),
        Err(PathError::Memory) => Err(Memory),
    }
}

/// A name behind a prefix and a slash, or alone where the prefix is empty.
pub(crate) fn joined(heap: Heap, prefix: &str, name: &str) -> Result<String, Memory>
    ensures { IfOk result (λ text. string_bytes text ≡ joined prefix.now name.now) }
{
    if prefix.is_empty() {
        return Ok(String::from_str(heap, name)?);
    }
    Ok(format!(in heap; "{prefix}/{name}")?)
}

/// Whether a file of this name is a page or a medium.
fn is_file_name(media: &Option<List<Text>>, name: &str) -> bool
    ensures { result ≡ is_file_name media.now name.now }
{
    is_page_name(name) || is_medium_name(media, name)
}

/// Whether a file of this name is a medium.
pub(crate) fn is_medium_name(media: &Option<List<Text>>, name: &str) -> bool
    ensures { result ≡ is_medium_name media.now name.now }
{
    is_shown(name) && is_medium(media, name)
}

/// Whether a file of this name is a page.
pub(crate) fn is_page_name(name: &str) -> bool
    ensures { result ≡ is_page_name name.now }
{
    is_shown(name) && name.as_bytes().ends_with(b".md")
}

/// Whether neither the file nor a folder that it stands in is hidden.
fn is_shown(name: &str) -> bool
    ensures { result ≡ is_shown name.now }
{
    name.split('/').all(is_shown_part)
}

fn is_shown_part(part: &str) -> bool
    ensures { result ≡ is_shown_part part.now }
{
    match part.as_bytes() {
        [first, ..] => *first != b'.',
        [] => true,
    }
}
