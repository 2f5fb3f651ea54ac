//! Which files of a folder are media.

ghost use Rattle.std.specs.Prelude.{◌≡◌, Some, IfOk, codes, option_and_then};
ghost use Rattle.toml.specs.Data.{as_array, get};
ghost use Rattle.toml.specs.View.{view};
ghost use Rattle.doc_store_readers.specs.Groups.{texts_of};
ghost use Rattle.doc_store_readers.specs.Readers.{strings_in};
ghost use Rattle.doc_server_config.specs.MediaNames.{are_extensions, has_extension, is_extension, is_medium, listed_media, media_at};

use crate::browsing_keys::strings_in;
use crate::except::copies_of;
use crate::table::is_one_of;
use doc_page_parts::failure::Memory;
use doc_page_parts::heap::Heap;
use doc_page_parts::list::List;
use doc_page_parts::text::Text;
use toml::Value;

/// The extensions of media, as `doc_media` knows them.
const EXTENSIONS: &[&str] = &[
    "png", "gif", "webp", "avif", "jpg", "jpeg", "ico", "svg", "pdf", "txt", "csv", "json", "zip",
    "gz", "docx", "xlsx", "pptx",
];

/// The extensions of the files that are media, which without the key no file is; or `None` where it holds neither `true` nor an array
/// of such extensions.
pub(crate) fn media_in(heap: Heap, table: &Value) -> Result<Option<Option<List<Text>>>, Memory>
    ensures { IfOk result (λ media. media ≡ media_at (get (codes "media") (view table.now))) }
{
    let Some(value) = table.get("media") else {
        return Ok(Some(None));
    };
    match value.as_bool() {
        Some(true) => Ok(Some(Some(copies_of(heap, EXTENSIONS)?))),
        Some(false) => Ok(None),
        None => listed_media(heap, value),
    }
}

/// The extensions of an array that holds nothing else, and one at least.
pub fn listed_media(heap: Heap, value: &Value) -> Result<Option<Option<List<Text>>>, Memory>
    ensures { IfOk result (λ media.
        media ≡ listed_media (option_and_then strings_in (as_array (view value.now)))) }
{
    let Some(array) = value.as_array() else {
        return Ok(None);
    };
    let Some(names) = strings_in(heap, array)? else {
        return Ok(None);
    };
    if names.is_empty() || !are_extensions(&names) {
        return Ok(None);
    }
    Ok(Some(Some(copies_of(heap, &names)?)))
}

fn are_extensions(names: &[&str]) -> bool
    ensures { result ≡ are_extensions (texts_of names.now) }
{
    for name in names {
        if !is_extension(*name) {
            return false;
        }
    }
    true
}

fn is_extension(name: &str) -> bool
    ensures { result ≡ is_extension name.now }
{
    is_one_of(name, EXTENSIONS)
}

/// Whether a file of this name has one of the extensions.
pub(crate) fn is_medium(media: &Option<List<Text>>, name: &str) -> bool
    ensures { result ≡ is_medium media.now name.now }
{
    match media {
        Some(extensions) => has_one_of(extensions.get(), name),
        None => false,
    }
}

fn has_one_of(extensions: &[Text], name: &str) -> bool
    ensures { result ≡ is_medium (Some extensions.now) name.now }
{
    extensions
        .iter()
        .any(|one| has_extension(one.get().as_bytes(), name.as_bytes()))
}

/// Whether a name has an extension, in any case of ASCII letters.
fn has_extension(extension: &[u8], name: &[u8]) -> bool
    ensures { result ≡ has_extension extension.now name.now }
{
    if name.len() < extension.len() {
        return false;
    }
    let (front, tail) = name.split_at(name.len() - extension.len());
    front.ends_with(b".") && tail.eq_ignore_ascii_case(extension)
}
