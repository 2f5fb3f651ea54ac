//! The folders in a folder that are passed over.

ghost use Rattle.std.specs.Prelude.{◌≡◌, IfOk, codes};
ghost use Rattle.toml.specs.Data.{get};
ghost use Rattle.toml.specs.View.{array_view, view};
ghost use Rattle.doc_page_parts.specs.Paths.{is_segment};
ghost use Rattle.doc_store_readers.specs.Groups.{texts_of};
ghost use Rattle.doc_store_readers.specs.Readers.{strings_in};
ghost use Rattle.doc_server_config.specs.Excepted.{are_folder_names, except_at, good_names, is_below, is_excepted, is_folder_name};

use crate::browsing_keys::strings_in;
use crate::growth::push;
use doc_page_parts::failure::Memory;
use doc_page_parts::heap::{Heap, Vec};
use doc_page_parts::list::List;
use doc_page_parts::text::Text;
use toml::Value;
use toml::value::Array;

/// The names of the folders that are passed over, or `None` where the key holds no such names.
pub(crate) fn except_in(heap: Heap, table: &Value) -> Result<Option<List<Text>>, Memory>
    ensures { IfOk result (λ names. names ≡ except_at (get (codes "except") (view table.now))) }
{
    let Some(value) = table.get("except") else {
        return Ok(Some(List::new(Vec::new(heap))));
    };
    let Some(array) = value.as_array() else {
        return Ok(None);
    };
    names_in(heap, array)
}

/// The names of folders of an array that holds nothing else.
fn names_in(heap: Heap, array: &Array) -> Result<Option<List<Text>>, Memory>
    ensures { IfOk result (λ names. names ≡ good_names (strings_in (array_view array.now))) }
{
    let Some(names) = strings_in(heap, array)? else {
        return Ok(None);
    };
    if !are_folder_names(&names) {
        return Ok(None);
    }
    Ok(Some(copies_of(heap, &names)?))
}

/// Whether each text is the name of a folder in another.
pub fn are_folder_names(names: &[&str]) -> bool
    ensures { result ≡ are_folder_names (texts_of names.now) }
{
    for name in names {
        if !is_folder_name(*name) {
            return false;
        }
    }
    true
}

/// Copies of some texts.
pub(crate) fn copies_of(heap: Heap, names: &[&str]) -> Result<List<Text>, Memory>
    ensures { IfOk result (λ copies. copies ≡ texts_of names.now) }
{
    let mut copies = Vec::with_capacity(heap, names.len()).map_err(Memory::from)?;
    for name in names {
        push(&mut copies, Text::copy_of(heap, *name)?)?;
    }
    Ok(List::new(copies))
}

fn is_folder_name(name: &str) -> bool
    ensures { result ≡ is_folder_name name.now }
{
    name.split('/').all(is_segment)
}

fn is_segment(part: &str) -> bool
    ensures { result ≡ is_segment part.now }
{
    part != "" && part != "." && part != ".."
}

/// Whether a file stands below one of these folders.
pub(crate) fn is_excepted(folders: &[Text], file: &str) -> bool
    ensures { result ≡ is_excepted folders.now file.now }
{
    folders.iter().any(|folder| is_below(folder.get(), file))
}

/// Whether a file stands below a folder.
fn is_below(folder: &str, file: &str) -> bool
    ensures { result ≡ is_below folder.now file.now }
{
    let file = file.as_bytes();
    file.starts_with(folder.as_bytes()) && file.get(folder.len()) == Some(&b'/')
}
