//! The keys of the table `browse`.

ghost use Rattle.std.specs.Prelude.{◌≡◌, IfOk, codes, option_copied, option_map};
ghost use Rattle.toml.specs.Data.{get_member};
ghost use Rattle.toml.specs.View.{array_view, table_view, view};
ghost use Rattle.doc_store_readers.specs.Groups.{texts_of};
ghost use Rattle.doc_store_readers.specs.Readers.{groups_at, strings_in};
ghost use Rattle.doc_server_config.specs.Browsing.{editing_at, guest_at, home_at, language_at, login_at, text_at, title_at};

use crate::browsing_texts::{is_language, is_title};
use crate::table::value_at;
use doc_page_parts::failure::Memory;
use doc_page_parts::heap::{Heap, Vec};
use doc_page_parts::path::{Path, PathError};
use doc_page_parts::text::Text;
use doc_store::groups::{Groups, GroupsError};
use toml::value::Array;
use toml::{Table, Value};

/// The title of the site, or `None` where the key holds no title.
pub(crate) fn title_in(heap: Heap, table: &Table) -> Result<Option<Text>, Memory>
    ensures { IfOk result (λ title.
        title ≡ title_at (get_member (codes "title") (table_view table.now))) }
{
    let Some(text) = text_in(table, "title", "Handbook") else {
        return Ok(None);
    };
    if !is_title(text) {
        return Ok(None);
    }
    Ok(Some(Text::copy_of(heap, text)?))
}

/// The language of the site's texts, or `None` where the key holds no language.
pub(crate) fn language_in(heap: Heap, table: &Table) -> Result<Option<Text>, Memory>
    ensures { IfOk result (λ language.
        language ≡ language_at (get_member (codes "language") (table_view table.now))) }
{
    let Some(text) = text_in(table, "language", "en") else {
        return Ok(None);
    };
    if !is_language(text) {
        return Ok(None);
    }
    Ok(Some(Text::copy_of(heap, text)?))
}

/// The path of the page at the front, or `None` where the key holds no path.
pub(crate) fn home_in(heap: Heap, table: &Table) -> Result<Option<Path>, Memory>
    ensures { IfOk result (λ home.
        home ≡ home_at (get_member (codes "home") (table_view table.now))) }
{
    let Some(text) = text_in(table, "home", "index.md") else {
        return Ok(None);
    };
    match Path::new(heap, text) {
        Ok(path) => Ok(Some(path)),
        Err(PathError::BadPath) => Ok(None),
        Err(PathError::Memory) => Err(Memory),
    }
}

/// The groups of guests, where there are guests, or `None` where the key holds no array of names of groups, or too many.
pub(crate) fn guest_in(heap: Heap, table: &Table) -> Result<Option<Option<Groups>>, Memory>
    ensures { IfOk result (λ guest.
        guest ≡ guest_at (get_member (codes "guest") (table_view table.now))) }
{
    let Some(value) = value_at(table, "guest") else {
        return Ok(Some(None));
    };
    match groups_of(heap, value)? {
        Some(groups) => Ok(Some(Some(groups))),
        None => Ok(None),
    }
}

/// Whether readers may sign in as browsers do, or `None` where the key holds anything but `basic`.
pub(crate) fn login_in(table: &Table) -> Option<bool>
    ensures { result ≡ login_at (get_member (codes "login") (table_view table.now)) }
{
    let Some(value) = value_at(table, "login") else {
        return Some(false);
    };
    if value.as_str()? != "basic" {
        return None;
    }
    Some(true)
}

/// Whether owners edit pages by requests with conditions, and in a browser, or `None` where the key holds no boolean.
pub(crate) fn editing_in(table: &Table) -> Option<bool>
    ensures { result ≡ editing_at (get_member (codes "editing") (table_view table.now)) }
{
    match value_at(table, "editing") {
        None => Some(true),
        Some(value) => value.as_bool(),
    }
}

/// The text that a key holds, or the one that stands for it where the key is missing.
fn text_in<'a>(table: &'a Table, key: &str, missing: &'a str) -> Option<&'a str>
    ensures { option_copied result
        ≡ text_at missing.now (get_member key.now (table_view table.now)) }
{
    match value_at(table, key) {
        None => Some(missing),
        Some(value) => value.as_str(),
    }
}

/// The groups that a value names.
pub fn groups_of(heap: Heap, value: &Value) -> Result<Option<Groups>, Memory>
    ensures { IfOk result (λ groups. groups ≡ groups_at (Some (view value.now))) }
{
    let Some(array) = value.as_array() else {
        return Ok(None);
    };
    let Some(names) = strings_in(heap, array)? else {
        return Ok(None);
    };
    match Groups::of_names(heap, &names) {
        Ok(groups) => Ok(Some(groups)),
        Err(GroupsError::Memory) => Err(Memory),
        Err(_) => Ok(None),
    }
}

/// The strings of an array that holds nothing else.
pub fn strings_in(heap: Heap, array: &Array) -> Result<Option<Vec<&str>>, Memory>
    ensures { IfOk result
        (λ texts. option_map (λ found. texts_of found.items) texts
        ≡ strings_in (array_view array.now)) }
{
    let mut texts = Vec::with_capacity(heap, array.len())?;
    for value in array {
        let Some(text) = value.as_str() else {
            return Ok(None);
        };
        texts.push(text)?;
    }
    Ok(Some(texts))
}
