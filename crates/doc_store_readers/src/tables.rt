//! What configurations hold: a TOML document, the tables of a key, and the groups of a table.

ghost use Rattle.std.specs.Prelude.{◌≡◌, ◌≢◌, Some, None, IfOk, IfErr, codes, option_map};
ghost use Rattle.toml.specs.Data.{get, get_member};
ghost use Rattle.toml.specs.Parse.{parse_document};
ghost use Rattle.toml.specs.View.{array_view, items_view, table_view, view};
ghost use Rattle.doc_store_readers.specs.Groups.{texts_of};
ghost use Rattle.doc_store_readers.specs.Readers.{are_tables, groups_at, strings_in, tables_at};

use crate::groups::{Groups, GroupsError};
use crate::readers::ReadersError;
use doc_page_parts::failure::Memory;
use doc_page_parts::heap::{Heap, Vec};
use toml::value::Array;
use toml::{Table, Value};

/// The document that a text is. `BadToml` says that it is none.
pub fn document_of(heap: Heap, text: &str) -> Result<Table, ReadersError>
    ensures read { IfOk result (λ document. parse_document text.now ≡ Some (table_view document)) }
    ensures refused { IfErr result
        (λ e. e ≢ ReadersError.Memory
        → (e ≡ ReadersError.BadToml) × (parse_document text.now ≡ None)) }
{
    match toml::table_from_str(heap, text) {
        Ok(document) => Ok(document),
        Err(error) => Err(if error.is_memory() {
            ReadersError::Memory
        } else {
            ReadersError::BadToml
        }),
    }
}

/// The tables that a key of a document holds: without the key there are none, and `None` says that it
/// holds anything but an array of tables.
pub fn tables_at<'a>(document: &'a Table, key: &str) -> Option<&'a [Value]>
    ensures { option_map (λ tables. items_view tables.now) result
        ≡ tables_at (get_member key.now (table_view document.now)) }
{
    let Some(value) = document.get(key) else {
        return Some(&[]);
    };
    let Some(tables) = value.as_array() else {
        return None;
    };
    if !are_tables(tables) {
        return None;
    }
    Some(tables)
}

/// Whether there are tables alone.
fn are_tables(values: &[Value]) -> bool
    ensures { result ≡ are_tables (items_view values.now) }
{
    for value in values {
        if !value.is_table() {
            return false;
        }
    }
    true
}

/// The groups that the key `groups` of a table names: without the key there are none, and `None` says
/// that it holds anything but an array of names of groups, or too many.
pub fn groups_in(heap: Heap, table: &Value) -> Result<Option<Groups>, Memory>
    ensures { IfOk result (λ groups. groups ≡ groups_at (get (codes "groups") (view table.now))) }
{
    let Some(value) = table.get("groups") else {
        return Ok(Some(Groups::none(heap)));
    };
    let Some(array) = value.as_array() else {
        return Ok(None);
    };
    let Some(names) = strings_in(heap, array)? else {
        return Ok(None);
    };
    match Groups::of_names(heap, &names) {
        Ok(groups) => Ok(Some(groups)),
        Err(GroupsError::Memory) => Err(Memory),
        Err(_) => Ok(None),
    }
}

/// The strings of an array that holds nothing else.
fn strings_in(heap: Heap, array: &Array) -> Result<Option<Vec<&str>>, Memory>
    ensures { IfOk result
        (λ texts. option_map (λ found. texts_of found.items) texts
        ≡ strings_in (array_view array.now)) }
{
    let mut texts = Vec::with_capacity(heap, array.len())?;
    for value in array {
        let Some(text) = value.as_str() else {
            return Ok(None);
        };
        texts.push(text)?;
    }
    Ok(Some(texts))
}
