//! The names that a configuration gives its readers.

ghost use Rattle.std.specs.Prelude.{◌≡◌, Some, codes, option_copied};
ghost use Rattle.toml.specs.Data.{get};
ghost use Rattle.toml.specs.View.{items_view, table_view, view};
ghost use Rattle.doc_server_config.specs.ReaderNames.{bad_name_from, bad_name_in, good_name, has_good_name, name_at};

use doc_server_names::reader_name::is_name;
use doc_store_readers::tables::tables_at;
use toml::{Table, Value};

/// The number of the first reader whose `name` is none, from 1 on.
pub(crate) fn bad_name_in(document: &Table) -> Option<usize>
    ensures { result ≡ bad_name_in (table_view document.now) }
{
    match tables_at(document, "reader") {
        Some(rows) => first_bad_name(rows),
        None => None,
    }
}

fn first_bad_name(rows: &[Value]) -> Option<usize>
    ensures { result ≡ bad_name_from 1 (items_view rows.now) }
{
    for (index, row) in rows.iter().enumerate() {
        if !has_good_name(row) {
            return Some(index + 1);
        }
    }
    None
}

/// Whether the row of a reader has a `name` that is one, or none.
fn has_good_name(row: &Value) -> bool
    ensures { result ≡ has_good_name (view row.now) }
{
    match row.get("name") {
        Some(value) => name_of(value).is_some(),
        None => true,
    }
}

/// The name that the row of a reader has, where it has a good one.
pub fn name_in(row: &Value) -> Option<&str>
    ensures { option_copied result ≡ name_at (get (codes "name") (view row.now)) }
{
    name_of(row.get("name")?)
}

/// The name that a value is.
fn name_of(value: &Value) -> Option<&str>
    ensures { option_copied result ≡ name_at (Some (view value.now)) }
{
    good_name(value.as_str()?)
}

/// A text, where it is a name.
fn good_name(text: &str) -> Option<&str>
    ensures { option_copied result ≡ good_name text.now }
{
    if is_name(text.as_bytes()) {
        Some(text)
    } else {
        None
    }
}
