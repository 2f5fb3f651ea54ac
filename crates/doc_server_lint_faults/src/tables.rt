//! Arrays of tables.

ghost use Rattle.std.specs.Prelude.{◌≡◌};
ghost use Rattle.toml.specs.View.{items_view, table_view};
ghost use Rattle.doc_store_readers.specs.Readers.{are_tables};
ghost use Rattle.doc_server_lint_faults.specs.TableFaults.{rows_at};

use doc_store_readers::tables::tables_at;
use toml::{Table, Value};

/// Whether there are tables alone.
pub(crate) fn are_tables(values: &[Value]) -> bool
    ensures { result ≡ are_tables (items_view values.now) }
{
    for value in values {
        if !value.is_table() {
            return false;
        }
    }
    true
}

/// The rows of a key of a document. Where it holds anything but an array of tables there are none.
pub fn rows_at<'a>(document: &'a Table, key: &str) -> &'a [Value]
    ensures { items_view result.now ≡ rows_at key.now (table_view document.now) }
{
    match tables_at(document, key) {
        Some(rows) => rows,
        None => &[],
    }
}
