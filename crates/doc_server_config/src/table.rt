//! Tables of a TOML document.

ghost use Rattle.std.specs.Prelude.{◌≡◌, option_map};
ghost use Rattle.toml.specs.Data.{get_member};
ghost use Rattle.toml.specs.View.{table_view, view};
ghost use Rattle.doc_store_readers.specs.Groups.{texts_of};
ghost use Rattle.doc_server_config.specs.Keys.{has_only, is_one_of};

use toml::{Table, Value};

/// What a key of a table holds.
pub fn value_at<'a>(table: &'a Table, key: &str) -> Option<&'a Value>
    ensures { option_map (λ value. view value.now) result
        ≡ get_member key.now (table_view table.now) }
{
    table.get(key)
}

/// Whether a table has none but these keys.
pub fn has_only(table: &Table, keys: &[&str]) -> bool
    ensures { result ≡ has_only (texts_of keys.now) (table_view table.now) }
{
    for key in table.keys() {
        if !is_one_of(key.as_str(), keys) {
            return false;
        }
    }
    true
}

/// Whether a key is one of some.
pub(crate) fn is_one_of(key: &str, keys: &[&str]) -> bool
    ensures { result ≡ is_one_of (texts_of keys.now) key.now }
{
    for one in keys {
        if key == *one {
            return true;
        }
    }
    false
}
