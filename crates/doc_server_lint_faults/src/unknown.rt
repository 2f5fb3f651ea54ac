//! Keys that no command knows.

ghost use Rattle.std.specs.Prelude.{◌≡◌, ◌++◌, IfOk, OnOk, option_copied, option_map, string_bytes};
ghost use Rattle.toml.specs.View.{table_view, view};
ghost use Rattle.doc_store_readers.specs.Groups.{texts_of};
ghost use Rattle.doc_server_config.specs.Keys.{is_one_of};
ghost use Rattle.doc_server_lint_faults.specs.Rules.{keys_of, names_of};
ghost use Rattle.doc_server_lint_faults.specs.Unknown.{alone, distance, keys_at, meant, nearest, unknown_in, unknown_key, unknown_keys};

use crate::finding::{Finding, push};
use crate::place::Place;
use crate::rule::Rule;
use crate::what::What;
use doc_page_parts::failure::Memory;
use doc_page_parts::heap::{Heap, Vec};
use doc_page_parts::text::Text;
use strsim::levenshtein;
use toml::{Table, Value};

/// Adds what is told of the keys of a value that may be a table.
pub fn push_unknown_in(
    heap: Heap,
    found: &mut Vec<Finding>,
    is_fault: bool,
    place: Place,
    known: &[(&str, Rule)],
    value: &Value,
) -> Result<(), Memory>
    ensures { OnOk result (found.new.items ≡ found.old.items
        ++ unknown_in is_fault place (names_of (keys_of known.now)) (view value.now)) }
{
    match value.as_table() {
        Some(table) => push_unknown_keys(heap, found, is_fault, place, known, table),
        None => Ok(()),
    }
}

/// Adds what is told of the keys of a table.
pub fn push_unknown_keys(
    heap: Heap,
    found: &mut Vec<Finding>,
    is_fault: bool,
    place: Place,
    known: &[(&str, Rule)],
    table: &Table,
) -> Result<(), Memory>
    ensures { OnOk result (found.new.items ≡ found.old.items
        ++ unknown_keys is_fault place (names_of (keys_of known.now)) (table_view table.now)) }
{
    for key in table.keys() {
        push_unknown_key(heap, found, is_fault, place, known, key.as_str())?;
    }
    Ok(())
}

/// Adds what is told of a key, where it isn't known.
fn push_unknown_key(
    heap: Heap,
    found: &mut Vec<Finding>,
    is_fault: bool,
    place: Place,
    known: &[(&str, Rule)],
    key: &str,
) -> Result<(), Memory>
    ensures { OnOk result (found.new.items ≡ found.old.items
        ++ unknown_key is_fault place (names_of (keys_of known.now)) key.now) }
{
    if is_known(known, key) {
        return Ok(());
    }
    let finding = Finding {
        place,
        key: Some(Text::copy_of(heap, key)?),
        what: What::Unknown(meant(heap, known, key)?),
        is_fault,
    };
    push(found, finding)
}

fn is_known(known: &[(&str, Rule)], key: &str) -> bool
    ensures { result ≡ is_one_of (names_of (keys_of known.now)) key.now }
{
    for (name, _) in known {
        if key == *name {
            return true;
        }
    }
    false
}

/// The known key that may be meant by another one.
fn meant(heap: Heap, known: &[(&str, Rule)], key: &str) -> Result<Option<Text>, Memory>
    ensures { IfOk result (λ other. other ≡ meant (names_of (keys_of known.now)) key.now) }
{
    let near = keys_at(heap, 1, known, key)?;
    if near.is_empty() {
        return alone(heap, &keys_at(heap, 2, known, key)?);
    }
    alone(heap, &near)
}

/// The one of some keys, where there is one alone.
fn alone(heap: Heap, keys: &[&str]) -> Result<Option<Text>, Memory>
    ensures { IfOk result (λ key. key ≡ alone (texts_of keys.now)) }
{
    match keys {
        [key] => Ok(Some(Text::copy_of(heap, *key)?)),
        _ => Ok(None),
    }
}

/// The known keys at a distance from a key.
fn keys_at<'a>(
    heap: Heap,
    far: usize,
    known: &[(&'a str, Rule)],
    key: &str,
) -> Result<Vec<&'a str>, Memory>
    ensures { IfOk result (λ keys.
        texts_of keys.items ≡ keys_at far (names_of (keys_of known.now)) key.now) }
{
    let mut keys = Vec::new(heap);
    for (name, _) in known {
        if levenshtein(heap, key, *name)? == far {
            keys.push(*name)?;
        }
    }
    Ok(keys)
}
