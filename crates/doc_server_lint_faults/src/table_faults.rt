//! The faults of one table.

ghost use Rattle.std.specs.Prelude.{◌≡◌, ◌++◌, true, Some, OnOk, option_copied, option_map};
ghost use Rattle.toml.specs.Data.{get, get_member};
ghost use Rattle.toml.specs.View.{table_view, view};
ghost use Rattle.doc_server_lint_faults.specs.TableFaults.{faults_of_closed, faults_of_held, faults_of_keys, finding_of};
ghost use Rattle.doc_server_lint_faults.specs.Rules.{keys_of};
ghost use Rattle.doc_server_lint_faults.specs.Values.{key_fault};

use crate::finding::{Finding, push};
use crate::place::Place;
use crate::rule::Rule;
use crate::unknown::push_unknown_in;
use crate::value_fault::{missing_fault, value_fault};
use crate::what::What;
use doc_page_parts::failure::Memory;
use doc_page_parts::heap::{Heap, Vec};
use doc_page_parts::text::Text;
use doc_server_config::table::value_at;
use toml::{Table, Value};

/// Adds the faults of the keys of a document.
pub fn push_faults_of_document(
    heap: Heap,
    found: &mut Vec<Finding>,
    document: &Table,
    keys: &[(&str, Rule)],
) -> Result<(), Memory>
    ensures { OnOk result (found.new.items ≡ found.old.items
        ++ faults_of_keys Place.Document (keys_of keys.now)
        (λ key. get_member key (table_view document.now))) }
{
    for (key, rule) in keys {
        let value = value_at(document, *key);
        push_fault_of_key(heap, found, Place::Document, *key, *rule, value)?;
    }
    Ok(())
}

/// Adds the faults of a table that has these keys alone, where the document has it.
pub fn push_faults_of_held(
    heap: Heap,
    found: &mut Vec<Finding>,
    place: Place,
    keys: &[(&str, Rule)],
    value: Option<&Value>,
) -> Result<(), Memory>
    ensures { OnOk result (found.new.items ≡ found.old.items
        ++ faults_of_held place (keys_of keys.now) (option_map (λ value. view value.now) value.entry)) }
{
    match value {
        Some(value) => push_faults_of_closed(heap, found, place, keys, value),
        None => Ok(()),
    }
}

/// Adds the faults of a table that has these keys alone.
pub(crate) fn push_faults_of_closed(
    heap: Heap,
    found: &mut Vec<Finding>,
    place: Place,
    keys: &[(&str, Rule)],
    table: &Value,
) -> Result<(), Memory>
    ensures { OnOk result (found.new.items ≡ found.old.items
        ++ faults_of_closed place (keys_of keys.now) (view table.now)) }
{
    push_unknown_in(heap, found, true, place, keys, table)?;
    push_faults_of_keys(heap, found, place, keys, table)
}

/// Adds the faults of the keys of a table.
pub fn push_faults_of_keys(
    heap: Heap,
    found: &mut Vec<Finding>,
    place: Place,
    keys: &[(&str, Rule)],
    table: &Value,
) -> Result<(), Memory>
    ensures { OnOk result (found.new.items ≡ found.old.items
        ++ faults_of_keys place (keys_of keys.now) (λ key. get key (view table.now))) }
{
    for (key, rule) in keys {
        push_fault_of_key(heap, found, place, *key, *rule, table.get(*key))?;
    }
    Ok(())
}

/// Adds the fault of what a key holds.
pub fn push_fault_of_key(
    heap: Heap,
    found: &mut Vec<Finding>,
    place: Place,
    key: &str,
    rule: Rule,
    value: Option<&Value>,
) -> Result<(), Memory>
    ensures { OnOk result (found.new.items ≡ found.old.items
        ++ finding_of true place (Some key.now)
        (key_fault rule (option_map (λ value. view value.now) value.entry))) }
{
    let what = match value {
        Some(value) => value_fault(heap, rule, value)?,
        None => missing_fault(rule),
    };
    push_told(heap, found, true, place, Some(key), what)
}

/// Adds what is told of a place, if anything is.
pub fn push_told(
    heap: Heap,
    found: &mut Vec<Finding>,
    is_fault: bool,
    place: Place,
    key: Option<&str>,
    what: Option<What>,
) -> Result<(), Memory>
    ensures { OnOk result (found.new.items ≡ found.old.items
        ++ finding_of is_fault place (option_copied key.entry) what) }
{
    let Some(what) = what else {
        return Ok(());
    };
    let key = match key {
        Some(key) => Some(Text::copy_of(heap, key)?),
        None => None,
    };
    push(
        found,
        Finding {
            place,
            key,
            what,
            is_fault,
        },
    )
}
