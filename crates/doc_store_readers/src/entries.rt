//! The reader entries of a TOML document.

ghost use Rattle.std.specs.Prelude.{◌≡◌, ◌≢◌, [], Some, Ok, Err, IfOk, IfErr, MatchResult, codes};
ghost use Rattle.toml.specs.Data.{get};
ghost use Rattle.toml.specs.View.{items_view, table_view, view};
ghost use Rattle.doc_store_readers.specs.Readers.{entries_from, entries_of, entry_of, owner_at, tables_in};

use crate::keys::{Key, key_in};
use crate::reader::Reader;
use crate::readers::ReadersError;
use crate::tables::{groups_in, tables_at};
use doc_page_parts::failure::Memory;
use doc_page_parts::heap::{Heap, Vec};
use doc_page_parts::list::List;
use toml::{Table, Value};

/// A reader entry: a key with its reader.
#[derive(Drop)]
pub struct Entry {
    pub key: Key,
    pub reader: Reader,
}

/// The reader entries of a document.
pub fn entries_of(heap: Heap, document: &Table) -> Result<List<Entry>, ReadersError>
    ensures read { IfOk result
        (λ entries. entries_of (tables_in (Some (table_view document.now))) ≡ Ok entries) }
    ensures refused { IfErr result
        (λ e. e ≢ ReadersError.Memory
        → entries_of (tables_in (Some (table_view document.now))) ≡ Err e) }
{
    let tables = tables_of(document)?;
    entries_of_tables(heap, tables)
}

/// The tables of the readers.
fn tables_of(document: &Table) -> Result<&[Value], ReadersError>
    ensures { MatchResult result
        (λ tables. tables_in (Some (table_view document.now)) ≡ Ok (items_view tables.now))
        (λ e. tables_in (Some (table_view document.now)) ≡ Err e) }
{
    match tables_at(document, "reader") {
        Some(tables) => Ok(tables),
        None => Err(ReadersError::BadToml),
    }
}

/// The reader entries of tables.
fn entries_of_tables(heap: Heap, tables: &[Value]) -> Result<List<Entry>, ReadersError>
    ensures read { IfOk result (λ entries. entries_from [] 1 (items_view tables.now) ≡ Ok entries) }
    ensures refused { IfErr result
        (λ e. e ≢ ReadersError.Memory → entries_from [] 1 (items_view tables.now) ≡ Err e) }
{
    let mut entries = Vec::with_capacity(heap, tables.len()).map_err(Memory::from)?;
    for (index, table) in tables.iter().enumerate() {
        let Some(entry) = entry_of(heap, table)? else {
            return Err(ReadersError::BadRow(index + 1));
        };
        entries.push(entry).map_err(Memory::from)?;
    }
    Ok(List::new(entries))
}

/// The reader entry that a table is.
fn entry_of(heap: Heap, table: &Value) -> Result<Option<Entry>, Memory>
    ensures { IfOk result (λ entry. entry ≡ entry_of (view table.now)) }
{
    let Some(key) = key_in(heap, table)? else {
        return Ok(None);
    };
    let Some(owner) = owner_in(table) else {
        return Ok(None);
    };
    let Some(groups) = groups_in(heap, table)? else {
        return Ok(None);
    };
    Ok(Some(Entry {
        key,
        reader: Reader { owner, groups },
    }))
}

fn owner_in(table: &Value) -> Option<bool>
    ensures { result ≡ owner_at (get (codes "owner") (view table.now)) }
{
    match table.get("owner") {
        None => Some(false),
        Some(value) => value.as_bool(),
    }
}
