//! What a document tells.

ghost use Rattle.std.specs.Prelude.{◌≡◌, ◌++◌, IfOk, OnOk};
ghost use Rattle.toml.specs.View.{table_view};
ghost use Rattle.doc_server_lint.specs.Faults.{faults_of};
ghost use Rattle.doc_server_lint.specs.Findings.{findings_of};
ghost use Rattle.doc_server_lint.specs.Warnings.{warnings_of, warnings_of_rows};

use crate::faults::push_faults;
use crate::held_groups::held_groups;
use crate::page_warnings::{push_warnings_of_folders, push_warnings_of_pages};
use crate::reader_warnings::{owners_warning, push_warnings_of_readers};
use crate::rows::Rows;
use doc_page_parts::failure::Memory;
use doc_page_parts::heap::{Heap, Vec};
use doc_page_parts::list::List;
use doc_server_lint_faults::finding::Finding;
use doc_server_lint_faults::place::Place;
use doc_server_lint_faults::rule::TOP_KEYS;
use doc_server_lint_faults::table_faults::push_told;
use doc_server_lint_faults::tables::rows_at;
use doc_server_lint_faults::unknown::push_unknown_keys;
use toml::Table;

/// What a document tells: its faults, then what in it may be meant otherwise, each in the order of places.
pub fn findings(heap: Heap, document: &Table) -> Result<List<Finding>, Memory>
    ensures { IfOk result (λ found. found ≡ findings_of (table_view document.now)) }
{
    let mut found = Vec::new(heap);
    push_faults(heap, &mut found, document)?;
    push_warnings(heap, &mut found, document)?;
    Ok(List::new(found))
}

/// The faults of a document alone.
pub fn faults(heap: Heap, document: &Table) -> Result<List<Finding>, Memory>
    ensures { IfOk result (λ found. found ≡ faults_of (table_view document.now)) }
{
    let mut found = Vec::new(heap);
    push_faults(heap, &mut found, document)?;
    Ok(List::new(found))
}

fn push_warnings(heap: Heap, found: &mut Vec<Finding>, document: &Table) -> Result<(), Memory>
    ensures { OnOk result
        (found.new.items ≡ found.old.items ++ warnings_of (table_view document.now)) }
{
    push_unknown_keys(heap, found, false, Place::Document, TOP_KEYS, document)?;
    let owners = owners_warning(rows_at(document, "reader"));
    push_told(heap, found, false, Place::Document, None, owners)?;
    let held = held_groups(heap, document)?;
    push_warnings_of_rows(heap, found, &held, document)
}

/// Adds what is told of the rows of a document, where readers and guests have these groups.
fn push_warnings_of_rows(
    heap: Heap,
    found: &mut Vec<Finding>,
    held: &Rows,
    document: &Table,
) -> Result<(), Memory>
    ensures { OnOk result (found.new.items ≡ found.old.items
        ++ warnings_of_rows held.now (table_view document.now)) }
{
    push_warnings_of_readers(heap, found, rows_at(document, "reader"))?;
    push_warnings_of_pages(heap, found, held, rows_at(document, "page"))?;
    push_warnings_of_folders(heap, found, held, rows_at(document, "folder"))
}
