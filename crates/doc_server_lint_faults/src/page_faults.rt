//! The faults of pages.

ghost use Rattle.std.specs.Prelude.{◌≡◌, ◌++◌, OnOk, codes};
ghost use Rattle.toml.specs.Data.{get};
ghost use Rattle.toml.specs.View.{items_view, view};
ghost use Rattle.doc_server_lint_faults.specs.TableFaults.{faults_of_page, faults_of_pages, source_fault};

use crate::finding::Finding;
use crate::place::Place;
use crate::rule::PAGE_KEYS;
use crate::table_faults::{push_faults_of_keys, push_told};
use crate::what::What;
use doc_page_parts::failure::Memory;
use doc_page_parts::heap::{Heap, Vec};
use toml::Value;

/// Adds the faults of all pages.
pub fn push_faults_of_pages(
    heap: Heap,
    found: &mut Vec<Finding>,
    rows: &[Value],
) -> Result<(), Memory>
    ensures { OnOk result (found.new.items ≡ found.old.items
        ++ faults_of_pages 1 (items_view rows.now)) }
{
    for (index, row) in rows.iter().enumerate() {
        push_faults_of_page(heap, found, index + 1, row)?;
    }
    Ok(())
}

/// Adds the faults of a page.
fn push_faults_of_page(
    heap: Heap,
    found: &mut Vec<Finding>,
    number: usize,
    row: &Value,
) -> Result<(), Memory>
    ensures { OnOk result (found.new.items ≡ found.old.items
        ++ faults_of_page number (view row.now)) }
{
    push_faults_of_keys(heap, found, Place::Page(number), PAGE_KEYS, row)?;
    push_told(
        heap,
        found,
        true,
        Place::Page(number),
        None,
        source_fault(row),
    )
}

/// What is wrong with the sources of a page.
fn source_fault(row: &Value) -> Option<What>
    ensures { result ≡ source_fault (get (codes "text") (view row.now))
        (get (codes "file") (view row.now)) }
{
    match (row.get("text"), row.get("file")) {
        (None, None) => Some(What::NoSource),
        (Some(_), Some(_)) => Some(What::TwoSources),
        _ => None,
    }
}
