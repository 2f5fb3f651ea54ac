//! The faults of a document.

ghost use Rattle.std.specs.Prelude.{◌≡◌, ◌++◌, OnOk};
ghost use Rattle.toml.specs.View.{table_view};
ghost use Rattle.doc_server_lint.specs.Faults.{faults_of, faults_of_rows, faults_of_tables};

use crate::reader_faults::push_faults_of_readers;
use doc_page_parts::failure::Memory;
use doc_page_parts::heap::{Heap, Vec};
use doc_server_config::table::value_at;
use doc_server_lint_faults::finding::Finding;
use doc_server_lint_faults::folder_faults::push_faults_of_folders;
use doc_server_lint_faults::page_faults::push_faults_of_pages;
use doc_server_lint_faults::place::Place;
use doc_server_lint_faults::rule::{BROWSE_KEYS, LISTEN_KEYS, MARKDOWN_KEYS, TOP_KEYS};
use doc_server_lint_faults::table_faults::{push_faults_of_document, push_faults_of_held};
use doc_server_lint_faults::tables::rows_at;
use toml::Table;

/// Adds the faults of a document.
pub(crate) fn push_faults(
    heap: Heap,
    found: &mut Vec<Finding>,
    document: &Table,
) -> Result<(), Memory>
    ensures { OnOk result
        (found.new.items ≡ found.old.items ++ faults_of (table_view document.now)) }
{
    push_faults_of_document(heap, found, document, TOP_KEYS)?;
    push_faults_of_tables(heap, found, document)?;
    push_faults_of_rows(heap, found, document)
}

fn push_faults_of_tables(
    heap: Heap,
    found: &mut Vec<Finding>,
    document: &Table,
) -> Result<(), Memory>
    ensures { OnOk result
        (found.new.items ≡ found.old.items ++ faults_of_tables (table_view document.now)) }
{
    let markdown = value_at(document, "markdown");
    push_faults_of_held(heap, found, Place::Markdown, MARKDOWN_KEYS, markdown)?;
    let listen = value_at(document, "listen");
    push_faults_of_held(heap, found, Place::Listen, LISTEN_KEYS, listen)?;
    let browse = value_at(document, "browse");
    push_faults_of_held(heap, found, Place::Browse, BROWSE_KEYS, browse)
}

fn push_faults_of_rows(heap: Heap, found: &mut Vec<Finding>, document: &Table) -> Result<(), Memory>
    ensures { OnOk result
        (found.new.items ≡ found.old.items ++ faults_of_rows (table_view document.now)) }
{
    push_faults_of_readers(heap, found, rows_at(document, "reader"))?;
    push_faults_of_pages(heap, found, rows_at(document, "page"))?;
    push_faults_of_folders(heap, found, rows_at(document, "folder"))
}
