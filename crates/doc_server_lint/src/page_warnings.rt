//! What of pages and folders may be meant otherwise.

ghost use Rattle.std.specs.Prelude.{◌≡◌, ◌++◌, IfOk, OnOk, codes};
ghost use Rattle.std.specs.FinMap as map;
ghost use Rattle.toml.specs.Data.{get};
ghost use Rattle.toml.specs.View.{items_view, view};
ghost use Rattle.doc_server_config.specs.PageRows.{path_at};
ghost use Rattle.doc_server_lint.specs.Faults.{with_row};
ghost use Rattle.doc_server_lint.specs.Warnings.{warnings_of_folders, warnings_of_page, warnings_of_pages};

use crate::held_groups::push_unheld_groups;
use crate::rows::Rows;
use doc_page_parts::failure::Memory;
use doc_page_parts::heap::{Heap, Vec};
use doc_page_parts::text::Text;
use doc_server_lint_faults::finding::Finding;
use doc_server_lint_faults::place::Place;
use doc_server_lint_faults::rule::PAGE_KEYS;
use doc_server_lint_faults::table_faults::push_told;
use doc_server_lint_faults::unknown::push_unknown_in;
use doc_server_lint_faults::value_fault::is_path;
use doc_server_lint_faults::what::What;
use toml::Value;

/// Adds what is told of each page, where readers and guests have these groups.
pub(crate) fn push_warnings_of_pages(
    heap: Heap,
    found: &mut Vec<Finding>,
    held: &Rows,
    rows: &[Value],
) -> Result<(), Memory>
    ensures { OnOk result (found.new.items ≡ found.old.items
        ++ warnings_of_pages held.now map.empty 1 (items_view rows.now)) }
{
    let mut paths = Rows::none(heap);
    for (index, row) in rows.iter().enumerate() {
        push_warnings_of_page(heap, found, held, &mut paths, index + 1, row)?;
    }
    Ok(())
}

/// Adds what is told of a page, and its path to those of the pages before it.
fn push_warnings_of_page(
    heap: Heap,
    found: &mut Vec<Finding>,
    held: &Rows,
    paths: &mut Rows,
    number: usize,
    row: &Value,
) -> Result<(), Memory>
    ensures warnings { OnOk result (found.new.items ≡ found.old.items
        ++ warnings_of_page held.now paths.old number (view row.now)) }
    ensures paths { OnOk result
        (paths.new ≡ with_row paths.old (path_at (get (codes "path") (view row.now))) number) }
{
    let place = Place::Page(number);
    push_unknown_in(heap, found, false, place, PAGE_KEYS, row)?;
    push_unheld_groups(heap, found, held, place, row)?;
    let Some(path) = path_of(heap, row)? else {
        return Ok(());
    };
    let what = match paths.row_of(&path) {
        Some(earlier) => Some(What::Covers(earlier)),
        None => None,
    };
    push_told(heap, found, false, place, Some("path"), what)?;
    paths.insert(path, number)
}

/// The path of a page, where it is one.
pub(crate) fn path_of(heap: Heap, row: &Value) -> Result<Option<Text>, Memory>
    ensures { IfOk result (λ path. path ≡ path_at (get (codes "path") (view row.now))) }
{
    let Some(value) = row.get("path") else {
        return Ok(None);
    };
    let Some(text) = value.as_str() else {
        return Ok(None);
    };
    if !is_path(heap, text)? {
        return Ok(None);
    }
    Ok(Some(Text::copy_of(heap, text)?))
}

/// Adds what is told of each folder, where readers and guests have these groups.
pub(crate) fn push_warnings_of_folders(
    heap: Heap,
    found: &mut Vec<Finding>,
    held: &Rows,
    rows: &[Value],
) -> Result<(), Memory>
    ensures { OnOk result (found.new.items ≡ found.old.items
        ++ warnings_of_folders held.now 1 (items_view rows.now)) }
{
    for (index, row) in rows.iter().enumerate() {
        push_unheld_groups(heap, found, held, Place::Folder(index + 1), row)?;
    }
    Ok(())
}
