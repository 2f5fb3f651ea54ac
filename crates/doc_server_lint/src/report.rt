//! All findings, as they are printed.

ghost use Rattle.std.specs.Prelude.{◌≡◌, ◌++◌, IfOk, IfSome, OnOk, option_map, string_bytes};
ghost use Rattle.toml.specs.Data.{get_member};
ghost use Rattle.toml.specs.View.{table_view, view};
ghost use Rattle.doc_server_lint.specs.Lines.{finding_line};
ghost use Rattle.doc_server_lint.specs.Reports.{IsLine, IsReport, name_at, name_in, path_in, row_at};
ghost use Rattle.doc_server_lint_faults.specs.RowPlaces.{IsLineOf};

use crate::line::push_finding;
use crate::page_warnings::path_of;
use doc_page_parts::failure::Memory;
use doc_page_parts::heap::{Heap, String};
use doc_page_parts::text::Text;
use doc_server_config::reader_names::name_in;
use doc_server_config::table::value_at;
use doc_server_lint_faults::finding::Finding;
use doc_server_lint_faults::place::Place;
use doc_server_lint_faults::row_line::line_of_row;
use toml::{Table, Value};

/// How many lines are looked up: each takes the time to read the text up to it twice.
const LOOKS: usize = 20;

/// The lines of some findings in a file of this name, whose text is this document. Of the first 20 that are of a row the line is told,
/// where it can be.
pub fn report(
    heap: Heap,
    file: &str,
    text: &str,
    document: &Table,
    findings: &[Finding],
) -> Result<String, Memory>
    ensures { IfOk result (λ out. IsReport file.now text.now (table_view document.now)
        findings.now (string_bytes out)) }
{
    let mut out = String::new(heap);
    let mut looks = LOOKS;
    for finding in findings {
        let line = line_of_place(heap, text, finding.place, &mut looks);
        push_told(heap, &mut out, file, line, document, finding)?;
    }
    Ok(out)
}

/// Writes the line of a finding, where the line of its row can be told.
fn push_told(
    heap: Heap,
    out: &mut String,
    file: &str,
    line: Option<usize>,
    document: &Table,
    finding: &Finding,
) -> Result<(), Memory>
    ensures { OnOk result (string_bytes out.new ≡ string_bytes out.old
        ++ finding_line file.now line (name_at (table_view document.now) finding.now.place)
        finding.now) }
{
    match name_at(heap, document, finding.place)? {
        Some(name) => push_finding(out, file, line, Some(name.get()), finding),
        None => push_finding(out, file, line, None, finding),
    }
}

/// The line of a row, where it can be told and looks are left.
fn line_of_place(heap: Heap, text: &str, place: Place, looks: &mut usize) -> Option<usize>
    ensures { IsLine text.now place result }
{
    match place {
        Place::Reader(row) => look(heap, text, "reader", row, looks),
        Place::Page(row) => look(heap, text, "page", row, looks),
        Place::Folder(row) => look(heap, text, "folder", row, looks),
        _ => None,
    }
}

fn look(heap: Heap, text: &str, key: &str, row: usize, looks: &mut usize) -> Option<usize>
    ensures { IfSome result (IsLineOf key.now text.now row) }
{
    *looks = looks.checked_sub(1)?;
    line_of_row(heap, text, key, row)
}

/// The name of the row of a place.
fn name_at(heap: Heap, document: &Table, place: Place) -> Result<Option<Text>, Memory>
    ensures { IfOk result (λ name. name ≡ name_at (table_view document.now) place) }
{
    match place {
        Place::Reader(row) => name_of_reader(heap, row_at(document, "reader", row)),
        Place::Page(row) => path_of_page(heap, row_at(document, "page", row)),
        _ => Ok(None),
    }
}

/// The row of this number of what a document holds under a key.
fn row_at<'a>(document: &'a Table, key: &str, row: usize) -> Option<&'a Value>
    ensures { option_map (λ one. view one.now) result
        ≡ row_at row (get_member key.now (table_view document.now)) }
{
    value_at(document, key)?.get(row.saturating_sub(1))
}

fn name_of_reader(heap: Heap, reader: Option<&Value>) -> Result<Option<Text>, Memory>
    ensures { IfOk result
        (λ name. name ≡ name_in (option_map (λ one. view one.now) reader.entry)) }
{
    let Some(reader) = reader else {
        return Ok(None);
    };
    match name_in(reader) {
        Some(name) => Ok(Some(Text::copy_of(heap, name)?)),
        None => Ok(None),
    }
}

fn path_of_page(heap: Heap, page: Option<&Value>) -> Result<Option<Text>, Memory>
    ensures { IfOk result
        (λ path. path ≡ path_in (option_map (λ one. view one.now) page.entry)) }
{
    match page {
        Some(page) => path_of(heap, page),
        None => Ok(None),
    }
}
