//! A finding as it is printed.

ghost use Rattle.std.specs.Prelude.{◌≡◌, ◌++◌, [], OnOk, codes, option_copied, string_bytes};
ghost use Rattle.doc_server_lint.specs.Lines.{finding_line, key_text, line_text, name_text, numbered, place_text, warning_text, what_text};

use crate::printed::{push_named, push_numbered};
use crate::what_text::push_what;
use doc_page_parts::failure::Memory;
use doc_page_parts::heap::String;
use doc_page_parts::text::Text;
use doc_server_lint_faults::finding::Finding;
use doc_server_lint_faults::place::Place;
use doc_server_lint_faults::what::What;

/// Writes the line of a finding in a file, as `site.toml:7: reader 2: ..`, where the line and the name of its row can be told.
pub fn push_finding(
    out: &mut String,
    file: &str,
    line: Option<usize>,
    name: Option<&str>,
    finding: &Finding,
) -> Result<(), Memory>
    ensures { OnOk result (string_bytes out.new ≡ string_bytes out.old
        ++ finding_line file.now line (option_copied name.entry) finding.now) }
{
    out.push_str(file)?;
    push_line(out, line)?;
    out.push_str(": ")?;
    push_place(out, name, finding.place)?;
    push_warning(out, finding.is_fault)?;
    push_told(out, &finding.key, &finding.what)?;
    out.push_str("\n")?;
    Ok(())
}

/// Writes what is told of a key, or of a table.
fn push_told(out: &mut String, key: &Option<Text>, what: &What) -> Result<(), Memory>
    ensures { OnOk result (string_bytes out.new
        ≡ string_bytes out.old ++ what_text (key_text key.now) what.now) }
{
    match key {
        Some(key) => push_what(out, key.get(), what),
        None => push_what(out, "", what),
    }
}

fn push_line(out: &mut String, line: Option<usize>) -> Result<(), Memory>
    ensures { OnOk result (string_bytes out.new ≡ string_bytes out.old ++ line_text line) }
{
    match line {
        Some(line) => push_numbered(out, ":", line, ""),
        None => Ok(()),
    }
}

/// Writes a place, where the row has this name.
fn push_place(out: &mut String, name: Option<&str>, place: Place) -> Result<(), Memory>
    ensures { OnOk result (string_bytes out.new
        ≡ string_bytes out.old ++ place_text (option_copied name.entry) place) }
{
    match place {
        Place::Document => Ok(()),
        Place::Markdown => Ok(out.push_str("[markdown]: ")?),
        Place::Listen => Ok(out.push_str("[listen]: ")?),
        Place::Browse => Ok(out.push_str("[browse]: ")?),
        Place::Reader(row) => push_row(out, "reader ", row, name),
        Place::Page(row) => push_row(out, "page ", row, name),
        Place::Folder(row) => push_row(out, "folder ", row, name),
    }
}

fn push_row(out: &mut String, table: &str, row: usize, name: Option<&str>) -> Result<(), Memory>
    ensures { OnOk result (string_bytes out.new ≡ string_bytes out.old
        ++ (numbered table.now row [] ++ name_text (option_copied name.entry) ++ codes ": ")) }
{
    push_numbered(out, table, row, "")?;
    push_name(out, name)?;
    out.push_str(": ")?;
    Ok(())
}

fn push_name(out: &mut String, name: Option<&str>) -> Result<(), Memory>
    ensures { OnOk result
        (string_bytes out.new ≡ string_bytes out.old ++ name_text (option_copied name.entry)) }
{
    match name {
        Some(name) => push_named(out, " (", name, ")"),
        None => Ok(()),
    }
}

fn push_warning(out: &mut String, is_fault: bool) -> Result<(), Memory>
    ensures { OnOk result (string_bytes out.new ≡ string_bytes out.old ++ warning_text is_fault) }
{
    if is_fault {
        return Ok(());
    }
    out.push_str("warning: ")?;
    Ok(())
}
