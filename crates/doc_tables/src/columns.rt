//! Where a table begins.
ghost use Rattle.std.specs.Prelude.{◌≡◌, IfOk, chars, length, option_map};
ghost use Rattle.std.specs.Option.{is_some};
ghost use Rattle.doc_tables.specs.ColumnSteps.{columns_of, columns_with, may_delimit};
ghost use Rattle.doc_rules.specs.Tables.{cells_of_line};

use crate::alignment::alignment_of;
use crate::cells::{Cells, has_cells, next_cell};
use doc_lines::scan::character::next_char;
use doc_page_parts::failure::Memory;
use doc_page_parts::heap::{Heap, Vec};
use doc_rules::alignment::Alignment;

/// How many columns a table may have. The number is this project's choice.
const MOST: usize = 100;

/// Whether a table begins with this header and this delimiter row. Both lines have lost the spaces and tabs at their fronts.
pub fn begins_table(header: &str, delimiters: &str) -> bool
    ensures { result ≡ is_some (columns_with (chars header.now) (chars delimiters.now)) }
{
    match delimiter_cells(delimiters) {
        Some(count) => has_cells(header, count),
        None => false,
    }
}

/// How many columns a delimiter row says, or `None` of another line: 1 to 100. Most lines are told by their first character.
pub(crate) fn delimiter_cells(line: &str) -> Option<usize>
    ensures { result ≡ option_map length (columns_of (cells_of_line (chars line.now))) }
{
    if !may_delimit(line) {
        return None;
    }
    let mut count = 0;
    let mut cells = Cells::of(line);
    'cells: while let Some((cell, rest)) = next_cell(cells) {
        if count == MOST {
            return None;
        }
        let Some(_) = alignment_of(cell.source) else {
            return None;
        };
        count += 1;
        cells = rest;
    }
    if count == 0 {
        return None;
    }
    Some(count)
}

/// Whether the line begins as a delimiter row may.
fn may_delimit(line: &str) -> bool
    ensures { result ≡ may_delimit (chars line.now) }
{
    match next_char(line) {
        Some((c, _)) => matches!(c, '|' | ':' | '-' | ' ' | '\t'),
        None => false,
    }
}

/// The columns that a delimiter row says, or `None` of another line.
pub fn delimiter_columns(heap: Heap, line: &str) -> Result<Option<Vec<Alignment>>, Memory>
    ensures { IfOk result (λ columns. option_map (λ list. list.items) columns
        ≡ columns_of (cells_of_line (chars line.now))) }
{
    let mut columns = Vec::new(heap);
    let mut cells = Cells::of(line);
    'cells: while let Some((cell, rest)) = next_cell(cells) {
        if columns.len() == MOST {
            return Ok(None);
        }
        let Some(alignment) = alignment_of(cell.source) else {
            return Ok(None);
        };
        columns.push(alignment)?;
        cells = rest;
    }
    if columns.is_empty() {
        return Ok(None);
    }
    Ok(Some(columns))
}
