//! Tables as HTML (GitHub Flavored Markdown 0.29, section 4.10).
ghost use Rattle.std.specs.Prelude.{◌≡◌, ◌++◌, true, List, [], chars, codes, drop, length, IfOk, OnOk};
ghost use Rattle.doc_rules.specs.Definitions.{Definition};
ghost use Rattle.doc_rules.specs.Html.{align_attribute, cell_html, characters};
ghost use Rattle.doc_rules.specs.PlainTexts.{text_in};
ghost use Rattle.doc_rules.specs.Tables.{cells_of_line, text_lines};
ghost use Rattle.doc_lines.specs.RestSteps.{rest_of};
ghost use Rattle.doc_refs_parts.specs.Targets.{targets_of};
ghost use Rattle.doc_blocks_starts.specs.Tables.{columns_said, lines_in};
ghost use Rattle.doc_blocks_starts.specs.Tags.{table_shown};
ghost use Rattle.doc_tables.specs.CellSteps.{cell_text, cells_left, has_escaped_pipe};
ghost use Rattle.doc_html.specs.InlineSteps.{is_ascii};
ghost use Rattle.doc_html.specs.ProgressSteps.{Goes, Writes, text_met};
ghost use Rattle.doc_html.specs.TableSteps.{body_told, cell_told, cells_told, cut_cells, cut_rows, cut_told, row_told, rows_told};
ghost use Rattle.doc_html.specs.TableSteps.{table_told, IsCellStep};

use crate::inlines::push_marks;
use crate::reading::Source;
use crate::writer::{Writer, markup};
use doc_blocks_starts::table_lines::TableLines;
use doc_inlines::Reader;
use doc_page_parts::failure::Memory;
use doc_page_parts::heap::{Heap, Vec};
use doc_rules::alignment::Alignment;
use doc_tables::alignment::alignment_of;
use doc_tables::cells::{Cell, Cells, next_cell};
use doc_tables::lines::first_line;
use doc_tables::unescaping::unescaped;

/// Writes the table of these lines.
pub(crate) fn push_table<'d, W: Writer>(
    writer: &mut W,
    source: &Source<'d>,
    reader: &mut Reader<'d, 'd>,
    lines: &'d TableLines<'d>,
) -> Result<(), Memory>
    ensures { (definitions : List Definition) → source.now.refs.now ≡ targets_of definitions →
        OnOk result (Goes W.holds writer.old writer.new
        (table_told source.now.entities.now definitions (table_shown lines.now))) }
{
    let columns = columns_said(source.heap, lines.delimiters)?;
    let columns = columns.as_slice();
    writer.new_line()?;
    markup(writer, "<table>\n<thead>\n")?;
    push_header(writer, source, reader, columns, lines.header)?;
    markup(writer, "</thead>\n")?;
    push_body(writer, source, reader, columns, lines.rows)?;
    markup(writer, "</table>\n")?;
    Ok(())
}

/// Writes the header. A table has a column for each of its cells; where a line has more cells, their texts are met.
fn push_header<'d, W: Writer>(
    writer: &mut W,
    source: &Source<'d>,
    reader: &mut Reader<'d, 'd>,
    columns: &[Alignment],
    line: &'d str,
) -> Result<(), Memory>
    ensures { (definitions : List Definition) → source.now.refs.now ≡ targets_of definitions →
        OnOk result (Goes W.holds writer.old writer.new
        (row_told source.now.entities.now definitions (codes "th") columns.now
        (cells_of_line (chars line.now)))) }
{
    markup(writer, "<tr>\n")?;
    let rest = push_cells(writer, source, reader, "th", columns, line)?;
    meet_cells(writer, source, reader, rest)?;
    markup(writer, "</tr>\n")?;
    Ok(())
}

/// Meets the texts of cells that have no column.
fn meet_cells<'d, W: Writer>(
    writer: &mut W,
    source: &Source<'d>,
    reader: &mut Reader<'d, 'd>,
    cells: Cells<'d>,
) -> Result<(), Memory>
    ensures { (definitions : List Definition) → source.now.refs.now ≡ targets_of definitions →
        OnOk result (Goes W.holds writer.old writer.new
        (cells_told source.now.entities.now definitions (codes "th") [] (cells_left cells.entry))) }
{
    let mut left = cells;
    'cells: while let Some((cell, rest)) = next_cell(left) {
        let text = cell_text(source, cell)?;
        meet_cell(writer, source, reader, text)?;
        left = rest;
    }
    Ok(())
}

fn meet_cell<'d, W: Writer>(
    writer: &mut W,
    source: &Source<'d>,
    reader: &mut Reader<'d, 'd>,
    text: &'d str,
) -> Result<(), Memory>
    ensures { (definitions : List Definition) → source.now.refs.now ≡ targets_of definitions →
        OnOk result (Goes W.holds writer.old writer.new
        (text_met (text_in source.now.entities.now definitions (chars text.now)))) }
{
    reader.read(source.heap, source.entities, source.refs, text)?;
    writer.meet_paragraph(reader.marks())?;
    Ok(())
}

/// The columns that a delimiter row says. Another line says none.
fn columns_said(heap: Heap, delimiters: &str) -> Result<Vec<Alignment>, Memory>
    ensures { IfOk result (λ columns. columns.items ≡ columns_said (chars delimiters.now)) }
{
    let mut columns = Vec::new(heap);
    let mut cells = Cells::of(delimiters);
    'cells: while let Some((cell, rest)) = next_cell(cells) {
        let Some(alignment) = alignment_of(cell.source) else {
            return Ok(Vec::new(heap));
        };
        columns.push(alignment)?;
        cells = rest;
    }
    Ok(columns)
}

/// Writes the rows behind the header, where there are any.
fn push_body<'d, W: Writer>(
    writer: &mut W,
    source: &Source<'d>,
    reader: &mut Reader<'d, 'd>,
    columns: &[Alignment],
    rows: Option<&'d str>,
) -> Result<(), Memory>
    ensures { (definitions : List Definition) → source.now.refs.now ≡ targets_of definitions →
        OnOk result (Goes W.holds writer.old writer.new
        (body_told source.now.entities.now definitions columns.now
        (cut_rows columns.now (lines_in (rest_of rows.entry))))) }
{
    let Some(rows) = rows else {
        return Ok(());
    };
    markup(writer, "<tbody>\n")?;
    push_rows(writer, source, reader, columns, rows)?;
    markup(writer, "</tbody>\n")?;
    Ok(())
}

/// Writes a row for each line.
fn push_rows<'d, W: Writer>(
    writer: &mut W,
    source: &Source<'d>,
    reader: &mut Reader<'d, 'd>,
    columns: &[Alignment],
    rows: &'d str,
) -> Result<(), Memory>
    ensures { (definitions : List Definition) → source.now.refs.now ≡ targets_of definitions →
        OnOk result (Goes W.holds writer.old writer.new
        (rows_told source.now.entities.now definitions columns.now
        (cut_rows columns.now (text_lines (chars rows.now))))) }
{
    let mut left = Some(rows);
    'rows: while let Some(text) = left {
        let (line, behind) = first_line(text);
        push_row(writer, source, reader, columns, line)?;
        left = behind;
    }
    Ok(())
}

/// Writes a row.
fn push_row<'d, W: Writer>(
    writer: &mut W,
    source: &Source<'d>,
    reader: &mut Reader<'d, 'd>,
    columns: &[Alignment],
    line: &'d str,
) -> Result<(), Memory>
    ensures { (definitions : List Definition) → source.now.refs.now ≡ targets_of definitions →
        OnOk result (Goes W.holds writer.old writer.new
        (row_told source.now.entities.now definitions (codes "td") columns.now
        (cut_cells columns.now (chars line.now)))) }
{
    markup(writer, "<tr>\n")?;
    let _rest = push_cells(writer, source, reader, "td", columns, line)?;
    markup(writer, "</tr>\n")?;
    Ok(())
}

/// Writes a cell of this name in each column. Answers the cells that have none.
fn push_cells<'d, W: Writer>(
    writer: &mut W,
    source: &Source<'d>,
    reader: &mut Reader<'d, 'd>,
    name: &str,
    columns: &[Alignment],
    line: &'d str,
) -> Result<Cells<'d>, Memory>
    requires { is_ascii name.now ≡ true }
    ensures written { (definitions : List Definition)
        → source.now.refs.now ≡ targets_of definitions →
        OnOk result (Goes W.holds writer.old writer.new
        (cut_told source.now.entities.now definitions name.now columns.now
        (cells_of_line (chars line.now)))) }
    ensures rest { IfOk result (λ rest.
        cells_left rest ≡ drop (length columns.now) (cells_of_line (chars line.now))) }
{
    let mut cells = Cells::of(line);
    for column in columns {
        cells = push_next(writer, source, reader, name, *column, cells)?;
    }
    Ok(cells)
}

/// Writes the first of these cells, or an empty one where there is none; answers those behind it.
fn push_next<'d, W: Writer>(
    writer: &mut W,
    source: &Source<'d>,
    reader: &mut Reader<'d, 'd>,
    name: &str,
    column: Alignment,
    cells: Cells<'d>,
) -> Result<Cells<'d>, Memory>
    requires { is_ascii name.now ≡ true }
    ensures written { (definitions : List Definition)
        → source.now.refs.now ≡ targets_of definitions →
        IfOk result (λ rest. IsCellStep W.holds writer.old writer.new
        source.now.entities.now definitions name.now column (cells_left cells.entry)
        (cells_left rest)) }
    ensures rest { IfOk result (λ rest. cells_left rest ≡ drop 1 (cells_left cells.entry)) }
{
    let Some((cell, rest)) = next_cell(cells) else {
        push_empty(writer, name, column)?;
        return Ok(cells);
    };
    let text = cell_text(source, cell)?;
    push_cell(writer, source, reader, name, column, text)?;
    Ok(rest)
}

/// The text of a cell, where it stays.
fn cell_text<'d>(source: &Source<'d>, cell: Cell<'d>) -> Result<&'d str, Memory>
    requires { cell.is_escaped ≡ has_escaped_pipe (chars cell.source.now) }
    ensures { IfOk result (λ text. chars text.now ≡ cell_text cell.entry) }
{
    if !cell.is_escaped {
        return Ok(cell.source);
    }
    let text = unescaped(source.heap, cell.source)?;
    source.texts.keep(text.get())
}

/// Writes a cell, whose text is read by itself.
fn push_cell<'d, W: Writer>(
    writer: &mut W,
    source: &Source<'d>,
    reader: &mut Reader<'d, 'd>,
    name: &str,
    column: Alignment,
    text: &'d str,
) -> Result<(), Memory>
    requires { is_ascii name.now ≡ true }
    ensures { (definitions : List Definition) → source.now.refs.now ≡ targets_of definitions →
        OnOk result (Goes W.holds writer.old writer.new
        (cell_told source.now.entities.now definitions name.now column (chars text.now))) }
{
    reader.read(source.heap, source.entities, source.refs, text)?;
    let marks = reader.marks();
    writer.meet_paragraph(marks)?;
    begin_cell(writer, name, column)?;
    push_marks(writer, source.heap, marks)?;
    end_cell(writer, name)?;
    Ok(())
}

/// Writes a cell with nothing in it.
fn push_empty<W: Writer>(writer: &mut W, name: &str, column: Alignment) -> Result<(), Memory>
    requires { is_ascii name.now ≡ true }
    ensures { OnOk result (Writes W.holds writer.old writer.new (cell_html name.now column [])) }
{
    begin_cell(writer, name, column)?;
    end_cell(writer, name)?;
    Ok(())
}

fn begin_cell<W: Writer>(writer: &mut W, name: &str, column: Alignment) -> Result<(), Memory>
    requires { is_ascii name.now ≡ true }
    ensures { OnOk result (Writes W.holds writer.old writer.new
        (characters (codes "<" ++ name.now ++ align_attribute column ++ codes ">"))) }
{
    markup(writer, "<")?;
    markup(writer, name)?;
    push_alignment(writer, column)?;
    markup(writer, ">")?;
    Ok(())
}

fn end_cell<W: Writer>(writer: &mut W, name: &str) -> Result<(), Memory>
    requires { is_ascii name.now ≡ true }
    ensures { OnOk result (Writes W.holds writer.old writer.new
        (characters (codes "</" ++ name.now ++ codes ">\n"))) }
{
    markup(writer, "</")?;
    markup(writer, name)?;
    markup(writer, ">\n")?;
    Ok(())
}

/// Writes the attribute of a cell in this column.
#[tactic(auto, unfolding(doc_rules::specs::Html::align_attribute))]
fn push_alignment<W: Writer>(writer: &mut W, column: Alignment) -> Result<(), Memory>
    ensures { OnOk result (Writes W.holds writer.old writer.new
        (characters (align_attribute column))) }
{
    match column {
        Alignment::Default => Ok(()),
        Alignment::Left => markup(writer, " align=\"left\""),
        Alignment::Center => markup(writer, " align=\"center\""),
        Alignment::Right => markup(writer, " align=\"right\""),
    }
}
