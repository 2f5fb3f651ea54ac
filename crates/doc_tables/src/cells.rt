//! The cells of a line.
ghost use Rattle.std.specs.Prelude.{◌≡◌, ◌==◌, ◌∷◌, [], MatchOption, IfSome, chars, length, codes};
ghost use Rattle.doc_lines.specs.RestSteps.{rest_of};
ghost use Rattle.doc_tables.specs.CellSteps.{cell_text, cells_left, has_escaped_pipe, is_blank_end, part_text};
ghost use Rattle.doc_rules.specs.Tables.{cells_of_line};

use crate::parts::{first_part, is_blank, without_pipe};
use doc_blocks_starts::strip::strip_spaces;
use doc_lines::scan::word::through;

/// A cell.
#[derive(Clone, Copy, Debug)]
pub struct Cell<'a> {
    /// The cell as it stands in its line, without spaces and tabs at its ends.
    pub source: &'a str,
    /// Whether a `|` behind a backslash stands in it. Each such backslash goes before the cell is read.
    pub is_escaped: bool,
}

/// The cells of a line from one of them on.
#[derive(Clone, Copy, Debug)]
pub struct Cells<'a> {
    /// The line behind the `|` that stands before the cell, if there may be one.
    rest: Option<&'a str>,
}

impl<'a> Cells<'a> {
    /// All cells of a line, which has lost the spaces and tabs at its front.
    #[tactic(auto, unfolding(doc_rules::specs::Tables::cells_of_line))]
    pub fn of(line: &'a str) -> Cells<'a>
        ensures { cells_left result ≡ cells_of_line (chars line.now) }
    {
        Cells {
            rest: Some(without_pipe(line)),
        }
    }
}

/// The first cell, and those behind it.
pub fn next_cell(cells: Cells) -> Option<(Cell, Cells)>
    ensures value { MatchOption result (cells_left cells.entry ≡ [])
        (λ found. cells_left cells.entry ≡ cell_text found.0 ∷ cells_left found.1) }
    ensures escape { IfSome result (λ found.
        found.0.is_escaped ≡ has_escaped_pipe (chars found.0.source.now)) }
{
    let text = cells.rest?;
    let (part, rest) = first_part(text);
    if is_blank_end(part, rest) {
        return None;
    }
    Some((cell_of(part), Cells { rest }))
}

/// Whether a part is the last of its line and blank.
fn is_blank_end(part: &str, rest: Option<&str>) -> bool
    ensures { result ≡ is_blank_end (chars part.now) (rest_of rest.entry) }
{
    match rest {
        Some(_) => false,
        None => is_blank(part),
    }
}

/// The cell that a part is.
fn cell_of(part: &str) -> Cell
    ensures value { cell_text result ≡ part_text (chars part.now) }
    ensures escape { result.is_escaped ≡ has_escaped_pipe (chars result.source.now) }
{
    let source = strip_spaces(part);
    Cell {
        source,
        is_escaped: has_escaped_pipe(source),
    }
}

fn has_escaped_pipe(text: &str) -> bool
    ensures { result ≡ has_escaped_pipe (chars text.now) }
{
    through(text, b"\\|").is_some()
}

/// Whether a line has so many cells.
pub fn has_cells(line: &str, count: usize) -> bool
    ensures { result ≡ (length (cells_of_line (chars line.now)) == count) }
{
    let mut left = count;
    let mut cells = Cells::of(line);
    'cells: while let Some((_, rest)) = next_cell(cells) {
        if left == 0 {
            return false;
        }
        left -= 1;
        cells = rest;
    }
    left == 0
}
