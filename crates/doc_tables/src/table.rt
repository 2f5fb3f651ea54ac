//! The table in a paragraph's text.
ghost use Rattle.std.specs.Prelude.{◌≡◌, ◌∷◌, None, MatchOption, chars};
ghost use Rattle.std.specs.Option.{is_some};
ghost use Rattle.doc_tables.specs.ColumnSteps.{columns_with};
ghost use Rattle.doc_tables.specs.LineSteps.{last_line, IsTableIn};
ghost use Rattle.doc_rules.specs.Tables.{has_table, table_in, text_lines};

use crate::cells::has_cells;
use crate::columns::{begins_table, delimiter_cells};
use crate::lines::{last_line, line_end};
use doc_lines::scan::character::is;
use doc_lines::scan::front::front;

/// The lines of a table, as slices of the text that it stands in. Their cells are still to be read.
#[derive(Clone, Copy, Debug)]
pub struct TableText<'a> {
    /// The text before the header, without the LF behind it.
    pub before: &'a str,
    pub header: &'a str,
    /// The delimiter row.
    pub delimiters: &'a str,
    /// The lines behind the delimiter row, if there are any.
    pub rows: Option<&'a str>,
}

/// The first table in a text, if there is one. It goes over each line twice.
pub fn first_table(text: &str) -> Option<TableText<'_>>
    ensures { MatchOption result (table_in (text_lines (chars text.now)) ≡ None)
        (λ found. IsTableIn (chars text.now) found) }
{
    let mut before = text;
    let mut line = text;
    'lines: loop {
        let end = line_end(line);
        let Some(next) = is(end, '\n') else {
            return None;
        };
        let header = front(line, end);
        let row_end = line_end(next);
        let delimiters = front(next, row_end);
        if begins_table(header, delimiters) {
            return Some(TableText {
                before: front(text, before),
                header,
                delimiters,
                rows: is(row_end, '\n'),
            });
        }
        before = end;
        line = next;
    }
}

/// Whether a paragraph of this text has a table in it.
#[tactic(auto, unfolding(doc_rules::specs::Tables::has_table))]
pub fn has_table(text: &str) -> bool
    ensures { result ≡ has_table (chars text.now) }
{
    first_table(text).is_some()
}

/// Whether a table begins with the last line of one text in another text behind it, or later there. That is what more lines change of
/// [`has_table`]. Nothing is read of the first text where the second begins with no delimiter row, and else its last line alone.
pub fn begins_behind(above: &str, text: &str) -> bool
    ensures { result ≡ is_some (table_in (last_line (chars above.now)
        ∷ text_lines (chars text.now))) }
{
    let end = line_end(text);
    if begins_below(above, front(text, end)) {
        return true;
    }
    match is(end, '\n') {
        Some(_) => has_table(text),
        None => false,
    }
}

/// Whether the last line of a text and this line behind it begin a table.
fn begins_below(above: &str, line: &str) -> bool
    ensures { result ≡ is_some (columns_with (last_line (chars above.now)) (chars line.now)) }
{
    match delimiter_cells(line) {
        Some(count) => has_cells(last_line(above), count),
        None => false,
    }
}
