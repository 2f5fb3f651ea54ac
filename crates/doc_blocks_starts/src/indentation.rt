//! The indentation of a line (CommonMark 0.31.2, section 2.2).
ghost use Rattle.std.specs.Prelude.{◌≡◌, min, chars, not, nat_le};
ghost use Rattle.doc_rules.specs.Columns.{indent, after_indent, is_blank_line, text_of};
ghost use Rattle.doc_rules.specs.LeafStarts.{marker_text};
ghost use Rattle.doc_lines.specs.Cursors.{left_of};
ghost use Rattle.doc_lines.specs.RestSteps.{rest_of};

use doc_lines::cursor::Cursor;

/// How many columns of indentation a marker may have before it.
const MOST: usize = 3;

/// How many columns of spaces and tabs the line begins with, where `most` is enough to know.
pub fn indent_up_to(line: &Cursor, most: usize) -> usize
    ensures { result ≡ min most (indent (left_of line.now)) }
{
    line.indent_up_to(most)
}

/// Whether no more than spaces and tabs are left of the line (section 2.1).
pub fn is_blank_line(line: &Cursor) -> bool
    ensures { result ≡ is_blank_line (left_of line.now) }
{
    line.is_blank()
}

/// What is left of the line behind its indentation.
pub fn after_indent<'a>(line: &Cursor<'a>) -> &'a str
    ensures { chars result.now ≡ text_of (after_indent (left_of line.now)) }
{
    line.text()
}

/// The same where the indentation has at most 3 columns: so far in may the markers of blocks stand.
#[tactic(auto, unfolding(doc_rules::specs::LeafStarts::marker_text))]
pub fn marker_text<'a>(line: &Cursor<'a>) -> Option<&'a str>
    ensures { rest_of result ≡ marker_text (left_of line.now) }
{
    if is_too_far_in(line) {
        return None;
    }
    Some(after_indent(line))
}

/// Whether the indentation has more columns than that.
pub(crate) fn is_too_far_in(line: &Cursor) -> bool
    ensures { result ≡ not (nat_le (indent (left_of line.now)) 3) }
{
    indent_up_to(line, MOST + 1) > MOST
}
