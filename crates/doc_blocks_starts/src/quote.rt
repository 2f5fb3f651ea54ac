//! Starts of block quotes (CommonMark 0.31.2, section 5.1).
ghost use Rattle.std.specs.Prelude.{◌≡◌, false};
ghost use Rattle.doc_rules.specs.ContainerStarts.{quote_start};
ghost use Rattle.doc_rules.specs.LeafStarts as rules;
ghost use Rattle.doc_lines.specs.Cursors.{left_of};
ghost use Rattle.doc_blocks_starts.specs.Lines.{inside_of, is_quoted};

use crate::indentation::marker_text;
use doc_lines::cursor::Cursor;
use doc_lines::scan::character::is;

/// Takes the marker of a block quote off a line, and with it one column of a space or a tab behind its `>`. Answers whether one stands
/// there; where none does, the line stays.
pub fn take_quote(line: &mut Cursor) -> bool
    ensures inside { inside_of result line.new ≡ quote_start (left_of line.old) }
    ensures stays { result ≡ false → line.new ≡ line.old }
{
    if !is_quoted(line) {
        return false;
    }
    line.pass_indent();
    let _ = line.next();
    let _ = line.skip(1);
    true
}

/// Whether the marker of a block quote stands there.
fn is_quoted(line: &Cursor) -> bool
    ensures { result ≡ is_quoted (rules.marker_text (left_of line.now)) }
{
    match marker_text(line) {
        Some(text) => is(text, '>').is_some(),
        None => false,
    }
}
