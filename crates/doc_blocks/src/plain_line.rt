//! Lines that begin no block, told by their first character.
ghost use Rattle.std.specs.Prelude.{◌≡◌, IsTrue};
ghost use Rattle.doc_lines.specs.Cursors.{left_of};
ghost use Rattle.doc_blocks.specs.PlainLines.{begins_marker, BeginsNothing};

use doc_blocks_starts::indentation::marker_text;
use doc_lines::cursor::Cursor;
use doc_lines::scan::character::next_char;

/// Whether a line begins no block, as most lines of paragraphs and of code do: its text stands too far in, or its first character begins no
/// marker. Where the answer is `false`, it may begin one.
pub(crate) fn begins_nothing(line: &Cursor) -> bool
    ensures { IsTrue result → BeginsNothing (left_of line.now) }
{
    let Some(text) = marker_text(line) else {
        return true;
    };
    let Some((first, _)) = next_char(text) else {
        return true;
    };
    !begins_marker(first)
}

fn begins_marker(c: char) -> bool
    ensures { result ≡ begins_marker c }
{
    matches!(
        c,
        '>' | '#' | '`' | '~' | '<' | '=' | '-' | '_' | '*' | '+' | ' ' | '\t'
    ) || c.is_ascii_digit()
}
