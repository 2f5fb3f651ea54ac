//! The lines of a paragraph's text, which a LF parts.
ghost use Rattle.std.specs.Prelude.{◌≡◌, ◌==◌, ◌∷◌, chars};
ghost use Rattle.doc_lines.specs.RestSteps.{rest_of, IsCutBefore};
ghost use Rattle.doc_blocks_starts.specs.Tables.{lines_in};
ghost use Rattle.doc_tables.specs.LineSteps.{last_line};
ghost use Rattle.doc_rules.specs.Tables.{text_lines};

use doc_lines::scan::character::is;
use doc_lines::scan::front::front;
use memchr::{memchr, memrchr};

/// The first line of a text, and the text behind its LF, if it has one.
pub fn first_line(text: &str) -> (&str, Option<&str>)
    ensures { text_lines (chars text.now) ≡ chars result.0.now ∷ lines_in (rest_of result.1) }
{
    let end = line_end(text);
    (front(text, end), is(end, '\n'))
}

/// The text from its first LF on, or its end where it has none.
pub(crate) fn line_end(text: &str) -> &str
    ensures { IsCutBefore (λ c. c == 10) (chars text.now) (chars result.now) }
{
    match memchr(b'\n', text.as_bytes()) {
        Some(place) => &text[place..],
        None => "",
    }
}

/// The last line of a text. It takes no time over the lines before.
pub(crate) fn last_line(text: &str) -> &str
    ensures { chars result.now ≡ last_line (chars text.now) }
{
    match memrchr(b'\n', text.as_bytes()) {
        Some(place) => &text[place + 1..],
        None => text,
    }
}
